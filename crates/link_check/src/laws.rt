//! What follows from the definitions alone. These functions do nothing; their contracts are the laws.

ghost use Rattle.link_check.specs.Judging.{BooksFollow, BooksTellLaws, LegalByLaws};

/// A step is legal exactly where it keeps the laws of nodes and of links, those of packets and of
/// ticks by what their effects tell, and where the effects of its packet or tick are exactly those
/// that they tell.
pub fn steps_are_legal_by_laws()
    ensures { LegalByLaws }
{}

/// A book and the kernels that a legal history leaves tell which laws of links the next step keeps.
pub fn books_tell_laws()
    ensures { BooksTellLaws }
{}

/// A book that passes a legal step is what the longer history leaves.
pub fn books_follow()
    ensures { BooksFollow }
{}
