//! What follows from the functions of an end alone. These functions do nothing; their contracts are
//! the laws.

ghost use Rattle.ethcm_end.specs.Answers.{InputAnswersExactly};
ghost use Rattle.ethcm_end.specs.Laws.{EndLaws};
ghost use Rattle.ethcm_end.specs.Rows.{InputFollowsRules, OfferFollowsRules, TickFollowsRules};

/// What a packet makes of an end is what its rule says, in a table with one row a rule.
pub fn input_follows_rules()
    ensures { InputFollowsRules }
{}

/// An end goes up or down by a packet, or hands up a message, exactly where the packet's rule says.
pub fn input_answers_exactly()
    ensures { InputAnswersExactly }
{}

/// What a tick makes of an end is what its rule says.
pub fn tick_follows_rules()
    ensures { TickFollowsRules }
{}

/// What an offered message makes of an end is what its rule says. A restart makes a new end, with
/// the same sizes (`restart_of`).
pub fn offer_follows_rules()
    ensures { OfferFollowsRules }
{}

/// The session of an end never falls, and rises exactly where the end goes down or its node boots
/// again; going up or down, all begins anew; it is confirmed by its peer alone. Its window moves by
/// acknowledgements and offers alone, and else begins anew. What it sends names its session and its
/// peer's, and a piece is the frame of its number. Each frame that it takes is the one of the
/// expected number.
pub fn ends_keep_laws()
    ensures { EndLaws }
{}
