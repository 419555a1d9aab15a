ghost use Rattle.std.specs.Prelude.{◌≡◌};
ghost use Rattle.linx_base.specs.Both.{still};
ghost use Rattle.linx_base.specs.Numbers.{first_session};
ghost use Rattle.trunk_record.specs.Changes.{new_side};
ghost use Rattle.trunk.specs.Notes.{noted};
ghost use Rattle.trunk.specs.Publishing.{newest_noted, newest_unpublished};

use crate::note::Note;
use std::marker::Model;
use told_list::ToldList;

/// What a side of a trunk said and was given, session by session, with a way back, as the notes
/// that were taken, oldest first. Contracts alone read it, as it was when the event began, and as it
/// is now; but one number of it takes no memory.
#[derive(Drop)]
pub struct History {
    notes: ToldList<Note>,
    /// The greatest number of an incarnation that was unpublished in the present session.
    newest: u64,
    old_newest: u64,
}

impl Model for History {
    ghost use Rattle.linx_base.specs.Both.{Both};
    ghost use Rattle.std.specs.Prelude.{◌≡◌};
    ghost use Rattle.trunk_record.specs.Records.{SideRecord};
    ghost use Rattle.trunk.specs.Notes.{record_of};
    ghost use Rattle.trunk.specs.Publishing.{newest_unpublished};

    ghost Value = { Both SideRecord };

    ghost view = { λ h. record { was = record_of h.notes.was; is = record_of h.notes.is } };

    ghost invariant = { λ h.
        (h.old_newest ≡ newest_unpublished (record_of h.notes.was).now.said)
        × (h.newest ≡ newest_unpublished (record_of h.notes.is).now.said) };
}

/// The greatest number of an incarnation that was unpublished, once this is noted too.
fn newest_with(newest: u64, note: &Note) -> u64
    ensures { result ≡ newest_noted newest note.now }
{
    match note {
        Note::Began(_) => 0,
        Note::Unpublished(inc) => newest.max(inc.0),
        _ => newest,
    }
}

impl History {
    /// The first session of boot 1, in which nothing was said.
    pub fn new() -> History
        ensures { result ≡ still (new_side (first_session 1)) }
    {
        History {
            notes: ToldList::new(),
            newest: 0,
            old_newest: 0,
        }
    }

    /// One more note is taken.
    pub fn note(&mut self, note: Note)
        ensures is { self.new.is ≡ noted self.old.is note }
        ensures was { self.new.was ≡ self.old.was }
    {
        self.newest = newest_with(self.newest, &note);
        self.notes.push(note);
    }

    /// The greatest number of an incarnation that was unpublished in the present session, 0 where
    /// none was.
    pub fn newest_unpublished(&self) -> u64
        ensures { result ≡ newest_unpublished self.now.is.now.said }
    {
        self.newest
    }

    /// What is now stays.
    pub fn keep(&mut self)
        ensures { self.new ≡ still self.old.is }
    {
        self.notes.keep();
        self.old_newest = self.newest;
    }

    /// What was is again.
    pub fn undo(&mut self)
        ensures { self.new ≡ still self.old.was }
    {
        self.notes.undo();
        self.newest = self.old_newest;
    }
}
