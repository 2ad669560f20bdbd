//! Faults, and the refusals that carry them.
ghost use Rattle.std.specs.Prelude.{◌≡◌, Decides, nat_eq};
ghost use Rattle.std.specs.Ordering.{on};
ghost use Rattle.cells.specs.Held.{kind_of};
ghost use Rattle.cells.specs.declared.kinds.Kind.{Kind};
ghost use Rattle.cells.specs.Numbered.{number};
ghost use Rattle.cells.specs.declared.faults.Cause.{Cause};
ghost use Rattle.cells.specs.declared.faults.Refusal.TheVariants.{Memory};

use crate::kinds::Kind;
use std::alloc::{AllocError, AllocFailed};

// What a call is refused for. Each cause has its number.
#[derive(Clone, Copy, PartialEq, Eq, Debug)]
pub enum Cause {
    // a sign that the grammar lacks there
    Grammar = 1,
    // more than eight brackets and nots open
    Depth = 2,
    // a text, word or number that is too large, or no text, word or number at all
    Size = 3,
    // too many or too few
    Limit = 4,
    // a name that is used already
    Repeated = 5,
    // no column of that name
    UnknownColumn = 6,
    // cells or columns of unlike kinds
    UnlikeKinds = 7,
    // dependencies without tree form
    NoTreeForm = 8,
    // a room outside its limits
    Room = 9,
    // no table of that name, or one that is named twice
    UnknownTable = 10,
    // a part of a condition below reads an output
    ReadsOutput = 11,
    // a column to drop that is in no right set, or in a left set
    WrongSets = 12,
    // a part that reads a dropped column and another, or does not admit the default
    PartOrDefault = 13,
    // no shared columns, of unlike kinds, or not determining the right table's columns
    SharedColumns = 14,
    // united dependencies without tree form
    JoinedForm = 15,
    // a row of another width, or a cell of another kind or that is none
    Shape = 17,
    // a row that is not above the one before
    Order = 18,
    // a row that a condition does not admit
    NotAdmitted = 19,
    // a row that breaks a dependency with an earlier one
    Dependency = 20,
    // more rows than a store's room
    OutOfRoom = 21,
    // fewer slots than rows
    FewSlots = 22,
    // a bad number in a bank, or bytes too few or left over
    BadBytes = 23,
    // a bank of another edition, or of other columns
    OtherFormat = 24,
    // fewer bytes than the bank takes
    FewBytes = 26,
}

impl Cause {
    // The number of the cause. No other cause has it.
    pub fn number(self) -> u8
        ensures value { result ≡ number self }
        ensures apart { (other : Cause) → number other ≡ result → other ≡ self }
    {
        self as u8
    }
}

// Two causes are equal exactly when they are one, or have one number, and two kinds when they stand for one.
pub fn equality_stands()
    ensures causes { (a b : Cause) → Decides (⟦<Cause as PartialEq>⟧.eq a b) (a ≡ b) }
    ensures numbers { (a b : Cause) → ⟦<Cause as PartialEq>⟧.eq a b ≡ on number nat_eq a b }
    ensures kinds { (a b : Kind) → Decides (⟦<Kind as PartialEq>⟧.eq a b) (kind_of a ≡ kind_of b) }
{}

// A cause, the kind of the table that it was met in, and a place.
#[derive(Clone, Copy, PartialEq, Eq, Debug)]
pub struct Fault {
    pub cause: Cause,
    // a number, since kinds of tables are open: an enum of those of today would ask more of callers
    pub kind: u8,
    pub place: usize,
}

// A call is refused with a fault, or for want of memory.
#[derive(Clone, Copy, PartialEq, Eq, Debug)]
pub enum Refusal {
    Fault(Fault),
    Memory,
}

impl From<AllocError> for Refusal {
    ghost from_gives = { λ _ r. r ≡ Memory };

    fn from(_e: AllocError) -> Refusal {
        Refusal::Memory
    }
}

impl<T: Drop> From<AllocFailed<T>> for Refusal {
    ghost from_gives = { λ _ r. r ≡ Memory };

    fn from(_e: AllocFailed<T>) -> Refusal {
        Refusal::Memory
    }
}

impl Refusal {
    // The refusal for a cause that has no kind and no place.
    pub fn of(cause: Cause) -> Refusal
        ensures { result ≡ Refusal.Fault (record { cause = cause; kind = 0; place = 0 }) }
    {
        refused(cause, 0, 0)
    }
}

pub fn refused(cause: Cause, kind: u8, place: usize) -> Refusal
    ensures { result ≡ Refusal.Fault (record { cause = cause; kind = kind; place = place }) }
{
    Refusal::Fault(Fault { cause, kind, place })
}
