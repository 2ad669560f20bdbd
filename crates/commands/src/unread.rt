//! Why a text is not read.
ghost use Rattle.std.specs.Prelude.{◌≡◌, alloc_error};
ghost use Rattle.commands.specs.declared.unread.Unread.TheVariants.{Memory};

use std::alloc::{AllocError, AllocFailed};

// A text is malformed, or memory ran out before it was read. An enum of its own: a malformed line has no fault to tell.
#[derive(Clone, Copy, PartialEq, Eq, Debug)]
pub enum Unread {
    Malformed,
    Memory(AllocError),
}

impl From<AllocError> for Unread {
    ghost from_gives = { λ e r. r ≡ Memory e };

    fn from(e: AllocError) -> Unread {
        Unread::Memory(e)
    }
}

impl<T: Drop> From<AllocFailed<T>> for Unread {
    ghost from_gives = { λ _ r. r ≡ Memory alloc_error };

    fn from(e: AllocFailed<T>) -> Unread {
        Unread::Memory(AllocError::from(e))
    }
}
