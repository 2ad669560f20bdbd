//! Checks that are refused where they fail.
ghost use Rattle.model.specs.Opening.{unless};
ghost use Rattle.cells.specs.Answering.{Answers};
ghost use Rattle.cells.specs.Numbered.{number};

use cells::{Cause, Refusal};

// A test that does not hold is refused for the cause.
pub(crate) fn ensure(holds: bool, cause: Cause) -> Result<(), Refusal>
    ensures { Answers (unless holds (number cause) 0 0) (λ _. Unit {0}) result }
{
    if holds {
        Ok(())
    } else {
        Err(Refusal::of(cause))
    }
}
