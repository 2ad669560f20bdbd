//! Why a call ends before it is done.
ghost use Rattle.std.specs.Prelude.{◌≡◌};
ghost use Rattle.session.specs.Stopped.{ended, stopped};
ghost use Rattle.session.specs.declared.stops.Stop.TheVariants.{Answer, Memory};

use cells::Refusal;
use outcomes::Outcome;
use std::alloc::AllocError;

// Another answer is due, or memory is wanting. An enum of its own, since what turns into it says what a call answers.
#[derive(Drop)]
pub enum Stop {
    Answer(Outcome),
    Memory,
}

impl From<Outcome> for Stop {
    ghost from_gives = { λ o s. s ≡ Answer o };

    fn from(outcome: Outcome) -> Stop {
        Stop::Answer(outcome)
    }
}

// A fault that is due is answered.
impl From<Refusal> for Stop {
    ghost from_gives = { λ r s. s ≡ stopped r };

    fn from(refusal: Refusal) -> Stop {
        match refusal {
            Refusal::Fault(fault) => Stop::Answer(Outcome::Refused(fault)),
            Refusal::Memory => Stop::Memory,
        }
    }
}

impl From<AllocError> for Stop {
    ghost from_gives = { λ _ s. s ≡ Memory };

    fn from(_e: AllocError) -> Stop {
        Stop::Memory
    }
}

// What a call answers, done or not.
pub(crate) fn answered(res: Result<Outcome, Stop>) -> Result<Outcome, AllocError>
    ensures { result ≡ ended res }
{
    match res {
        Ok(outcome) | Err(Stop::Answer(outcome)) => Ok(outcome),
        Err(Stop::Memory) => Err(AllocError),
    }
}
