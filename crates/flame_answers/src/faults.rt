//! Why an input has no answer.

use folded_text::FoldedFault;
use pprof_profile::ProfileFault;
use profile_rows::NoMemory;
use profile_samples::BatchFault;
use thiserror::Error;

/// Why an input has no rows.
#[derive(Clone, Copy, Debug, PartialEq, Eq, Error)]
pub enum InputFault {
    /// It isn't folded text.
    #[error("{0}")]
    Folded(FoldedFault),
    /// It is no profile.
    #[error("{0}")]
    Profile(ProfileFault),
    /// The profile's samples give no rows.
    #[error("{0}")]
    Batch(BatchFault),
}

/// Why there is no answer.
#[derive(Clone, Copy, Debug, PartialEq, Eq, Error)]
pub enum AnswerFault {
    /// The input is refused.
    #[error("{0}")]
    Input(InputFault),
    /// Memory ran out.
    #[error("NoMemory")]
    NoMemory,
}

impl From<NoMemory> for AnswerFault {
    ghost use Rattle.std.specs.Prelude.{◌≡◌};
    ghost use Rattle.flame_answers.specs.declared.faults.AnswerFault.TheVariants.{NoMemory};

    ghost from_gives = { λ _ fault. fault ≡ NoMemory };

    fn from(_error: NoMemory) -> AnswerFault {
        AnswerFault::NoMemory
    }
}

impl From<FoldedFault> for AnswerFault {
    ghost use Rattle.flame_answers.specs.Inputs.{IsToldOfText};

    ghost from_gives = { IsToldOfText };

    fn from(fault: FoldedFault) -> AnswerFault {
        match fault {
            FoldedFault::NoMemory => AnswerFault::NoMemory,
            _ => AnswerFault::Input(InputFault::Folded(fault)),
        }
    }
}

impl From<ProfileFault> for AnswerFault {
    ghost use Rattle.flame_answers.specs.Inputs.{IsToldOfProfile};

    ghost from_gives = { IsToldOfProfile };

    fn from(fault: ProfileFault) -> AnswerFault {
        match fault {
            ProfileFault::NoMemory => AnswerFault::NoMemory,
            _ => AnswerFault::Input(InputFault::Profile(fault)),
        }
    }
}

impl From<BatchFault> for AnswerFault {
    ghost use Rattle.flame_answers.specs.Inputs.{IsToldOfSamples};

    ghost from_gives = { IsToldOfSamples };

    fn from(fault: BatchFault) -> AnswerFault {
        match fault {
            BatchFault::NoMemory => AnswerFault::NoMemory,
            _ => AnswerFault::Input(InputFault::Batch(fault)),
        }
    }
}
