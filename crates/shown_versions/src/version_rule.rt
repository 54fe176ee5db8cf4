//! The rule of what is shown, and what its steps tell.

use crate::known::KnownVersion;
use crate::version::Version;
use atomic_table::{Join, Split};
use crossbeam_utils::rule::{Outcome, Protocol};
use left_right::Absorb;
use std::alloc::AllocError;

/// The writer's operation is a version, which takes the place of the one before.
impl Absorb<Version> for Version {
    type State = KnownVersion;

    ghost state = { λ version. version };

    ghost applied = { λ known version. version };

    fn absorb_first(&mut self, operation: &Version, _other: &Version) -> Result<(), AllocError> {
        *self = operation.share()?;
        Ok(())
    }

    fn absorb_second(&mut self, operation: Version, _other: &Version) -> Result<(), Version> {
        *self = operation;
        Ok(())
    }
}

/// What a reader or the writer knows: a version that was shown, or none yet. Contracts speak of it; no value of it is
/// made.
pub struct View {
    pub known: Option<KnownVersion>,
}

/// The rule of what is shown: whoever knows of a version knows a prefix of the list of the one that is shown.
pub struct Published;

impl Protocol<Version, View> for Published {
    ghost use Rattle.shown_versions.specs.Views.{Keeps, newcomer};

    ghost holds = { Keeps };

    ghost first = { newcomer };
}

/// What a reader that enters learns, and the writer that publishes: the version that is shown then.
pub struct Sees;

impl Outcome<Version, View> for Sees {
    ghost use Rattle.shown_versions.specs.Views.{Shows};

    ghost then = { Shows };
}

/// What the writer tells a new reader: all that it knows itself.
pub struct Notes;

impl Split<View> for Notes {
    ghost left = { λ view. view };

    ghost right = { λ view. view };
}

impl Join<View> for Notes {
    ghost use Rattle.shown_versions.specs.Views.{newcomer};

    ghost both = { λ view note. note };

    ghost spent = { newcomer };
}
