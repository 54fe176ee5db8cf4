//! A profile read into the rows of a batch.

use profile_store::{
    Batch, BatchFault, Hashing, NoMemory, Profile, ProfileFault, ValueChoice, decode, merge_samples,
};
use std::alloc::{AllocError, Global};
use std::sync::Arc;
use thiserror::Error;

/// Why a profile gives no rows.
#[derive(Clone, Copy, Debug, PartialEq, Eq, Error)]
pub(crate) enum Unread {
    #[error("P1 Gzip, so unpack it first, as by gunzip")]
    Gzip,
    #[error("{0}")]
    Profile(ProfileFault),
    #[error("{0}")]
    Samples(BatchFault),
    #[error("NoMemory")]
    NoMemory,
}

impl From<ProfileFault> for Unread {
    fn from(fault: ProfileFault) -> Unread {
        match fault {
            ProfileFault::NoMemory => Unread::NoMemory,
            ProfileFault::Gzip => Unread::Gzip,
            _ => Unread::Profile(fault),
        }
    }
}

impl From<BatchFault> for Unread {
    fn from(fault: BatchFault) -> Unread {
        match fault {
            BatchFault::NoMemory => Unread::NoMemory,
            _ => Unread::Samples(fault),
        }
    }
}

impl From<AllocError> for Unread {
    fn from(_error: AllocError) -> Unread {
        Unread::NoMemory
    }
}

/// The rows of a profile's samples by the sample type of this name, or by the one that the profile chooses.
pub(crate) fn read_profile(
    alloc: Global,
    hashing: Hashing,
    value: Option<&str>,
    bytes: &[u8],
) -> Result<Arc<Batch>, Unread> {
    let profile = decode(alloc, bytes)?;
    let batch = batch_by(alloc, hashing, value, &profile);
    drop(profile);
    Ok(Arc::new(alloc, batch?).map_err(AllocError::from)?)
}

fn batch_by(
    alloc: Global,
    hashing: Hashing,
    value: Option<&str>,
    profile: &Profile,
) -> Result<Batch, BatchFault> {
    let choice = match value {
        Some(name) => ValueChoice::Named(name),
        None => ValueChoice::Default,
    };
    Ok(Batch::single(alloc, merge_samples(alloc, hashing, profile, choice)?))
}
