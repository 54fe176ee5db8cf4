//! Profiles: drafts that are valid, read from bytes and written.

ghost use Rattle.std.specs.Prelude.{◌≡◌, ◌≢◌, Some, IfOk, IfErr, MatchResult, OnOk};
ghost use Rattle.std.specs.Bool.{OnTrue, OnFalse};
ghost use Rattle.pprof_profile.specs.declared.faults.ProfileFault.{ProfileFault};
ghost use Rattle.pprof_profile.specs.Valid.{IsValidDraft, KeepsFirstRules, validity_fault};
ghost use Rattle.pprof_profile.specs.Canonical.{canonical_bytes_of, FitsDraft};
ghost use Rattle.pprof_profile.specs.Profiles.{BeginsAsGzip, IsDecoded, IsProfile, IsProfileFault};

use crate::faults::{ProfileFault, Refused};
use crate::messages::Draft;
use crate::reading::read_message;
use crate::validity::validate;
use crate::writing::Written;
use pprof_wire::NoMemory;
use std::alloc::Global;
use std::marker::Model;

/// A draft that is valid. A contract sees the draft.
#[derive(Debug, Drop)]
pub struct Profile {
    draft: Draft,
}

impl Model for Profile {
    ghost use Rattle.pprof_profile.specs.declared.messages.Draft.{Draft};

    ghost Value = { Draft };

    ghost use Rattle.pprof_profile.specs.Valid.{IsValidDraft};

    ghost view = { λ p. p.draft };

    ghost invariant = { λ p. IsValidDraft p.draft };
}

impl Profile {
    /// The draft.
    pub fn draft(&self) -> &Draft
        ensures draft { result.now ≡ self.now }
        ensures valid { IsValidDraft self.now }
    {
        &self.draft
    }

    /// The draft. Takes no memory.
    pub fn into_draft(self) -> Draft
        ensures draft { result ≡ self }
        ensures valid { IsValidDraft self }
    {
        self.draft
    }
}

/// The profile that the draft is, if it is valid. Else the draft comes back, with the first rule that it breaks.
///
/// # Errors
///
/// `NoStrings`, `FirstString`, `StringIndex`, `ZeroId`, `DoubleId`, `NoLocation`, `NoMapping`, `NoFunction` and
/// `ValueCount`, each asked of the whole draft before the next; `NoMemory`, where none of the first four is the fault.
pub fn check(alloc: Global, draft: Draft) -> Result<Profile, Refused<Draft>>
    ensures valid { IfOk result (λ profile. (profile ≡ draft) × IsValidDraft draft) }
    ensures back { IfErr result (λ refused. refused.back ≡ draft) }
    ensures fault { IfErr result (λ refused. refused.fault ≢ ProfileFault.NoMemory
        → validity_fault draft ≡ Some refused.fault) }
    ensures memory { IfErr result (λ refused. refused.fault ≡ ProfileFault.NoMemory → KeepsFirstRules draft) }
{
    match validate(alloc, &draft) {
        Ok(()) => Ok(Profile { draft }),
        Err(fault) => Err(Refused { fault, back: draft }),
    }
}

/// The profile that the bytes spell, with no gzip around it.
///
/// # Errors
///
/// `Gzip` where the bytes begin as those of gzip. Else the first fault in reading order, `Wire` or `NotUtf8`: a nested
/// message is read where it stands. Else what [`check`] answers. `NoMemory` may come in place of any of them, as
/// where all samples together have 2^32 location ids, values or labels.
pub fn decode(alloc: Global, bytes: &[u8]) -> Result<Profile, ProfileFault>
    ensures { IsDecoded bytes.now result }
{
    read_profile(alloc, bytes)
}

/// The canonical bytes of the profile: fields by rising number, varints as short as can be, packed numbers. A single
/// number that is 0 and an empty field of packed numbers are left out, and so is `period_type` where it is empty. They
/// spell the profile, whose numbers, texts and lengths fit (see [`laws`](crate::laws)).
pub fn encode(alloc: Global, profile: &Profile) -> Result<Vec<u8>, NoMemory>
    ensures canonical { IfOk result (λ bytes. bytes.items ≡ canonical_bytes_of profile.now) }
    ensures spelled { IfOk result (λ bytes. IsProfile bytes.items profile.now) }
    ensures fits { OnOk result (FitsDraft profile.now) }
{
    let mut bytes = Vec::new(alloc);
    let mut spare = Vec::new(alloc);
    profile.draft().write(alloc, &mut bytes, &mut spare)?;
    Ok(bytes)
}

/// What [`decode`] answers.
fn read_profile(alloc: Global, bytes: &[u8]) -> Result<Profile, ProfileFault>
    ensures { MatchResult result (IsProfile bytes.now)
        (λ fault. fault ≢ ProfileFault.NoMemory → IsProfileFault bytes.now fault) }
{
    if begins_as_gzip(bytes) {
        return Err(ProfileFault::Gzip);
    }
    let draft: Draft = read_message(alloc, bytes)?;
    validate(alloc, &draft)?;
    Ok(Profile { draft })
}

/// The bytes begin as those of gzip.
fn begins_as_gzip(bytes: &[u8]) -> bool
    ensures yes { OnTrue result (BeginsAsGzip bytes.now) }
    ensures no { OnFalse result (¬ BeginsAsGzip bytes.now) }
{
    matches!(bytes, [0x1f, 0x8b, ..])
}
