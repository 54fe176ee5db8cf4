//! Samples that are kept as the bytes of a profile, and the profile written around them.

ghost use Rattle.std.specs.Prelude.{◌≡◌, ◌++◌, ◌∷◌, [], List, IfOk, OnErr, OnOk};
ghost use Rattle.pprof_profile.specs.declared.messages.Draft.{Draft};
ghost use Rattle.pprof_profile.specs.declared.messages.Sample.{Sample};
ghost use Rattle.pprof_profile.specs.Canonical.{canonical_bytes_of, sample_bytes, samples_bytes, FitsSample};
ghost use Rattle.pprof_profile.specs.Writing.{FitsEach};
ghost use Rattle.pprof_profile.specs.Profiles.{SpellsDraft, IsProfile};
ghost use Rattle.pprof_profile.specs.Valid.{IsValidDraft};

use crate::encoding::write_around_samples;
use crate::messages::Draft;
use crate::writing::write_packed;
use pprof_wire::{NoMemory, Value, write_field};
use std::alloc::Global;
use std::marker::Model;

/// Samples as they stand in a profile's bytes, so that each can be written when it comes and none is kept as a message.
/// A contract sees the bytes.
#[derive(Drop)]
pub struct WrittenSamples {
    bytes: Vec<u8>,
    content: Vec<u8>,
    packed: Vec<u8>,
}

impl Model for WrittenSamples {
    ghost use Rattle.std.specs.Prelude.{List, ℕ};

    ghost Value = { List ℕ };

    ghost view = { λ w. w.bytes.items };
}

impl WrittenSamples {
    /// No samples yet. Takes no memory.
    pub fn new(alloc: Global) -> WrittenSamples
        ensures { result ≡ samples_bytes [] }
    {
        WrittenSamples {
            bytes: Vec::new(alloc),
            content: Vec::new(alloc),
            packed: Vec::new(alloc),
        }
    }

    /// Adds a sample without labels.
    ///
    /// # Errors
    ///
    /// `NoMemory`; the samples are then as they were.
    pub fn push(&mut self, location_ids: &[u64], values: &[i64]) -> Result<(), NoMemory>
        ensures pushed { (samples : List Sample) → self.old ≡ samples_bytes samples
            → OnOk result (self.new ≡ samples_bytes
            (samples ++ (record { location_ids = location_ids.now; values = values.now; labels = [] }) ∷ [])) }
        ensures fits { OnOk result (FitsEach FitsSample sample_bytes
            ((record { location_ids = location_ids.now; values = values.now; labels = [] }) ∷ [])) }
        ensures kept { OnErr result (self.new ≡ self.old) }
    {
        self.content.clear();
        write_packed(&mut self.content, 1, location_ids, &mut self.packed)?;
        write_packed(&mut self.content, 2, values, &mut self.packed)?;
        write_field(&mut self.bytes, 2, Value::Bytes(self.content.as_slice()))
    }
}

/// The canonical bytes of the draft with these samples for its own: what [`encode`](crate::encode) gives where that is
/// a profile. They spell that draft where the samples are as [`WrittenSamples::push`] says of each, and are a profile
/// where it is valid.
///
/// # Errors
///
/// `NoMemory`.
pub fn encode_around(
    alloc: Global,
    draft: &Draft,
    samples: &WrittenSamples,
) -> Result<Vec<u8>, NoMemory>
    ensures canonical { (items : List Sample) → samples.now ≡ samples_bytes items
        → IfOk result (λ bytes. bytes.items ≡ canonical_bytes_of (record draft.now { samples = items })) }
    ensures spelled { (items : List Sample) → samples.now ≡ samples_bytes items
        → FitsEach FitsSample sample_bytes items
        → IfOk result (λ bytes. SpellsDraft bytes.items (record draft.now { samples = items })) }
    ensures profile { (items : List Sample) → samples.now ≡ samples_bytes items
        → FitsEach FitsSample sample_bytes items
        → IsValidDraft (record draft.now { samples = items })
        → IfOk result (λ bytes. IsProfile bytes.items (record draft.now { samples = items })) }
{
    let mut bytes = Vec::new(alloc);
    write_around_samples(alloc, draft, samples.bytes.as_slice(), &mut bytes)?;
    Ok(bytes)
}
