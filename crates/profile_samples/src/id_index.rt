//! Where ids stand among the ids of items.

ghost use Rattle.std.specs.Prelude.{ℕ, ◌≡◌, ◌≢◌, ◌<◌, ◌-◌, ◌^◌, ◌==◌, IfOk, MatchOption, OnOk, Some, cond, slice_get};
ghost use Rattle.std.specs.HashMap as hash;
ghost use Rattle.profile_samples.specs.IdIndex.{index_found};

use basics::NoMemory;
use pprof_profile::{IdRange, NearTable};
use profile_rows::Hashing;
use std::alloc::Global;
use std::collections::HashMap;
use std::marker::Model;
use std::snapshot::Snapshot;

/// Where each id stands among the ids of items. A contract sees the ids.
#[derive(Drop)]
pub(crate) struct IdIndex {
    ids: Snapshot<Vec<u64>>,
    /// One more than the index of each id near others, or 0 where it has none here.
    near: NearTable<usize>,
    /// The indices of other ids.
    far: HashMap<u64, usize, Hashing>,
}

impl Model for IdIndex {
    ghost use Rattle.std.specs.Prelude.{List, ℕ, ◌==◌};
    ghost use Rattle.std.specs.HashMap as hash;
    ghost use Rattle.profile_samples.specs.IdIndex.{AreIdIndices, index_found};

    ghost Value = { List ℕ };

    ghost view = { λ indices. indices.ids.value.items };

    ghost invariant = { λ indices. AreIdIndices indices.ids.value.items
        (index_found indices.near (hash.get ◌==◌ indices.far)) };
}

impl IdIndex {
    /// The indices of these ids, and `hashing` says how they are hashed.
    pub fn new(alloc: Global, hashing: Hashing, ids: Vec<u64>) -> Result<IdIndex, NoMemory>
        ensures { IfOk result (λ indices. indices ≡ ids.items) }
    {
        let range = ids
            .iter()
            .fold(IdRange::empty(), |range, id| range.with(*id));
        let mut near = NearTable::new(alloc, range, ids.len(), 0)?;
        let mut far = HashMap::with_hasher(alloc, hashing);
        for (at, id) in ids.iter().enumerate() {
            put(&mut near, &mut far, *id, at)?;
        }
        Ok(IdIndex {
            ids: Snapshot::of(&ids),
            near,
            far,
        })
    }

    /// An index at which the id stands.
    #[inline(always)]
    pub fn find(&self, id: u64) -> Option<usize>
        ensures { MatchOption result ((at : ℕ) → slice_get self.now at ≢ Some id)
            (λ at. slice_get self.now at ≡ Some id) }
    {
        match self.near.get(id) {
            Some(after) if after > 0 => Some(after - 1),
            _ => self.far.get(&id).copied(),
        }
    }
}

/// Gives an id its index, in the table where that has a place for it.
fn put(
    near: &mut NearTable<usize>,
    far: &mut HashMap<u64, usize, Hashing>,
    id: u64,
    index: usize,
) -> Result<(), NoMemory>
    requires { index < 2 ^ 64 - 1 }
    ensures { OnOk result ((other : ℕ) → index_found near.new (hash.get ◌==◌ far.new) other
        ≡ cond (id == other) (Some index) (index_found near.old (hash.get ◌==◌ far.old) other)) }
{
    if !near.set(id, index + 1) {
        far.insert(id, index)?;
    }
    Ok(())
}
