//! The ids of mappings, locations and functions: none is 0, none stands twice, and which are known.

ghost use Rattle.std.specs.Prelude.{◌≡◌, ◌≢◌, ◌||◌, ◌==◌, ℕ, IfErr, IfOk, OnOk, false, map, nat_eq, not, true};
ghost use Rattle.std.specs.List.{list_any};
ghost use Rattle.pprof_profile.specs.KnownIds.{knows};
ghost use Rattle.pprof_profile.specs.Valid.{is_known, has_double, no_zero_id};

use crate::faults::ProfileFault;
use crate::messages::{Draft, Function, Location, Mapping};
use crate::near_table::{IdRange, NearTable};
use std::alloc::{AllocError, Global};
use std::collections::BTreeSet;

/// What others name by its id.
pub(crate) trait HasId {
    ghost id_of: { Self → ℕ };

    fn id(&self) -> u64
        ensures { result ≡ id_of self.now };
}

impl HasId for Mapping {
    ghost id_of = { λ item. item.id };

    fn id(&self) -> u64 {
        self.id
    }
}

impl HasId for Location {
    ghost id_of = { λ item. item.id };

    fn id(&self) -> u64 {
        self.id
    }
}

impl HasId for Function {
    ghost id_of = { λ item. item.id };

    fn id(&self) -> u64 {
        self.id
    }
}

/// A mapping, a location or a function has the id 0.
pub(crate) fn has_zero_id(draft: &Draft) -> bool
    ensures { result ≡ not (no_zero_id draft.now) }
{
    names_zero(draft.mappings.as_slice())
        || names_zero(draft.locations.as_slice())
        || names_zero(draft.functions.as_slice())
}

fn names_zero<T: HasId>(items: &[T]) -> bool
    ensures { result ≡ list_any (λ item. T.id_of item == 0) items.now }
{
    items.iter().any(|item| item.id() == 0)
}

/// The range of the items' ids.
fn range_of<T: HasId>(items: &[T]) -> IdRange {
    let mut range = IdRange::empty();
    for item in items {
        range = range.with(item.id());
    }
    range
}

/// Ids, by a table where they lie close together.
#[derive(Drop)]
pub(crate) struct KnownIds {
    /// Which numbers near one another are ids.
    near: NearTable<bool>,
    /// The other ids.
    far: BTreeSet<u64>,
}

impl KnownIds {
    /// No ids yet, with a table for those of the range.
    fn new(alloc: Global, range: IdRange, count: usize) -> Result<KnownIds, AllocError>
        ensures { IfOk result (λ ids. (id : ℕ) → knows ids id ≡ false) }
    {
        Ok(KnownIds {
            near: NearTable::new(alloc, range, count, false)?,
            far: BTreeSet::new(alloc),
        })
    }

    /// The id is one of these.
    pub(crate) fn contains(&self, id: u64) -> bool
        ensures { result ≡ knows self.now id }
    {
        self.near.get(id).unwrap_or(false) || self.far.contains(&id)
    }

    /// Adds an id.
    fn add(&mut self, id: u64) -> Result<(), AllocError>
        ensures { OnOk result ((other : ℕ) → knows self.new other ≡ (nat_eq other id || knows self.old other)) }
    {
        if !self.near.set(id, true) {
            self.far.insert(id)?;
        }
        Ok(())
    }
}

/// The ids of the items, which are to differ.
pub(crate) fn unique_ids<T: HasId>(alloc: Global, items: &[T]) -> Result<KnownIds, ProfileFault>
    ensures known { IfOk result (λ ids. knows ids ≡ is_known (map T.id_of items.now)) }
    ensures single { OnOk result (has_double (map T.id_of items.now) ≡ false) }
    ensures double { IfErr result (λ fault. fault ≢ ProfileFault.NoMemory
        → (fault ≡ ProfileFault.DoubleId) × (has_double (map T.id_of items.now) ≡ true)) }
{
    let mut ids = KnownIds::new(alloc, range_of(items), items.len())?;
    for item in items {
        let id = item.id();
        if ids.contains(id) {
            return Err(ProfileFault::DoubleId);
        }
        ids.add(id)?;
    }
    Ok(ids)
}
