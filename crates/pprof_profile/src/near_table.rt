//! What is kept for ids that lie close together.

ghost use Rattle.std.specs.Prelude.{◌≡◌, ◌+◌, ◌-◌, ◌*◌, ◌^◌, ◌&&◌, ◌==◌, IfOk, Some, cond, max, min, nat_lt, ℕ};
ghost use Rattle.std.specs.Option.{is_some};
ghost use Rattle.pprof_profile.specs.NearTables.{AreAll, entry_of};

use std::alloc::{AllocError, Global};
use std::marker::Model;

/// The numbers from the lowest of some ids to the highest. No answer depends on how wide a range is.
#[derive(Clone, Copy, Debug, PartialEq, Eq)]
pub struct IdRange {
    /// The lowest id.
    pub lowest: u64,
    /// The highest id.
    pub highest: u64,
}

impl IdRange {
    /// The range of no ids: from the greatest number down to 0.
    pub fn empty() -> IdRange
        ensures { result ≡ record { lowest = 2 ^ 64 - 1; highest = 0 } }
    {
        IdRange {
            lowest: u64::MAX,
            highest: 0,
        }
    }

    /// The range with an id more.
    pub fn with(self, id: u64) -> IdRange
        ensures { result ≡ record { lowest = min self.lowest id; highest = max self.highest id } }
    {
        IdRange {
            lowest: self.lowest.min(id),
            highest: self.highest.max(id),
        }
    }

    /// How long a table over the range of so many ids is: as long as the range where that is at most two numbers for
    /// each id, else 0.
    fn table_len(self, count: usize) -> usize
        ensures { result ≡ cond (nat_lt (self.highest - self.lowest) (2 * count))
            (min (self.highest - self.lowest + 1) (2 ^ 64 - 1)) 0 }
    {
        let steps = self.highest.saturating_sub(self.lowest) as usize;
        if steps / 2 < count {
            steps.saturating_add(1)
        } else {
            0
        }
    }
}

/// A table with an entry for each number from the lowest of some ids to the highest. Most writers give ids that lie
/// close together; then it finds each in one step, in whatever order they stand, and nobody can choose them to make it
/// slow. A contract sees the number that it begins with, and its entries.
#[derive(Drop)]
pub struct NearTable<T> {
    lowest: u64,
    entries: Vec<T>,
}

impl<T> Model for NearTable<T> {
    ghost use Rattle.std.specs.Prelude.{List, ℕ};

    ghost Value = { ℕ × List T };

    ghost view = { λ table. (table.lowest, table.entries.items) };
}

impl<T: Copy> NearTable<T> {
    /// A table over the range of so many ids, all of whose entries are this one. It has none where the range is more
    /// than twice as long as there are ids.
    ///
    /// # Errors
    ///
    /// `AllocError`.
    pub fn new(
        alloc: Global,
        range: IdRange,
        count: usize,
        entry: T,
    ) -> Result<NearTable<T>, AllocError>
        ensures { IfOk result (λ table. ((clone : T) → T.is_clone entry clone → clone ≡ entry) → AreAll entry table) }
    {
        Ok(NearTable {
            lowest: range.lowest,
            entries: vec![in alloc; entry; range.table_len(count)]?,
        })
    }

    /// The entry of an id.
    #[inline(always)]
    pub fn get(&self, id: u64) -> Option<T>
        ensures { result ≡ entry_of self.now id }
    {
        let at = id.checked_sub(self.lowest)?;
        self.entries.get(at as usize).copied()
    }

    /// Changes the entry of an id, and says whether it has one.
    pub fn set(&mut self, id: u64, entry: T) -> bool
        ensures has { result ≡ is_some (entry_of self.old id) }
        ensures entries { (other : ℕ)
            → entry_of self.new other ≡ cond (result && (id == other)) (Some entry) (entry_of self.old other) }
    {
        match id.checked_sub(self.lowest) {
            Some(at) if (at as usize) < self.entries.len() => {
                self.entries[at as usize] = entry;
                true
            }
            _ => false,
        }
    }
}
