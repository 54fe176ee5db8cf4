//! Rows of one value, in order, whose total keeps the limit.

ghost use Rattle.std.specs.Prelude.{◌≡◌, ◌≤◌, ◌+◌, ◌^◌, ◌<◌, ◌++◌, ◌∷◌, [], length, IfErr, IfOk, OnErr, OnOk};
ghost use Rattle.std.specs.Option.{option_copied};
ghost use Rattle.profile_rows.specs.Rows.{kept_rows, total_of};
ghost use Rattle.profile_rows.specs.Pushing.{IsWeightFault};
ghost use Rattle.profile_rows.specs.Merging.{with_added_at};

use crate::keeping::keeps;
use crate::name::Name;
use crate::stack::Stack;
use basics::NoMemory;
use std::alloc::Global;
use std::marker::Model;
use thiserror::Error;

/// The greatest total of a value.
pub const MAX_TOTAL: u64 = 9_223_372_036_854_775_807;

/// A row of one value: a stack and its weight.
#[derive(Clone, Debug, Drop, PartialEq, Eq)]
pub struct WeightedStack {
    pub stack: Stack,
    pub weight: u64,
}

/// Why a row is refused. The first cause in this order is told.
#[derive(Clone, Copy, Debug, PartialEq, Eq, Error)]
pub enum PushFault {
    /// The row's number of values isn't the batch's width, `held`.
    #[error("Q3 Width held {held}")]
    Width { held: u32 },
    /// The total of the value of this number, `held`, and the row's pass [`MAX_TOTAL`] together; no lower value does.
    #[error("Q1 Heavy value {value} held {held}")]
    Heavy { value: u32, held: u64 },
    /// Memory ran out.
    #[error("Q2 NoMemory")]
    NoMemory,
}

/// A fault, and the value that was refused. As an error it prints the fault alone.
#[derive(Debug, Drop, Error)]
#[error("{fault}")]
pub struct Refused<T> {
    pub fault: PushFault,
    pub back: T,
}

impl<T: Drop> From<Refused<T>> for PushFault {
    ghost use Rattle.std.specs.Prelude.{◌≡◌};

    ghost from_gives = { λ refused given. given ≡ refused.fault };

    fn from(refused: Refused<T>) -> PushFault {
        refused.fault
    }
}

/// Rows in order, whose weights are at most [`MAX_TOTAL`] together.
#[derive(Debug, Drop)]
pub struct WeightedStacks {
    rows: Vec<WeightedStack>,
    total: u64,
}

impl Model for WeightedStacks {
    ghost use Rattle.std.specs.Prelude.{List, ◌≡◌, ◌<◌, ◌^◌};
    ghost use Rattle.profile_rows.specs.Rows.{total_of};
    ghost use Rattle.profile_rows.specs.declared.weighted_stacks.WeightedStack.{WeightedStack};

    ghost Value = { List WeightedStack };

    ghost view = { λ b. b.rows.items };

    ghost invariant = { λ b. (b.total ≡ total_of b.rows.items) × (total_of b.rows.items < 2 ^ 63) };
}

impl WeightedStacks {
    /// No rows. It keeps the allocator, and takes no memory yet.
    pub fn new(alloc: Global) -> WeightedStacks
        ensures { result ≡ [] }
    {
        let rows = Vec::new(alloc);
        WeightedStacks { rows, total: 0 }
    }

    /// No rows, with room for so many.
    ///
    /// # Errors
    ///
    /// `NoMemory`.
    pub fn with_capacity(alloc: Global, rows: usize) -> Result<WeightedStacks, NoMemory>
        ensures { IfOk result (λ stacks. stacks ≡ []) }
    {
        let rows = Vec::with_capacity(alloc, rows)?;
        Ok(WeightedStacks { rows, total: 0 })
    }

    /// The same rows, with a second owner of each name.
    ///
    /// # Errors
    ///
    /// `NoMemory`.
    pub fn share(&self) -> Result<WeightedStacks, NoMemory>
        ensures { IfOk result (λ stacks. stacks ≡ self.now) }
    {
        let (rows, total) = (self.rows.clone()?, self.total);
        Ok(WeightedStacks { rows, total })
    }

    /// The rows, in the order in which they were added.
    pub fn rows(&self) -> &[WeightedStack]
        ensures rows { result.now ≡ self.now }
        ensures fits { total_of self.now < 2 ^ 63 }
    {
        self.rows.as_slice()
    }

    /// The rows as a vector of the caller's own. Takes no memory.
    pub fn into_rows(self) -> Vec<WeightedStack>
        ensures rows { result.items ≡ self }
        ensures fits { total_of self < 2 ^ 63 }
    {
        self.rows
    }

    /// The weights of all rows together. Takes no time per row.
    pub fn total(&self) -> u64
        ensures total { result ≡ total_of self.now }
        ensures fits { total_of self.now < 2 ^ 63 }
    {
        self.total
    }

    /// Adds a row at the end.
    ///
    /// # Errors
    ///
    /// `Heavy` exactly where the total would pass [`MAX_TOTAL`], with the total; `NoMemory`. The rows are then as they
    /// were, and the stack is handed back.
    pub fn push(&mut self, stack: Stack, weight: u64) -> Result<(), Refused<Stack>>
        ensures pushed { OnOk result (self.new ≡ self.old ++ (record { stack = stack; weight = weight }) ∷ []) }
        ensures fits { OnOk result (total_of self.old + weight < 2 ^ 63) }
        ensures unchanged { OnErr result (self.new ≡ self.old) }
        ensures back { IfErr result (λ refused. refused.back ≡ stack) }
        ensures heavy { IfErr result (λ refused. IsWeightFault self.old weight refused.fault) }
    {
        let held = self.total;
        if weight > MAX_TOTAL - held {
            let fault = PushFault::Heavy { value: 0, held };
            return Err(Refused { fault, back: stack });
        }
        match self.rows.push(WeightedStack { stack, weight }) {
            Ok(()) => {
                self.total += weight;
                Ok(())
            }
            Err(failed) => {
                let fault = PushFault::NoMemory;
                let back = failed.value.stack;
                Err(Refused { fault, back })
            }
        }
    }

    /// Makes a row weigh so much more. Takes no memory.
    ///
    /// # Errors
    ///
    /// `Heavy` exactly where the total would pass [`MAX_TOTAL`], with the total. The rows are then as they were.
    pub fn add_weight(&mut self, at: usize, weight: u64) -> Result<(), PushFault>
        requires { at < length self.old }
        ensures added { OnOk result (self.new ≡ with_added_at self.old at weight) }
        ensures fits { OnOk result (total_of self.old + weight < 2 ^ 63) }
        ensures unchanged { OnErr result (self.new ≡ self.old) }
        ensures heavy { IfErr result
            (λ fault. (fault ≡ PushFault.Heavy 0 (total_of self.old)) × (2 ^ 63 ≤ total_of self.old + weight)) }
    {
        let held = self.total;
        if weight > MAX_TOTAL - held {
            return Err(PushFault::Heavy { value: 0, held });
        }
        let row = &mut self.rows[at];
        row.weight += weight;
        self.total += weight;
        Ok(())
    }

    /// What the rows weigh that have the focus, where there is one, and not the ignored name, where there is one.
    pub fn kept_total(&self, focus: Option<&Name>, ignored: Option<&Name>) -> u64
        ensures { result ≡ total_of (kept_rows (option_copied focus.entry) (option_copied ignored.entry) self.now) }
    {
        let mut total = 0;
        for row in self.rows() {
            if keeps(row, focus, ignored) {
                total += row.weight;
            }
        }
        total
    }

    /// Leaves the rows that have the focus, where there is one, and not the ignored name, where there is one.
    pub fn keep(&mut self, focus: Option<&Name>, ignored: Option<&Name>)
        ensures { self.new ≡ kept_rows (option_copied focus.entry) (option_copied ignored.entry) self.old }
    {
        let total = self.kept_total(focus, ignored);
        self.rows.retain(|row| keeps(row, focus, ignored));
        self.total = total;
    }
}

impl PartialEq for WeightedStacks {
    ghost use Rattle.std.specs.Prelude.{◌≡◌, ◌↔◌, IsTrue};
    ghost use Rattle.std.specs.Cmp.Lexicographic.{pointwise, lists_per};
    ghost use Rattle.std.specs.Cmp.{partial_equiv_from_equiv};
    ghost use Rattle.profile_rows.specs.Equality.{row_eq, row_eq-laws};

    ghost eq = { pointwise row_eq };

    ghost laws = { lists_per (partial_equiv_from_equiv row_eq-laws) };

    /// Whether both have the same rows in the same order.
    fn eq(&self, other: &WeightedStacks) -> bool
        ensures compared { result ≡ pointwise row_eq self.now other.now }
        ensures equal { IsTrue result ↔ (self.now ≡ other.now) }
    {
        self.rows.as_slice() == other.rows.as_slice()
    }
}

impl Eq for WeightedStacks {
    ghost use Rattle.std.specs.Cmp.Lexicographic.{lists_equiv};
    ghost use Rattle.profile_rows.specs.Equality.{row_eq-laws};

    ghost laws = { lists_equiv row_eq-laws };
}
