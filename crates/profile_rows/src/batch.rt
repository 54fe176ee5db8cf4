//! Batches: rows of one to four values, in order, of which the total of each value keeps the limit.
#![tactic(auto, using(crate::proofs::Steps::batch))]

ghost use Rattle.std.specs.Prelude.{ℕ, ◌≡◌, ◌+◌, ◌-◌, ◌*◌, ◌<◌, ◌≤◌, ◌++◌, ◌∷◌, [], drop, length, map, take, IfErr};
ghost use Rattle.std.specs.Prelude.{IfOk, OnErr, OnOk};
ghost use Rattle.profile_rows.specs.Values.{AreTotals, BatchState, HasRoom, IsBatch, row_in, rows_at, single_batch};
ghost use Rattle.profile_rows.specs.Values.{value_of};
ghost use Rattle.profile_rows.specs.OwnedRows.{plain_row};
ghost use Rattle.profile_rows.specs.Pushing.{IsPushFault};

use crate::batch_rows::Rows;
use crate::stack::Stack;
use crate::values::{Weights, Width, first_heavy};
use crate::weighted_stacks::{PushFault, Refused, WeightedStack, WeightedStacks};
use basics::NoMemory;
use std::alloc::Global;
use std::marker::Model;

/// A row of a batch: a stack, which is lent, and its values.
#[derive(Clone, Copy, Debug)]
pub struct Row<'a> {
    pub stack: &'a Stack,
    pub weights: Weights,
}

/// A row of a batch that was taken apart: a stack and its values.
#[derive(Debug, Drop)]
pub struct OwnedRow {
    pub stack: Stack,
    pub weights: Weights,
}

/// Rows in order, which all have the same number of values, the batch's width. The total of each value is at most
/// [`MAX_TOTAL`](crate::MAX_TOTAL).
#[derive(Debug, Drop)]
pub struct Batch {
    /// The total of each value.
    totals: Weights,
    /// The stacks with their first values.
    first: WeightedStacks,
    /// The other values, row by row.
    others: Vec<u64>,
}

impl Model for Batch {
    ghost use Rattle.profile_rows.specs.Values.{AreParts, BatchState, batch_with};

    ghost Value = { BatchState };

    ghost view = { λ b. batch_with b.totals b.first b.others.items };

    ghost invariant = { λ b. AreParts b.totals b.first b.others.items };
}

/// A row's values but for the first, of those of all rows.
fn other_values(others: &[u64], at: usize, width: Width) -> &[u64]
    requires { at * (width - 1) + (width - 1) ≤ length others.now }
    ensures { result.now ≡ take (width - 1) (drop (at * (width - 1)) others.now) }
{
    let more = width.get() as usize - 1;
    let start = at * more;
    &others[start..start + more]
}

impl Batch {
    /// A batch of this width without rows. It keeps the allocator, and takes no memory yet.
    pub fn new(alloc: Global, width: Width) -> Batch
        ensures { result ≡ record { width = width; rows = [] } }
    {
        Batch {
            totals: Weights::zero(width),
            first: WeightedStacks::new(alloc),
            others: Vec::new(alloc),
        }
    }

    /// A batch of this width without rows, with room for so many stacks.
    ///
    /// # Errors
    ///
    /// `NoMemory`.
    pub fn with_capacity(alloc: Global, width: Width, rows: usize) -> Result<Batch, NoMemory>
        ensures { IfOk result (λ batch. batch ≡ record { width = width; rows = [] }) }
    {
        let totals = Weights::zero(width);
        Ok(Batch {
            totals,
            first: WeightedStacks::with_capacity(alloc, rows)?,
            others: Vec::new(alloc),
        })
    }

    /// The batch of one value that has these rows. Takes no memory.
    pub fn single(alloc: Global, rows: WeightedStacks) -> Batch
        ensures { result ≡ single_batch rows }
    {
        Batch {
            totals: Weights::join(rows.total(), &[]),
            first: rows,
            others: Vec::new(alloc),
        }
    }

    /// How many values each row has.
    pub fn width(&self) -> Width
        ensures width { result ≡ self.now.width }
        ensures batch { IsBatch self.now }
    {
        self.totals.width()
    }

    /// How many rows there are.
    pub fn len(&self) -> usize
        ensures { result ≡ length self.now.rows }
    {
        self.first.rows().len()
    }

    /// The total of each value. Takes no time per row.
    pub fn total(&self) -> Weights
        ensures totals { AreTotals self.now result }
        ensures batch { IsBatch self.now }
    {
        self.totals
    }

    /// The stacks in the order of their rows, each with its first value.
    pub fn first(&self) -> &WeightedStacks
        ensures first { result.now ≡ rows_at 0 self.now.rows }
        ensures batch { IsBatch self.now }
    {
        &self.first
    }

    /// The value of this number, counted from 0, in a row.
    pub fn weight(&self, at: usize, value: u32) -> u64
        requires row { at < length self.now.rows }
        requires value { value < self.now.width }
        ensures { result ≡ value_of value (row_in self.now.rows at).weights }
    {
        let rows = self.first.rows();
        prove!(at < rows.len());
        if value == 0 {
            return rows[at].weight;
        }
        let others = other_values(&self.others, at, self.totals.width());
        others[value as usize - 1]
    }

    /// A row by its number, counted from 0.
    pub fn row(&self, at: usize) -> Row<'_>
        requires { at < length self.now.rows }
        ensures stack { result.stack.now ≡ (row_in self.now.rows at).stack }
        ensures weights { result.weights ≡ (row_in self.now.rows at).weights }
    {
        let rows = self.first.rows();
        prove!(at < rows.len());
        let row = &rows[at];
        Row {
            stack: &row.stack,
            weights: Weights::join(
                row.weight,
                other_values(&self.others, at, self.totals.width()),
            ),
        }
    }

    /// The rows in order, each with its stack lent. Takes no memory.
    pub fn rows(&self) -> Rows<'_>
        ensures { result ≡ self.now.rows }
    {
        Rows::new(self)
    }

    /// The stacks in the order of their rows, each with its value of this number. Names are shared.
    ///
    /// # Errors
    ///
    /// `NoMemory`.
    pub fn weighted_stacks(&self, alloc: Global, value: u32) -> Result<WeightedStacks, NoMemory>
        requires { value < self.now.width }
        ensures { IfOk result (λ rows. rows ≡ rows_at value self.now.rows) }
    {
        let mut rows = WeightedStacks::new(alloc);
        for at in 0..self.len() {
            let weight = self.weight(at, value);
            let stack = self.row(at).stack.clone()?;
            rows.push(stack, weight).map_err(|_| NoMemory)?;
        }
        Ok(rows)
    }

    /// The same batch, with a second owner of each name.
    ///
    /// # Errors
    ///
    /// `NoMemory`.
    pub fn share(&self) -> Result<Batch, NoMemory>
        ensures { IfOk result (λ batch. batch ≡ self.now) }
    {
        Ok(Batch {
            totals: self.totals,
            first: self.first.share()?,
            others: self.others.clone()?,
        })
    }

    /// The rows in order, each of them the caller's own. No stack is copied.
    ///
    /// # Errors
    ///
    /// `NoMemory`.
    pub fn into_rows(self, alloc: Global) -> Result<Vec<OwnedRow>, NoMemory>
        ensures { IfOk result (λ rows. map plain_row rows.items ≡ self.rows) }
    {
        let width = self.width();
        let (stacks, others) = (self.first.into_rows(), self.others);
        let mut rows = Vec::with_capacity(alloc, stacks.len())?;
        for row in stacks {
            let WeightedStack { stack, weight } = row;
            let weights = Weights::join(weight, other_values(&others, rows.len(), width));
            rows.push(OwnedRow { stack, weights })?;
        }
        Ok(rows)
    }

    /// Whether a row of these values can follow.
    fn fitting(&self, weights: &Weights) -> Result<(), PushFault>
        ensures width { OnOk result (length weights.now ≡ self.now.width) }
        ensures room { OnOk result ((value : ℕ) → HasRoom self.now weights.now value) }
        ensures fault { IfErr result (IsPushFault self.now weights.now) }
    {
        let held = self.totals.width();
        if weights.width() != held {
            return Err(PushFault::Width { held: held.get() });
        }
        match first_heavy(&self.totals, weights) {
            Some(value) => Err(PushFault::Heavy {
                value,
                held: self.totals.value(value),
            }),
            None => Ok(()),
        }
    }

    /// Adds a row at the end.
    ///
    /// # Errors
    ///
    /// The first [`PushFault`]: `NoMemory` only where there is no other. The batch is then as it was, and the
    /// stack is handed back.
    pub fn push(&mut self, stack: Stack, weights: Weights) -> Result<(), Refused<Stack>>
        ensures pushed { OnOk result (self.new ≡ record
            { width = self.old.width; rows = self.old.rows ++ (record { stack = stack; weights = weights }) ∷ [] }) }
        ensures width { OnOk result (length weights ≡ self.old.width) }
        ensures room { OnOk result ((value : ℕ) → HasRoom self.old weights value) }
        ensures unchanged { OnErr result (self.new ≡ self.old) }
        ensures back { IfErr result (λ refused. refused.back ≡ stack) }
        ensures fault { IfErr result (λ refused. IsPushFault self.old weights refused.fault) }
    {
        if let Err(fault) = self.fitting(&weights) {
            return Err(Refused { fault, back: stack });
        }
        let kept = self.others.len();
        if let Err(_) = self.others.extend_from_slice(weights.rest()) {
            let fault = PushFault::NoMemory;
            return Err(Refused { fault, back: stack });
        }
        match self.first.push(stack, weights.value(0)) {
            Ok(()) => {
                self.totals = self.totals.plus(&weights);
                Ok(())
            }
            Err(refused) => {
                self.others.truncate(kept);
                let (fault, back) = (PushFault::NoMemory, refused.back);
                Err(Refused { fault, back })
            }
        }
    }
}

impl PartialEq for Batch {
    ghost use Rattle.std.specs.Prelude.{◌≡◌, ◌↔◌, IsTrue};
    ghost use Rattle.std.specs.Cmp.{partial_equiv_from_equiv};
    ghost use Rattle.profile_rows.specs.Equality.{batch_eq, batch_eq-laws};

    ghost eq = { batch_eq };

    ghost laws = { partial_equiv_from_equiv batch_eq-laws };

    /// Whether the batches have one width and the same rows in the same order.
    fn eq(&self, other: &Batch) -> bool
        ensures compared { result ≡ batch_eq self.now other.now }
        ensures equal { IsTrue result ↔ (self.now ≡ other.now) }
    {
        self.totals.width() == other.totals.width()
            && self.first == other.first
            && self.others.as_slice() == other.others.as_slice()
    }
}

impl Eq for Batch {
    ghost use Rattle.profile_rows.specs.Equality.{batch_eq-laws};

    ghost laws = { batch_eq-laws };
}
