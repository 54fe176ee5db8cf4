//! What names weigh in rows, by their numbers.

ghost use Rattle.std.specs.Prelude.{ℕ, ◌≡◌, ◌≢◌, ◌+◌, ◌^◌, ◌<◌, ◌++◌, ◌∷◌, [], All, List, IfOk, OnOk, length, map};
ghost use Rattle.std.specs.Prelude.{slice_set};
ghost use Rattle.profile_rows.specs.declared.weighted_stacks.WeightedStack.{WeightedStack};
ghost use Rattle.name_counts.specs.Tallies.{AreSingle, AreTalliesOf, IsNumberedStack, frame_counted, leaf_counted};
ghost use Rattle.name_counts.specs.Tallies.{numbers_counted, tally_at};
ghost use Rattle.name_counts.specs.TextTables.{with_texts};
ghost use Rattle.profile_rows.specs.TopList.{AreSumsOf, AreTotalsOf};

use crate::lent_totals::{LentTotal, LentTotals};
use std::alloc::{AllocError, Global};

/// What a name weighs so far: as a leaf, and in the rows that have it. `row` is the number of the last of these, which
/// is the weight counted up to it.
#[derive(Clone, Copy, Debug, Default)]
pub struct Tally {
    pub flat: u64,
    pub cumulative: u64,
    pub row: u64,
}

/// Counts a frame of the name of this number, where it is the row's first of its name.
fn count_name(tallies: &mut Vec<Tally>, number: usize, row: u64, weight: u64)
    requires inside { number < length tallies.old.items }
    requires fits { (tally_at tallies.old.items number).row ≢ row
        → (tally_at tallies.old.items number).cumulative + weight < 2 ^ 63 }
    ensures { tallies.new.items
        ≡ slice_set tallies.old.items number (frame_counted (tally_at tallies.old.items number) row weight) }
{
    let tally = &mut tallies[number];
    if tally.row != row {
        tally.cumulative += weight;
        tally.row = row;
    }
}

/// Counts the names of these numbers in a row, each once.
fn count_names(tallies: &mut Vec<Tally>, numbers: &[usize], row: u64, weight: u64)
    requires inside { All (λ number. number < length tallies.old.items) numbers.now }
    requires fits { (number : ℕ) → number < length tallies.old.items
        → (tally_at tallies.old.items number).row ≢ row
        → (tally_at tallies.old.items number).cumulative + weight < 2 ^ 63 }
    ensures many { length tallies.new.items ≡ length tallies.old.items }
    ensures each { (number : ℕ) → tally_at tallies.new.items number
        ≡ numbers_counted numbers.now row weight number (tally_at tallies.old.items number) }
{
    for number in numbers {
        count_name(tallies, *number, row, weight);
    }
}

/// Counts the leaf of a row.
fn count_leaf(tallies: &mut Vec<Tally>, leaf: usize, weight: u64)
    requires inside { leaf < length tallies.old.items }
    requires fits { (tally_at tallies.old.items leaf).flat + weight < 2 ^ 63 }
    ensures { tallies.new.items
        ≡ slice_set tallies.old.items leaf (leaf_counted (tally_at tallies.old.items leaf) weight) }
{
    let tally = &mut tallies[leaf];
    tally.flat += weight;
}

/// What each name weighs in rows so far, by its number, and what the rows weigh together. What has been counted is what
/// contracts say of both fields.
#[derive(Drop)]
pub struct Tallies {
    pub names: Vec<Tally>,
    pub total: u64,
}

/// The names of cumulative weight above 0 with their weights.
fn weighted<'a>(
    alloc: Global,
    names: &[&'a str],
    tallies: &Tallies,
) -> Result<Vec<LentTotal<'a>>, AllocError>
    requires { (rows : List WeightedStack) × AreTalliesOf rows (map (λ name. name.now) names.now) tallies.now }
    ensures { (rows : List WeightedStack) → AreTalliesOf rows (map (λ name. name.now) names.now) tallies.now
        → IfOk result (λ list. AreSumsOf rows list.items) }
{
    let mut list = Vec::new(alloc);
    for (number, name) in names.iter().enumerate() {
        let tally = &tallies.names[number];
        if tally.cumulative > 0 {
            list.push(LentTotal::new(*name, tally.flat, tally.cumulative))?;
        }
    }
    Ok(list)
}

impl Tallies {
    /// So many names without rows.
    ///
    /// # Errors
    ///
    /// `AllocError`.
    pub fn without_rows(alloc: Global, count: usize) -> Result<Tallies, AllocError>
        ensures { (names : List (List ℕ)) → AreSingle names → length names ≡ count
            → IfOk result (AreTalliesOf [] names) }
    {
        let names = vec![in alloc; Tally::default(); count]?;
        Ok(Tallies { names, total: 0 })
    }

    /// Gives names up to so many a tally. What is counted stays as it is: no row has them.
    ///
    /// # Errors
    ///
    /// `AllocError`.
    pub(crate) fn reach(&mut self, count: usize) -> Result<(), AllocError>
        ensures total { self.new.total ≡ self.old.total }
        ensures counted { (names more : List (List ℕ)) (rows : List WeightedStack)
            → length (with_texts names more) ≡ count → AreTalliesOf rows names self.old
            → OnOk result (AreTalliesOf rows (with_texts names more) self.new) }
    {
        if count > self.names.len() {
            self.names.resize(count, Tally::default())?;
        }
        Ok(())
    }

    /// Counts a row more, of frames with the names of these numbers and a leaf of that number. The row's number is the
    /// weight up to it, which no other row of weight above 0 has; a row without weight adds nothing to any name.
    pub fn count(&mut self, numbers: &[usize], leaf: Option<usize>, weight: u64)
        requires fits { self.old.total + weight < 2 ^ 63 }
        requires counted { (names : List (List ℕ)) × (rows : List WeightedStack) × (stack : List (List ℕ))
            × AreTalliesOf rows names self.old × IsNumberedStack names stack numbers.now leaf }
        ensures { (names : List (List ℕ)) (rows : List WeightedStack) (stack : List (List ℕ))
            → AreTalliesOf rows names self.old → IsNumberedStack names stack numbers.now leaf
            → AreTalliesOf (rows ++ (record { stack = stack; weight = weight }) ∷ []) names self.new }
    {
        let row = self.total + weight;
        self.total = row;
        if weight == 0 {
            return;
        }
        count_names(&mut self.names, numbers, row, weight);
        if let Some(leaf) = leaf {
            count_leaf(&mut self.names, leaf, weight);
        }
    }

    /// What the names weigh, of which each has its number as its place.
    ///
    /// # Errors
    ///
    /// `AllocError`.
    pub fn totals<'a>(&self, alloc: Global, names: &[&'a str]) -> Result<LentTotals<'a>, AllocError>
        requires { (rows : List WeightedStack) × AreTalliesOf rows (map (λ name. name.now) names.now) self.now }
        ensures { (rows : List WeightedStack) → AreTalliesOf rows (map (λ name. name.now) names.now) self.now
            → IfOk result (AreTotalsOf rows) }
    {
        let frames = weighted(alloc, names, self)?;
        Ok(LentTotals::new(self.total, frames))
    }
}
