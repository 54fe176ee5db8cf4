//! The values of a row: one to four.
#![tactic(auto, using(crate::proofs::Steps::values))]

ghost use Rattle.std.specs.Prelude.{ℕ, ◌≡◌, ◌+◌, ◌^◌, ◌<◌, ◌≤◌, ◌⊎◌, ◌∷◌, ◌↔◌, IsTrue, MatchOption, drop, length};
ghost use Rattle.profile_rows.specs.Aggregate.{HasWeight};
ghost use Rattle.profile_rows.specs.Values.{IsFirstHeavy, value_of};

use crate::weighted_stacks::MAX_TOTAL;
use std::marker::Model;

/// The most values of a row.
pub const MAX_WIDTH: u32 = 4;

/// How many values a row has: 1 to [`MAX_WIDTH`].
#[derive(Clone, Copy, Debug, PartialEq, Eq)]
pub struct Width {
    count: u32,
}

impl Model for Width {
    ghost use Rattle.std.specs.Prelude.{ℕ, ◌<◌, ◌≤◌};
    ghost use Rattle.profile_rows.specs.Limits.{most_values};

    ghost Value = { ℕ };

    ghost view = { λ w. w.count };

    ghost invariant = { λ w. (0 < w.count) × (w.count ≤ most_values) };

    ghost inverse = { λ n. record { count = n } };
}

impl Width {
    /// So many values; nothing exactly where there are none or more than [`MAX_WIDTH`].
    pub fn new(count: u32) -> Option<Width>
        ensures { MatchOption result ((count ≡ 0) ⊎ (MAX_WIDTH < count))
            (λ width. (width ≡ count) × (0 < count) × (count ≤ MAX_WIDTH)) }
    {
        if count == 0 || count > MAX_WIDTH {
            return None;
        }
        Some(Width { count })
    }

    /// One value: what folded text has.
    pub fn one() -> Width
        ensures { result ≡ 1 }
    {
        Width { count: 1 }
    }

    /// How many there are.
    pub fn get(&self) -> u32
        ensures count { result ≡ self.now }
        ensures some { 0 < self.now }
        ensures few { self.now ≤ MAX_WIDTH }
    {
        self.count
    }
}

/// The values of a row, in order: 1 to [`MAX_WIDTH`] of them.
#[derive(Clone, Copy, Debug)]
pub struct Weights {
    width: Width,
    /// The values, and 0 past the width.
    values: [u64; 4],
}

impl Model for Weights {
    ghost use Rattle.std.specs.Prelude.{List, ℕ, ◌≡◌, ◌<◌, ◌≤◌, take, length};
    ghost use Rattle.profile_rows.specs.Values.{IsPadded, padded};

    ghost Value = { List ℕ };

    ghost view = { λ w. take w.width w.values };

    ghost invariant = { λ w. IsPadded w.width w.values };

    ghost inverse = { λ values. record { width = length values; values = padded values } };

    ghost inverse_ok = { λ w kept i. record { width = kept.taken i; values = kept.rest i } };
}

impl Weights {
    /// The values, where there are 1 to [`MAX_WIDTH`]; nothing exactly where there are none or more. Takes no memory.
    pub fn make(values: &[u64]) -> Option<Weights>
        ensures { MatchOption result ((length values.now ≡ 0) ⊎ (MAX_WIDTH < length values.now))
            (λ weights. (weights ≡ values.now) × (0 < length values.now) × (length values.now ≤ MAX_WIDTH)) }
    {
        let width = Width::new(u32::try_from(values.len()).ok()?)?;
        let mut four = [0; 4];
        four[..values.len()].copy_from_slice(values);
        Some(Weights {
            width,
            values: four,
        })
    }

    /// As many zeros as the width says.
    pub fn zero(width: Width) -> Weights
        ensures width { length result ≡ width }
        ensures zero { (value : ℕ) → value_of value result ≡ 0 }
    {
        let values = [0; 4];
        Weights { width, values }
    }

    /// A first value and up to three others.
    pub(crate) fn join(first: u64, others: &[u64]) -> Weights
        requires { length others.now < MAX_WIDTH }
        ensures { result ≡ first ∷ others.now }
    {
        let mut values = [first, 0, 0, 0];
        values[1..others.len() + 1].copy_from_slice(others);
        let count = others.len() as u32 + 1;
        let width = Width { count };
        Weights { width, values }
    }

    /// These values and as many others, added one by one: each sum is at most [`MAX_TOTAL`].
    pub fn plus(&self, more: &Weights) -> Weights
        requires width { length self.now ≡ length more.now }
        requires fits { (value : ℕ) → value_of value self.now + value_of value more.now < 2 ^ 63 }
        ensures width { length result ≡ length self.now }
        ensures each { (value : ℕ) → value_of value result ≡ value_of value self.now + value_of value more.now }
    {
        let [first, second, third, fourth] = self.values;
        Weights {
            width: self.width,
            values: [
                first + more.values[0],
                second + more.values[1],
                third + more.values[2],
                fourth + more.values[3],
            ],
        }
    }

    /// The values, in order.
    pub fn values(&self) -> &[u64]
        ensures values { result.now ≡ self.now }
        ensures some { 0 < length self.now }
        ensures few { length self.now ≤ MAX_WIDTH }
    {
        &self.values[..self.width.get() as usize]
    }

    /// The values but the first.
    pub(crate) fn rest(&self) -> &[u64]
        ensures { result.now ≡ drop 1 self.now }
    {
        &self.values()[1..]
    }

    /// Whether some value is above 0.
    pub(crate) fn weighs_something(&self) -> bool
        ensures { IsTrue result ↔ HasWeight self.now }
    {
        self.values().iter().any(|value| *value > 0)
    }

    /// How many values there are.
    pub fn width(&self) -> Width
        ensures { result ≡ length self.now }
    {
        self.width
    }

    /// The value of this number, counted from 0.
    pub fn value(&self, value: u32) -> u64
        requires { value < length self.now }
        ensures { result ≡ value_of value self.now }
    {
        self.values[value as usize]
    }
}

/// The lowest value at which these weights and those pass [`MAX_TOTAL`] together; nothing where none does.
pub fn first_heavy(totals: &Weights, more: &Weights) -> Option<u32>
    requires width { length totals.now ≡ length more.now }
    requires fits { (value : ℕ) → value_of value totals.now < 2 ^ 63 }
    ensures { MatchOption result ((value : ℕ) → value_of value totals.now + value_of value more.now < 2 ^ 63)
        (λ value. (value < length totals.now) × IsFirstHeavy totals.now more.now value) }
{
    for value in 0..totals.width().get() {
        if more.value(value) > MAX_TOTAL - totals.value(value) {
            return Some(value);
        }
    }
    None
}
