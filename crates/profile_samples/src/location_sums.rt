//! What samples weigh by the lists of their locations: in a profile the same list comes again and again.

ghost use Rattle.std.specs.Prelude.{◌≡◌, ◌+◌, ◌^◌, ◌<◌, IfOk, Some, length, slice_get};
ghost use Rattle.profile_samples.specs.LocationSums.{sums_without_weight, total_of_sums, with_raised_at};

use pprof_profile::SamplesByList;
use std::alloc::{AllocError, Global};
use std::marker::Model;

/// What the samples of each list of locations weigh together, by the lists' numbers. A contract sees the lists with
/// these weights.
#[derive(Drop)]
pub(crate) struct LocationSums<'a> {
    samples: &'a SamplesByList<'a>,
    weights: Vec<u64>,
    total: u64,
}

impl<'a> Model for LocationSums<'a> {
    ghost use Rattle.std.specs.Prelude.{List, ◌≡◌, ◌<◌, ◌^◌, length};
    ghost use Rattle.profile_samples.specs.LocationSums.{LocationSum, location_sums, total_of_sums};

    ghost Value = { List LocationSum };

    ghost view = { λ sums. location_sums sums.samples.now.lists sums.weights.items };

    ghost invariant = { λ sums. (length sums.weights.items ≡ length sums.samples.now.lists)
        × (sums.total ≡ total_of_sums (location_sums sums.samples.now.lists sums.weights.items))
        × (sums.total < 2 ^ 63) };
}

impl<'a> LocationSums<'a> {
    /// The lists of these samples, which weigh nothing yet.
    pub fn new(
        alloc: Global,
        samples: &'a SamplesByList<'a>,
    ) -> Result<LocationSums<'a>, AllocError>
        ensures { IfOk result (λ sums. sums ≡ sums_without_weight samples.now.lists) }
    {
        let weights = vec![in alloc; 0; samples.list_count()]?;
        Ok(LocationSums {
            samples,
            weights,
            total: 0,
        })
    }

    /// How many lists there are.
    pub fn len(&self) -> usize
        ensures count { result ≡ length self.now }
        ensures fits { total_of_sums self.now < 2 ^ 63 }
    {
        self.weights.len()
    }

    /// What all weigh together. Takes no time per list.
    pub fn total(&self) -> u64
        ensures total { result ≡ total_of_sums self.now }
        ensures fits { result < 2 ^ 63 }
    {
        self.total
    }

    /// The list of a number, and what it weighs.
    pub fn at(&self, number: usize) -> (&'a [u64], u64)
        requires { number < length self.now }
        ensures { slice_get self.now number ≡ Some (record { ids = result.0.now; weight = result.1 }) }
    {
        (self.samples.list(number), self.weights[number])
    }

    /// Adds the weight of a sample to that of its list.
    pub fn add(&mut self, number: usize, weight: u64)
        requires inside { number < length self.old }
        requires fits { total_of_sums self.old + weight < 2 ^ 63 }
        ensures { self.new ≡ with_raised_at self.old number weight }
    {
        self.weights[number] += weight;
        self.total += weight;
    }
}
