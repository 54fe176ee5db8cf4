//! The samples of a profile, one after the other.

ghost use Rattle.std.specs.Prelude.{◌≡◌};
ghost use Rattle.std.specs.Iterator.{YieldsFirst, item_count};

use crate::samples::{SampleRef, Samples};
use std::marker::Model;

/// Samples in order, each of them lent. A contract sees the samples that are left.
#[derive(Drop)]
pub struct SampleIter<'a> {
    samples: &'a Samples,
    /// How many samples were given.
    at: usize,
}

impl<'a> Model for SampleIter<'a> {
    ghost use Rattle.std.specs.Prelude.{◌≤◌, List, drop, length};
    ghost use Rattle.pprof_profile.specs.declared.messages.Sample.{Sample};

    ghost Value = { List Sample };

    ghost view = { λ iter. drop iter.at iter.samples.now };

    ghost invariant = { λ iter. iter.at ≤ length iter.samples.now };
}

impl<'a> SampleIter<'a> {
    /// All of these samples.
    pub(crate) fn new(samples: &'a Samples) -> SampleIter<'a>
        ensures { result ≡ samples.now }
    {
        SampleIter { samples, at: 0 }
    }
}

impl<'a> Iterator for SampleIter<'a> {
    type Item = SampleRef<'a>;

    ghost next_gives = { YieldsFirst (λ samples. samples) };

    ghost remaining = { item_count (λ samples. samples) };

    fn next(&mut self) -> Option<SampleRef<'a>> {
        if self.at == self.samples.len() {
            return None;
        }
        let sample = self.samples.at(self.at);
        self.at += 1;
        Some(sample)
    }

    fn size_hint(&self) -> (usize, Option<usize>) {
        let left = self.samples.len() - self.at;
        (left, Some(left))
    }
}
