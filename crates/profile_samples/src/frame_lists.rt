//! The numbers of the names of locations, all in one vector, since every sample looks there.

ghost use Rattle.std.specs.Prelude.{◌≡◌, ◌<◌, ◌≤◌, ◌++◌, ◌∷◌, [], All, IfOk, OnOk, length, map, slice_get};
ghost use Rattle.std.specs.Option.{option_map};
ghost use Rattle.profile_samples.specs.NameNumbers.{AreFoundOnce, once_of};

use basics::{Span, append};
use std::alloc::{AllocError, Global};
use std::marker::Model;

/// A list of numbers for each location, in order. A contract sees the lists.
#[derive(Drop)]
pub(crate) struct FrameLists {
    numbers: Vec<usize>,
    spans: Vec<Span>,
    /// No list is longer.
    deepest: usize,
}

impl Model for FrameLists {
    ghost use Rattle.std.specs.Prelude.{All, List, length, map, ℕ, ◌≤◌};
    ghost use Rattle.basics.specs.Spans.{IsWithin, items_at};

    ghost Value = { List (List ℕ) };

    ghost view = { λ lists. map (items_at lists.numbers.items) lists.spans.items };

    ghost invariant = { λ lists. All (IsWithin lists.numbers.items) lists.spans.items
        × All (λ list. length list ≤ lists.deepest) (map (items_at lists.numbers.items) lists.spans.items) };
}

/// Puts the numbers of a list, each once, in the place of others. A number's mark is the greatest where it stood
/// before.
fn each_once(
    numbers: &[usize],
    marks: &mut Vec<usize>,
    mark: usize,
    once: &mut Vec<usize>,
) -> Result<(), AllocError>
    requires inside { All (λ number. number < length marks.old.items) numbers.now }
    requires marked { 0 < mark }
    requires fresh { All (λ before. before < mark) marks.old.items }
    ensures { OnOk result
        (AreFoundOnce numbers.now (length marks.old.items) mark marks.new.items once.new.items) }
{
    once.clear();
    for number in numbers {
        if marks[*number] != mark {
            marks[*number] = mark;
            once.push(*number)?;
        }
    }
    Ok(())
}

impl FrameLists {
    /// No lists. Takes no memory.
    pub fn new(alloc: Global) -> FrameLists
        ensures { result ≡ [] }
    {
        FrameLists {
            numbers: Vec::new(alloc),
            spans: Vec::new(alloc),
            deepest: 0,
        }
    }

    /// No lists, and memory for so many.
    pub fn with_capacity(alloc: Global, count: usize) -> Result<FrameLists, AllocError>
        ensures { IfOk result (λ lists. lists ≡ []) }
    {
        Ok(FrameLists {
            numbers: Vec::with_capacity(alloc, count)?,
            spans: Vec::with_capacity(alloc, count)?,
            deepest: 0,
        })
    }

    /// Adds a list.
    pub fn push(&mut self, list: &[usize]) -> Result<(), AllocError>
        ensures { OnOk result (self.new ≡ self.old ++ list.now ∷ []) }
    {
        let span = append(&mut self.numbers, list)?;
        self.spans.push(span)?;
        self.deepest = self.deepest.max(list.len());
        Ok(())
    }

    /// The list at an index, where there is one.
    #[inline(always)]
    pub fn get(&self, index: usize) -> Option<&[usize]>
        ensures { option_map (λ list. list.now) result ≡ slice_get self.now index }
    {
        Some(self.spans.get(index)?.of(self.numbers.as_slice()))
    }

    /// A length that no list exceeds.
    #[inline(always)]
    pub fn deepest(&self) -> usize
        ensures { All (λ list. length list ≤ result) self.now }
    {
        self.deepest
    }

    /// The numbers of each list, each once. They are below `count`. Lists are marked from 1.
    pub fn all_once(&self, alloc: Global, count: usize) -> Result<FrameLists, AllocError>
        requires inside { All (All (λ number. number < count)) self.now }
        ensures { IfOk result (λ once. once ≡ map once_of self.now) }
    {
        let mut marks = vec![in alloc; 0; count]?;
        let mut lists = FrameLists::with_capacity(alloc, self.spans.len())?;
        let mut once = Vec::new(alloc);
        for (at, span) in self.spans.iter().enumerate() {
            let list = span.of(self.numbers.as_slice());
            each_once(list, &mut marks, at + 1, &mut once)?;
            lists.push(once.as_slice())?;
        }
        Ok(lists)
    }
}
