//! The lists of location ids of samples: in a profile the same list comes again and again.

ghost use Rattle.std.specs.Prelude.{◌≡◌, ◌<◌, ◌++◌, ◌∷◌, [], IfSome, MatchResult, length};
ghost use Rattle.std.specs.Bool.{OnTrue};
ghost use Rattle.pprof_profile.specs.LocationLists.{HasNumber, IsListed, IsSpelling, begun_ids, list_at};

use basics::{Span, append};
use std::alloc::{AllocError, Global};
use std::hash::{FoldHasher, Hasher};
use std::marker::Model;

/// A list, and the packed bytes that spell it: none where it wasn't read of such.
#[derive(Clone, Copy, Debug)]
pub(crate) struct ListSpans {
    pub ids: Span,
    pub spelling: Span,
    /// The hash of the spelling.
    pub hash: u64,
}

/// The hash of a spelling.
fn hash_of(spelling: &[u8]) -> u64 {
    let mut hasher = FoldHasher::default();
    hasher.write(spelling);
    hasher.finish()
}

/// At how many places a number can stand.
const PLACES: u64 = 8;

/// What stands at a place without a number.
const VACANT: u32 = u32::MAX;

/// The numbers of lists by the hashes of their spellings. Each stands at one of the places that follow from its hash,
/// unless others came to stand there: so what is found is only a guess, and nobody can make it cost much.
#[derive(Drop)]
struct Guesses {
    numbers: Vec<u32>,
}

impl Guesses {
    /// Where the place of a hash is, by how many come before it.
    fn place_of(&self, hash: u64, before: u64) -> usize {
        let mask = self.numbers.len().saturating_sub(1);
        hash.wrapping_add(before) as usize & mask
    }

    /// What stands at a place of a hash, by how many come before it.
    fn at(&self, hash: u64, before: u64) -> u32 {
        let number = self.numbers.get(self.place_of(hash, before));
        number.copied().unwrap_or(VACANT)
    }

    /// Puts the number of a list that has a spelling at a place of its hash: the first that is vacant, or else the
    /// first.
    fn put(&mut self, list: &ListSpans, number: u32) {
        if list.spelling.start == list.spelling.end {
            return;
        }
        let before = (0..PLACES).find(|before| self.at(list.hash, *before) == VACANT);
        let place = self.place_of(list.hash, before.unwrap_or(0));
        if let Some(vacant) = self.numbers.get_mut(place) {
            *vacant = number;
        }
    }

    /// Makes room for one list more than these, where it has a spelling.
    fn reach(&mut self, lists: &[ListSpans], spelling: &[u8]) -> Result<(), AllocError> {
        if spelling.is_empty() || lists.len() < self.numbers.len() / 2 {
            return Ok(());
        }
        let count = self.numbers.len().saturating_mul(2).max(64);
        self.numbers.clear();
        self.numbers.resize(count, VACANT)?;
        for (number, list) in lists.iter().enumerate() {
            self.put(list, u32::try_from(number).unwrap_or(VACANT));
        }
        Ok(())
    }
}

/// Lists of location ids by their numbers. One that is spelled as another before it is seldom added once more. A
/// contract sees the lists.
#[derive(Drop)]
pub(crate) struct LocationLists {
    lists: Vec<ListSpans>,
    ids: Vec<u64>,
    /// The spellings.
    bytes: Vec<u8>,
    guesses: Guesses,
}

impl Model for LocationLists {
    ghost use Rattle.std.specs.Prelude.{All, List, ℕ, map};
    ghost use Rattle.pprof_profile.specs.LocationLists.{IsSpelledList, ids_of};

    ghost Value = { List (List ℕ) };

    ghost view = { λ lists. map (ids_of lists.ids.items) lists.lists.items };

    ghost invariant = { λ lists. All (IsSpelledList lists.ids.items lists.bytes.items) lists.lists.items };
}

impl LocationLists {
    /// No list. Takes no memory.
    pub fn empty(alloc: Global) -> LocationLists
        ensures { result ≡ [] }
    {
        let numbers = Vec::new(alloc);
        LocationLists {
            lists: Vec::new(alloc),
            ids: Vec::new(alloc),
            bytes: Vec::new(alloc),
            guesses: Guesses { numbers },
        }
    }

    /// How many lists there are.
    pub fn len(&self) -> usize
        ensures { result ≡ length self.now }
    {
        self.lists.len()
    }

    /// The list of a number.
    #[inline(always)]
    pub fn at(&self, number: usize) -> &[u64]
        requires { number < length self.now }
        ensures { result.now ≡ list_at self.now number }
    {
        self.lists[number].ids.of(self.ids.as_slice())
    }

    /// Whether the list of a number, if there is one, is spelled so.
    fn is_spelled(&self, number: usize, spelling: &[u8]) -> bool
        requires { 0 < length spelling.now }
        ensures { OnTrue result ((number < length self.now) × IsSpelling spelling.now (list_at self.now number)) }
    {
        number < self.lists.len()
            && self.lists[number].spelling.of(self.bytes.as_slice()) == spelling
    }

    /// The number of a list that is spelled so, where it is found.
    pub fn find(&self, spelling: &[u8]) -> Option<u32>
        ensures { IfSome result
            (λ number. (0 < length spelling.now) × (number < length self.now)
            × IsSpelling spelling.now (list_at self.now number)) }
    {
        if spelling.is_empty() {
            return None;
        }
        let hash = hash_of(spelling);
        for before in 0..PLACES {
            let number = self.guesses.at(hash, before);
            if number == VACANT {
                return None;
            }
            if self.is_spelled(number as usize, spelling) {
                return Some(number);
            }
        }
        None
    }

    /// Adds a list, and what spells it, where that is known. Gives its number.
    pub fn push(&mut self, ids: &[u64], spelling: &[u8]) -> Result<u32, AllocError>
        requires { 0 < length spelling.now → IsSpelling spelling.now ids.now }
        ensures { MatchResult result (λ number. (number ≡ length self.old) × (self.new ≡ self.old ++ ids.now ∷ []))
            (λ fault. self.new ≡ self.old) }
    {
        let number = u32::try_from(self.lists.len()).map_err(|_| AllocError)?;
        self.guesses.reach(self.lists.as_slice(), spelling)?;
        let hash = hash_of(spelling);
        let ids = append(&mut self.ids, ids)?;
        let bytes = append(&mut self.bytes, spelling)?;
        let list = ListSpans {
            ids,
            spelling: bytes,
            hash,
        };
        self.lists.push(list)?;
        self.guesses.put(&list, number);
        Ok(number)
    }

    /// The number of this list: the one that is guessed, where that is right, or else the one that it gets now.
    fn number_with(&mut self, ids: &[u64], guess: Option<u32>) -> Result<u32, AllocError>
        ensures { HasNumber self.old self.new ids.now result }
    {
        if let Some(number) = guess {
            if (number as usize) < self.len() && self.at(number as usize) == ids {
                return Ok(number);
            }
        }
        self.push(ids, &[])
    }

    /// Adds the list of a number with more ids after it. Gives the new one's number.
    fn push_longer(&mut self, number: usize, more: &[u64]) -> Result<u32, AllocError>
        requires { number < length self.old }
        ensures { HasNumber self.old self.new (list_at self.old number ++ more.now) result }
    {
        let first = self.at(number);
        let mut ids = Vec::with_capacity(*self.ids.allocator(), first.len())?;
        ids.extend_from_slice(first)?;
        ids.extend_from_slice(more)?;
        self.push(ids.as_slice(), &[])
    }

    /// The number of the list of these ids, after those of the list that they begin with, if any. It may be the one
    /// that is guessed.
    pub fn number_after(
        &mut self,
        begun: Option<u32>,
        more: &[u64],
        guess: Option<u32>,
    ) -> Result<u32, AllocError>
        requires { IsListed begun self.old }
        ensures { HasNumber self.old self.new (begun_ids self.old begun ++ more.now) result }
    {
        match begun {
            None => self.number_with(more, guess),
            Some(number) if more.is_empty() => Ok(number),
            Some(number) => self.push_longer(number as usize, more),
        }
    }
}
