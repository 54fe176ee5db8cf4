//! A list that the history has reached.

ghost use Rattle.std.specs.Prelude.{◌≡◌, ◌<◌, ◌≤◌, length, MatchBool};
ghost use mathlib.Core.List.{IsPrefix};

use crate::name::StoreName;
use crate::reached::Reached;
use std::marker::{Model, PhantomData};

/// A list of changes that the history of a store has reached: a prefix of all later ones. Contracts see it as the
/// list of entries; what is kept is how many they are.
#[derive(Drop)]
pub struct Front<N: StoreName> {
    count: u64,
    pub(crate) seen: Reached,
    of: PhantomData<N>,
}

impl<N: StoreName> Model for Front<N> {
    ghost use Rattle.std.specs.Prelude.{◌≡◌, List, length};
    ghost use Rattle.op_book.specs.Operations.{PlainEntry};

    ghost Value = { List PlainEntry };

    ghost view = { λ f. f.seen.log };

    ghost invariant = { λ f. (f.count ≡ length f.seen.log) × (f.seen.book ≡ N.history) };
}

impl<N: StoreName> Front<N> {
    /// The list that this evidence of the store's history is of, which has so many changes.
    pub fn of(count: u64, seen: &Reached) -> Front<N>
        requires count { count ≡ length seen.now.log }
        requires history { seen.now.book ≡ N.history }
        ensures { result ≡ seen.now.log }
    {
        Front {
            count,
            seen: seen.again(),
            of: PhantomData,
        }
    }

    /// How many changes there are.
    pub fn len(&self) -> u64
        ensures { result ≡ length self.now }
    {
        self.count
    }

    /// The evidence of the list.
    pub fn reached(&self) -> Reached
        ensures { result ≡ record { log = self.now; book = N.history } }
    {
        self.seen.again()
    }

    /// The same list once more. Takes no memory.
    pub fn again(&self) -> Front<N>
        ensures { result ≡ self.now }
    {
        Front {
            count: self.count,
            seen: self.seen.again(),
            of: PhantomData,
        }
    }

    /// The longer of two lists, which begins with the other: both are prefixes of one history.
    pub fn longer(&self, other: &Front<N>) -> Front<N>
        ensures other { length self.now < length other.now → result ≡ other.now }
        ensures same { length other.now ≤ length self.now → result ≡ self.now }
        ensures begins { IsPrefix self.now result }
        ensures begins_other { IsPrefix other.now result }
    {
        self.seen.compare(&other.seen);
        if self.count < other.count {
            other.again()
        } else {
            self.again()
        }
    }

    /// Becomes another list, unless that one is shorter, and says whether it did.
    pub fn catch_up(&mut self, to: &Front<N>) -> bool
        ensures { MatchBool result ((self.new ≡ to.now) × IsPrefix self.old to.now)
            ((self.new ≡ self.old) × (length to.now < length self.old)) }
    {
        self.seen.compare(&to.seen);
        if to.count < self.count {
            return false;
        }
        *self = to.again();
        true
    }
}
