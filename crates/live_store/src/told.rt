//! What a session passes on to others: where its change was placed, and what they may be told of it.

use call_tree::CallTree;
use shown_versions::{Front, StoreName};
use std::fmt::{self, Debug, Formatter, Write};
use std::marker::Model;
use std::sync::Arc;

/// A list of changes that the store of this name has, as a session told it. Contracts see it as the list of entries.
/// Whoever hears of it, by [`Session::hear`](crate::Session::hear), knows of these changes. It may be passed to any
/// thread.
#[derive(Drop)]
pub struct Told<N: StoreName> {
    pub(crate) front: Front<N>,
}

impl<N: StoreName> Model for Told<N> {
    ghost use Rattle.std.specs.Prelude.{List};
    ghost use Rattle.op_book.specs.Operations.{PlainEntry};

    ghost Value = { List PlainEntry };

    ghost view = { λ t. t.front };
}

impl<N: StoreName> Debug for Told<N> {
    fn fmt<W: Write>(&self, f: &mut Formatter<W>) -> fmt::Result {
        f.debug_struct("Told").finish_non_exhaustive()
    }
}

/// Where a change was placed, and what others may be told of it.
#[derive(Drop)]
pub struct Placed<N: StoreName> {
    /// How many changes stand before it.
    pub place: u64,
    /// The change, and all before it.
    pub told: Told<N>,
}

impl<N: StoreName> Debug for Placed<N> {
    fn fmt<W: Write>(&self, f: &mut Formatter<W>) -> fmt::Result {
        f.debug_struct("Placed")
            .field("place", &self.place)
            .finish_non_exhaustive()
    }
}

/// What a reset took: where it was placed, and the tree of what counted there.
#[derive(Drop)]
pub struct Window<N: StoreName> {
    /// The reset's place.
    pub placed: Placed<N>,
    /// The tree of the additions before that place, since the last reset before it.
    pub tree: Arc<CallTree>,
}

impl<N: StoreName> Debug for Window<N> {
    fn fmt<W: Write>(&self, f: &mut Formatter<W>) -> fmt::Result {
        f.debug_struct("Window")
            .field("placed", &self.placed)
            .finish_non_exhaustive()
    }
}
