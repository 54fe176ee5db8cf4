//! A version: a shared tree, and how many changes made it.

ghost use Rattle.std.specs.Prelude.{◌≡◌, length, IfOk};
ghost use Rattle.std.specs.Arc.{arc_value};
ghost use Rattle.op_book.specs.Books.{IsReplay};
ghost use Rattle.op_book.specs.Runs.{AreChanges, AreTurnsInOrder};
ghost use Rattle.shown_versions.specs.Views.{IsTreeOfVersion};

use crate::reached::Reached;
use call_tree::CallTree;
use std::alloc::AllocError;
use std::marker::Model;
use std::sync::Arc;

/// The tree after a list of changes that the history has reached, in which the changes of each session have turns 0, 1,
/// 2 and so on. Contracts see the list, and how many values a row of the tree has.
#[derive(Drop)]
pub struct Version {
    count: u64,
    tree: Arc<CallTree>,
    seen: Reached,
}

impl Model for Version {
    ghost use Rattle.std.specs.Prelude.{◌≡◌, length};
    ghost use Rattle.std.specs.Arc.{arc_value};
    ghost use Rattle.op_book.specs.Books.{IsReplay};
    ghost use Rattle.op_book.specs.Runs.{AreChanges, AreTurnsInOrder};
    ghost use Rattle.shown_versions.specs.declared.known.KnownVersion.{KnownVersion};

    ghost Value = { KnownVersion };

    ghost view = { λ v. record { seen = v.seen; width = (arc_value v.tree).width } };

    ghost invariant = { λ v. (v.count ≡ length v.seen.log) × IsReplay v.seen.log (arc_value v.tree)
        × AreTurnsInOrder v.seen.log × AreChanges v.seen.log };
}

impl Version {
    /// The version of a list of so many changes, which this tree is the replay of.
    pub fn new(count: u64, tree: Arc<CallTree>, seen: Reached) -> Version
        requires count { count ≡ length seen.log }
        requires replay { IsReplay seen.log (arc_value tree) }
        requires turns { AreTurnsInOrder seen.log }
        requires changes { AreChanges seen.log }
        ensures { result ≡ record { seen = seen; width = (arc_value tree).width } }
    {
        Version { count, tree, seen }
    }

    /// The same version, which shares the tree.
    ///
    /// # Errors
    ///
    /// `AllocError` where the tree has as many owners as it can have. Takes no memory.
    pub fn share(&self) -> Result<Version, AllocError>
        ensures { IfOk result (λ version. version ≡ self.now) }
    {
        Ok(Version {
            count: self.count,
            tree: self.share_tree()?,
            seen: self.seen.again(),
        })
    }

    /// Another owner of the tree after the changes.
    ///
    /// # Errors
    ///
    /// `AllocError` where the tree has as many owners as it can have. Takes no memory.
    pub fn share_tree(&self) -> Result<Arc<CallTree>, AllocError>
        ensures { IfOk result (λ tree. IsTreeOfVersion self.now (arc_value tree)) }
    {
        Arc::try_clone(&self.tree)
    }

    /// How many changes there are.
    pub fn count(&self) -> u64
        ensures { result ≡ length self.now.seen.log }
    {
        self.count
    }

    /// The evidence that the history has reached the list.
    pub fn seen(&self) -> &Reached
        ensures { result.now ≡ self.now.seen }
    {
        &self.seen
    }

    /// The tree after the changes.
    pub fn tree(&self) -> &CallTree
        ensures { IsTreeOfVersion self.now result.now }
    {
        &self.tree
    }
}
