//! A page of items.

ghost use Rattle.std.specs.Prelude.{◌≡◌, [], ◌<◌, ◌≤◌, length, MatchResult, IfOk, slice_index_or};
ghost use Rattle.std.proofs.Common.{rules};
ghost use Rattle.shared_pages.specs.Pages.{with_item};

use crate::part::{GrowingPart, Part};
use std::alloc::{AllocError, Global};
use std::clone::Clone;
use std::marker::Model;

/// Items one after the other, with room for so many from the start.
#[derive(Drop)]
pub(crate) struct Page<T, const ROOM: usize> {
    alloc: Global,
    items: Vec<T>,
}

impl<T, const ROOM: usize> Model for Page<T, ROOM> {
    ghost use Rattle.std.specs.Prelude.{List};

    ghost Value = { List T };

    ghost view = { λ p. p.items.items };
}

impl<T, const ROOM: usize> Page<T, ROOM> {
    /// No items.
    pub(crate) fn new(alloc: Global) -> Result<Page<T, ROOM>, AllocError>
        ensures { IfOk result (λ page. page ≡ []) }
    {
        Ok(Page {
            alloc,
            items: Vec::with_capacity(alloc, ROOM)?,
        })
    }

    /// How many items there are.
    pub(crate) fn len(&self) -> usize
        ensures { result ≡ length self.now }
    {
        self.items.len()
    }

    /// The item at this place.
    pub(crate) fn read(&self, at: usize) -> &T
        requires { at < length self.now }
        ensures { result.now ≡ slice_index_or self.now at result.now }
    {
        &self.items[at]
    }

    /// Puts an item in place of another, or after the last.
    pub(crate) fn put(&mut self, at: usize, item: T) -> Result<(), AllocError>
    where
        T: Drop,
        requires { at ≤ length self.old }
        ensures { MatchResult result (λ _. self.new ≡ with_item at item self.old) (λ _. self.new ≡ self.old) }
    {
        if at < self.items.len() {
            self.items[at] = item;
        } else {
            self.items.push(item)?;
        }
        Ok(())
    }
}

impl<T: Clone + Drop, const ROOM: usize> Clone for Page<T, ROOM> {
    ghost use Rattle.std.specs.Prelude.{◌≡◌};

    ghost is_clone = { λ page clone. ((x y : T) → T.is_clone x y → y ≡ x) → clone ≡ page };

    /// The clone has as much room from the start.
    fn clone(&self) -> Result<Page<T, ROOM>, AllocError> {
        let mut clone = Page::new(self.alloc)?;
        VecCloneMethods::extend_from_slice(&mut clone.items, &self.items)?;
        Ok(clone)
    }
}

impl<T> Part<T> for Page<T, 256> {
    const SIZE: usize = 256;

    ghost SIZE = { 256 };

    ghost items = { λ page. page };

    fn new(alloc: Global) -> Result<Page<T, 256>, AllocError> {
        Page::new(alloc)
    }

    fn read(&self, at: usize) -> &T {
        self.read(at)
    }

    ghost some = { Prim.search rules };
}

impl<T: Clone + Drop> GrowingPart<T> for Page<T, 256> {
    fn put(&mut self, at: usize, item: T) -> Result<(), AllocError> {
        self.put(at, item)
    }

    ghost exact = { λ exact page clone is. is exact };
}
