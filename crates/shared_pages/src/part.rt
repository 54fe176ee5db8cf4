//! Parts of a list.

ghost use Rattle.std.specs.Prelude.{ℕ, List, [], ◌≡◌, ◌<◌, ◌≤◌, length, MatchResult, IfOk, slice_index_or};
ghost use Rattle.shared_pages.specs.Pages.{with_item};

use std::alloc::{AllocError, Global};
use std::clone::Clone;

/// Some items of a list, one after the other.
pub(crate) trait Part<T> {
    /// How many items it takes.
    const SIZE: usize;

    ghost SIZE: { ℕ };

    /// Its items, in order.
    ghost items: { Self → List T };

    /// No items.
    fn new(alloc: Global) -> Result<Self, AllocError>
        ensures { IfOk result (λ part. items part ≡ []) };

    /// The item at this place.
    fn read(&self, at: usize) -> &T
        requires { at < length (items self.now) }
        ensures { result.now ≡ slice_index_or (items self.now) at result.now };

    /// It takes some.
    ghost some: { 0 < SIZE };
}

/// A part that may change.
pub(crate) trait GrowingPart<T: Clone + Drop>: Part<T> + Clone + Drop {
    /// Puts an item in place of another, or after the last. What other owners hold stays.
    fn put(&mut self, at: usize, item: T) -> Result<(), AllocError>
        requires exact { (x y : T) → T.is_clone x y → y ≡ x }
        requires within { at ≤ length (Self.items self.old) }
        ensures { MatchResult result (λ _. Self.items self.new ≡ with_item at item (Self.items self.old))
            (λ _. Self.items self.new ≡ Self.items self.old) };

    /// A clone has the same items where clones of items are the same.
    ghost exact: { ((x y : T) → T.is_clone x y → y ≡ x)
        → (x y : Self) → Self.is_clone x y → Self.items y ≡ Self.items x };
}
