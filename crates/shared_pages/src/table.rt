//! Items in parts of one size.

ghost use Rattle.std.specs.Prelude.{◌≡◌, ◌<◌, ◌≤◌, ◌+◌, ◌*◌, ◌^◌, length, nat_lt, if◌then◌else◌, MatchResult};
ghost use Rattle.std.specs.Prelude.{slice_index_or};
ghost use Rattle.std.proofs.Common.{arith};
ghost use Rattle.std.specs.Arc.{arc_value};
ghost use Rattle.shared_pages.specs.Pages.{IsPlace, with_item};

use crate::part::{GrowingPart, Part};
use std::alloc::{AllocError, Global};
use std::clone::Clone;
use std::marker::{Model, PhantomData};
use std::sync::Arc;

/// Items in parts, each of which may have several owners. A clone copies only the table of parts. An item that is put
/// at a place has its part copied before, unless nobody else owns it.
#[derive(Drop)]
pub(crate) struct Table<T, P: Part<T>> {
    alloc: Global,
    parts: Vec<Arc<P>>,
    of: PhantomData<T>,
}

impl<T, P: Part<T>> Model for Table<T, P> {
    ghost use Rattle.std.specs.Prelude.{List};
    ghost use Rattle.shared_pages.specs.Pages.{AreParts, items_of, joined};

    ghost Value = { List T };

    ghost view = { λ t. joined (items_of P.items t.parts.items) };

    ghost invariant = { λ t. AreParts P.items P.SIZE t.parts.items };
}

impl<T, P: Part<T>> Part<T> for Table<T, P> {
    /// 16 full parts, where a number can hold so many.
    const SIZE: usize = if P::SIZE < 1 << 32 {
        16 * P::SIZE
    } else {
        P::SIZE
    };

    ghost SIZE = { if nat_lt P.SIZE (2 ^ 32) then 16 * P.SIZE else P.SIZE };

    ghost items = { λ table. table };

    fn new(alloc: Global) -> Result<Table<T, P>, AllocError> {
        Ok(Table {
            alloc,
            parts: Vec::new(alloc),
            of: PhantomData,
        })
    }

    fn read(&self, at: usize) -> &T {
        let (index, within) = place::<T, P>(at);
        self.parts[index].read(within)
    }

    ghost some = { Prim.grind (arith, P.some) };
}

impl<T, P: Part<T> + Drop> Clone for Table<T, P> {
    ghost use Rattle.std.specs.Prelude.{◌≡◌};

    ghost is_clone = { λ table clone. clone ≡ table };

    fn clone(&self) -> Result<Table<T, P>, AllocError> {
        Ok(Table {
            alloc: self.alloc,
            parts: self.parts.clone()?,
            of: PhantomData,
        })
    }
}

impl<T: Clone + Drop, P: GrowingPart<T>> GrowingPart<T> for Table<T, P> {
    fn put(&mut self, at: usize, item: T) -> Result<(), AllocError> {
        let (index, within) = place::<T, P>(at);
        if index < self.parts.len() {
            return put_in_part(&mut self.parts[index], within, item);
        }
        let mut part = P::new(self.alloc)?;
        part.put(0, item)?;
        self.parts.push(Arc::new(self.alloc, part)?)?;
        Ok(())
    }

    ghost exact = { λ exact table clone is. is };
}

/// The part that an item is in, and its place there.
#[inline(always)]
fn place<T, P: Part<T>>(at: usize) -> (usize, usize)
    ensures { IsPlace P.SIZE at result }
{
    (at / P::SIZE, at % P::SIZE)
}

/// Puts an item at its place in a part, which is copied before where it has other owners.
pub(crate) fn put_in_part<T: Clone + Drop, P: GrowingPart<T>>(
    part: &mut Arc<P>,
    at: usize,
    item: T,
) -> Result<(), AllocError>
    requires exact { (x y : T) → T.is_clone x y → y ≡ x }
    requires within { at ≤ length (P.items (arc_value part.old)) }
    ensures { MatchResult result (λ _. P.items (arc_value part.new) ≡ with_item at item (P.items (arc_value part.old)))
        (λ _. P.items (arc_value part.new) ≡ P.items (arc_value part.old)) }
{
    let own = Arc::make_mut(part)?;
    own.put(at, item)
}
