//! Pages of items.

ghost use Rattle.std.specs.Prelude.{◌≡◌, ◌<◌, ◌≤◌, ◌+◌, ◌^◌, ◌++◌, ◌∷◌, [], length, take, IfOk, MatchResult};
ghost use Rattle.std.specs.Prelude.{slice_set, slice_index_or};
ghost use Rattle.std.specs.Arc.{arc_value};
ghost use Rattle.shared_pages.specs.Pages.{IsInPages, last_items, with_item};

use crate::page::Page;
use crate::part::Part;
use crate::table::{Table, put_in_part};
use std::alloc::{AllocError, Global};
use std::clone::Clone;
use std::marker::Model;
use std::sync::Arc;

/// How many of the last items stand apart at most.
const LAST: usize = 64;

/// Pages of 256 items, in groups of 16, and these on shelves of 16 groups.
type Shelves<T> = Table<T, Table<T, Table<T, Page<T, 256>>>>;

/// A list that only grows. Its last items, 64 at most, stand in a page of their own, and all others on shelves, in
/// pages of 256. Each page may have several owners, and so may the tables above it, so [`share`](Pages::share) copies
/// nothing. An item that is replaced or appended has its page copied before, unless nobody else owns it, and on shelves
/// the tables that lead to it too.
#[derive(Drop)]
pub struct Pages<T> {
    alloc: Global,
    /// The first items, and perhaps some more, which don't count.
    shelves: Arc<Shelves<T>>,
    /// How many of the items on shelves count.
    shelved: usize,
    /// The page of the last items, where there are some.
    last: Option<Arc<Page<T, LAST>>>,
    len: usize,
}

impl<T> Model for Pages<T> {
    ghost use Rattle.std.specs.Arc.{arc_value};
    ghost use Rattle.std.specs.Prelude.{List, ◌++◌, take};
    ghost use Rattle.shared_pages.specs.Pages.{IsInPages, last_items};

    ghost Value = { List T };

    ghost view = { λ p. take p.shelved (arc_value p.shelves) ++ last_items p.last };

    ghost invariant = { λ p. IsInPages (arc_value p.shelves) p.shelved (last_items p.last) p.len };
}

impl<T> Pages<T> {
    /// No items.
    ///
    /// # Errors
    ///
    /// `AllocError`, where memory runs out.
    pub fn new(alloc: Global) -> Result<Pages<T>, AllocError>
    where
        T: Drop,
        ensures { IfOk result (λ pages. pages ≡ []) }
    {
        let shelves = Arc::new(alloc, Table::new(alloc)?)?;
        Ok(Pages {
            alloc,
            shelves,
            shelved: 0,
            last: None,
            len: 0,
        })
    }

    /// How many items there are.
    pub fn len(&self) -> usize
        ensures { result ≡ length self.now }
    {
        self.len
    }

    /// The item at this place. The clause has the form of std's for `[]`: where a default is asked for stands the item
    /// itself, since a default counts only past the end, and the place is before it.
    pub fn read(&self, at: usize) -> &T
        requires { at < length self.now }
        ensures { result.now ≡ slice_index_or self.now at result.now }
    {
        match &self.last {
            Some(page) if at >= self.shelved => page.read(at - self.shelved),
            _ => self.shelves.read(at),
        }
    }

    /// Another owner of the same pages. Takes no memory.
    ///
    /// # Errors
    ///
    /// `AllocError`, where they have as many owners as they can have.
    pub fn share(&self) -> Result<Pages<T>, AllocError>
    where
        T: Drop,
        ensures { IfOk result (λ pages. pages ≡ self.now) }
    {
        Ok(Pages {
            alloc: self.alloc,
            shelves: Arc::try_clone(&self.shelves)?,
            shelved: self.shelved,
            last: share_last(&self.last)?,
            len: self.len,
        })
    }
}

impl<T: Clone + Drop> Pages<T> {
    /// Puts an item in place of another. What other owners hold stays.
    ///
    /// # Errors
    ///
    /// `AllocError`, where memory runs out for a page's copy. All items stay then.
    pub fn replace(&mut self, at: usize, item: T) -> Result<(), AllocError>
        requires exact { (x y : T) → T.is_clone x y → y ≡ x }
        requires within { at < length self.old }
        ensures { MatchResult result (λ _. self.new ≡ slice_set self.old at item) (λ _. self.new ≡ self.old) }
    {
        if at < self.shelved {
            put_in_part(&mut self.shelves, at, item)
        } else {
            put_last(self.alloc, &mut self.last, at - self.shelved, item)
        }
    }

    /// One more item, at the end. What other owners hold stays.
    ///
    /// # Errors
    ///
    /// `AllocError`, where memory runs out. All items stay then.
    pub fn append(&mut self, item: T) -> Result<(), AllocError>
        requires exact { (x y : T) → T.is_clone x y → y ≡ x }
        ensures { MatchResult result (λ _. self.new ≡ self.old ++ item ∷ []) (λ _. self.new ≡ self.old) }
    {
        let Some(len) = self.len.checked_add(1) else {
            return Err(AllocError);
        };
        self.shelved = shelve_full(&mut self.shelves, self.shelved, &mut self.last, self.len)?;
        put_last(self.alloc, &mut self.last, self.len - self.shelved, item)?;
        self.len = len;
        Ok(())
    }
}

impl<T: Drop> Clone for Pages<T> {
    ghost use Rattle.std.specs.Prelude.{◌≡◌};

    ghost is_clone = { λ pages clone. clone ≡ pages };

    fn clone(&self) -> Result<Pages<T>, AllocError> {
        self.share()
    }
}

/// Another owner of the page of the last items.
fn share_last<T: Drop>(
    last: &Option<Arc<Page<T, LAST>>>,
) -> Result<Option<Arc<Page<T, LAST>>>, AllocError>
    ensures { IfOk result (λ shared. last_items shared ≡ last_items last.now) }
{
    match last {
        Some(page) => Ok(Some(Arc::try_clone(page)?)),
        None => Ok(None),
    }
}

/// Puts an item at its place among the last ones, whose page is copied before where it has other owners.
fn put_last<T: Clone + Drop>(
    alloc: Global,
    last: &mut Option<Arc<Page<T, LAST>>>,
    at: usize,
    item: T,
) -> Result<(), AllocError>
    requires exact { (x y : T) → T.is_clone x y → y ≡ x }
    requires within { at ≤ length (last_items last.old) }
    ensures { MatchResult result (λ _. last_items last.new ≡ with_item at item (last_items last.old))
        (λ _. last_items last.new ≡ last_items last.old) }
{
    if let Some(page) = last {
        return Arc::make_mut(page)?.put(at, item);
    }
    let mut page = Page::new(alloc)?;
    page.put(at, item)?;
    *last = Some(Arc::new(alloc, page)?);
    Ok(())
}

/// Where there are as many last items as may be, puts them on shelves too. How many of the items on shelves count then.
/// All items stay, also where memory runs out.
fn shelve_full<T: Clone + Drop>(
    shelves: &mut Arc<Shelves<T>>,
    shelved: usize,
    last: &mut Option<Arc<Page<T, LAST>>>,
    len: usize,
) -> Result<usize, AllocError>
    requires exact { (x y : T) → T.is_clone x y → y ≡ x }
    requires pages { IsInPages (arc_value shelves.old) shelved (last_items last.old) len }
    ensures { MatchResult result (λ count. IsInPages (arc_value shelves.new) count (last_items last.new) len
        × (take count (arc_value shelves.new) ++ last_items last.new
        ≡ take shelved (arc_value shelves.old) ++ last_items last.old) × (length (last_items last.new) < 64))
        (λ _. IsInPages (arc_value shelves.new) shelved (last_items last.new) len
        × (take shelved (arc_value shelves.new) ++ last_items last.new
        ≡ take shelved (arc_value shelves.old) ++ last_items last.old)) }
{
    match &*last {
        Some(page) if page.len() == LAST => put_all(shelves, shelved, page)?,
        _ => return Ok(shelved),
    }
    *last = None;
    Ok(len)
}

/// Puts copies of items on shelves, from a place on. What stands before it stays, also where memory runs out.
fn put_all<T: Clone + Drop>(
    shelves: &mut Arc<Shelves<T>>,
    from: usize,
    items: &Page<T, LAST>,
) -> Result<(), AllocError>
    requires exact { (x y : T) → T.is_clone x y → y ≡ x }
    requires within { from ≤ length (arc_value shelves.old) }
    requires few { from + length items.now < 2 ^ 64 }
    ensures { MatchResult result (λ _. (take (from + length items.now) (arc_value shelves.new)
        ≡ take from (arc_value shelves.old) ++ items.now)
        × (from + length items.now ≤ length (arc_value shelves.new)))
        (λ _. (take from (arc_value shelves.new) ≡ take from (arc_value shelves.old))
        × (from ≤ length (arc_value shelves.new))) }
{
    for index in 0..items.len() {
        let item = items.read(index).clone()?;
        put_in_part(shelves, from + index, item)?;
    }
    Ok(())
}
