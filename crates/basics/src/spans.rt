//! Lists that stand with others in one vector.

ghost use Rattle.std.specs.Prelude.{◌≡◌, IfOk};
ghost use Rattle.basics.specs.Spans.{Grows, IsWithin, items_at};

use std::alloc::AllocError;

/// Where a list stands among the items of others. Places have 32 bits, which halves what spans take.
#[derive(Clone, Copy, Debug)]
pub struct Span {
    /// The index of its first item.
    pub start: u32,
    /// The index after its last item.
    pub end: u32,
}

impl Span {
    /// The list that stands there.
    pub fn of<'a, T>(&self, items: &'a [T]) -> &'a [T]
        requires { IsWithin items.now self.now }
        ensures { result.now ≡ items_at items.now self.now }
    {
        &items[self.start as usize..self.end as usize]
    }
}

/// A place in a list, where it has 32 bits.
fn place_of(place: usize) -> Result<u32, AllocError>
    ensures { IfOk result (λ it. it ≡ place) }
{
    u32::try_from(place).map_err(|_| AllocError)
}

/// Adds a list after the items of others, and says where it stands.
///
/// # Errors
///
/// `AllocError`, also where there would be 2^32 items; the items are then as they were, or more stand after them.
pub fn append<T: Copy>(all: &mut Vec<T>, items: &[T]) -> Result<Span, AllocError>
    ensures kept { Grows all.old.items all.new.items }
    ensures within { IfOk result (λ span. IsWithin all.new.items span) }
    ensures items { IfOk result (λ span. items_at all.new.items span ≡ items.now) }
{
    let start = place_of(all.len())?;
    all.extend_from_slice(items)?;
    let end = place_of(all.len())?;
    Ok(Span { start, end })
}
