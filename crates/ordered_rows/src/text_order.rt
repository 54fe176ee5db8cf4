//! Stack texts in the order of their stacks.

ghost use Rattle.std.specs.Prelude.{◌≡◌, ◌<◌, ◌≤◌};
ghost use Rattle.ordered_rows.specs.StackOrder.{rank_of, stack_text_cmp};

use std::cmp::Ordering;

/// Where a byte of a stack text stands: the semicolon before each byte of a name.
pub(crate) fn byte_rank(byte: u8) -> u16
    ensures { result ≡ rank_of byte }
{
    if byte == b';' { 0 } else { byte as u16 + 1 }
}

/// What is left of two texts past the chunks of so many bytes with which both begin.
fn past_equal_chunks<'a, const SIZE: usize>(left: &'a [u8], right: &'a [u8]) -> (&'a [u8], &'a [u8])
    requires some { 0 < SIZE }
    requires few { SIZE ≤ 32 }
    ensures { stack_text_cmp result.0.now result.1.now ≡ stack_text_cmp left.now right.now }
{
    let (mut rest, mut others) = (left, right);
    while let Some((chunk, after)) = rest.split_first_chunk::<SIZE>() {
        let Some((other, other_after)) = others.split_first_chunk::<SIZE>() else {
            return (rest, others);
        };
        if *chunk != *other {
            return (rest, others);
        }
        rest = after;
        others = other_after;
    }
    (rest, others)
}

/// Compares texts byte by byte.
fn cmp_bytes(left: &[u8], right: &[u8]) -> Ordering
    ensures { result ≡ stack_text_cmp left.now right.now }
{
    let (mut rest, mut others) = (left, right);
    while let Some((byte, after)) = rest.split_first() {
        let Some((other, other_after)) = others.split_first() else {
            return Ordering::Greater;
        };
        let found = byte_rank(*byte).cmp(&byte_rank(*other));
        if found.is_ne() {
            return found;
        }
        rest = after;
        others = other_after;
    }
    if others.is_empty() {
        Ordering::Equal
    } else {
        Ordering::Less
    }
}

/// Compares stack texts byte by byte, the semicolon lowest. Those without empty frames are then in the order of their
/// stacks.
pub(crate) fn cmp_stack_texts(left: &[u8], right: &[u8]) -> Ordering
    ensures { result ≡ stack_text_cmp left.now right.now }
{
    let (left, right) = past_equal_chunks::<32>(left, right);
    let (left, right) = past_equal_chunks::<8>(left, right);
    cmp_bytes(left, right)
}
