//! A row by the text of its stack.

ghost use Rattle.std.specs.Prelude.{ℕ, ◌≡◌, ◌+◌, ◌<◌, ◌^◌, ◌∷◌, drop};
ghost use Rattle.ordered_rows.specs.StackOrder.{IsFront, digits_of};
ghost use Rattle.ordered_rows.specs.SpelledRows.{by_text};

use crate::text_order::{byte_rank, cmp_stack_texts};
use std::cmp::Ordering;
use std::marker::Model;

/// A row whose stack a text spells. A contract sees the text and the weight.
#[derive(Drop)]
pub struct TextRow<'a> {
    text: &'a str,
    weight: u64,
    /// The first bytes of the text as one number, which decides the order of most texts.
    front: u64,
}

impl<'a> Model for TextRow<'a> {
    ghost use Rattle.profile_rows.specs.StackTexts.{TextState};
    ghost use Rattle.ordered_rows.specs.StackOrder.{IsFront};

    ghost Value = { TextState };

    ghost view = { λ row. record { text = row.text.now; weight = row.weight } };

    ghost invariant = { λ row. IsFront row.text.now row.front };
}

impl<'a> TextRow<'a> {
    /// The row of a stack text that is lent, and of a weight.
    pub fn new(text: &'a str, weight: u64) -> TextRow<'a>
        ensures { result ≡ record { text = text.now; weight = weight } }
    {
        TextRow {
            text,
            weight,
            front: front_of(text),
        }
    }

    /// The stack text.
    pub fn text(&self) -> &'a str
        ensures { result.now ≡ self.now.text }
    {
        self.text
    }

    /// The weight.
    pub fn weight(&self) -> u64
        ensures { result ≡ self.now.weight }
    {
        self.weight
    }

    /// Makes the row weigh so much more.
    pub fn add(&mut self, weight: u64)
        requires { self.old.weight + weight < 2 ^ 64 }
        ensures { self.new ≡ record { text = self.old.text; weight = self.old.weight + weight } }
    {
        self.weight += weight;
    }

    /// Compares the rows' texts by their bytes, the semicolon lowest. Texts without empty frames are then in the order
    /// of their stacks.
    pub fn cmp_text(&self, other: &TextRow) -> Ordering
        ensures { result ≡ by_text self.now other.now }
    {
        let fronts = self.front.cmp(&other.front);
        if fronts.is_ne() {
            return fronts;
        }
        cmp_stack_texts(after_front(self.text), after_front(other.text))
    }
}

/// What is after the first seven bytes of a text.
fn after_front(text: &str) -> &[u8]
    ensures { result.now ≡ drop 7 text.now }
{
    let bytes = text.as_bytes();
    &bytes[bytes.len().min(7)..]
}

/// Where the first byte of a text stands, the end before each byte, and what follows it.
fn first_rank(text: &[u8]) -> (u64, &[u8])
    ensures small { result.0 < 512 }
    ensures digits { (count : ℕ) → digits_of (count + 1) text.now ≡ result.0 ∷ digits_of count result.1.now }
{
    match text.split_first() {
        Some((byte, rest)) => (byte_rank(*byte) as u64 + 1, rest),
        None => (0, text),
    }
}

/// The first seven bytes of a text as one number.
fn front_of(text: &str) -> u64
    ensures { IsFront text.now result }
{
    let (first, after) = first_rank(text.as_bytes());
    let (second, after) = first_rank(after);
    let (third, after) = first_rank(after);
    let (fourth, after) = first_rank(after);
    let (fifth, after) = first_rank(after);
    let (sixth, after) = first_rank(after);
    let (seventh, _) = first_rank(after);
    let three = (first * 512 + second) * 512 + third;
    let five = (three * 512 + fourth) * 512 + fifth;
    (five * 512 + sixth) * 512 + seventh
}
