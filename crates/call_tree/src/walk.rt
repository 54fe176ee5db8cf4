//! What planning remembers on its walks from the root, one for each row.

ghost use Rattle.std.specs.Prelude.{◌≡◌, ◌++◌, ◌∷◌, [], IfOk, OnOk, if◌then◌else◌, nat_eq};
ghost use Rattle.std.specs.List.{list_any};

use profile_rows::Name;
use std::alloc::{AllocError, Global};
use std::marker::Model;

/// A node, and the mark of the name by which it stands below its parent.
#[derive(Clone, Copy)]
struct Guess {
    node: u32,
    mark: u32,
}

/// The name numbers on this walk so far, as a sparse set that is emptied, asked and added to in one step each, and the
/// nodes that the walks before went through.
#[derive(Drop)]
pub struct Walk {
    /// Where a name may stand in `names`; any number for one that doesn't.
    positions: Vec<usize>,
    names: Vec<u32>,
    /// For each node the one below it that a walk entered last, or the root.
    guesses: Vec<Guess>,
}

impl Model for Walk {
    ghost use Rattle.std.specs.Prelude.{List, ℕ, ◌≡◌, ◌<◌, length, slice_index};

    ghost Value = { List ℕ };

    ghost view = { λ w. w.names.items };

    ghost invariant = { λ w. (k : ℕ) → k < length w.names.items
        → (slice_index w.names.items k < length w.positions.items)
        × (slice_index w.positions.items (slice_index w.names.items k) ≡ k) };
}

impl Walk {
    /// A walk that has met nothing. Takes no memory.
    pub fn new(alloc: Global) -> Walk
        ensures { result ≡ [] }
    {
        Walk {
            positions: Vec::new(alloc),
            names: Vec::new(alloc),
            guesses: Vec::new(alloc),
        }
    }

    /// Starts again at the root.
    pub fn start(&mut self)
        ensures { self.new ≡ [] }
    {
        self.names.clear();
    }

    /// Adds the name; whether it was there.
    pub fn add(&mut self, name: u32) -> Result<bool, AllocError>
        ensures there { IfOk result (λ there. there ≡ list_any (nat_eq name) self.old) }
        ensures ok { IfOk result (λ there. self.new ≡ (if there then self.old else self.old ++ name ∷ [])) }
    {
        while self.positions.len() <= name as usize {
            self.positions.push(0)?;
        }
        let position = self.positions[name as usize];
        if position < self.names.len() && self.names[position] == name {
            return Ok(true);
        }
        let position = self.names.len();
        self.names.push(name)?;
        self.positions[name as usize] = position;
        Ok(false)
    }

    /// The node that a walk entered last from this one, if its name may be this one, or the root. Whether it serves
    /// this walk is for the caller to see.
    pub fn guess(&self, parent: u32, name: &Name) -> u32 {
        match self.guesses.get(parent as usize) {
            Some(guess) if guess.mark == mark_of(name) => guess.node,
            _ => 0,
        }
    }

    /// Keeps a node as the guess below its parent by a name.
    pub fn keep(&mut self, parent: u32, name: &Name, node: u32) -> Result<(), AllocError>
        ensures { OnOk result (self.new ≡ self.old) }
    {
        let at = parent as usize;
        if at >= self.guesses.len() {
            self.guesses.resize(at + 1, Guess { node: 0, mark: 0 })?;
        }
        self.guesses[at] = Guess {
            node,
            mark: mark_of(name),
        };
        Ok(())
    }
}

/// The last bytes of a name as a number: names of other marks are other names.
fn mark_of(name: &Name) -> u32 {
    let bytes = name.text().as_bytes();
    let mut mark = 0u32;
    for byte in &bytes[bytes.len().saturating_sub(4)..] {
        mark = mark << 8 | u32::from(*byte);
    }
    mark
}
