//! The names met so far in a text.

ghost use Rattle.std.specs.Prelude.{◌≡◌, All, IfOk, map};
ghost use Rattle.profile_rows.specs.Names.{IsName};

use basics::NoMemory;
use profile_rows::{Hashing, Name, WeightedStack};
use std::alloc::Global;
use std::collections::HashMap;
use std::marker::Model;

/// The names met so far by their texts, so that each text is kept once and a frame costs a lookup and a share.
#[derive(Drop)]
pub struct KnownNames<'a> {
    names: HashMap<&'a str, Name, Hashing>,
}

impl<'a> Model for KnownNames<'a> {
    ghost use Rattle.name_counts.specs.KnownNames.{AreKept};

    ghost Value = { Unit {0} };

    ghost view = { λ _. tt };

    ghost invariant = { λ known. AreKept known.names };
}

impl<'a> KnownNames<'a> {
    /// No names yet, and `hashing` says how their texts will be hashed. Takes no memory.
    pub fn new(alloc: Global, hashing: Hashing) -> KnownNames<'a> {
        KnownNames {
            names: HashMap::with_hasher(alloc, hashing),
        }
    }

    /// The name of a text, kept now or before.
    pub fn name_of(&mut self, alloc: Global, text: &'a str) -> Result<Name, NoMemory>
        requires { IsName text.now }
        ensures { IfOk result (λ name. name ≡ text.now) }
    {
        if let Some(name) = self.names.get(text) {
            return Ok(name.clone()?);
        }
        let name = Name::keep(alloc, text)?;
        self.names.insert(text, name.clone()?)?;
        Ok(name)
    }

    /// The names of a row's frames, many of which the row before it may have at the same places.
    pub fn names_of(
        &mut self,
        alloc: Global,
        frames: &[&'a str],
        before: Option<&WeightedStack>,
    ) -> Result<Vec<Name>, NoMemory>
        requires { All IsName (map (λ frame. frame.now) frames.now) }
        ensures { IfOk result (λ names. names.items ≡ map (λ frame. frame.now) frames.now) }
    {
        let mut names = Vec::with_capacity(alloc, frames.len())?;
        for frame in frames {
            let like = before.and_then(|row| row.stack.names().get(names.len()));
            names.push(match like {
                Some(name) if name.text() == *frame => name.clone()?,
                _ => self.name_of(alloc, *frame)?,
            })?;
        }
        Ok(names)
    }
}
