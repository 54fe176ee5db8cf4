//! Texts that are numbered as they come.
#![tactic(auto, using(crate::proofs::Steps::text_table))]

ghost use Rattle.std.specs.Prelude.{◌≡◌, ◌<◌, ◌^◌, [], IfOk, OnErr, OnOk, map};
ghost use Rattle.name_counts.specs.TextTables.{number_in, with_text};

use basics::NoMemory;
use bumpalo::Bump;
use indexmap::IndexSet;
use profile_rows::Hashing;
use std::alloc::Global;
use std::marker::Model;

/// Distinct texts in the order in which they came, each found by its bytes. A contract sees the list of them, and how
/// they are hashed.
#[derive(Drop)]
pub struct TextTable<'a> {
    texts: IndexSet<&'a str, Hashing>,
}

impl<'a> Model for TextTable<'a> {
    ghost use Rattle.std.specs.Prelude.{map};
    ghost use Rattle.indexmap.specs.IndexSet.{hasher_of};
    ghost use Rattle.name_counts.specs.TextTables.{NumberedTexts};

    ghost Value = { NumberedTexts };

    ghost view = { λ table. record {
      texts = map (λ text. text.now) table.texts.keys;
      hashing = hasher_of table.texts;
    } };
}

impl<'a> TextTable<'a> {
    /// No texts yet, and `hashing` says how they will be hashed. Takes no memory.
    pub fn new(alloc: Global, hashing: Hashing) -> TextTable<'a>
        ensures { result ≡ record { texts = []; hashing = hashing } }
    {
        TextTable {
            texts: IndexSet::with_hasher(alloc, hashing),
        }
    }

    /// The texts, in order.
    pub fn texts(&self) -> &[&'a str]
        ensures { map (λ text. text.now) result.now ≡ self.now.texts }
    {
        self.texts.as_slice()
    }

    /// The number of a text; where it is missing, how many texts there are.
    #[inline(always)]
    pub fn number_of(&self, text: &str) -> usize
        ensures number { result ≡ number_in self.now.texts text.now }
        ensures fits { result < 2 ^ 63 }
    {
        self.texts.get_index_of(text).unwrap_or(self.texts.len())
    }

    /// Adds a text, which isn't added again where it is there.
    ///
    /// # Errors
    ///
    /// `NoMemory`; the table is then as it was.
    pub fn add(&mut self, text: &'a str) -> Result<(), NoMemory>
        ensures texts { OnOk result (self.new.texts ≡ with_text self.old.texts text.now) }
        ensures kept { OnErr result (self.new ≡ self.old) }
    {
        self.texts.insert(text)?;
        Ok(())
    }

    /// The number of a text, of which a copy in the arena is added where it is missing.
    ///
    /// # Errors
    ///
    /// `NoMemory`; the table is then as it was.
    #[inline(always)]
    pub(crate) fn number_with(&mut self, arena: &'a Bump, text: &str) -> Result<usize, NoMemory>
        ensures texts { OnOk result (self.new.texts ≡ with_text self.old.texts text.now) }
        ensures number { IfOk result (λ number. number ≡ number_in (with_text self.old.texts text.now) text.now) }
        ensures fits { IfOk result (λ number. number < 2 ^ 63) }
        ensures kept { OnErr result (self.new ≡ self.old) }
    {
        let number = self.number_of(text);
        if number == self.texts.len() {
            self.add(arena.try_alloc_str(text)?)?;
        }
        Ok(number)
    }
}
