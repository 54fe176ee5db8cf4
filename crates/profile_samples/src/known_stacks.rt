//! Stacks by their texts, so that one that comes again isn't cut again.

ghost use Rattle.std.specs.Prelude.{◌≡◌, ◌++◌, ◌∷◌, [], OnOk, length, slice_get};
ghost use Rattle.std.specs.Option.{option_map};
ghost use Rattle.name_counts.specs.TextTables.{number_in};

use crate::frame_lists::FrameLists;
use basics::NoMemory;
use folded_text::saves_work;
use name_counts::TextTable;
use profile_rows::Hashing;
use std::alloc::Global;

/// The numbers of the names of stacks, by the stacks' texts. What is known of them is what contracts say of the texts
/// and the lists together.
#[derive(Drop)]
pub(crate) struct KnownStacks<'a> {
    /// The texts, each with the index of its list as its number.
    texts: TextTable<'a>,
    lists: FrameLists,
    /// How many lines were looked for, and how many bytes their stacks have.
    lines: u64,
    bytes: usize,
}

impl<'a> KnownStacks<'a> {
    /// No stack yet, and `hashing` says how texts will be hashed. Takes no memory.
    pub fn new(alloc: Global, hashing: Hashing) -> KnownStacks<'a>
        ensures { (result.texts.texts ≡ []) × (result.lists ≡ []) }
    {
        KnownStacks {
            texts: TextTable::new(alloc, hashing),
            lists: FrameLists::new(alloc),
            lines: 0,
            bytes: 0,
        }
    }

    /// Whether looking for stacks has saved work so far. Counts a line of this stack text.
    pub fn should_seek(&mut self, text: &str) -> bool
        ensures { (self.new.texts ≡ self.old.texts) × (self.new.lists ≡ self.old.lists) }
    {
        let saves = saves_work(self.texts.texts().len() as u64, self.lines, self.bytes);
        if saves {
            self.lines = self.lines.saturating_add(1);
            self.bytes = self.bytes.saturating_add(text.len());
        }
        saves
    }

    /// The numbers of the names of a stack's frames, where its text is known.
    pub fn find(&self, text: &str) -> Option<&[usize]>
        ensures { option_map (λ numbers. numbers.now) result
            ≡ slice_get self.now.lists (number_in self.now.texts.texts text.now) }
    {
        self.lists.get(self.texts.number_of(text))
    }

    /// Keeps the numbers of the names of a stack whose text isn't known.
    pub fn add(&mut self, text: &'a str, numbers: &[usize]) -> Result<(), NoMemory>
        requires { number_in self.old.texts.texts text.now ≡ length self.old.texts.texts }
        ensures { OnOk result ((self.new.texts.texts ≡ self.old.texts.texts ++ text.now ∷ [])
            × (self.new.lists ≡ self.old.lists ++ numbers.now ∷ [])) }
    {
        self.lists.push(numbers)?;
        self.texts.add(text)
    }
}
