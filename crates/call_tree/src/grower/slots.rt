//! The nodes of rows, found in the index or made.

ghost use Rattle.std.specs.Prelude.{◌≡◌, ◌<◌, ◌+◌, ◌≤◌, ◌++◌, ◌∷◌, ℕ, [], length, not, IfOk};
ghost use Rattle.profile_rows.specs.Limits.{most_frames};
ghost use Rattle.profile_rows.specs.Rows.{has_name};
ghost use Rattle.call_tree.specs.State.{IsFresh, AreGrown, HasMoreNames, HasMoreNodes, nodes_at, plain_at, name_at};
ghost use Rattle.call_tree.specs.State.{stack_at};
ghost use Rattle.call_tree.specs.Plans.{AreFirstSlots, IsSlot};
ghost use Rattle.call_tree.specs.Walks.{IsOnPath};

use super::Grower;
use crate::walk::Walk;
use profile_rows::{Name, NoMemory, Stack, WeightedStacks};
use std::alloc::Global;
use std::sync::Arc;

impl Grower {
    /// The nodes of rows, one for each row, with new nodes where there are none.
    pub(super) fn slots_of(
        &mut self,
        alloc: Global,
        batch: &WeightedStacks,
        walk: &mut Walk,
    ) -> Result<Vec<u32>, NoMemory>
        ensures slots { IfOk result
            (λ slots. AreFirstSlots (plain_at self.new 0) batch.now slots.items (length batch.now)) }
        ensures grown { AreGrown self.old self.new }
    {
        let rows = batch.rows();
        let mut slots = Vec::with_capacity(alloc, rows.len())?;
        for row in rows {
            let node = self.grow(&row.stack, walk)?;
            slots.push(node)?;
        }
        Ok(slots)
    }

    /// The node of a stack, with new nodes of weight 0 where there are none.
    pub(super) fn grow(&mut self, stack: &Stack, walk: &mut Walk) -> Result<u32, NoMemory>
        ensures node { IfOk result (IsSlot (plain_at self.new 0) stack.now) }
        ensures grown { AreGrown self.old self.new }
    {
        walk.start();
        self.tree.facts();
        let frames = stack.names();
        let mut slot = 0u32;
        for depth in 0..frames.len() {
            slot = self.enter(frames, depth, slot, walk)?;
        }
        Ok(slot)
    }

    /// One frame further. Where the row before went on by the same name, its node is taken, and nothing is looked up.
    fn enter(
        &mut self,
        frames: &[Name],
        depth: usize,
        slot: u32,
        walk: &mut Walk,
    ) -> Result<u32, NoMemory>
        requires within { depth < length frames.now }
        requires deep { length frames.now ≤ most_frames }
        requires path { IsOnPath (plain_at self.old 0) walk.old frames.now depth slot }
        ensures path { IfOk result (λ child. IsOnPath (plain_at self.new 0) walk.new frames.now (depth + 1) child) }
        ensures grown { AreGrown self.old self.new }
    {
        self.tree.facts();
        let name = &frames[depth];
        let guess = walk.guess(slot, name);
        if let Some(number) = self.tree.number_below(slot, guess, name) {
            let _there = walk.add(number)?;
            return Ok(guess);
        }
        let child = self.look_up(frames, depth, slot, walk)?;
        walk.keep(slot, name, child)?;
        Ok(child)
    }

    /// One frame further, by its name's number and the index.
    fn look_up(
        &mut self,
        frames: &[Name],
        depth: usize,
        slot: u32,
        walk: &mut Walk,
    ) -> Result<u32, NoMemory>
        requires within { depth < length frames.now }
        requires deep { length frames.now ≤ most_frames }
        requires path { IsOnPath (plain_at self.old 0) walk.old frames.now depth slot }
        ensures path { IfOk result (λ child. IsOnPath (plain_at self.new 0) walk.new frames.now (depth + 1) child) }
        ensures grown { AreGrown self.old self.new }
    {
        let number = self.intern(&frames[depth])?;
        let there = walk.add(number)?;
        self.tree.facts();
        self.child(slot, number, !there)
    }

    /// The number of a name, a new one where it has none.
    fn intern(&mut self, name: &Name) -> Result<u32, NoMemory>
        ensures number { IfOk result
            (λ number. (number < length self.new.names) × (name_at self.new.names number ≡ name.now)) }
        ensures names { HasMoreNames self.old self.new }
    {
        match self.numbers.get_index_of(name) {
            Some(number) => number_of(number),
            None => self.add_name(name),
        }
    }

    /// A name that has no number yet, with the next one. Nothing is changed where memory runs out.
    fn add_name(&mut self, name: &Name) -> Result<u32, NoMemory>
        requires { (k : ℕ) → k < length self.old.names → name_at self.old.names k ≡ name.now → ⊥ }
        ensures number { IfOk result
            (λ number. (number < length self.new.names) × (name_at self.new.names number ≡ name.now)) }
        ensures names { HasMoreNames self.old self.new }
    {
        let number = number_of(self.numbers.len())?;
        let listed = name.clone()?;
        let key = name.clone()?;
        self.numbers.reserve(1)?;
        self.tree.facts();
        Arc::make_mut(&mut self.tree)?.append_name(listed)?;
        let _ = self.numbers.insert(key);
        Ok(number)
    }

    /// The node of a child, a new one where there is none.
    fn child(&mut self, parent: u32, name: u32, counts: bool) -> Result<u32, NoMemory>
        requires parent { parent < length (nodes_at self.old 0) }
        requires name { name < length self.old.names }
        requires counts { counts
            ≡ not (has_name (name_at self.old.names name) (stack_at (nodes_at self.old 0) parent)) }
        requires deep { length (stack_at (nodes_at self.old 0) parent) < most_frames }
        ensures child { IfOk result (IsSlot (plain_at self.new 0)
            (stack_at (nodes_at self.old 0) parent ++ name_at self.old.names name ∷ [])) }
        ensures nodes { HasMoreNodes self.old self.new }
    {
        match self.index.get(&(parent, name)) {
            Some(child) => Ok(*child),
            None => self.add_child(parent, name, counts),
        }
    }

    /// A child that isn't there yet. Nothing is changed where memory runs out.
    fn add_child(&mut self, parent: u32, name: u32, counts: bool) -> Result<u32, NoMemory>
        requires { IsFresh (plain_at self.old 0) parent name counts }
        ensures child { IfOk result (IsSlot (plain_at self.new 0)
            (stack_at (nodes_at self.old 0) parent ++ name_at self.old.names name ∷ [])) }
        ensures nodes { HasMoreNodes self.old self.new }
    {
        let number = number_of(self.tree.len())?;
        self.index.reserve(1)?;
        self.tree.facts();
        Arc::make_mut(&mut self.tree)?.append_node(parent, name, counts)?;
        let _ = self.index.insert((parent, name), number);
        Ok(number)
    }
}

/// A length as a number of 32 bits.
fn number_of(len: usize) -> Result<u32, NoMemory>
    ensures { IfOk result (λ number. number ≡ len) }
{
    match u32::try_from(len) {
        Ok(number) => Ok(number),
        Err(_) => Err(NoMemory),
    }
}
