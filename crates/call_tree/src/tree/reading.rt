//! What a tree answers of its stacks and names.

ghost use Rattle.std.specs.Prelude.{◌≡◌, ◌<◌, ◌+◌, ℕ, filter, length, map, string_bytes, take, All, MatchOption, IfOk};
ghost use Rattle.std.specs.Prelude.{OnOk, IsSorted};
ghost use Rattle.std.specs.List.{join_with_byte};
ghost use Rattle.profile_rows.specs.Names.{IsName};
ghost use Rattle.profile_rows.specs.StackTexts.{AreStackTexts};
ghost use Rattle.profile_rows.specs.Aggregate.{AreRowsOf, aggregates_of, weight_in, with_rows, rows_of};
ghost use Rattle.profile_rows.specs.TopList.{AreSumsOf};
ghost use Rattle.profile_rows.specs.Values.{value_of};
ghost use Rattle.profile_rows.specs.Merging.{row_at};
ghost use Rattle.call_tree.specs.State.{weights_of, nodes_at, plain_at, stack_at, has_weight};
ghost use Rattle.call_tree.specs.Totals.{IsAddable, below_with, sums_with};

use super::CallTree;
use crate::node::Node;
use profile_rows::{
    Batch, FrameTotal, MAX_DEPTH, Name, NoMemory, Stack, StackText, WeightedStack, WeightedStacks,
    Weights, Width, aggregate, aggregate_stacks, push_joined,
};
use std::alloc::{AllocError, Global};

/// The flat and the cumulative weight of a name.
#[derive(Clone, Copy)]
struct Sums {
    flat: u64,
    cum: u64,
}

/// Adds the node in this slot to what its name weighs, and with what stands below it to what stands below its parent.
fn add_node(sums: &mut Vec<Sums>, below: &mut Vec<u64>, node: Node, slot: usize)
    requires { IsAddable sums.old.items below.old.items node slot }
    ensures sums { sums.new.items ≡ sums_with sums.old.items below.old.items node slot }
    ensures below { below.new.items ≡ below_with below.old.items node slot }
{
    let whole = node.own + below[slot];
    below[node.parent as usize] += whole;
    let sum = &mut sums[node.name as usize];
    sum.flat += node.own;
    if node.counts {
        sum.cum += whole;
    }
}

impl CallTree {
    ghost use Rattle.call_tree.specs.Totals.{AreSums, name_order};

    /// The weights of exactly this stack, 0 where it has none.
    pub fn self_weight(&self, stack: &Stack) -> Weights
        ensures width { length result ≡ self.now.width }
        ensures weights { (value : ℕ) → value_of value result ≡ weight_in (weights_of self.now value) stack.now }
    {
        self.facts();
        let width = self.nodes.width();
        let count = width.get();
        let mut weights = [0; 4];
        if let Some(slot) = self.slot_of(stack) {
            for value in 0..count {
                weights[value as usize] = self.weight(value, slot);
            }
        }
        weights_from(&weights, width)
    }

    /// What a node weighs by a value.
    fn weight(&self, value: u32, slot: usize) -> u64
        requires value { value < self.now.width }
        requires within { slot < length (nodes_at self.now 0) }
        ensures { result ≡ (row_at (nodes_at self.now value) slot).weight }
    {
        self.facts();
        self.nodes.weight(value, slot)
    }

    /// The node of exactly this stack, where there is one. One pass over the nodes, since a node stands after its
    /// parent.
    fn slot_of(&self, stack: &Stack) -> Option<usize>
        ensures { MatchOption result
            ((k : ℕ) → k < length (nodes_at self.now 0) → stack_at (nodes_at self.now 0) k ≡ stack.now → ⊥)
            (λ slot. (slot < length (nodes_at self.now 0)) × (stack_at (nodes_at self.now 0) slot ≡ stack.now)) }
    {
        self.nodes.facts();
        let frames = stack.names();
        let mut slot = 0usize;
        let mut depth = 0usize;
        for index in 1..self.nodes.len() {
            if depth == frames.len() {
                break;
            }
            let link = self.nodes.link(index);
            if link.parent as usize == slot
                && *self.names.read(link.name as usize) == frames[depth]
            {
                slot = index;
                depth += 1;
            }
        }
        if depth == frames.len() {
            Some(slot)
        } else {
            None
        }
    }

    /// The flat and the cumulative weight of each name, by its number: one pass over the nodes, from the last to the
    /// first, so that what stands below a node is known before it.
    fn sums(&self, alloc: Global, value: u32) -> Result<Vec<Sums>, AllocError>
        requires { value < self.now.width }
        ensures { IfOk result (λ sums. AreSums (plain_at self.now value) sums.items) }
    {
        self.nodes.facts();
        let mut sums = vec![in alloc; Sums { flat: 0, cum: 0 }; self.names.len()]?;
        let mut below = vec![in alloc; 0u64; self.nodes.len()]?;
        let mut left = self.nodes.len();
        while left > 1 {
            left -= 1;
            add_node(&mut sums, &mut below, self.nodes.read(value, left), left);
        }
        Ok(sums)
    }

    /// The names of cumulative weight above 0 with their weights, by their numbers.
    fn named_sums(&self, alloc: Global, value: u32) -> Result<Vec<FrameTotal>, NoMemory>
        requires { value < self.now.width }
        ensures { IfOk result (λ totals. AreSumsOf (rows_of (weights_of self.now value)) totals.items) }
    {
        let sums = self.sums(alloc, value)?;
        let mut totals = Vec::new(alloc);
        for number in 0..sums.len() {
            let sum = sums[number];
            if sum.cum > 0 {
                let name = self.names.read(number).clone()?;
                totals.push(FrameTotal {
                    name,
                    flat: sum.flat,
                    cum: sum.cum,
                })?;
            }
        }
        Ok(totals)
    }

    /// Each name of cumulative weight above 0 by a value once, with its flat and its cumulative weight, in the order of
    /// names.
    ///
    /// # Errors
    ///
    /// `NoMemory`.
    pub fn frame_totals(&self, alloc: Global, value: u32) -> Result<Vec<FrameTotal>, NoMemory>
        requires { value < self.now.width }
        ensures sums { IfOk result (λ totals. AreSumsOf (rows_of (weights_of self.now value)) totals.items) }
        ensures sorted { IfOk result (λ totals. IsSorted name_order totals.items) }
    {
        let mut totals = self.named_sums(alloc, value)?;
        totals.sort_by(|left, right| left.name.cmp(&right.name))?;
        Ok(totals)
    }

    /// The names of a node's stack, root first, in the place of others: those on the way to the root, turned round.
    fn replace_names<'a>(&'a self, names: &mut Vec<&'a Name>, at: usize) -> Result<(), AllocError>
        requires { at < length (nodes_at self.now 0) }
        ensures { OnOk result (map (λ name. name.now) names.new.items ≡ stack_at (nodes_at self.now 0) at) }
    {
        self.nodes.facts();
        names.clear();
        let mut slot = at;
        while slot != 0 {
            let link = self.nodes.link(slot);
            names.push(self.names.read(link.name as usize))?;
            slot = link.parent as usize;
        }
        names.reverse();
        Ok(())
    }

    /// The stack of a node. The buffer's room is used again from node to node.
    fn stack_of<'a>(
        &'a self,
        alloc: Global,
        names: &mut Vec<&'a Name>,
        at: usize,
    ) -> Result<Stack, NoMemory>
        requires { at < length (nodes_at self.now 0) }
        ensures { IfOk result (λ stack. stack ≡ stack_at (nodes_at self.now 0) at) }
    {
        self.facts();
        self.replace_names(names, at)?;
        let shares = shares_of(alloc, names.as_slice())?;
        let fits = shares.len() <= MAX_DEPTH;
        prove!(fits);
        match Stack::make(shares) {
            Ok(stack) => Ok(stack),
            Err(_) => Err(NoMemory),
        }
    }

    /// The stacks of weight above 0 by a value, by their nodes.
    fn weighted_rows(&self, alloc: Global, value: u32) -> Result<WeightedStacks, NoMemory>
        requires { value < self.now.width }
        ensures { IfOk result (λ rows. rows ≡ filter has_weight (nodes_at self.now value)) }
    {
        self.facts();
        let mut rows = WeightedStacks::new(alloc);
        let mut names = Vec::new(alloc);
        for index in 0..self.len() {
            let weight = self.weight(value, index);
            if weight > 0 {
                let stack = self.stack_of(alloc, &mut names, index)?;
                rows.push(stack, weight).map_err(|_| NoMemory)?;
            }
        }
        Ok(rows)
    }

    /// Each stack of weight above 0 by a value once, with its weight, in the order of stacks. Stacks are compared name
    /// by name.
    ///
    /// # Errors
    ///
    /// `NoMemory`.
    pub fn weighted_stacks(&self, alloc: Global, value: u32) -> Result<WeightedStacks, NoMemory>
        requires { value < self.now.width }
        ensures { IfOk result (λ batch. batch ≡ rows_of (weights_of self.now value)) }
    {
        let rows = self.weighted_rows(alloc, value)?;
        aggregate_stacks(alloc, rows)
    }

    /// The text of a node's stack. The buffers' room is used again from node to node.
    fn stack_text<'a>(
        &'a self,
        alloc: Global,
        names: &mut Vec<&'a Name>,
        joined: &mut String,
        at: usize,
    ) -> Result<String, NoMemory>
        requires { at < length (nodes_at self.now 0) }
        ensures text { IfOk result
            (λ text. string_bytes text ≡ join_with_byte 59 (stack_at (nodes_at self.now 0) at)) }
        ensures names { OnOk result (All IsName (stack_at (nodes_at self.now 0) at)) }
    {
        self.replace_names(names, at)?;
        joined.clear();
        push_joined(joined, names.as_slice())?;
        Ok(String::from_str(alloc, joined.as_str())?)
    }

    /// Each stack of weight above 0 by a value once, as a text, with its weight, in no particular order. No name is
    /// shared for it.
    ///
    /// # Errors
    ///
    /// `NoMemory`.
    pub fn stack_texts(&self, alloc: Global, value: u32) -> Result<Vec<StackText>, NoMemory>
        requires { value < self.now.width }
        ensures { IfOk result (λ texts. AreStackTexts (weights_of self.now value) texts.items) }
    {
        self.facts();
        let mut texts = Vec::new(alloc);
        let mut names = Vec::new(alloc);
        let mut joined = String::new(alloc);
        for at in 0..self.len() {
            let weight = self.weight(value, at);
            if weight > 0 {
                let text = self.stack_text(alloc, &mut names, &mut joined, at)?;
                texts.push(StackText { text, weight })?;
            }
        }
        Ok(texts)
    }

    /// Each stack that weighs something by some value once, in the order of stacks, with all its values.
    ///
    /// # Errors
    ///
    /// `NoMemory`.
    pub fn rows(&self, alloc: Global) -> Result<Batch, NoMemory>
        ensures width { IfOk result (λ batch. batch.width ≡ self.now.width) }
        ensures rows { IfOk result (λ batch. AreRowsOf (weights_of self.now) batch.rows) }
    {
        self.facts();
        let width = self.nodes.width();
        let mut batch = Batch::new(alloc, width);
        for value in 0..width.get() {
            let rows = self.weighted_stacks(alloc, value)?;
            push_value(&mut batch, value, rows)?;
        }
        aggregate(alloc, &batch)
    }
}

/// Second owners of these names.
fn shares_of(alloc: Global, names: &[&Name]) -> Result<Vec<Name>, NoMemory>
    ensures { IfOk result (λ shares. shares.items ≡ map (λ name. name.now) names.now) }
{
    let mut shares = Vec::with_capacity(alloc, names.len())?;
    for name in names {
        shares.push((*name).clone()?)?;
    }
    Ok(shares)
}

/// For each of these rows one row more, which has its weight as this value and 0 as each other.
fn push_value(batch: &mut Batch, value: u32, rows: WeightedStacks) -> Result<(), NoMemory>
    requires { value < batch.old.width }
    ensures width { OnOk result (batch.new.width ≡ batch.old.width) }
    ensures here { OnOk result
        (aggregates_of batch.new.rows value ≡ with_rows (aggregates_of batch.old.rows value) rows) }
    ensures others { OnOk result ((other : ℕ) → (other ≡ value → ⊥)
        → aggregates_of batch.new.rows other ≡ aggregates_of batch.old.rows other) }
{
    let width = batch.width();
    for row in rows.into_rows() {
        let WeightedStack { stack, weight } = row;
        let weights = weighing(width, value, weight);
        if let Err(_) = batch.push(stack, weights) {
            return Err(NoMemory);
        }
    }
    Ok(())
}

/// This value, and 0 as each other.
fn weighing(width: Width, value: u32, weight: u64) -> Weights
    requires { value < width }
    ensures here { value_of value result ≡ weight }
    ensures others { (other : ℕ) → (other ≡ value → ⊥) → value_of other result ≡ 0 }
{
    let mut weights = [0; 4];
    weights[value as usize] = weight;
    weights_from(&weights, width)
}

/// The first of four weights, as many as the width says.
fn weights_from(weights: &[u64; 4], width: Width) -> Weights
    ensures { result ≡ take width weights.now }
{
    match Weights::make(&weights[..width.get() as usize]) {
        Some(weights) => weights,
        None => unreachable!(),
    }
}
