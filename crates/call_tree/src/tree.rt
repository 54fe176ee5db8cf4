//! The call tree: nodes with links to their parents, each with the weight of its stack alone.

ghost use Rattle.std.specs.Prelude.{◌≡◌, ◌<◌, ◌+◌, ◌++◌, ◌∷◌, ◌^◌, ℕ, [], length, IfOk, IfSome};
ghost use Rattle.std.specs.Prelude.{MatchResult, OnOk};
ghost use Rattle.profile_rows.specs.Rows.{total_of};
ghost use Rattle.profile_rows.specs.Values.{value_of, rows_at};
ghost use Rattle.profile_rows.specs.Merging.{with_added_at};
ghost use Rattle.call_tree.specs.State.{TreeState, weights_of, total_in, nodes_at, plain_at, name_at};
ghost use Rattle.call_tree.specs.State.{IsAppended, IsChild, IsFresh, AreStates};
ghost use Rattle.call_tree.specs.Nodes.{AreTrees, AreTreesBut, nodes_of, plain_of};
ghost use Rattle.call_tree.specs.Shape.{node_rows};
ghost use Rattle.call_tree.specs.Plans.{AreSlots, AreCredited, IsCredited};

use crate::node::Link;
use crate::nodes::Nodes;
use profile_rows::{Batch, Name, NoMemory, Weights, Width};
use shared_pages::Pages;
use std::alloc::{AllocError, Global};
use std::clone::Clone;
use std::marker::Model;

mod reading;

/// Stacks with their weights. What the calls answer depends on the weights of the stacks alone, not on how the tree
/// grew.
#[derive(Drop)]
pub struct CallTree {
    names: Pages<Name>,
    nodes: Nodes,
    /// The weight of all nodes together by each value.
    total: Weights,
}

impl Model for CallTree {
    ghost use Rattle.call_tree.specs.State.{TreeState};
    ghost use Rattle.call_tree.specs.Nodes.{tree_of, AreTrees, HasTotal};

    ghost Value = { TreeState };

    ghost view = { λ t. tree_of t.names t.nodes };

    ghost invariant = { λ t. AreTrees t.names t.nodes × HasTotal (tree_of t.names t.nodes) t.total };
}

impl Clone for CallTree {
    ghost use Rattle.std.specs.Prelude.{◌≡◌};

    ghost is_clone = { λ tree clone. clone ≡ tree };

    fn clone(&self) -> Result<CallTree, AllocError> {
        Ok(CallTree {
            names: self.names.share()?,
            nodes: self.nodes.share()?,
            total: self.total,
        })
    }
}

impl CallTree {
    /// How many values a stack has.
    pub fn width(&self) -> Width
        ensures { result ≡ self.now.width }
    {
        self.nodes.width()
    }

    /// The weight of all stacks together by each value. Takes no time per stack.
    pub fn total(&self) -> Weights
        ensures totals { (value : ℕ) → value_of value result ≡ total_in (weights_of self.now value) }
        ensures width { length result ≡ self.now.width }
        ensures fits { (value : ℕ) → total_in (weights_of self.now value) < 2 ^ 63 }
    {
        self.facts();
        self.total
    }

    /// Another owner of this tree: what becomes of one shows in no other.
    ///
    /// # Errors
    ///
    /// `NoMemory`.
    pub fn share(&self) -> Result<CallTree, NoMemory>
        ensures { IfOk result (λ tree. tree ≡ self.now) }
    {
        Ok(self.clone()?)
    }

    /// This tree with the rows of a batch, each at its node. Nothing of this tree changes.
    pub(crate) fn with_batch(&self, batch: &Batch, slots: &[u32]) -> Result<CallTree, NoMemory>
        requires width { batch.now.width ≡ self.now.width }
        requires slots { AreSlots (plain_at self.now 0) batch.now.rows slots.now }
        requires fits { (value : ℕ)
            → total_of (nodes_at self.now value) + total_of (rows_at value batch.now.rows) < 2 ^ 63 }
        ensures { IfOk result (λ next. AreCredited self.now next batch.now.rows self.now.width) }
    {
        self.share()?.add_batch(batch, slots)
    }

    /// The tree with the rows of a batch, each at its node. Pages that nobody else owns change in place.
    pub(crate) fn add_batch(self, batch: &Batch, slots: &[u32]) -> Result<CallTree, NoMemory>
        requires width { batch.now.width ≡ self.width }
        requires slots { AreSlots (plain_at self 0) batch.now.rows slots.now }
        requires fits { (value : ℕ)
            → total_of (nodes_at self value) + total_of (rows_at value batch.now.rows) < 2 ^ 63 }
        ensures { IfOk result (λ next. AreCredited self next batch.now.rows self.width) }
    {
        self.facts();
        let CallTree {
            names,
            mut nodes,
            total,
        } = self;
        for value in 0..nodes.width().get() {
            add_rows(&names, &mut nodes, value, batch, slots)?;
        }
        Ok(CallTree {
            names,
            nodes,
            total: total.plus(&batch.total()),
        })
    }

    /// Adds a batch of one row of one value, at the row's node. Nothing changes where memory runs out.
    pub(crate) fn add_row(&mut self, batch: &Batch, slot: u32) -> Result<(), AllocError>
        requires single { self.old.width ≡ 1 }
        requires width { batch.now.width ≡ 1 }
        requires one { length batch.now.rows ≡ 1 }
        requires slot { AreSlots (plain_at self.old 0) batch.now.rows (slot ∷ []) }
        requires fits { total_of (nodes_at self.old 0) + total_of (rows_at 0 batch.now.rows) < 2 ^ 63 }
        ensures { MatchResult result (λ _. AreCredited self.old self.new batch.now.rows 1)
            (λ _. self.new ≡ self.old) }
    {
        let weight = batch.weight(0, 0);
        add_weight(&self.names, &mut self.nodes, 0, slot, weight)?;
        self.total = self.total.plus(&batch.total());
        Ok(())
    }

    /// One more name, with the next number.
    pub(crate) fn append_name(&mut self, name: Name) -> Result<(), AllocError>
        requires { (k : ℕ) → k < length self.old.names → name_at self.old.names k ≡ name → ⊥ }
        ensures { MatchResult result (λ _. (self.new.width ≡ self.old.width)
            × (self.new.names ≡ self.old.names ++ name ∷ []) × (self.new.values ≡ self.old.values))
            (λ _. self.new ≡ self.old) }
    {
        self.names.append(name)?;
        Ok(())
    }

    /// One more node of weight 0 by each value, with the next number.
    pub(crate) fn append_node(
        &mut self,
        parent: u32,
        name: u32,
        counts: bool,
    ) -> Result<(), AllocError>
        requires { IsFresh (plain_at self.old 0) parent name counts }
        ensures { MatchResult result (λ _. IsAppended self.old parent name self.new) (λ _. self.new ≡ self.old) }
    {
        self.nodes.facts();
        self.nodes.append(Link {
            parent,
            name,
            counts,
        })?;
        Ok(())
    }

    /// The number of the name, where the node `child` stands below `parent` by that name.
    pub(crate) fn number_below(&self, parent: u32, child: u32, name: &Name) -> Option<u32>
        ensures { IfSome result
            (λ number. IsChild (plain_at self.now 0) parent number child
            × (name_at self.now.names number ≡ name.now)) }
    {
        self.nodes.facts();
        if child == 0 || child as usize >= self.nodes.len() {
            return None;
        }
        let link = self.nodes.link(child as usize);
        if link.parent == parent && *self.names.read(link.name as usize) == *name {
            Some(link.name)
        } else {
            None
        }
    }

    /// A tree of the root alone.
    pub(crate) fn new(alloc: Global, width: Width) -> Result<CallTree, AllocError>
        ensures { IfOk result (λ tree. (tree.width ≡ width) × (tree.names ≡ [])
            × ((value : ℕ) → value < width
            → nodes_at tree value ≡ (record { stack = []; weight = 0 }) ∷ [])) }
    {
        let mut nodes = Nodes::new(alloc, width)?;
        nodes.append(Link {
            parent: 0,
            name: 0,
            counts: false,
        })?;
        let names = Pages::new(alloc)?;
        Ok(CallTree {
            names,
            nodes,
            total: Weights::zero(width),
        })
    }

    /// Does nothing; its clause says what every tree keeps true.
    pub(crate) fn facts(&self)
        ensures { AreStates self.now }
    {
        self.nodes.facts();
    }

    /// How many nodes there are.
    pub(crate) fn len(&self) -> usize
        ensures { result ≡ length (nodes_at self.now 0) }
    {
        self.nodes.len()
    }
}

/// The weights of a batch's rows by one value, each at its node.
fn add_rows(
    names: &Pages<Name>,
    nodes: &mut Nodes,
    value: u32,
    batch: &Batch,
    slots: &[u32],
) -> Result<(), AllocError>
    requires trees { AreTrees names.now nodes.old }
    requires value { value < length nodes.old }
    requires width { value < batch.now.width }
    requires slots { AreSlots (plain_of names.now nodes.old value) batch.now.rows slots.now }
    requires fits { total_of (node_rows names.now (nodes_of nodes.old value))
        + total_of (rows_at value batch.now.rows) < 2 ^ 63 }
    ensures trees { OnOk result (AreTreesBut names.now value nodes.old nodes.new) }
    ensures credited { OnOk result (IsCredited (plain_of names.now nodes.old value)
        (plain_of names.now nodes.new value) (rows_at value batch.now.rows)) }
{
    for index in 0..slots.len() {
        let weight = batch.weight(index, value);
        add_weight(names, nodes, value, slots[index], weight)?;
    }
    Ok(())
}

/// One more weight of one value at a node. Nothing changes where memory runs out.
fn add_weight(
    names: &Pages<Name>,
    nodes: &mut Nodes,
    value: u32,
    at: u32,
    weight: u64,
) -> Result<(), AllocError>
    requires trees { AreTrees names.now nodes.old }
    requires value { value < length nodes.old }
    requires within { at < length (nodes_of nodes.old value) }
    requires fits { total_of (node_rows names.now (nodes_of nodes.old value)) + weight < 2 ^ 63 }
    ensures { MatchResult result (λ _. AreTreesBut names.now value nodes.old nodes.new
        × (node_rows names.now (nodes_of nodes.new value)
        ≡ with_added_at (node_rows names.now (nodes_of nodes.old value)) at weight))
        (λ _. nodes.new ≡ nodes.old) }
{
    // Only the clauses speak of the names.
    let _names = names;
    let own = nodes.weight(value, at as usize) + weight;
    nodes.put_weight(value, at as usize, own)
}
