//! A call tree that grows: a plan makes room for a batch, a credit adds it.

ghost use Rattle.std.specs.Prelude.{◌≡◌, ◌<◌, ◌+◌, ◌^◌, ℕ, length, IfOk, MatchResult};
ghost use Rattle.std.specs.Arc.{arc_value};
ghost use Rattle.profile_rows.specs.Rows.{total_of};
ghost use Rattle.profile_rows.specs.Values.{rows_at};
ghost use Rattle.call_tree.specs.Plans.{AreCredited, AreSlots, HasAdded, HasRoomFor, HasSameWeights, IsEmptyTree};
ghost use Rattle.call_tree.specs.State.{TreeState, PlanState, AreGrown, nodes_at, plain_at};

use crate::tree::CallTree;
use crate::walk::Walk;
use indexmap::IndexSet;
use profile_rows::{Batch, Hashing, Name, NoMemory, Width};
use std::alloc::{AllocError, Global};
use std::collections::HashMap;
use std::marker::Model;
use std::mem;
use std::snapshot::Snapshot;
use std::sync::Arc;

mod slots;

/// What a [`Grower`] is about to do: the tree that it will have, with a batch more or with nothing in it. A plan
/// remembers the grower as it was when it was made, and serves it as long as it is so.
#[derive(Drop)]
pub struct Plan {
    next: Arc<CallTree>,
    /// Whether the next tree begins anew, with names and nodes of its own.
    resets: bool,
    before: Snapshot<CallTree>,
}

impl Model for Plan {
    ghost use Rattle.call_tree.specs.State.{PlanState};
    ghost use Rattle.call_tree.specs.Plans.{IsNext};
    ghost use Rattle.std.specs.Arc.{arc_value};

    ghost Value = { PlanState };

    ghost view = { λ p. record { before = p.before.value; next = arc_value p.next } };

    ghost invariant = { λ p. IsNext p.resets p.before.value (arc_value p.next) };
}

impl Plan {
    /// The tree that [`credit`](Grower::credit) will give.
    pub fn next(&self) -> &CallTree
        ensures { result.now ≡ self.now.next }
    {
        &self.next
    }

    /// Another owner of that tree, which takes no memory.
    ///
    /// # Errors
    ///
    /// `AllocError`, where the tree has as many owners as it can have.
    pub fn share_next(&self) -> Result<Arc<CallTree>, AllocError>
        ensures { IfOk result (λ tree. arc_value tree ≡ self.now.next) }
    {
        Arc::try_clone(&self.next)
    }
}

/// A [`CallTree`] that grows by batches: [`plan`](Grower::plan) takes all memory that a batch needs, and
/// [`credit`](Grower::credit) adds the batch without taking any. [`plan_reset`](Grower::plan_reset) does the same for
/// an empty tree. A plan may be dropped.
#[derive(Drop)]
pub struct Grower {
    tree: Arc<CallTree>,
    /// The names in the order of their numbers.
    numbers: IndexSet<Name, Hashing>,
    /// The node below a node by the number of its name.
    index: HashMap<(u32, u32), u32, Hashing>,
    walk: Walk,
}

impl Model for Grower {
    ghost use Rattle.std.specs.Prelude.{◌≡◌};
    ghost use Rattle.std.specs.Arc.{arc_value};
    ghost use Rattle.std.specs.HashMap as hash;
    ghost use Rattle.call_tree.specs.State.{TreeState, IsIndex, plain_at, same_key};

    ghost Value = { TreeState };

    ghost view = { λ g. arc_value g.tree };

    ghost invariant = { λ g. (g.numbers.keys ≡ (arc_value g.tree).names)
        × IsIndex (hash.get same_key g.index) (plain_at (arc_value g.tree) 0) };
}

impl Grower {
    /// The tree with all that was credited so far.
    pub fn tree(&self) -> &CallTree
        ensures { result.now ≡ self.now }
    {
        &self.tree
    }

    /// Puts the tree of a plan in place, which this grower made as it is now: no plan and no credit changed it since.
    /// Takes no memory.
    pub fn credit(&mut self, plan: Plan)
        requires { plan.before ≡ self.old }
        ensures { self.new ≡ plan.next }
    {
        let Plan {
            next,
            resets,
            before: _,
        } = plan;
        if resets {
            self.numbers.clear();
            self.index.clear();
        }
        self.tree = next;
    }

    /// A grower of an empty tree for so many values. It keeps the allocator.
    ///
    /// # Errors
    ///
    /// `NoMemory`.
    pub fn new(alloc: Global, width: Width) -> Result<Grower, NoMemory>
        ensures { IfOk result (IsEmptyTree width) }
    {
        Grower::with_hashing(alloc, Hashing::fixed(), width)
    }

    /// As [`new`](Grower::new), and `hashing` says how names and nodes are hashed.
    ///
    /// # Errors
    ///
    /// `NoMemory`.
    pub fn with_hashing(alloc: Global, hashing: Hashing, width: Width) -> Result<Grower, NoMemory>
        ensures { IfOk result (IsEmptyTree width) }
    {
        let tree = CallTree::new(alloc, width)?;
        tree.facts();
        Ok(Grower {
            tree: Arc::new(alloc, tree)?,
            numbers: IndexSet::with_hasher(alloc, hashing),
            index: HashMap::with_hasher(alloc, hashing),
            walk: Walk::new(alloc),
        })
    }

    /// Adds the rows of a batch, of as many values as the tree has. By each value its total and the tree's are together
    /// at most [`profile_rows::MAX_TOTAL`]. A row alone, of one value, changes pages that nobody else owns in place, so
    /// that an addition copies none where the tree was never shared.
    ///
    /// # Errors
    ///
    /// `NoMemory`: each stack keeps its weights then.
    pub fn add(&mut self, alloc: Global, batch: &Batch) -> Result<(), NoMemory>
        requires { HasRoomFor self.old batch.now }
        ensures { MatchResult result (λ _. HasAdded self.old self.new batch.now)
            (λ _. HasSameWeights self.old self.new) }
    {
        if batch.len() == 1 && self.tree.width().get() == 1 {
            return self.add_row(alloc, batch);
        }
        let plan = self.plan(alloc, batch)?;
        self.credit(plan);
        Ok(())
    }

    /// Makes room for the rows of a batch, of as many values as the tree has. By each value its total and the tree's
    /// are together at most [`profile_rows::MAX_TOTAL`]. Each stack keeps its weights, also where the plan is refused.
    ///
    /// # Errors
    ///
    /// `NoMemory`.
    pub fn plan(&mut self, alloc: Global, batch: &Batch) -> Result<Plan, NoMemory>
        requires { HasRoomFor self.old batch.now }
        ensures planned { IfOk result (λ plan. (plan.before ≡ self.new) × HasAdded self.old plan.next batch.now) }
        ensures same { HasSameWeights self.old self.new }
    {
        let mut walk = mem::replace(&mut self.walk, Walk::new(alloc));
        let planned = self.plan_rows(alloc, batch, &mut walk);
        self.walk = walk;
        planned
    }

    /// This grower with the rows of a batch in its tree, of as many values as it has. By each value its total and the
    /// tree's are together at most [`profile_rows::MAX_TOTAL`]. Pages that nobody else owns change in place, so that an
    /// addition copies none where the tree was never shared.
    ///
    /// # Errors
    ///
    /// `NoMemory`: then the grower is gone.
    pub fn with_batch(self, alloc: Global, batch: &Batch) -> Result<Grower, NoMemory>
        requires { HasRoomFor self batch.now }
        ensures { IfOk result (λ grower. HasAdded self grower batch.now) }
    {
        let mut grower = self;
        let mut walk = mem::replace(&mut grower.walk, Walk::new(alloc));
        let slots = grower.slots_of(alloc, batch.first(), &mut walk)?;
        let Grower {
            tree,
            numbers,
            index,
            walk: _,
        } = grower;
        tree.facts();
        let tree = with_rows_at(alloc, tree, batch, slots.as_slice())?;
        Ok(Grower {
            tree,
            numbers,
            index,
            walk,
        })
    }

    /// Adds a batch of one row of one value: its node, where there was none, and then its weight in place.
    fn add_row(&mut self, alloc: Global, batch: &Batch) -> Result<(), NoMemory>
        requires single { self.old.width ≡ 1 }
        requires one { length batch.now.rows ≡ 1 }
        requires room { HasRoomFor self.old batch.now }
        ensures { MatchResult result (λ _. HasAdded self.old self.new batch.now)
            (λ _. HasSameWeights self.old self.new) }
    {
        let mut walk = mem::replace(&mut self.walk, Walk::new(alloc));
        let node = self.grow(&batch.first().rows()[0].stack, &mut walk);
        self.walk = walk;
        let slot = node?;
        self.tree.facts();
        Arc::make_mut(&mut self.tree)?.add_row(batch, slot)?;
        Ok(())
    }

    /// The plan of an empty tree of the same width. This tree stays, also where the plan is refused.
    ///
    /// # Errors
    ///
    /// `NoMemory`.
    pub fn plan_reset(&mut self, alloc: Global) -> Result<Plan, NoMemory>
        ensures planned { IfOk result (λ plan. (plan.before ≡ self.new) × IsEmptyTree self.old.width plan.next) }
        ensures same { self.new ≡ self.old }
    {
        let next = Arc::new(alloc, CallTree::new(alloc, self.tree.width())?)?;
        Ok(Plan {
            next,
            resets: true,
            before: Snapshot::of(&self.tree),
        })
    }

    /// The plan of a batch: its nodes, and then the tree with its weights.
    fn plan_rows(&mut self, alloc: Global, batch: &Batch, walk: &mut Walk) -> Result<Plan, NoMemory>
        requires width { batch.now.width ≡ self.old.width }
        requires fits { (value : ℕ)
            → total_of (nodes_at self.old value) + total_of (rows_at value batch.now.rows) < 2 ^ 63 }
        ensures planned { IfOk result (λ plan. (plan.before ≡ self.new) × HasAdded self.old plan.next batch.now) }
        ensures grown { AreGrown self.old self.new }
    {
        let slots = self.slots_of(alloc, batch.first(), walk)?;
        self.tree.facts();
        let next = Arc::new(alloc, self.tree.with_batch(batch, slots.as_slice())?)?;
        Ok(Plan {
            next,
            resets: false,
            before: Snapshot::of(&self.tree),
        })
    }
}

/// A tree with the rows of a batch, each at its node. Pages that nobody else owns change in place.
fn with_rows_at(
    alloc: Global,
    tree: Arc<CallTree>,
    batch: &Batch,
    slots: &[u32],
) -> Result<Arc<CallTree>, NoMemory>
    requires width { batch.now.width ≡ (arc_value tree).width }
    requires slots { AreSlots (plain_at (arc_value tree) 0) batch.now.rows slots.now }
    requires fits { (value : ℕ)
        → total_of (nodes_at (arc_value tree) value) + total_of (rows_at value batch.now.rows) < 2 ^ 63 }
    ensures { IfOk result
        (λ next. AreCredited (arc_value tree) (arc_value next) batch.now.rows (arc_value tree).width) }
{
    let tree = Arc::unwrap_or_clone(tree)?;
    Ok(Arc::new(alloc, tree.add_batch(batch, slots)?)?)
}
