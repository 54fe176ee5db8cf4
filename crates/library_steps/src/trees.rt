//! Call trees that grow: the scene `tree width 1`.

ghost use Rattle.std.specs.Prelude.{◌≡◌, IfSome, IsTrue};
ghost use Rattle.call_tree.specs.Plans.{HasRoomFor};

use crate::reports::Given;
use crate::rows::{stack_of, width_of};
use crate::scripts::{Checker, Made, Scene, Script, Step, Words, Wrong, run_steps};
use crate::stacks::add_stacks;
use call_tree::{CallTree, Grower, Plan};
use flame_report::report;
use stack_text::{Batch, Hashing, NoMemory, first_heavy, read_folded};
use std::alloc::Global;
use std::mem;

/// Whether the tree has as many values as rows, and room for them.
fn has_room(grower: &Grower, rows: &Batch) -> bool
    ensures { IsTrue result → HasRoomFor grower.now rows.now }
{
    if grower.tree().width() != rows.width() {
        return false;
    }
    let held = grower.tree().total();
    if let Some(_) = first_heavy(&held, &rows.total()) {
        return false;
    }
    true
}

/// The plan of rows, where they have room and there is memory.
fn plan_of(alloc: Global, grower: &mut Grower, rows: &Batch) -> Option<Plan>
    ensures { IfSome result (λ plan. plan.before ≡ grower.new) }
{
    if !has_room(grower, rows) {
        return None;
    }
    grower.plan(alloc, rows).ok()
}

/// Whether the tree of rows answers as the rows do.
pub(crate) fn agree_on_report(given: Given, made: &mut Made) {
    match Grower::new(made.alloc(), given.batch.width()) {
        Ok(mut grower) => {
            agree_on_grown(&mut grower, given, made);
            drop(grower);
        }
        Err(_) => made.fail(Wrong::NoMemory),
    }
}

fn agree_on_grown(grower: &mut Grower, given: Given, made: &mut Made) {
    if has_room(grower, given.batch) && grower.add(made.alloc(), given.batch).is_ok() {
        agree_on_answer(grower.tree(), given, made);
    } else {
        made.fail(Wrong::Missing);
    }
}

fn agree_on_answer(tree: &CallTree, given: Given, made: &mut Made) {
    if given.query.value >= tree.width().get() {
        return made.fail(Wrong::Missing);
    }
    let answer = report(made.alloc(), tree, given.query);
    made.compare("report", answer, given.answer);
}

/// A tree that grows, and a share of it as it was.
#[derive(Drop)]
struct Growing {
    grower: Grower,
    shared: Option<CallTree>,
}

/// `tree width 1`: an empty tree, and what the steps after it in the block make of it.
pub fn run_scene(checker: &mut Checker, script: &mut Script, step: &Step) {
    let growing = Growing::open(step.words, &mut checker.made);
    checker.settle(step);
    if let Some(growing) = growing {
        run_growing(checker, script, growing);
    }
}

fn run_growing(checker: &mut Checker, script: &mut Script, growing: Growing) {
    let mut growing = growing;
    run_steps(checker, script, &mut growing);
    drop(growing);
}

impl Scene for Growing {
    fn run(&mut self, words: Words, input: &[u8], made: &mut Made) {
        match words.word(0) {
            "ask" => ask(self.tree_of(words), words, made),
            "weigh" => weigh(self.tree_of(words), input, made),
            "share" => self.share(made),
            "reset" => reset(&mut self.grower, words, made),
            _ => self.grow(words, input, made),
        }
    }
}

impl Growing {
    fn open(words: Words, made: &mut Made) -> Option<Growing> {
        let hashing = Hashing::of_key(7);
        let grower = Grower::with_hashing(made.alloc(), hashing, width_of(words, made));
        let grower = made.done(grower)?;
        add_total(grower.tree(), made);
        Some(Growing {
            grower,
            shared: None,
        })
    }

    /// The tree that a step asks: its own, or the share.
    fn tree_of(&self, words: Words) -> &CallTree {
        match &self.shared {
            Some(shared) if words.has("share") => shared,
            _ => self.grower.tree(),
        }
    }

    fn share(&mut self, made: &mut Made) {
        let shared = made.done(self.grower.tree().share());
        if let Some(shared) = &shared {
            add_total(shared, made);
        }
        drop(mem::replace(&mut self.shared, shared));
    }

    /// Adds the rows of a step: folded text where they have one value.
    fn grow(&mut self, words: Words, input: &[u8], made: &mut Made) {
        let width = self.grower.tree().width();
        if width.get() > 1 {
            let rows = crate::rows::batch_of(width, input, made);
            return grow(&mut self.grower, words, rows, made);
        }
        match read_folded(made.alloc(), input) {
            Ok(rows) => grow(&mut self.grower, words, rows, made),
            Err(_) => made.fail(Wrong::Line),
        }
    }
}

/// `plan`, `plan dropped`, `add`, `give`: adds rows.
fn grow(grower: &mut Grower, words: Words, rows: Batch, made: &mut Made) {
    match words.word(0) {
        "plan" => plan(grower, &rows, words, made),
        word => grow_now(grower, word, &rows, made),
    }
    drop(rows);
}

fn grow_now(grower: &mut Grower, word: &str, rows: &Batch, made: &mut Made) {
    let alloc = made.alloc();
    let is_done = match word {
        "add" => has_room(grower, rows) && grower.add(alloc, rows).is_ok(),
        "give" => give(alloc, grower, rows),
        _ => false,
    };
    if !is_done {
        made.fail(Wrong::Command);
    }
    add_total(grower.tree(), made);
}

/// The grower is taken, and given with rows added. It gives false where it can't.
fn give(alloc: Global, grower: &mut Grower, rows: &Batch) -> bool {
    if !has_room(grower, rows) {
        return false;
    }
    let Ok(empty) = Grower::new(alloc, rows.width()) else {
        return false;
    };
    match mem::replace(grower, empty).with_batch(alloc, rows) {
        Ok(grown) => {
            drop(mem::replace(grower, grown));
            true
        }
        Err(_) => false,
    }
}

/// Plans rows and credits the plan, or drops it. It tells the total that the tree would have, and the one that it has.
fn plan(grower: &mut Grower, rows: &Batch, words: Words, made: &mut Made) {
    match plan_of(made.alloc(), grower, rows) {
        Some(plan) => credit(grower, plan, words, made),
        None => made.fail(Wrong::Missing),
    }
}

/// `reset`, `reset dropped`: the same of the empty tree.
fn reset(grower: &mut Grower, words: Words, made: &mut Made) {
    match grower.plan_reset(made.alloc()) {
        Ok(plan) => credit(grower, plan, words, made),
        Err(_) => made.fail(Wrong::NoMemory),
    }
}

fn credit(grower: &mut Grower, plan: Plan, words: Words, made: &mut Made)
    requires { plan.before ≡ grower.old }
{
    let (next, now) = (plan.next().total(), grower.tree().total());
    made.say(&format_args!("next {:?}, now {:?}", next.values(), now.values()));
    if words.has("dropped") {
        drop(plan);
    } else {
        grower.credit(plan);
    }
}

fn add_total(tree: &CallTree, made: &mut Made) {
    crate::rows::add_total(&tree.total(), made);
}

/// `weigh`, `weigh of share`: what each stack weighs alone.
fn weigh(tree: &CallTree, stacks: &[u8], made: &mut Made) {
    for frames in made.text_of(stacks).lines() {
        if let Some(stack) = stack_of(frames, made) {
            made.show(&tree.self_weight(&stack).values());
            drop(stack);
        }
    }
}

/// `ask`, `ask of share value 1`: what a tree has of a value: its total, its stacks, and the weights of its names.
fn ask(tree: &CallTree, words: Words, made: &mut Made) {
    add_total(tree, made);
    let value = made.number_after(words, "value", 0);
    add_stacks(tree, value, made);
    add_names(tree, value, made);
}

fn add_names(tree: &CallTree, value: u32, made: &mut Made) {
    if value >= tree.width().get() {
        return made.fail(Wrong::Missing);
    }
    let Ok(totals) = tree.frame_totals(made.alloc(), value) else {
        return made.fail(Wrong::NoMemory);
    };
    for total in &totals {
        let (name, flat, cum) = (total.name.text(), total.flat, total.cum);
        made.say(&format_args!("{name} {flat}/{cum}"));
    }
    drop(totals);
}
