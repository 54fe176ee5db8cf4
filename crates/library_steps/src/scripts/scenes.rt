//! Scenes: blocks whose steps share a value, as a book or a store.

use crate::scripts::checker::Checker;
use crate::scripts::made::Made;
use crate::scripts::script::{Script, Step, Words};

/// What the steps of a block share.
pub trait Scene {
    /// Runs a step.
    fn run(&mut self, words: Words, input: &[u8], made: &mut Made);
}

/// Runs the steps of a scene.
pub fn run_steps<S: Scene>(checker: &mut Checker, script: &mut Script, scene: &mut S) {
    for _ in 0..script.most_steps() {
        let Some(step) = next_step(checker, script) else {
            return;
        };
        scene.run(step.words, checker.input.bytes(), &mut checker.made);
        checker.settle(&step);
    }
}

/// The next step of a scene, with its input. The block's end or `close` ends a scene.
pub fn next_step<'a>(checker: &mut Checker, script: &mut Script<'a>) -> Option<Step<'a>> {
    let step = script.next_step()?;
    checker.begin(&step);
    if step.words.text == "close" {
        checker.settle(&step);
        return None;
    }
    Some(step)
}
