//! The steps of scripts that need no threads: the wire format, profiles, folded text, rows, reports, trees, books and
//! audits; and rows, queries and operations as scripts spell them.
#![tactic(auto)]

mod batches;
mod books;
mod commands;
mod drafts;
mod items;
mod journals;
mod names;
mod operations;
mod profiles;
mod queries;
mod reports;
mod rows;
mod samples;
mod scripts;
mod stacks;
mod trees;
mod wire;

pub use books::run_scene as run_book;
pub use commands::run_command;
pub use journals::{compare_receipts, run_closed};
pub use operations::{batch_of, op_of, query_of};
pub use queries::{add_answer, is_total};
pub use rows::{add_total, numbers_of, width_of};
pub use scripts::{
    Checker, Made, Names, Scene, Script, Step, Words, Wrong, first_line, next_step, run_steps,
};
pub use stacks::add_stacks;
pub use trees::run_scene as run_tree;
