//! A list that only grows, in pages that several owners share. An owner's change copies what others own too, and
//! changes in place what it owns alone.
#![tactic(auto)]

mod page;
mod pages;
mod part;
mod table;

pub use pages::Pages;
