//! The steps of scripts that run sessions of a store, also in threads.

mod gates;
mod sessions;
mod stores;
mod walks;
mod windows;
mod workers;

pub(crate) use stores::run_scene as run_store;
