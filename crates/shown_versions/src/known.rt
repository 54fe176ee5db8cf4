//! What is known of a version.

use crate::reached::Reached;

/// What is known of a version: the list of changes that it stands for, which the history has reached, and how many
/// values a row of its tree has. Contracts speak of it; no value of it is made.
pub struct KnownVersion {
    pub seen: Reached,
    pub width: u32,
}
