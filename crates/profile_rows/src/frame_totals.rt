//! What the names of rows weigh.

use crate::name::Name;

/// What a name weighs in rows, as pprof has it.
#[derive(Debug, Drop, PartialEq, Eq)]
pub struct FrameTotal {
    pub name: Name,
    /// The weight of the rows whose leaf has the name.
    pub flat: u64,
    /// The weight of the rows that have the name, each once, however often it recurs.
    pub cum: u64,
}

/// What the names of rows weigh, and what the rows weigh together.
#[derive(Debug, Drop)]
pub struct FrameTotals {
    pub total: u64,
    /// Each name of cumulative weight above 0 once, in any order.
    pub frames: Vec<FrameTotal>,
}
