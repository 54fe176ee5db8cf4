//! What words ask for.

use crate::live_options::LiveOptions;
use flame_report::Query;
use pprof_profile::Text;

/// How an input is written.
#[derive(Clone, Copy, Debug, PartialEq, Eq)]
pub enum Format {
    /// Folded stacks, a line for each.
    Folded,
    /// A message of pprof's profile.proto, unpacked.
    Pprof,
}

/// How the rows of an input are read.
#[derive(Drop)]
pub struct Source {
    pub format: Format,
    /// The sample type whose values are the weights, in a profile; where there is none, the one that the profile
    /// chooses.
    pub value: Option<Text>,
}

/// What the words ask for.
#[derive(Drop)]
pub enum Request {
    /// A report on the rows of the input.
    Report {
        source: Source,
        query: Query,
    },
    /// A profile of the rows of folded input, whose only sample type has this name and unit.
    Export {
        kind: Text,
        unit: Text,
    },
    /// Reports out of a store that several threads fill with the rows of the input.
    Live {
        source: Source,
        options: LiveOptions,
    },
}
