//! Queries: which rows a report is over, and which report it is.

ghost use Rattle.std.specs.Prelude.{◌≡◌, ◌<◌, ◌≤◌, ◌⊎◌, ◌↔◌, IsNone, IsTrue, List, MatchOption};
ghost use Rattle.profile_rows.specs.declared.weighted_stacks.WeightedStack.{WeightedStack};
ghost use Rattle.flame_report.specs.Answers.{kept_by};

use profile_rows::Name;
use std::marker::Model;

/// The most columns of a layout.
pub const MAX_COLUMNS: u32 = 65_535;

/// How many columns a layout has: 1 to [`MAX_COLUMNS`].
#[derive(Clone, Copy, Debug, PartialEq, Eq)]
pub struct Columns {
    count: u32,
}

impl Model for Columns {
    ghost use Rattle.std.specs.Prelude.{ℕ, ◌<◌, ◌≤◌};

    ghost Value = { ℕ };

    ghost view = { λ c. c.count };

    ghost invariant = { λ c. (0 < c.count) × (c.count ≤ 65535) };

    ghost inverse = { λ n. record { count = n } };
}

impl Columns {
    /// So many columns; nothing exactly where there are none or more than [`MAX_COLUMNS`].
    pub fn new(count: u32) -> Option<Columns>
        ensures { MatchOption result ((count ≡ 0) ⊎ (MAX_COLUMNS < count))
            (λ columns. (columns ≡ count) × (0 < count) × (count ≤ MAX_COLUMNS)) }
    {
        if count == 0 || count > MAX_COLUMNS {
            return None;
        }
        Some(Columns { count })
    }

    /// How many there are.
    pub fn get(&self) -> u32
        ensures count { result ≡ self.now }
        ensures some { 0 < self.now }
        ensures few { self.now ≤ MAX_COLUMNS }
    {
        self.count
    }
}

/// Which weight decides the order of a top list.
#[derive(Clone, Copy, Debug, PartialEq, Eq)]
pub enum Rank {
    /// The flat weight: of the stacks whose leaf has the name.
    Flat,
    /// The cumulative weight: of the stacks that have the name.
    Cum,
}

/// What a query asks for.
#[derive(Clone, Copy, Debug, PartialEq, Eq)]
pub enum Kind {
    /// The weight of all kept rows.
    Total,
    /// The first `count` names by the weight that `rank` chooses.
    Top { rank: Rank, count: u32 },
    /// The rectangles of a flame graph in so many columns.
    Flame { columns: Columns },
    /// Each kept stack with its weight as folded text.
    Folded,
}

/// A question to a profile. Only the rows that it keeps count, in totals too, and only one value of each.
#[derive(Debug, Drop)]
pub struct Query {
    /// Where there is one, only rows whose stack has this name are kept.
    pub focus: Option<Name>,
    /// Where there is one, rows whose stack has this name aren't kept.
    pub ignore: Option<Name>,
    /// Which value of each row is its weight, counted from 0.
    pub value: u32,
    pub kind: Kind,
}

impl Query {
    /// Whether the query has no focus and ignores no name, and so keeps every row.
    pub fn keeps_all(&self) -> bool
        ensures keeps { IsTrue result → (rows : List WeightedStack) → kept_by self.now rows ≡ rows }
        ensures exact { IsTrue result ↔ (IsNone self.now.focus × IsNone self.now.ignore) }
    {
        self.focus.is_none() && self.ignore.is_none()
    }
}

impl PartialEq for Query {
    ghost use Rattle.flame_report.specs.Equality.{query_eq};
    ghost use Rattle.flame_report.specs.Equality.{query_eq-laws};
    ghost use Rattle.std.specs.Cmp.{partial_equiv_from_equiv};

    ghost eq = { query_eq };

    ghost laws = { partial_equiv_from_equiv query_eq-laws };

    /// Whether the queries ask the same.
    fn eq(&self, other: &Query) -> bool
        ensures compared { result ≡ query_eq self.now other.now }
        ensures equal { IsTrue result ↔ (self.now ≡ other.now) }
    {
        self.focus == other.focus
            && self.ignore == other.ignore
            && self.value == other.value
            && self.kind == other.kind
    }
}

impl Eq for Query {
    ghost use Rattle.flame_report.specs.Equality.{query_eq-laws};

    ghost laws = { query_eq-laws };
}
