//! Answers: totals, top lists, layouts of rectangles and folded text.

ghost use Rattle.std.specs.Prelude.{◌≡◌, ◌↔◌, [], IsTrue};

use crate::query::Columns;
use basics::Items;
use profile_rows::{FrameTotal, Name};
use std::marker::Model;

/// The names that weigh most, and what all rows weigh together.
#[derive(Debug, Drop, PartialEq, Eq)]
pub struct Top {
    pub total: u64,
    pub rows: Items<FrameTotal>,
}

/// What a rectangle is called: the last name of its path, and nothing for the empty path.
#[derive(Debug, Drop)]
pub struct Label {
    name: Option<Name>,
}

impl Model for Label {
    ghost use Rattle.std.specs.Prelude.{List, ℕ};
    ghost use Rattle.flame_report.specs.Labels.{text_of};

    ghost Value = { List ℕ };

    ghost view = { λ l. text_of l.name };
}

impl Label {
    /// The label of the empty path.
    pub fn empty() -> Label
        ensures { result ≡ [] }
    {
        Label { name: None }
    }

    /// The name as a label.
    pub fn of(name: Name) -> Label
        ensures { result ≡ name }
    {
        Label { name: Some(name) }
    }

    /// The text.
    pub fn text(&self) -> &str
        ensures { result.now ≡ self.now }
    {
        match &self.name {
            Some(name) => name.text(),
            None => "",
        }
    }
}

impl PartialEq for Label {
    ghost use Rattle.profile_rows.specs.Names.{is_same_name};
    ghost use Rattle.std.specs.Cmp.{partial_equiv_from_equiv};
    ghost use Rattle.std.specs.Cmp.Lexicographic.{nat_list_eq_equiv};

    ghost eq = { is_same_name };

    ghost laws = { partial_equiv_from_equiv nat_list_eq_equiv };

    fn eq(&self, other: &Label) -> bool {
        self.text().as_bytes() == other.text().as_bytes()
    }
}

impl Eq for Label {
    ghost use Rattle.std.specs.Cmp.Lexicographic.{nat_list_eq_equiv};

    ghost laws = { nat_list_eq_equiv };
}

/// A rectangle of a flame graph: a path of the kept stacks that is wide enough to be seen.
#[derive(Debug, Drop, PartialEq, Eq)]
pub struct Rect {
    /// How many names the path has.
    pub depth: u32,
    pub name: Label,
    /// Where it starts: the weight of what lies left of it.
    pub x: u64,
    /// How wide it is: the weight of the rows whose stack begins with the path.
    pub weight: u64,
    /// The first column that it takes.
    pub left: u32,
    /// The column after its last.
    pub right: u32,
}

/// The layout of a flame graph. Its rectangles come in the order of their paths.
#[derive(Debug, Drop, PartialEq, Eq)]
pub struct Flame {
    pub total: u64,
    pub columns: Columns,
    pub rects: Items<Rect>,
}

/// The answer to a query, of the query's kind.
#[derive(Debug, Drop)]
pub enum Answer {
    Total(u64),
    Top(Top),
    Flame(Flame),
    Folded(Items<u8>),
}

impl PartialEq for Answer {
    ghost use Rattle.flame_report.specs.Equality.{answer_eq};
    ghost use Rattle.flame_report.specs.Equality.{answer_eq-laws};
    ghost use Rattle.std.specs.Cmp.{partial_equiv_from_equiv};

    ghost eq = { answer_eq };

    ghost laws = { partial_equiv_from_equiv answer_eq-laws };

    /// Whether the answers say the same.
    fn eq(&self, other: &Answer) -> bool
        ensures compared { result ≡ answer_eq self.now other.now }
        ensures equal { IsTrue result ↔ (self.now ≡ other.now) }
    {
        match (self, other) {
            (Answer::Total(total), Answer::Total(other)) => total == other,
            (Answer::Top(top), Answer::Top(other)) => top == other,
            (Answer::Flame(flame), Answer::Flame(other)) => flame == other,
            (Answer::Folded(text), Answer::Folded(other)) => text == other,
            _ => false,
        }
    }
}

impl Eq for Answer {
    ghost use Rattle.flame_report.specs.Equality.{answer_eq-laws};

    ghost laws = { answer_eq-laws };
}
