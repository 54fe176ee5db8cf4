//! Queries as scripts spell them: `top by cum count 3`, `flame columns 5`, `folded focus main ignore b value 1`. What
//! kinds of reports there are, and how an answer of each is told, stands here alone.

use crate::scripts::{Made, Words, Wrong};
use flame_report::{
    Answer, Columns, Flame, Kind, Query, Rank, Rect, flame_json, top_list, top_text,
};
use stack_text::{FrameTotals, Name, NoMemory};

/// The kinds of reports, of which `report each` asks one after the other.
pub(crate) const KINDS: [&str; 5] = ["total", "flat", "cum", "folded", "flame"];

/// The kind of report that is the second word, or the order of a top list.
pub(crate) fn kind_name<'a>(words: Words<'a>) -> &'a str {
    words.after("by").unwrap_or(words.word(1))
}

/// A query of this kind, with the limits and filters that the words have.
pub(crate) fn query_of(words: Words, kind: &str, made: &mut Made) -> Query {
    Query {
        focus: name_after(words, "focus", made),
        ignore: name_after(words, "ignore", made),
        value: made.number_after(words, "value", 0),
        kind: kind_of(words, kind, made),
    }
}

fn kind_of(words: Words, kind: &str, made: &mut Made) -> Kind {
    match kind {
        "total" => Kind::Total,
        "folded" => Kind::Folded,
        "top" | "flat" => top_of(words, Rank::Flat, made),
        "cum" => top_of(words, Rank::Cum, made),
        "flame" | "layout" => flame_of(words, made),
        _ => {
            made.fail(Wrong::Command);
            Kind::Total
        }
    }
}

fn flame_of(words: Words, made: &mut Made) -> Kind {
    let columns = made.number_after(words, "columns", 100);
    match Columns::new(columns) {
        Some(columns) => Kind::Flame { columns },
        None => {
            made.fail(Wrong::Command);
            Kind::Total
        }
    }
}

fn top_of(words: Words, rank: Rank, made: &mut Made) -> Kind {
    let count = made.number_after(words, "count", 20);
    Kind::Top { rank, count }
}

fn name_after(words: Words, key: &str, made: &mut Made) -> Option<Name> {
    let text = words.after(key)?;
    let name = Name::make(made.alloc(), text);
    made.done(name)
}

/// Whether a query asks for a list of names.
pub(crate) fn counts_names(query: &Query) -> bool {
    matches!(query.kind, Kind::Top { .. })
}

/// The answer to a query that asks for a list of names, by their totals, or else for the total.
pub(crate) fn top_answer(query: &Query, totals: FrameTotals) -> Result<Answer, NoMemory> {
    match query.kind {
        Kind::Top { rank, count } => top_list(totals, rank, count).map(Answer::Top),
        _ => Ok(Answer::Total(totals.total)),
    }
}

/// The answer `3`, to a query that asks for the total.
pub(crate) fn total_answer(total: u64) -> Answer {
    Answer::Total(total)
}

/// Whether an answer is a total.
pub fn is_total(answer: &Answer) -> bool {
    matches!(answer, Answer::Total(_))
}

/// Adds the lines of an answer. The line of a total isn't ended. With `layout` a flame graph has a line for each of its
/// rectangles.
pub fn add_answer(words: Words, answer: &Answer, made: &mut Made) {
    let alloc = made.alloc();
    match answer {
        Answer::Total(total) => made.print(total),
        Answer::Top(top) => made.add_made(top_text(alloc, top)),
        Answer::Flame(flame) if words.has("layout") => add_layout(flame, made),
        Answer::Flame(flame) => made.say_made(flame_json(alloc, flame)),
        Answer::Folded(text) => made.add(text.as_slice()),
    }
}

/// Adds a line for each rectangle. The JSON text has as many.
fn add_layout(flame: &Flame, made: &mut Made) {
    made.say(&format_args!("total {}", flame.total));
    let rects = flame.rects.as_slice();
    for rect in rects {
        add_rect(rect, made);
    }
    if let Some(json) = made.done(flame_json(made.alloc(), flame)) {
        made.agree(
            "flame_json",
            json.matches("\"depth\":").count() == rects.len(),
        );
    }
}

/// Depth, x, weight, left, how many columns, name.
fn add_rect(rect: &Rect, made: &mut Made) {
    let (depth, x, weight, left) = (rect.depth, rect.x, rect.weight, rect.left);
    let (columns, name) = (rect.right.saturating_sub(left), rect.name.text());
    made.say(&format_args!("{depth} {x} {weight} {left} {columns} {name:?}"));
}
