//! The layout of a flame graph, over rows in order. A row is compared with the row before alone: what the
//! two don't share are the paths that come first with this row, in the order of paths.

ghost use Rattle.std.specs.Prelude.{ℕ, ◌≡◌, ◌++◌, ◌+◌, ◌<◌, ◌≤◌, false, All, IfOk, OnOk, drop, length, map, take};
ghost use Rattle.std.specs.List.{take_while, zip};
ghost use Rattle.std.specs.Str.{bytes_eq};
ghost use Rattle.profile_rows.specs.Layout.{column_at, last_name, rectangle_at, rectangles_of};
ghost use Rattle.profile_rows.specs.Limits.{most_frames};
ghost use Rattle.profile_rows.specs.Names.{IsName, name_cmp};
ghost use Rattle.profile_rows.specs.Paths.{begins_with, path_weight, prefixes};
ghost use Rattle.profile_rows.specs.Rows.{total_of};
ghost use Rattle.flame_report.specs.Answers.{flame_of, rect_of};
ghost use Rattle.flame_report.specs.Sharing.{AreHeld, AreShapes, IsPlan, held_weight, known_at, shape_of, shown_of};
ghost use Rattle.call_tree.specs.State.{stack_at};
ghost use Rattle.flame_report.specs.Sharing.{span_of};

use crate::answer::{Flame, Label, Rect};
use crate::query::Columns;
use basics::{Items, NoMemory};
use name_counts::KnownNames;
use ordered_rows::OrderedRows;
use profile_rows::Hashing;
use std::alloc::{AllocError, Global};
use std::mem;

/// The rectangles so far, the names by which they are called, and the frames of the row at hand.
#[derive(Drop)]
struct Drawing<'a> {
    names: KnownNames<'a>,
    rects: Vec<Rect>,
    frames: Vec<&'a str>,
}

/// Where a path stands, in weight and in columns.
#[derive(Clone, Copy)]
struct Span {
    start: u64,
    weight: u64,
    left: u32,
    right: u32,
}

/// How many paths of a row the row before has too, and how many names its stack has.
#[derive(Clone, Copy)]
struct Shape {
    known: usize,
    depth: usize,
}

/// How many frames a row shares with the row before, from their roots.
fn shared(before: &[&str], frames: &[&str]) -> usize
    ensures { result ≡ length (take_while (λ pair. bytes_eq pair.0.now pair.1.now) (zip before.now frames.now)) }
{
    before
        .iter()
        .zip(frames)
        .take_while(|(other, frame)| other == frame)
        .count()
}

/// The shapes of rows.
fn shapes_of(alloc: Global, rows: &OrderedRows) -> Result<Vec<Shape>, NoMemory>
    ensures { IfOk result (λ shapes. AreShapes shapes.items rows.now) }
{
    let mut shapes = Vec::with_capacity(alloc, rows.len())?;
    let (mut before, mut frames) = (Vec::new(alloc), Vec::new(alloc));
    for at in 0..rows.len() {
        rows.frames(&mut frames, at)?;
        let (shared, depth) = (shared(&before, &frames), frames.len());
        let known = if at == 0 { 0 } else { shared + 1 };
        shapes.push(Shape { known, depth })?;
        mem::swap(&mut before, &mut frames);
    }
    Ok(shapes)
}

/// The rectangle of a path, which is the first names of a stack.
fn rect_at<'a>(
    alloc: Global,
    known: &mut KnownNames<'a>,
    frames: &[&'a str],
    depth: usize,
    span: Span,
) -> Result<Rect, NoMemory>
    requires names { All IsName (map (λ frame. frame.now) frames.now) }
    requires within { depth ≤ length frames.now }
    requires deep { depth ≤ most_frames }
    ensures { IfOk result (λ rect. (rect.depth ≡ depth)
        × (rect.name ≡ last_name (take depth (map (λ frame. frame.now) frames.now)))
        × (rect.x ≡ span.start) × (rect.weight ≡ span.weight) × (rect.left ≡ span.left)
        × (rect.right ≡ span.right)) }
{
    let name = if depth == 0 {
        Label::empty()
    } else {
        Label::of(known.name_of(alloc, frames[depth - 1])?)
    };
    Ok(Rect {
        depth: depth as u32,
        name,
        x: span.start,
        weight: span.weight,
        left: span.left,
        right: span.right,
    })
}

/// Rows in order, what each shares with the row before, and the columns that their total fills.
#[derive(Drop)]
struct Plan<'a> {
    rows: &'a OrderedRows<'a>,
    shapes: Vec<Shape>,
    columns: Columns,
}

impl<'a> Plan<'a> {
    /// The column in which an offset of the total falls, rounded down.
    fn column(&self, offset: u64) -> u32
        requires within { offset ≤ total_of self.now.rows.now }
        requires some { 0 < total_of self.now.rows.now }
        ensures { result ≡ column_at self.now.columns (total_of self.now.rows.now) offset }
    {
        (offset as u128 * self.columns.get() as u128 / self.rows.total() as u128) as u32
    }

    /// The shape of a row.
    fn shape(&self, at: usize) -> Shape
        requires plan { IsPlan self.now }
        requires at { at < length self.now.rows.now }
        ensures { result ≡ shape_of self.now.rows.now at }
    {
        self.shapes[at]
    }

    /// The weight of the rows that begin with the first names of a row that is the first of them.
    fn group_weight(&self, at: usize, depth: usize) -> u64
        requires plan { IsPlan self.now }
        requires at { at < length self.now.rows.now }
        requires depth { depth ≤ length (stack_at self.now.rows.now at) }
        requires first { (k : ℕ) → k < at → begins_with name_cmp
            (take depth (stack_at self.now.rows.now at)) (stack_at self.now.rows.now k) ≡ false }
        ensures { result ≡ path_weight self.now.rows.now (take depth (stack_at self.now.rows.now at)) }
    {
        let mut weight = self.rows.weight(at);
        for next in at + 1..self.rows.len() {
            if self.shape(next).known <= depth {
                return weight;
            }
            weight += self.rows.weight(next);
        }
        weight
    }

    /// Where the path of a row's first names stands, which the row before doesn't have.
    fn span_at(&self, at: usize, depth: usize, start: u64) -> Span
        requires plan { IsPlan self.now }
        requires at { at < length self.now.rows.now }
        requires new { known_at self.now.rows.now at ≤ depth }
        requires depth { depth ≤ length (stack_at self.now.rows.now at) }
        requires start { start + held_weight self.now.rows.now at (stack_at self.now.rows.now at)
            ≡ total_of (take at self.now.rows.now) }
        ensures { result ≡ span_of
            (rectangle_at self.now.columns self.now.rows.now (take depth (stack_at self.now.rows.now at))) }
    {
        let weight = self.group_weight(at, depth);
        Span {
            start,
            weight,
            left: self.column(start),
            right: self.column(start + weight),
        }
    }

    /// Adds the rectangles of the paths that come first with a row. Below one that takes no column there is none, and
    /// no name is made for a row of which nothing is seen.
    fn draw_row(
        &self,
        alloc: Global,
        drawing: &mut Drawing<'a>,
        at: usize,
        start: u64,
    ) -> Result<(), NoMemory>
        requires plan { IsPlan self.now }
        requires at { at < length self.now.rows.now }
        requires start { start + held_weight self.now.rows.now at (stack_at self.now.rows.now at)
            ≡ total_of (take at self.now.rows.now) }
        ensures { OnOk result (drawing.new.rects.items ≡ drawing.old.rects.items
            ++ map rect_of (shown_of self.now.columns self.now.rows.now
            (drop (known_at self.now.rows.now at) (prefixes (stack_at self.now.rows.now at))))) }
    {
        let known = self.shape(at).known;
        let shortest = self.span_at(at, known, start);
        if shortest.left >= shortest.right {
            return Ok(());
        }
        self.rows.frames(&mut drawing.frames, at)?;
        for depth in known..drawing.frames.len() + 1 {
            let span = self.span_at(at, depth, start);
            if span.left >= span.right {
                return Ok(());
            }
            let rect = rect_at(alloc, &mut drawing.names, &drawing.frames, depth, span)?;
            drawing.rects.push(rect)?;
        }
        Ok(())
    }

    /// The weight of the rows so far that are prefixes of a row.
    fn held_above(&self, held: &[u64], at: usize) -> u64
        requires plan { IsPlan self.now }
        requires at { at < length self.now.rows.now }
        requires held { AreHeld held.now self.now.rows.now at }
        ensures { result ≡ held_weight self.now.rows.now at (stack_at self.now.rows.now at) }
    {
        let known = self.shape(at).known;
        if known == 0 { 0 } else { held[known - 1] }
    }

    /// Keeps, for each path of a row, the weight of the rows so far that are prefixes of it.
    fn hold(&self, held: &mut Vec<u64>, at: usize, above: u64) -> Result<(), AllocError>
        requires plan { IsPlan self.now }
        requires at { at < length self.now.rows.now }
        requires held { AreHeld held.old.items self.now.rows.now at }
        requires above { above ≡ held_weight self.now.rows.now at (stack_at self.now.rows.now at) }
        ensures { OnOk result (AreHeld held.new.items self.now.rows.now (at + 1)) }
    {
        let Shape { known, depth } = self.shape(at);
        held.truncate(known);
        held.resize(depth, above)?;
        held.push(above + self.rows.weight(at))?;
        Ok(())
    }

    /// The rectangles of all paths that take a column.
    fn rects(&self, alloc: Global, hashing: Hashing) -> Result<Vec<Rect>, NoMemory>
        requires { IsPlan self.now }
        ensures { IfOk result
            (λ rects. rects.items ≡ map rect_of (rectangles_of self.now.columns self.now.rows.now)) }
    {
        let mut drawing = Drawing {
            names: KnownNames::new(alloc, hashing),
            rects: Vec::new(alloc),
            frames: Vec::new(alloc),
        };
        let mut held = Vec::new(alloc);
        let mut before = 0;
        for at in 0..self.rows.len() {
            let above = self.held_above(held.as_slice(), at);
            self.draw_row(alloc, &mut drawing, at, before - above)?;
            self.hold(&mut held, at, above)?;
            before += self.rows.weight(at);
        }
        Ok(drawing.rects)
    }
}

/// The layout of rows in order; where they weigh nothing there are no rectangles. `hashing` says how names are hashed.
pub(crate) fn flame_of(
    alloc: Global,
    hashing: Hashing,
    rows: &OrderedRows,
    columns: Columns,
) -> Result<Flame, NoMemory>
    ensures { IfOk result (λ flame. flame ≡ flame_of columns rows.now) }
{
    rows.facts();
    let plan = Plan {
        rows,
        shapes: shapes_of(alloc, rows)?,
        columns,
    };
    Ok(Flame {
        total: rows.total(),
        columns,
        rects: Items::new(plan.rects(alloc, hashing)?),
    })
}
