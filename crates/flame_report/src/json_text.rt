//! The layout of a flame graph as JSON, written token by token.

ghost use Rattle.std.specs.Prelude.{◌≡◌, IfOk, string_bytes};
ghost use Rattle.std.specs.Str.{IsUtf8};
ghost use Rattle.flame_report.specs.Json.{flame_json_of};
ghost use Rattle.flame_report.specs.Tokens.{AddsTokens, flame_tokens, member_token, rect_tokens, rects_tokens};

use crate::answer::{Flame, Rect};
use json::Writer;
use profile_rows::NoMemory;
use std::alloc::{AllocError, Global};

/// Adds a member that is a number.
fn write_count(out: &mut Writer, key: &str, count: u64) -> Result<(), AllocError>
    ensures { AddsTokens out.old out.new (member_token key.now count) result }
{
    out.key(key)?;
    out.u64(count)
}

/// Adds a rectangle.
fn write_rect(out: &mut Writer, rect: &Rect) -> Result<(), AllocError>
    ensures { AddsTokens out.old out.new (rect_tokens rect.now) result }
{
    out.begin_object()?;
    write_count(out, "depth", rect.depth as u64)?;
    write_count(out, "left", rect.left as u64)?;
    out.key("name")?;
    out.string(rect.name.text())?;
    write_count(out, "right", rect.right as u64)?;
    write_count(out, "weight", rect.weight)?;
    write_count(out, "x", rect.x)?;
    out.end_object()
}

/// Adds the rectangles, each an object.
fn write_rects(out: &mut Writer, rects: &[Rect]) -> Result<(), AllocError>
    ensures { AddsTokens out.old out.new (rects_tokens rects.now) result }
{
    for rect in rects {
        write_rect(out, rect)?;
    }
    Ok(())
}

/// Adds a layout.
fn write_flame(out: &mut Writer, flame: &Flame) -> Result<(), AllocError>
    ensures { AddsTokens out.old out.new (flame_tokens flame.now) result }
{
    out.begin_object()?;
    write_count(out, "columns", flame.columns.get() as u64)?;
    out.key("rects")?;
    out.begin_array()?;
    write_rects(out, flame.rects.as_slice())?;
    out.end_array()?;
    write_count(out, "total", flame.total)?;
    out.end_object()
}

/// The bytes as text.
fn text_of(bytes: Vec<u8>) -> Result<String, NoMemory>
    requires { IsUtf8 bytes.items }
    ensures { IfOk result (λ text. string_bytes text ≡ bytes.items) }
{
    let text = String::from_utf8(bytes);
    prove!(text.is_ok());
    text.map_err(|_| NoMemory)
}

/// A layout as JSON without white space: an object of `columns`, `rects` and `total`, and each rectangle an object of
/// `depth`, `left`, `name`, `right`, `weight` and `x`, in this order. The text doesn't end with a line feed.
///
/// # Errors
///
/// `NoMemory`.
pub fn flame_json(alloc: Global, flame: &Flame) -> Result<String, NoMemory>
    ensures { IfOk result (λ text. string_bytes text ≡ flame_json_of flame.now) }
{
    let mut out = Writer::new(Vec::new(alloc));
    write_flame(&mut out, flame)?;
    text_of(out.into_inner())
}
