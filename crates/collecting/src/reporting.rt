//! The report of a window.

ghost use Rattle.std.specs.Prelude.{◌≡◌, IfOk};
ghost use Rattle.profile_store.specs.FoldedText.{folded_text_of};
ghost use Rattle.profile_store.specs.Values.{rows_at};
ghost use Rattle.store_window.specs.Added.{rows_added_by};

use anyhow::Result;
use profile_store::{OrderedRows, write_ordered};
use std::alloc::Global;
use store_window::ClosedWindow;

/// The folded report of all that the sources of a window added.
///
/// # Errors
///
/// Those of [`ClosedWindow::audited_tree`].
pub(crate) fn report_of(alloc: Global, window: &ClosedWindow) -> Result<Vec<u8>>
    ensures { IfOk result (λ text.
        text.items ≡ folded_text_of (rows_at 0 (rows_added_by window.now.logs.items))) }
{
    let tree = window.audited_tree(alloc)?;
    let texts = tree.stack_texts(alloc, 0)?;
    let rows = OrderedRows::of_texts(alloc, texts.as_slice())?;
    Ok(write_ordered(alloc, &rows)?)
}
