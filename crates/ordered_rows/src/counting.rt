//! What the names weigh in rows by their stack texts.

ghost use Rattle.std.specs.Prelude.{◌^◌, ◌<◌, [], All, OnOk};
ghost use Rattle.profile_rows.specs.Rows.{total_of};
ghost use Rattle.name_counts.specs.Tallies.{HasCounted};
ghost use Rattle.ordered_rows.specs.SpelledRows.{IsStackText, spelled_rows};

use crate::stack_frames::TextFrames;
use crate::text_row::TextRow;
use basics::NoMemory;
use name_counts::CountedRows;

/// Counts rows, one after the other, where none was counted before.
///
/// # Errors
///
/// `NoMemory`; some of the rows may then be counted.
pub fn count_rows(counted: &mut CountedRows, rows: &[TextRow]) -> Result<(), NoMemory>
    requires none { HasCounted [] counted.old }
    requires spelled { All (λ row. IsStackText row.text) rows.now }
    requires fits { total_of (spelled_rows rows.now) < 2 ^ 63 }
    ensures { OnOk result (HasCounted (spelled_rows rows.now) counted.new) }
{
    for row in rows {
        counted.count(&mut TextFrames::of(row.text()), row.weight())?;
    }
    Ok(())
}
