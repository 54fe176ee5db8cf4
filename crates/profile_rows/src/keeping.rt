//! Which rows a focus and an ignored name leave.

ghost use Rattle.std.specs.Prelude.{◌≡◌, List, ℕ};
ghost use Rattle.std.specs.Option.{option_copied};
ghost use Rattle.profile_rows.specs.Rows.{has_name, is_kept};

use crate::name::Name;
use crate::weighted_stacks::WeightedStack;

/// What has the frames of a stack: a row, by the names of these or by their text.
pub trait HasFrames {
    ghost frames: { Self → List (List ℕ) };

    /// Whether some frame has the name.
    fn has_frame(&self, name: &Name) -> bool
        ensures { result ≡ has_name name.now (frames self.now) };
}

impl HasFrames for WeightedStack {
    ghost frames = { λ row. row.stack };

    fn has_frame(&self, name: &Name) -> bool {
        self.stack.names().iter().any(|frame| *name == *frame)
    }
}

/// Whether the row has the focus, where there is one, and not the ignored name, where there is one.
pub fn keeps<F: HasFrames>(row: &F, focus: Option<&Name>, ignored: Option<&Name>) -> bool
    ensures { result
        ≡ is_kept (option_copied focus.entry) (option_copied ignored.entry) (F.frames row.now) }
{
    focus.is_none_or(|name| row.has_frame(name)) && ignored.is_none_or(|name| !row.has_frame(name))
}
