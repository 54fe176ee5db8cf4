//! Stacks as texts: their names with a semicolon between each two.

ghost use Rattle.std.specs.Prelude.{◌≡◌, ◌++◌, All, List, OnOk, map, string_bytes, ℕ};
ghost use Rattle.std.specs.List.{join_with_byte};
ghost use Rattle.profile_rows.specs.Names.{IsName};

use crate::name::Name;
use std::alloc::AllocError;

/// A row whose stack is a text.
#[derive(Debug, Drop)]
pub struct StackText {
    /// The names, root first, with a semicolon between each two.
    pub text: String,
    pub weight: u64,
}

/// A name, owned or lent.
pub trait AsName {
    ghost name: { Self → List ℕ };

    /// The name.
    fn as_name(&self) -> &Name
        ensures { result.now ≡ name self.now };
}

impl AsName for Name {
    ghost name = { λ owned. owned };

    fn as_name(&self) -> &Name {
        self
    }
}

impl<'a> AsName for &'a Name {
    ghost name = { λ lent. lent.now };

    fn as_name(&self) -> &Name {
        *self
    }
}

/// Adds names to a text, with a semicolon between each two.
///
/// # Errors
///
/// `AllocError`; some of the names may then stand in the text.
pub fn push_joined<N: AsName>(text: &mut String, names: &[N]) -> Result<(), AllocError>
    ensures joined { OnOk result
        (string_bytes text.new ≡ string_bytes text.old ++ join_with_byte 59 (map N.name names.now)) }
    ensures named { OnOk result (All IsName (map N.name names.now)) }
{
    for (index, item) in names.iter().enumerate() {
        if index > 0 {
            text.push(';')?;
        }
        text.push_str(item.as_name().text())?;
    }
    Ok(())
}
