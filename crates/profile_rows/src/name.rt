//! Names of frames.
#![tactic(auto, using(crate::proofs::Steps::name))]

ghost use Rattle.std.specs.Prelude.{◌≡◌, ◌↔◌, IfOk, IsErrOf, IsTrue, ◌==◌};
ghost use Rattle.std.specs.Cmp.Lexicographic.{slice_cmp, pointwise};
ghost use Rattle.std.specs.Ordering.{nat_cmp, as_partial_cmp};
ghost use Rattle.std.specs.Cmp.Rules.{comparing};
ghost use Rattle.std.specs.Cmp.{partial_order_from_own_ties};
ghost use Rattle.std.proofs.Common.{rules};
ghost use Rattle.std.specs.Prelude.{map, string_bytes};
ghost use Rattle.profile_rows.specs.Names.{IsName, cleaned_byte, cleaned_name_of};

use basics::NoMemory;
use std::alloc::{AllocError, Global};
use std::clone::Clone;
use std::cmp::Ordering;
use std::marker::Model;
use std::sync::ArcStr;
use thiserror::Error;

/// Why a text is no [`Name`].
#[derive(Clone, Copy, Debug, PartialEq, Eq, Error)]
pub enum NameFault {
    /// The text is empty, or holds a semicolon or a line feed.
    #[error("L1 BadName")]
    BadName,
    /// Memory ran out.
    #[error("L2 NoMemory")]
    NoMemory,
}

/// A frame's name: UTF-8 text that isn't empty and holds no semicolon and no line feed, so that a line of folded stacks
/// can hold it. Names are ordered by their bytes. A second owner shares the text.
#[derive(Debug, Drop)]
pub struct Name {
    text: ArcStr<Global>,
}

impl Model for Name {
    ghost use Rattle.std.specs.Prelude.{List, ℕ};
    ghost use Rattle.std.specs.Arc.{arc_str_bytes};
    ghost use Rattle.profile_rows.specs.Names.{IsName};

    ghost Value = { List ℕ };

    ghost view = { λ n. arc_str_bytes n.text };

    ghost invariant = { λ n. IsName (arc_str_bytes n.text) };
}

/// Whether a text can be a name.
fn is_name(text: &str) -> bool
    ensures { IsTrue result ↔ IsName text.now }
{
    !text.is_empty() && text.bytes().all(|byte| byte != b';' && byte != b'\n')
}

/// A byte of a name for a byte of a profile's text: a colon for a semicolon, and a space for a line feed.
fn cleaned_byte(byte: u8) -> u8
    ensures { result ≡ cleaned_byte byte }
{
    match byte {
        b';' => b':',
        b'\n' => b' ',
        _ => byte,
    }
}

/// A text with each semicolon as a colon and each line feed as a space.
fn cleaned_text(alloc: Global, text: &str) -> Result<String, NoMemory>
    ensures { IfOk result (λ cleaned. string_bytes cleaned ≡ map cleaned_byte text.now) }
{
    let mut bytes = Vec::with_capacity(alloc, text.len())?;
    for byte in text.as_bytes() {
        bytes.push(cleaned_byte(*byte))?;
    }
    Ok(String::from_utf8_lossy(alloc, &bytes)?)
}

impl Clone for Name {
    ghost use Rattle.std.specs.Prelude.{◌≡◌};

    ghost is_clone = { λ name clone. clone ≡ name };

    /// A second owner of the same text, which isn't copied. It fails at the limit of owners (2^63).
    fn clone(&self) -> Result<Name, AllocError> {
        let text = self.text.clone()?;
        Ok(Name { text })
    }
}

impl Name {
    /// Keeps a copy of the text as a name.
    ///
    /// # Errors
    ///
    /// `BadName` exactly where the text is empty or holds a semicolon or a line feed; `NoMemory`.
    pub fn make(alloc: Global, text: &str) -> Result<Name, NameFault>
        ensures made { IfOk result (λ name. (name ≡ text.now) × IsName text.now) }
        ensures bad_name { IsErrOf result NameFault.BadName ↔ ¬ IsName text.now }
    {
        if !is_name(text) {
            return Err(NameFault::BadName);
        }
        Name::keep(alloc, text).map_err(|_| NameFault::NoMemory)
    }

    /// Keeps a copy of a text that is known to be a name.
    ///
    /// # Errors
    ///
    /// `NoMemory`.
    pub fn keep(alloc: Global, text: &str) -> Result<Name, NoMemory>
        requires { IsName text.now }
        ensures { IfOk result (λ name. name ≡ text.now) }
    {
        let text = ArcStr::from_str(alloc, text)?;
        Ok(Name { text })
    }

    /// The name of a profile's text: each semicolon becomes a colon and each line feed a space. Empty text gives none.
    ///
    /// # Errors
    ///
    /// `NoMemory`.
    pub fn clean(alloc: Global, text: &str) -> Result<Option<Name>, NoMemory>
        ensures { IfOk result (λ name. name ≡ cleaned_name_of text.now) }
    {
        if text.is_empty() {
            return Ok(None);
        }
        if is_name(text) {
            return Ok(Some(Name::keep(alloc, text)?));
        }
        let cleaned = cleaned_text(alloc, text)?;
        Ok(Some(Name::keep(alloc, cleaned.as_str())?))
    }

    /// The text.
    pub fn text(&self) -> &str
        ensures text { result.now ≡ self.now }
        ensures name { IsName self.now }
    {
        self.text.as_str()
    }
}

impl PartialEq for Name {
    ghost eq = { pointwise ◌==◌ };

    ghost laws = { Prim.search (comparing, rules) };

    fn eq(&self, other: &Name) -> bool {
        self.text.as_str().as_bytes() == other.text.as_str().as_bytes()
    }
}

impl Eq for Name {
    ghost laws = { Prim.search (comparing, rules) };
}

impl PartialOrd for Name {
    ghost partial_cmp = { as_partial_cmp (slice_cmp nat_cmp) };

    ghost laws = { partial_order_from_own_ties (Prim.search (comparing, rules)) (Prim.search (comparing, rules)) };

    fn partial_cmp(&self, other: &Name) -> Option<Ordering> {
        Some(self.cmp(other))
    }
}

impl Ord for Name {
    ghost cmp = { slice_cmp nat_cmp };

    ghost total = { Prim.search (comparing, rules) };

    ghost matches_partial_cmp = { Prim.search (comparing, rules) };

    ghost matches_eq = { Prim.search (comparing, rules) };

    fn cmp(&self, other: &Name) -> Ordering {
        self.text
            .as_str()
            .as_bytes()
            .cmp(other.text.as_str().as_bytes())
    }
}

impl std::hash::Hash for Name {
    ghost use Rattle.std.specs.Hash as fed;
    ghost use Rattle.std.specs.Cmp.Rules.{hashing};

    ghost hash_input = { fed.str };

    ghost respects_eq = { Prim.search (hashing, rules) };

    fn hash<H: std::hash::Hasher>(&self, state: &mut H) {
        self.text.as_str().hash(state);
    }
}
