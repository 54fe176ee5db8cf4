//! Stacks of names.

ghost use Rattle.std.specs.Prelude.{◌≡◌, ◌<◌, ◌≤◌, length, MatchResult, ◌==◌, refl};
ghost use Rattle.std.specs.Cmp.Lexicographic.{slice_cmp, pointwise, lists_ties, lists_total, texts_ties};
ghost use Rattle.std.specs.Cmp.Lexicographic.{nat_list_cmp_total};
ghost use Rattle.std.specs.Ordering.{nat_cmp, as_partial_cmp};
ghost use Rattle.std.specs.Cmp.Rules.{comparing};
ghost use Rattle.std.specs.Cmp.{partial_order_from_agreeing_total};
ghost use Rattle.std.proofs.Common.{rules};

use crate::name::Name;
use std::alloc::AllocError;
use std::clone::Clone;
use std::cmp::Ordering;
use std::marker::Model;

/// The most frames that a stack has.
pub const MAX_DEPTH: usize = 65_535;

/// The frames of a stack by their names, root first: at most [`MAX_DEPTH`], perhaps none. Stacks are ordered as lists
/// of names, so that a stack comes before those that it begins.
#[derive(Debug, Drop)]
pub struct Stack {
    names: Vec<Name>,
}

impl Model for Stack {
    ghost use Rattle.std.specs.Prelude.{List, ℕ, ◌≤◌, length};
    ghost use Rattle.profile_rows.specs.Limits.{most_frames};

    ghost Value = { List (List ℕ) };

    ghost view = { λ s. s.names.items };

    ghost invariant = { λ s. length s.names.items ≤ most_frames };
}

impl Stack {
    /// Takes the names, root first, as they are. Takes no memory.
    ///
    /// # Errors
    ///
    /// Hands the names back where there are more than [`MAX_DEPTH`], and only there.
    pub fn make(names: Vec<Name>) -> Result<Stack, Vec<Name>>
        ensures { MatchResult result
            (λ stack. (length names.items ≤ MAX_DEPTH) × (stack ≡ names.items))
            (λ back. (MAX_DEPTH < length names.items) × (back ≡ names)) }
    {
        if names.len() > MAX_DEPTH {
            return Err(names);
        }
        Ok(Stack { names })
    }

    /// The names, root first.
    pub fn names(&self) -> &[Name]
        ensures names { result.now ≡ self.now }
        ensures depth { length self.now ≤ MAX_DEPTH }
    {
        self.names.as_slice()
    }
}

impl Clone for Stack {
    ghost use Rattle.std.specs.Prelude.{◌≡◌};

    ghost is_clone = { λ stack clone. clone ≡ stack };

    /// A second owner of each name.
    fn clone(&self) -> Result<Stack, AllocError> {
        let names = self.names.clone()?;
        Ok(Stack { names })
    }
}

impl PartialEq for Stack {
    ghost eq = { pointwise (pointwise ◌==◌) };

    ghost laws = { Prim.search (comparing, rules) };

    fn eq(&self, other: &Stack) -> bool {
        self.names.as_slice() == other.names.as_slice()
    }
}

impl Eq for Stack {
    ghost laws = { Prim.search (comparing, rules) };
}

impl PartialOrd for Stack {
    ghost partial_cmp = { as_partial_cmp (slice_cmp (slice_cmp nat_cmp)) };

    ghost laws = { partial_order_from_agreeing_total (slice_cmp (slice_cmp nat_cmp)) (lists_total nat_list_cmp_total)
        (λ _ _. refl) (lists_ties (slice_cmp nat_cmp) texts_ties) };

    fn partial_cmp(&self, other: &Stack) -> Option<Ordering> {
        Some(self.cmp(other))
    }
}

impl Ord for Stack {
    ghost cmp = { slice_cmp (slice_cmp nat_cmp) };

    ghost total = { Prim.search (comparing, rules) };

    ghost matches_partial_cmp = { Prim.search (comparing, rules) };

    ghost matches_eq = { lists_ties (slice_cmp nat_cmp) texts_ties };

    fn cmp(&self, other: &Stack) -> Ordering {
        self.names.as_slice().cmp(other.names.as_slice())
    }
}
