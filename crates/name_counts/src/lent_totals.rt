//! What the names of rows weigh, with names that stand elsewhere.

ghost use Rattle.std.specs.Prelude.{◌≡◌, IfOk, List};
ghost use Rattle.profile_rows.specs.Names.{IsName};
ghost use Rattle.profile_rows.specs.TopList.{AreTotalsOf};
ghost use Rattle.profile_rows.specs.declared.weighted_stacks.WeightedStack.{WeightedStack};

use basics::NoMemory;
use profile_rows::{FrameTotal, FrameTotals, Name};
use std::alloc::{AllocError, Global};
use std::marker::Model;

/// What a name weighs in rows, as [`FrameTotal`] has it, but for the name's text, which stands elsewhere.
#[derive(Drop)]
pub struct LentTotal<'a> {
    name: &'a str,
    flat: u64,
    cum: u64,
}

impl<'a> Model for LentTotal<'a> {
    ghost use Rattle.profile_rows.specs.declared.frame_totals.FrameTotal.{FrameTotal};
    ghost use Rattle.profile_rows.specs.Names.{IsName};

    ghost Value = { FrameTotal };

    ghost view = { λ lent. record { name = lent.name.now; flat = lent.flat; cum = lent.cum } };

    ghost invariant = { λ lent. IsName lent.name.now };
}

impl<'a> LentTotal<'a> {
    /// A name with its weights.
    pub(crate) fn new(name: &'a str, flat: u64, cum: u64) -> LentTotal<'a>
        requires { IsName name.now }
        ensures { result ≡ record { name = name.now; flat = flat; cum = cum } }
    {
        LentTotal { name, flat, cum }
    }

    /// The weights of a name, which stays where it is.
    pub fn of(total: &'a FrameTotal) -> LentTotal<'a>
        ensures { result ≡ total.now }
    {
        LentTotal::new(total.name.text(), total.flat, total.cum)
    }

    /// The name's text.
    pub fn name(&self) -> &'a str
        ensures { result.now ≡ self.now.name }
    {
        self.name
    }

    /// The weight of the rows whose leaf has the name.
    pub fn flat(&self) -> u64
        ensures { result ≡ self.now.flat }
    {
        self.flat
    }

    /// The weight of the rows that have the name.
    pub fn cum(&self) -> u64
        ensures { result ≡ self.now.cum }
    {
        self.cum
    }
}

/// The weights with copies of the names.
///
/// # Errors
///
/// `NoMemory`.
pub fn keep_totals(alloc: Global, lent: &[LentTotal]) -> Result<Vec<FrameTotal>, NoMemory>
    ensures { IfOk result (λ totals. totals.items ≡ lent.now) }
{
    let mut totals = Vec::with_capacity(alloc, lent.len())?;
    for total in lent {
        totals.push(FrameTotal {
            name: Name::keep(alloc, total.name)?,
            flat: total.flat,
            cum: total.cum,
        })?;
    }
    Ok(totals)
}

/// What the names of rows weigh, and what the rows weigh together, as [`FrameTotals`] has it, but for the names' texts,
/// which stand elsewhere.
#[derive(Drop)]
pub struct LentTotals<'a> {
    total: u64,
    frames: Vec<LentTotal<'a>>,
}

impl<'a> Model for LentTotals<'a> {
    ghost use Rattle.profile_rows.specs.declared.frame_totals.FrameTotals.{FrameTotals};

    ghost Value = { FrameTotals };

    ghost view = { λ lent. record { total = lent.total; frames = lent.frames } };
}

impl<'a> LentTotals<'a> {
    /// What rows weigh together, and what each name weighs in them.
    pub(crate) fn new(total: u64, frames: Vec<LentTotal<'a>>) -> LentTotals<'a>
        ensures { result ≡ record { total = total; frames = frames.entry } }
    {
        LentTotals { total, frames }
    }

    /// What the rows weigh together, and what each name weighs in them.
    pub fn into_parts(self) -> (u64, Vec<LentTotal<'a>>)
        ensures { result ≡ (self.entry.total, self.entry.frames) }
    {
        (self.total, self.frames)
    }

    /// These weights, whose names stay where they are.
    ///
    /// # Errors
    ///
    /// `AllocError`.
    pub fn of(alloc: Global, totals: &'a FrameTotals) -> Result<LentTotals<'a>, AllocError>
        ensures { (rows : List WeightedStack) → AreTotalsOf rows totals.now
            → IfOk result (AreTotalsOf rows) }
    {
        let frames = totals.frames.iter().map(LentTotal::of).collect(alloc)?;
        Ok(LentTotals::new(totals.total, frames))
    }

    /// The weights with copies of the names.
    ///
    /// # Errors
    ///
    /// `NoMemory`.
    pub fn keep(&self, alloc: Global) -> Result<FrameTotals, NoMemory>
        ensures { (rows : List WeightedStack) → AreTotalsOf rows self.now
            → IfOk result (AreTotalsOf rows) }
    {
        Ok(FrameTotals {
            total: self.total,
            frames: keep_totals(alloc, self.frames.as_slice())?,
        })
    }
}
