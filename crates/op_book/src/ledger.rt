//! Entries in order, with the next turn of each session.

ghost use Rattle.std.specs.Prelude.{ℕ, ◌≡◌, ◌<◌, ◌≤◌, ◌^◌, ◌++◌, ◌∷◌, [], true, length, IfOk, MatchResult, OnOk};
ghost use Rattle.op_book.specs.Books.{HasTurn, IsTurnFault};
ghost use Rattle.op_book.specs.Ledgers.{AreLedgerEntries, IsNewLedger};
ghost use Rattle.op_book.specs.Operations.{FitsWidth, is_change, operations_of, plain_answer, profile_after};
ghost use Rattle.op_book.specs.Runs.{most_sessions};
ghost use Rattle.profile_rows.specs.Rows.{total_of};
ghost use Rattle.profile_rows.specs.Values.{rows_at};

use crate::entry::Entry;
use crate::fault::BookFault;
use profile_rows::Width;
use std::alloc::{AllocError, Global};
use std::marker::Model;

/// The entries of a book: of so many sessions, of rows of so many values, and at most so many.
#[derive(Drop)]
pub(crate) struct Ledger {
    entries: Vec<Entry>,
    /// How many of the entries each session has.
    turns: Vec<u64>,
    limit: u32,
    width: Width,
}

impl Model for Ledger {
    ghost use Rattle.std.specs.Prelude.{length, vec_capacity};
    ghost use Rattle.op_book.specs.Ledgers.{IsLedger, LedgerState};

    ghost Value = { LedgerState };

    ghost view = { λ l. record {
      entries = l.entries.items;
      limit = l.limit;
      sessions = length l.turns.items;
      width = l.width;
      capacity = vec_capacity l.entries;
    } };

    ghost invariant = { λ l. IsLedger l.entries.items l.limit l.width l.turns.items };
}

impl Ledger {
    /// No entries yet.
    pub(crate) fn new(
        alloc: Global,
        limit: u32,
        sessions: u32,
        width: Width,
    ) -> Result<Ledger, AllocError>
        requires some { 0 < sessions }
        requires few { sessions ≤ most_sessions }
        ensures { IfOk result (IsNewLedger limit sessions width) }
    {
        let turns = vec![in alloc; 0; sessions as usize]?;
        Ok(Ledger {
            entries: Vec::new(alloc),
            turns,
            limit,
            width,
        })
    }

    /// The entries.
    pub(crate) fn entries(&self) -> &[Entry]
        ensures entries { result.now ≡ self.now.entries }
        ensures kept { AreLedgerEntries self.now }
    {
        let entries: &Vec<Entry> = &self.entries;
        entries.as_slice()
    }

    /// How many entries there are.
    pub(crate) fn len(&self) -> u64
        ensures { result ≡ length self.now.entries }
    {
        self.entries.len() as u64
    }

    /// How many sessions there are.
    pub(crate) fn sessions(&self) -> u32
        ensures { result ≡ self.now.sessions }
    {
        self.turns.len() as u32
    }

    /// How many values a row has.
    pub(crate) fn width(&self) -> Width
        ensures { result ≡ self.now.width }
    {
        self.width
    }

    /// Whether a session may take this turn: the first cause that keeps it from it.
    pub(crate) fn admit(&self, session: u32, turn: u64) -> Result<(), BookFault>
        ensures { MatchResult result (λ _. HasTurn self.now.entries self.now.limit self.now.sessions session turn)
            (λ fault. IsTurnFault self.now.entries self.now.limit self.now.sessions session turn fault) }
    {
        if session as usize >= self.turns.len() {
            return Err(BookFault::Session);
        }
        let held = self.turns[session as usize];
        if turn != held {
            return Err(BookFault::Turn { held });
        }
        if self.entries.len() == self.limit as usize {
            return Err(BookFault::Full { held: self.limit });
        }
        Ok(())
    }

    /// Takes memory for one more entry.
    pub(crate) fn reserve(&mut self) -> Result<(), AllocError>
        ensures same { self.new ≡ record self.old { capacity = self.new.capacity } }
        ensures memory { OnOk result (length self.new.entries < self.new.capacity) }
    {
        self.entries.reserve(1)?;
        Ok(())
    }

    /// Adds an entry at the end. Takes no memory.
    pub(crate) fn append(&mut self, entry: Entry)
        requires memory { length self.old.entries < self.old.capacity }
        requires turn { HasTurn self.old.entries self.old.limit self.old.sessions entry.session entry.turn }
        requires change { is_change entry.op ≡ true }
        requires width { FitsWidth self.old.width entry.op }
        requires light { (value : ℕ) → total_of
            (rows_at value (profile_after (operations_of self.old.entries ++ entry.op ∷ []))) < 2 ^ 63 }
        requires reply { entry.reply ≡ plain_answer (operations_of self.old.entries) entry.op }
        ensures { self.new ≡ record self.old { entries = self.old.entries ++ entry ∷ [] } }
    {
        let session = entry.session as usize;
        self.entries.push_reserved(entry);
        self.turns[session] += 1;
    }
}
