//! A session's log.

ghost use Rattle.std.specs.Prelude.{◌≡◌, ◌<◌, [], ℕ, OnOk, false, length, true};
ghost use Rattle.op_book.specs.Books.{change_told};
ghost use Rattle.op_book.specs.Operations.{PlainOp, is_change};
ghost use Rattle.live_store.specs.Stores.{changes_told};

use op_book::Receipt;
use std::alloc::{AllocError, Global};

/// What a session was told, in order, and how many changes it made by that. Only the locked book makes a log, for a
/// session to which it gives a number, and only the locked book adds a change to it, in the event that the receipt
/// tells of. Nothing is ever taken out.
#[derive(Drop)]
pub(crate) struct Log {
    /// The session's number.
    number: u32,
    receipts: Vec<Receipt>,
    /// How many changes the session made.
    turn: u64,
    ghost counted: { turn ≡ changes_told receipts.items },
}

impl Log {
    ghost use Rattle.live_store.specs.Changes.{HasKept};

    /// Nothing told yet to the session of this number. Takes no memory.
    pub(super) fn new(alloc: Global, number: u32) -> Log
        ensures number { result.number ≡ number }
        ensures nothing { result.receipts.items ≡ [] }
    {
        Log {
            number,
            receipts: Vec::new(alloc),
            turn: 0,
        }
    }

    /// The session's number.
    pub(crate) fn number(&self) -> u32
        ensures { result ≡ self.now.number }
    {
        self.number
    }

    /// How many changes the session made: the number of its next turn.
    pub(super) fn turn(&self) -> u64
        ensures { result ≡ changes_told self.now.receipts.items }
    {
        self.turn
    }

    /// The receipts so far.
    pub(crate) fn receipts(&self) -> &[Receipt]
        ensures { result.now ≡ self.now.receipts.items }
    {
        self.receipts.as_slice()
    }

    /// All receipts.
    pub(crate) fn into_receipts(self) -> Vec<Receipt>
        ensures { result.items ≡ self.receipts.items }
    {
        self.receipts
    }

    /// Takes memory for a receipt more.
    pub(crate) fn make_room(&mut self) -> Result<(), AllocError>
        ensures room { OnOk result (length self.new.receipts.items < self.new.receipts.cap) }
        ensures same { self.new.receipts.items ≡ self.old.receipts.items }
        ensures number { self.new.number ≡ self.old.number }
    {
        self.receipts.reserve(1)
    }

    /// Keeps the receipt of a change, counts it, and returns its place.
    pub(super) fn keep_change(&mut self, receipt: Receipt) -> u64
        requires room { length self.old.receipts.items < self.old.receipts.cap }
        requires told { (op : PlainOp) × (place : ℕ)
            × (receipt ≡ change_told op place) × (is_change op ≡ true) }
        ensures kept { HasKept self.old receipt self.new }
        ensures placed { result ≡ receipt.at }
    {
        self.turn += 1;
        let place = receipt.at;
        self.receipts.push_reserved(receipt);
        place
    }

    /// Keeps the receipt of a report.
    pub(crate) fn keep_report(&mut self, receipt: Receipt)
        requires room { length self.old.receipts.items < self.old.receipts.cap }
        requires told { is_change receipt.op ≡ false }
        ensures { HasKept self.old receipt self.new }
    {
        self.receipts.push_reserved(receipt);
    }
}
