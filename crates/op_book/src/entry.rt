//! What a journal keeps of a change, and what a session is told of its operations.

ghost use Rattle.std.specs.Prelude.{◌≡◌, IfOk};

use crate::operation::{Op, Reply};
use flame_report::{Items, NoMemory};
use std::alloc::Global;
use std::marker::Model;

/// An entry of a journal. A contract sees what its operation and its reply hold.
#[derive(Debug, Drop)]
pub struct Entry {
    pub session: u32,
    /// How many entries of the session stand before this one.
    pub turn: u64,
    pub op: Op,
    pub reply: Reply,
}

impl Model for Entry {
    ghost use Rattle.op_book.specs.Operations.{PlainEntry, plain_op, plain_reply};

    ghost Value = { PlainEntry };

    ghost view = { λ e. record
        { session = e.session; turn = e.turn; op = plain_op e.op; reply = plain_reply e.reply } };
}

/// What a session is told of its operation. A contract sees what the operation and the reply hold.
#[derive(Debug, Drop)]
pub struct Receipt {
    pub op: Op,
    pub reply: Reply,
    /// Of a change the place of its entry in the journal, from 0; of a report how many changes it answers after.
    pub at: u64,
}

impl Model for Receipt {
    ghost use Rattle.op_book.specs.Operations.{PlainReceipt, plain_op, plain_reply};

    ghost Value = { PlainReceipt };

    ghost view = { λ r. record { op = plain_op r.op; reply = plain_reply r.reply; at = r.at } };
}

impl Receipt {
    /// The same receipt, which shares what the operation and the reply hold.
    ///
    /// # Errors
    ///
    /// `NoMemory`, where that has as many owners as it can have.
    pub fn share(&self) -> Result<Receipt, NoMemory>
        ensures { IfOk result (λ receipt. receipt ≡ self.now) }
    {
        Ok(Receipt {
            op: self.op.share()?,
            reply: self.reply.share()?,
            at: self.at,
        })
    }
}

/// What a session was told, in its own order.
#[derive(Debug, Drop)]
pub struct SessionLog {
    pub session: u32,
    pub receipts: Items<Receipt>,
}

impl SessionLog {
    /// The same log, which shares what its receipts hold.
    ///
    /// # Errors
    ///
    /// `NoMemory`.
    pub fn share(&self, alloc: Global) -> Result<SessionLog, NoMemory>
        ensures { IfOk result (λ log. log ≡ self.now) }
    {
        let mut receipts = Vec::with_capacity(alloc, self.receipts.len())?;
        for receipt in self.receipts.as_slice() {
            receipts.push(receipt.share()?)?;
        }
        Ok(SessionLog {
            session: self.session,
            receipts: Items::new(receipts),
        })
    }
}
