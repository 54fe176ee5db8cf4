//! What a session may ask of a book, and what it is told.

ghost use Rattle.std.specs.Prelude.{◌≡◌, ◌↔◌, IfOk, IsTrue};
ghost use Rattle.op_book.specs.Operations.{is_change, is_reset, plain_op, plain_reply};

use flame_report::{Answer, NoMemory, Query};
use profile_rows::Batch;
use std::sync::Arc;

/// An operation of a session.
#[derive(Debug, Drop)]
pub enum Op {
    /// The rows of a batch are added.
    Add(Arc<Batch>),
    /// What was added before counts no more.
    Reset,
    /// A query is answered over what counts.
    Ask(Arc<Query>),
}

/// What an operation is answered.
#[derive(Debug, Drop)]
pub enum Reply {
    /// An addition or a reset: how many of these stand before it.
    Placed(u64),
    /// The answer to a query.
    Answered(Arc<Answer>),
}

impl Op {
    /// Whether it changes the profile: an addition or a reset.
    pub fn is_change(&self) -> bool
        ensures { result ≡ is_change (plain_op self.now) }
    {
        !matches!(self, Op::Ask(_))
    }

    /// Whether it is a reset.
    pub(crate) fn is_reset(&self) -> bool
        ensures { result ≡ is_reset (plain_op self.now) }
    {
        matches!(self, Op::Reset)
    }

    /// Another owner of what the operation holds.
    ///
    /// # Errors
    ///
    /// `NoMemory`, where that has as many owners as it can have.
    pub fn share(&self) -> Result<Op, NoMemory>
        ensures { IfOk result (λ op. plain_op op ≡ plain_op self.now) }
    {
        match self {
            Op::Add(batch) => match Arc::try_clone(batch) {
                Ok(batch) => Ok(Op::Add(batch)),
                Err(_) => Err(NoMemory),
            },
            Op::Reset => Ok(Op::Reset),
            Op::Ask(query) => match Arc::try_clone(query) {
                Ok(query) => Ok(Op::Ask(query)),
                Err(_) => Err(NoMemory),
            },
        }
    }
}

impl PartialEq for Op {
    ghost use Rattle.op_book.specs.Equality.{op_eq, op_eq-laws};
    ghost use Rattle.std.specs.Cmp.{partial_equiv_from_equiv};

    ghost eq = { op_eq };

    ghost laws = { partial_equiv_from_equiv op_eq-laws };

    /// Whether the operations add the same rows, are both resets, or ask the same.
    fn eq(&self, other: &Op) -> bool
        ensures compared { result ≡ op_eq self.now other.now }
        ensures equal { IsTrue result ↔ (plain_op self.now ≡ plain_op other.now) }
    {
        match (self, other) {
            (Op::Add(batch), Op::Add(other)) => batch == other,
            (Op::Reset, Op::Reset) => true,
            (Op::Ask(query), Op::Ask(other)) => query == other,
            _ => false,
        }
    }
}

impl Eq for Op {
    ghost use Rattle.op_book.specs.Equality.{op_eq-laws};

    ghost laws = { op_eq-laws };
}

impl Reply {
    /// Another owner of what the reply holds.
    ///
    /// # Errors
    ///
    /// `NoMemory`, where that has as many owners as it can have.
    pub fn share(&self) -> Result<Reply, NoMemory>
        ensures { IfOk result (λ reply. plain_reply reply ≡ plain_reply self.now) }
    {
        match self {
            Reply::Placed(place) => Ok(Reply::Placed(*place)),
            Reply::Answered(answer) => match Arc::try_clone(answer) {
                Ok(answer) => Ok(Reply::Answered(answer)),
                Err(_) => Err(NoMemory),
            },
        }
    }
}

impl PartialEq for Reply {
    ghost use Rattle.op_book.specs.Equality.{reply_eq, reply_eq-laws};
    ghost use Rattle.std.specs.Cmp.{partial_equiv_from_equiv};

    ghost eq = { reply_eq };

    ghost laws = { partial_equiv_from_equiv reply_eq-laws };

    /// Whether the replies tell the same place or the same answer.
    fn eq(&self, other: &Reply) -> bool
        ensures compared { result ≡ reply_eq self.now other.now }
        ensures equal { IsTrue result ↔ (plain_reply self.now ≡ plain_reply other.now) }
    {
        match (self, other) {
            (Reply::Placed(place), Reply::Placed(other)) => place == other,
            (Reply::Answered(answer), Reply::Answered(other)) => answer == other,
            _ => false,
        }
    }
}

impl Eq for Reply {
    ghost use Rattle.op_book.specs.Equality.{reply_eq-laws};

    ghost laws = { reply_eq-laws };
}
