//! How a run ends, and why.

ghost use Rattle.std.specs.Prelude.{◌≡◌};
ghost use Rattle.flame_program.specs.Outcomes.{code_of, fault_text_of, live_code_of, said_of};

use flame_answers::{AnswerFault, InputFault};
use live_report::LiveFault;
use std::error::Error;
use std::fmt;

/// A fault that ends the program. Its `Display` is what the program says of it.
#[derive(Clone, Copy, Debug, PartialEq, Eq)]
pub enum ToolFault {
    /// The input is refused.
    Input(InputFault),
    /// A focus or an ignored name can't be a name.
    Name,
    /// There is no session left for a warm start.
    Sessions,
    /// The rows couldn't be stored, or what was stored couldn't be confirmed.
    Live(LiveFault),
    /// A read failed.
    Read,
    /// A write or a flush failed, or a write took no byte.
    Write,
    /// The input has more bytes than the limit.
    TooLong,
    /// Memory ran out.
    NoMemory,
}

impl Error for ToolFault {}

impl fmt::Display for ToolFault {
    ghost output = { fault_text_of };

    fn fmt<W: fmt::Write>(&self, f: &mut fmt::Formatter<W>) -> fmt::Result {
        match self {
            ToolFault::Input(fault) => write!(f, "{fault}"),
            ToolFault::Live(fault) => write!(f, "{fault}"),
            ToolFault::Name => f.write_str("C1 Name"),
            ToolFault::Sessions => f.write_str("C2 Sessions"),
            ToolFault::Read => f.write_str("E1 Read"),
            ToolFault::Write => f.write_str("E2 Write"),
            ToolFault::TooLong => f.write_str("E3 TooLong"),
            ToolFault::NoMemory => f.write_str("E4 NoMemory"),
        }
    }
}

impl From<AnswerFault> for ToolFault {
    ghost use Rattle.std.specs.Prelude.{◌≡◌};
    ghost use Rattle.flame_program.specs.Requests.{told_of};

    ghost from_gives = { λ fault told. told ≡ told_of fault };

    fn from(fault: AnswerFault) -> ToolFault {
        match fault {
            AnswerFault::Input(fault) => ToolFault::Input(fault),
            AnswerFault::NoMemory => ToolFault::NoMemory,
        }
    }
}

impl From<LiveFault> for ToolFault {
    ghost use Rattle.flame_program.specs.Requests.{IsToldOfStore};

    ghost from_gives = { IsToldOfStore };

    fn from(fault: LiveFault) -> ToolFault {
        match fault {
            LiveFault::NoMemory => ToolFault::NoMemory,
            _ => ToolFault::Live(fault),
        }
    }
}

/// How a run ended.
#[derive(Debug, Drop)]
pub enum Outcome {
    /// The text was written whole.
    Done,
    /// The words were refused, or ask for help: the text for the user.
    Words(String),
    /// A fault.
    Fault(ToolFault),
}

/// The end of a run: the process's exit status, and its cause.
#[derive(Debug, Drop)]
pub struct Status {
    pub code: u8,
    pub cause: Outcome,
}

/// What the program says of its end on the standard error: nothing where it is done.
impl fmt::Display for Outcome {
    ghost output = { said_of };

    fn fmt<W: fmt::Write>(&self, f: &mut fmt::Formatter<W>) -> fmt::Result {
        match self {
            Outcome::Done => Ok(()),
            Outcome::Words(text) => f.write_str(text.as_str()),
            Outcome::Fault(fault) => writeln!(f, "flame: {fault}"),
        }
    }
}

impl Status {
    /// The status of this cause: 0 done, 1 input refused, 2 words refused or help, 3 read or write, 4 memory or
    /// threads, 5 rows that couldn't be stored or confirmed.
    pub fn of(cause: Outcome) -> Status
        ensures cause { result.cause ≡ cause }
        ensures code { result.code ≡ code_of cause }
    {
        let code = cause.code();
        Status { code, cause }
    }
}

impl Outcome {
    fn code(&self) -> u8
        ensures { result ≡ code_of self.now }
    {
        match self {
            Outcome::Done => 0,
            Outcome::Fault(ToolFault::Input(_) | ToolFault::TooLong) => 1,
            Outcome::Words(_) | Outcome::Fault(ToolFault::Name | ToolFault::Sessions) => 2,
            Outcome::Fault(ToolFault::Read | ToolFault::Write) => 3,
            Outcome::Fault(ToolFault::NoMemory) => 4,
            Outcome::Fault(ToolFault::Live(fault)) => live_code(*fault),
        }
    }
}

// The status of a fault of the store: 4 where a thread, memory or a place for versions was missing, else 5.
fn live_code(fault: LiveFault) -> u8
    ensures { result ≡ live_code_of fault }
{
    if fault.is_shortage() { 4 } else { 5 }
}
