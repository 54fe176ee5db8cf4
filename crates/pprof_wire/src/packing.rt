//! Packed numbers, one after the other.

ghost use Rattle.std.specs.Prelude.{◌≡◌, ℕ, List, ◌<◌, ◌++◌, length};
ghost use Rattle.pprof_wire.specs.Varints.{IsVarint, IsVarintFault, IsNextNumber};

use crate::faults::WireFault;
use crate::parts::bytes_from;
use crate::varints::first_varint;
use std::marker::Model;

/// The numbers of a packed field, one after the other (Protocol Buffers encoding page, "Packed Repeated
/// Fields").
/// A contract sees the bytes that were not handed out yet.
#[derive(Debug, Drop)]
pub struct Packed<'a> {
    rest: &'a [u8],
}

impl<'a> Model for Packed<'a> {
    ghost use Rattle.std.specs.Prelude.{ℕ, List};

    ghost Value = { List ℕ };

    ghost view = { λ packed. packed.rest.now };
}

impl<'a> Packed<'a> {
    /// The numbers of these bytes.
    pub(crate) fn new(bytes: &'a [u8]) -> Packed<'a>
        ensures { result ≡ bytes.now }
    {
        Packed { rest: bytes }
    }

    /// The next number. After the last one it is `None`. Where no whole number is left it is the fault,
    /// `Truncated` or `LongVarint` as `read_varint` has it, and each further call answers the same.
    #[inline(always)]
    pub fn next_value(&mut self) -> Option<Result<u64, WireFault>>
        ensures read { IsNextNumber self.old result self.new }
        ensures every_number { (spelling rest : List ℕ) → (number : ℕ)
            → self.old ≡ spelling ++ rest → IsVarint spelling number
            → (result ≡ Some (Ok number)) × (self.new ≡ rest) }
        ensures every_fault { (fault : WireFault)
            → 0 < length self.old → IsVarintFault fault self.old → result ≡ Some (Err fault) }
    {
        if self.rest.is_empty() {
            return None;
        }
        match first_varint(self.rest) {
            Ok((number, len)) => {
                self.rest = bytes_from(self.rest, len);
                Some(Ok(number))
            }
            Err(fault) => Some(Err(fault)),
        }
    }
}
