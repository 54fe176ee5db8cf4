//! Varints that are read.

ghost use Rattle.std.specs.Prelude.{◌≡◌, ℕ, List, ◌+◌, ◌≤◌, ◌++◌, drop, length, slice_range, MatchResult};
ghost use Rattle.pprof_wire.specs.Varints.{IsVarint, IsVarintFault, IsVarintRead};

use crate::faults::WireFault;
use crate::parts::bytes_from;

/// The number that is spelled as a varint at `at`, and the index after its spelling (Protocol Buffers
/// encoding page, "Base 128 Varints"). A spelling that is longer than needed is read too, up to ten bytes.
///
/// `Truncated` where the bytes end before the spelling does, also where `at` is their end or past it;
/// `LongVarint` where ten bytes are there, the first nine say that another follows, and the tenth is
/// neither 0 nor 1.
pub fn read_varint(bytes: &[u8], at: usize) -> Result<(u64, usize), WireFault>
    ensures read { MatchResult result
        (λ found. IsVarint (slice_range bytes.now at found.1) found.0 × (found.1 ≤ length bytes.now))
        (λ fault. IsVarintFault fault (drop at bytes.now)) }
    ensures every_spelling { (spelling rest : List ℕ) → (number : ℕ)
        → drop at bytes.now ≡ spelling ++ rest → IsVarint spelling number
        → result ≡ Ok (number, at + length spelling) }
    ensures every_fault { (fault : WireFault) → IsVarintFault fault (drop at bytes.now) → result ≡ Err fault }
{
    if at > bytes.len() {
        return Err(WireFault::Truncated);
    }
    let (number, len) = first_varint(bytes_from(bytes, at))?;
    Ok((number, at + len))
}

/// The number that is spelled at the front, and the length of its spelling. Most are of three bytes at most.
#[inline(always)]
pub(crate) fn first_varint(bytes: &[u8]) -> Result<(u64, usize), WireFault>
    ensures { IsVarintRead bytes.now result }
{
    match bytes {
        [] => Err(WireFault::Truncated),
        [byte, ..] if *byte < 0x80 => Ok((u64::from(*byte), 1)),
        [low, high, ..] if *high < 0x80 => {
            let number = u64::from(*low & 0x7f) + (u64::from(*high) << 7);
            Ok((number, 2))
        }
        [low, middle, high, ..] if *high < 0x80 => {
            let number = u64::from(*low & 0x7f)
                + (u64::from(*middle & 0x7f) << 7)
                + (u64::from(*high) << 14);
            Ok((number, 3))
        }
        _ => long_varint(bytes),
    }
}

/// The same, byte by byte: nine bytes of seven bits, and a tenth for the last bit.
fn long_varint(bytes: &[u8]) -> Result<(u64, usize), WireFault>
    ensures { IsVarintRead bytes.now result }
{
    let mut number = 0u64;
    for count in 0..9usize {
        if count >= bytes.len() {
            return Err(WireFault::Truncated);
        }
        let byte = bytes[count];
        number += u64::from(byte & 0x7f) << (7 * count);
        if byte < 0x80 {
            return Ok((number, count + 1));
        }
    }
    match bytes.get(9) {
        None => Err(WireFault::Truncated),
        Some(&tenth) if tenth < 2 => Ok((number + (u64::from(tenth) << 63), 10)),
        Some(_) => Err(WireFault::LongVarint),
    }
}
