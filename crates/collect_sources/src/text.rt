//! Lines of text, counted.

ghost use Rattle.std.specs.Prelude.{◌≡◌, ◌≤◌, length, take};
ghost use Rattle.collect_sources.specs.Lines.{AreFirstLines, AreSoManyLines, IsBetweenLines, line_count, line_ends};

use memchr::memchr;

/// How many bytes are counted at once, fewer than 256.
const FEW: usize = 128;

/// How many lines a text has. The last may lack its end.
pub fn count_lines(text: &[u8]) -> u64
    ensures { result ≡ line_count text.now }
{
    let unended = match text.last() {
        None | Some(b'\n') => 0,
        Some(_) => 1,
    };
    count_ends(text) + unended
}

/// How many bytes of a text end a line.
fn count_ends(text: &[u8]) -> u64
    ensures { result ≡ line_ends text.now }
{
    let mut rest = text;
    let mut ends = 0u64;
    while !rest.is_empty() {
        let (few, more) = rest.split_at(rest.len().min(FEW));
        ends += u64::from(count_few(few));
        rest = more;
    }
    ends
}

/// How many of a few bytes end a line.
fn count_few(few: &[u8]) -> u8
    requires { length few.now ≤ FEW }
    ensures { result ≡ line_ends few.now }
{
    let mut ends = 0u8;
    for byte in few {
        ends += u8::from(*byte == b'\n');
    }
    ends
}

/// The first lines of a text, at most so many.
pub fn first_lines(text: &[u8], most: u64) -> &[u8]
    ensures lines { AreFirstLines text.entry.now result.now }
    ensures many { AreSoManyLines text.entry.now most result.now }
{
    &text[..line_start(text, most)]
}

/// Where a text's line of this number, from 0, begins; the text's end where it has no such line.
fn line_start(text: &[u8], number: u64) -> usize
    ensures cut { IsBetweenLines text.now result }
    ensures many { AreSoManyLines text.now number (take result text.now) }
{
    let mut start = 0;
    for _ in 0..number {
        match memchr(b'\n', &text[start..]) {
            Some(end) => start += end + 1,
            None => return text.len(),
        }
    }
    start
}
