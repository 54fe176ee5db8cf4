//! Where hashes begin.

use library_steps::{Made, Words, Wrong};
use profile_store::Hashing;
use std::hash::BuildHasher;
use std::io;
use std::io::ErrorKind;
use std::random::RandomSource;

/// Gives the same bytes each time, to who asks for as many.
#[derive(Clone, Copy)]
struct KnownBytes<'a> {
    bytes: &'a [u8],
}

impl RandomSource for KnownBytes<'_> {
    fn fill_bytes(&self, buf: &mut [u8]) -> io::Result<()> {
        if buf.len() != self.bytes.len() {
            return Err(io::Error::from(ErrorKind::InvalidInput));
        }
        buf.copy_from_slice(self.bytes);
        Ok(())
    }
}

/// `hashes`: whether a name has the same hash from the two starts in each line: `key 7, random`.
pub(crate) fn compare<R: RandomSource>(rt: &R, input: &[u8], made: &mut Made) {
    for line in made.text_of(input).lines() {
        let (first, second) = made.halves(line, ',');
        let is_same = hash_from(rt, first, made) == hash_from(rt, second.trim(), made);
        made.say(&if is_same { "same" } else { "another" });
    }
}

/// The hash of a name from this start.
fn hash_from<R: RandomSource>(rt: &R, text: &str, made: &mut Made) -> Option<u64> {
    let hashing = start_of(rt, Words { text }, made);
    hashing.map(|hashing| hashing.hash_one("main"))
}

/// `key 7`, `fixed`, `random`, `bytes abcdefgh`: a start by a key, the fixed one, or one that random bytes decide.
fn start_of<R: RandomSource>(rt: &R, words: Words, made: &mut Made) -> Option<Hashing> {
    let known = KnownBytes {
        bytes: words.word(1).as_bytes(),
    };
    match words.word(0) {
        "key" => Some(Hashing::of_key(made.number(words.word(1)))),
        "fixed" => Some(Hashing::fixed()),
        "random" => made.done(Hashing::random(rt)),
        "bytes" => made.done(Hashing::random(&known)),
        _ => made.wanted(None, Wrong::Command),
    }
}
