//! Profiles as bytes: read and written, cut, and changed bit by bit.

use crate::samples;
use crate::scripts::{Made, Words, Wrong};
use pprof_profile::{Profile, ProfileFault, WrittenSamples, decode, encode, encode_around};

/// `profile`: the canonical bytes of the profile, or its fault. `profile around`: its bytes with another sample.
/// `profile each cut`, `profile each bit`: what its prefixes answer, and what it answers with one bit changed.
pub(crate) fn read_profile(words: Words, input: &[u8], made: &mut Made) {
    if words.has("each") {
        return try_each(words, input, made);
    }
    if let Some(fault) = fault_of(words, input, made) {
        made.refuse(&fault);
    }
}

/// The fault of bytes, or none where they are a profile's, which is answered by.
fn fault_of(words: Words, bytes: &[u8], made: &mut Made) -> Option<ProfileFault> {
    match decode(made.alloc(), bytes) {
        Ok(profile) => {
            answer_by(words, &profile, made);
            drop(profile);
            None
        }
        Err(fault) => Some(fault),
    }
}

fn answer_by(words: Words, profile: &Profile, made: &mut Made) {
    match words.text {
        "profile" => say_profile(profile, made),
        "profile around" => say_around(profile, made),
        _ => samples::answer(words, profile, made),
    }
}

/// Adds the canonical bytes of a profile, which have to read back as a profile with the same.
pub(crate) fn say_profile(profile: &Profile, made: &mut Made) {
    let mut written = Made::new(made.alloc());
    add_encoded(profile, &mut written);
    made.add(written.bytes());
    made.fail_as(&written);
    expect_again(written.bytes(), made);
}

fn add_encoded(profile: &Profile, made: &mut Made) {
    made.add_made(encode(made.alloc(), profile));
}

fn expect_again(bytes: &[u8], made: &mut Made) {
    let mut again = Made::new(made.alloc());
    read_again(bytes, &mut again);
    if again.wrong().is_some() || again.bytes() != bytes {
        made.fail(Wrong::Unequal);
    }
}

fn read_again(bytes: &[u8], made: &mut Made) {
    match decode(made.alloc(), bytes) {
        Ok(profile) => {
            add_encoded(&profile, made);
            drop(profile);
        }
        Err(_) => made.fail(Wrong::Unequal),
    }
}

/// Adds the bytes of a profile with a sample of location 1 and of value 7 in the place of its own samples.
fn say_around(profile: &Profile, made: &mut Made) {
    let alloc = made.alloc();
    let mut samples = WrittenSamples::new(alloc);
    if samples.push(&[1], &[7]).is_err() {
        made.fail(Wrong::NoMemory);
    }
    made.add_made(encode_around(alloc, profile.draft(), &samples));
    drop(samples);
}

/// What bytes answer, how often, and where.
#[derive(Drop)]
struct Seen {
    /// The fault of the bytes. A profile has none.
    fault: Option<ProfileFault>,
    count: u64,
    places: Made,
}

fn try_each(words: Words, input: &[u8], made: &mut Made) {
    let mut seen = Vec::new(made.alloc());
    match words.word(2) {
        "cut" => try_cuts(input, &mut seen, made),
        "bit" => try_bits(input, &mut seen, made),
        _ => made.fail(Wrong::Command),
    }
    for one in &seen {
        say_seen(one, made);
    }
    drop(seen);
}

fn try_cuts(input: &[u8], seen: &mut Vec<Seen>, made: &mut Made) {
    for place in 0..input.len() {
        try_bytes(input.get(..place).unwrap_or(input), place, seen, made);
    }
}

fn try_bits(input: &[u8], seen: &mut Vec<Seen>, made: &mut Made) {
    for place in 0..input.len().saturating_mul(8) {
        let mut changed = Made::new(made.alloc());
        changed.add(input);
        if let Some(byte) = changed.writer().get_mut(place / 8) {
            *byte ^= 1 << (place % 8);
        }
        try_bytes(changed.bytes(), place, seen, made);
    }
}

/// Counts what bytes answer.
fn try_bytes(bytes: &[u8], place: usize, seen: &mut Vec<Seen>, made: &mut Made) {
    let mut written = Made::new(made.alloc());
    let fault = fault_of(Words { text: "profile" }, bytes, &mut written);
    made.fail_as(&written);
    count_fault(fault, place, seen, made);
}

/// Counts a fault, in the order in which they come first.
fn count_fault(fault: Option<ProfileFault>, place: usize, seen: &mut Vec<Seen>, made: &mut Made) {
    let mut index = seen.len();
    for (at, one) in seen.iter().enumerate() {
        if one.fault == fault {
            index = at;
        }
    }
    if index == seen.len() {
        let places = Made::new(made.alloc());
        made.keep(
            seen,
            Seen {
                fault,
                count: 0,
                places,
            },
        );
    }
    if let Some(one) = seen.get_mut(index) {
        one.count = one.count.saturating_add(1);
        one.places.print(&format_args!(" {place}"));
    }
}

/// Adds how often an answer came; where it came to few places, these too.
fn say_seen(one: &Seen, made: &mut Made) {
    match one.fault {
        None => made.print(&format_args!("{} profiles", one.count)),
        Some(fault) => made.print(&format_args!("{} {fault}", one.count)),
    }
    if one.count <= 12 {
        made.print(&" at");
        made.add(one.places.bytes());
    }
    made.fail_as(&one.places);
    made.push(b'\n');
}
