//! Lists and texts of messages, which give back what they are made of.

use crate::rows::numbers_of;
use crate::scripts::{Made, Words, Wrong};
use flame_report::Items;
use pprof_profile::Text;

/// `items push 8`, `items reserve 100`: the numbers of the input as a list, with one more or with room for more.
pub(crate) fn make_items(words: Words, input: &[u8], made: &mut Made) {
    let mut items = Items::new(numbers_of(made.text_of(input), made));
    if !change(&mut items, words, made) {
        made.fail(Wrong::Command);
    }
    tell(items, made);
}

fn change(items: &mut Items<u64>, words: Words, made: &mut Made) -> bool {
    match words.word(1) {
        "push" => items.push(made.number(words.word(2))).is_ok(),
        "reserve" => items.reserve(made.number(words.word(2))).is_ok(),
        _ => false,
    }
}

/// Adds how many items there are, and which; and those that come back.
fn tell(items: Items<u64>, made: &mut Made) {
    made.say(&items.len());
    made.show(&items.as_slice());
    made.show(&items.into_vec().as_slice());
}

/// `text`: the input as the text of a message, and the string that comes back.
pub(crate) fn make_text(input: &[u8], made: &mut Made) {
    match String::from_str(made.alloc(), made.text_of(input)) {
        Ok(string) => tell_text(Text::new(string), made),
        Err(_) => made.fail(Wrong::NoMemory),
    }
}

fn tell_text(text: Text, made: &mut Made) {
    made.say(&text.as_str());
    made.say(&text.into_string().as_str());
}
