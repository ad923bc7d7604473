//! The words of a script's lines.
use specs::{Entity, Index};

/// An index and a generation, as `0:1` or `0:-1`.
pub fn entity(word: &str) -> Option<Entity> {
    let (id, generation) = word.split_once(':')?;
    Entity::from_parts(index(id)?, i32::try_from(whole(generation)?).ok()?)
}

/// A number of 32 bits.
pub fn index(word: &str) -> Option<Index> {
    Index::try_from(number(word)?).ok()
}

/// A decimal below 2^64, without leading zero.
pub fn number(word: &str) -> Option<u64> {
    if is_decimal(word) {
        word.parse().ok()
    } else {
        None
    }
}

/// A whole number of 64 bits, with a minus but no plus.
pub fn whole(word: &str) -> Option<i64> {
    let digits = word.strip_prefix('-').unwrap_or(word);
    if !is_decimal(digits) || word == "-0" {
        return None;
    }
    word.parse().ok()
}

/// ASCII digits without leading zero, or `0`.
fn is_decimal(word: &str) -> bool {
    match word.as_bytes() {
        [] => false,
        [b'0', _, ..] => false,
        digits => digits.iter().all(|digit| digit.is_ascii_digit()),
    }
}
