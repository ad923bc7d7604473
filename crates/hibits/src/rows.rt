//! Rows of words, each of which is a layer of a set.
ghost use Rattle.std.specs.Prelude.{◌≡◌, ℕ, ◌+◌, ◌-◌, ◌*◌, ◌/◌, ◌%◌, ◌^◌, ◌<◌, ◌≤◌, Bool, not, ◌==◌, [], ◌∷◌, if◌then◌else◌, is_ok, OnErr, IfErr, length, slice_index};
ghost use Rattle.std.specs.Prelude.{bit_and, bit_or, true, IsTrue, ◌↔◌};
ghost use Rattle.std.specs.Int.{bit_not, w64};
ghost use Rattle.hibits.specs.Counts.{count_below};
ghost use Rattle.hibits.specs.Rows.{row_bit, AreWords, IsPut, SameWords};

use crate::error::SetError;
use crate::limits::Index;

/// A word of a row, 0 past its end.
#[inline(always)]
pub(crate) fn word_at(words: &Vec<u64>, place: u32) -> u64
    ensures { result ≡ slice_index words.now.items place }
{
    match words.get(place as usize) {
        Some(word) => *word,
        None => 0,
    }
}

/// The same of a slice.
#[inline(always)]
fn word_of(words: &[u64], place: usize) -> u64
    ensures { result ≡ slice_index words.now place }
{
    match words.get(place) {
        Some(word) => *word,
        None => 0,
    }
}

/// Puts a bit of a word.
#[inline(always)]
pub(crate) fn with_bit(word: u64, i: u32, value: bool) -> u64
    requires { i < 64 }
    ensures { result ≡ (if value then bit_or word (1 * 2 ^ i % 2 ^ 64) else bit_and word (bit_not w64 (1 * 2 ^ i % 2 ^ 64))) }
{
    if value {
        word | (1u64 << i)
    } else {
        word & !(1u64 << i)
    }
}

/// Puts a bit of a row, and says whether its word is not 0 then.
#[inline(always)]
fn put_bit(words: &mut Vec<u64>, i: u32, value: bool) -> bool
    requires { i / 64 < length words.old.items }
    ensures put { IsPut words.old.items words.new.items i value }
    ensures some { result ≡ not (slice_index words.new.items (i / 64) == 0) }
    ensures words { AreWords words.new.items }
{
    let place = (i / 64) as usize;
    let word = with_bit(words[place], i % 64, value);
    words[place] = word;
    word != 0
}

/// Puts the bits of an index in the layers above the lowest, where `some` says whether its word of the lowest is not 0.
#[inline(never)]
pub(crate) fn update_above(
    layer1: &mut Vec<u64>,
    layer2: &mut Vec<u64>,
    layer3: &mut Vec<u64>,
    top: &mut u64,
    id: Index,
    some: bool,
)
    requires layer1 { id / 4096 < length layer1.old.items }
    requires layer2 { id / 262144 < length layer2.old.items }
    requires layer3 { id / 64 ^ 4 < length layer3.old.items }
    requires top { id / 64 ^ 4 < 64 }
    ensures layer1 { IsPut layer1.old.items layer1.new.items (id / 64) some }
    ensures layer2 { IsPut layer2.old.items layer2.new.items (id / 4096) (not (slice_index layer1.new.items (id / 4096) == 0)) }
    ensures layer3 { IsPut layer3.old.items layer3.new.items (id / 262144) (not (slice_index layer2.new.items (id / 262144) == 0)) }
    ensures words1 { AreWords layer1.new.items }
    ensures words2 { AreWords layer2.new.items }
    ensures words3 { AreWords layer3.new.items }
    ensures words4 { AreWords (top.new ∷ []) }
    ensures top { IsPut (top.old ∷ []) (top.new ∷ []) (id / 64 ^ 4) (not (slice_index layer3.new.items (id / 64 ^ 4) == 0)) }
{
    let some = put_bit(layer1, id / 64, some);
    let some = put_bit(layer2, id / 4096, some);
    let some = put_bit(layer3, id / 262144, some);
    *top = with_bit(*top, id / 16_777_216, some);
}

/// Makes a row longer by words that are 0. A row that is long enough stays.
pub(crate) fn grow(words: &mut Vec<u64>, len: usize) -> Result<(), SetError>
    ensures same { SameWords words.old.items words.new.items }
    ensures len { length words.new.items ≡ (if is_ok result then length words.old.items + (len - length words.old.items) else length words.old.items) }
    ensures words { AreWords words.new.items }
    ensures err { OnErr result (words.new.items ≡ words.old.items) }
    ensures error { IfErr result (λ e. e ≡ SetError.OutOfMemory) }
{
    if len <= words.len() {
        return Ok(());
    }
    match words.resize(len, 0) {
        Ok(()) => Ok(()),
        Err(_) => Err(SetError::OutOfMemory),
    }
}

/// Makes each word 0.
pub(crate) fn wipe(words: &mut Vec<u64>)
    ensures len { length words.new.items ≡ length words.old.items }
    ensures zero { (k : ℕ) → slice_index words.new.items k ≡ 0 }
{
    words.as_mut_slice().fill(0);
}

/// Whether each bit of `inner` is set in `outer` too.
pub(crate) fn covers_row(outer: &[u64], inner: &[u64]) -> bool
    ensures { IsTrue result ↔ ((i : ℕ) → row_bit inner.now i ≡ true → row_bit outer.now i ≡ true) }
{
    for (k, word) in inner.iter().enumerate() {
        if *word & !word_of(outer, k) != 0 {
            return false;
        }
    }
    true
}

/// How many bits are set.
pub(crate) fn ones_of(words: &[u64]) -> usize
    requires { length words.now ≤ 2 ^ 32 }
    ensures { result ≡ count_below (row_bit words.now) (64 * length words.now) }
{
    let mut ones: usize = 0;
    for word in words {
        ones += word.count_ones() as usize;
    }
    ones
}
