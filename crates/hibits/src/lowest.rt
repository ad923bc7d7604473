//! The lowest layer of a set: its words, in a row with pages behind it.
ghost use Rattle.std.specs.Prelude.{◌≡◌, ◌≢◌, ℕ, ◌*◌, ◌/◌, ◌<◌, ◌≤◌, ◌^◌, not, ◌==◌, true, IsTrue, ◌↔◌, ◌+◌, max, OnOk, OnErr, IfErr, length, slice_index};
ghost use Rattle.std.specs.FinSet as set;
ghost use Rattle.pages.specs.Paged.{HasPage};
ghost use Rattle.hibits.specs.Counts.{count_below};
ghost use Rattle.hibits.specs.Rows.{row_bit, AreWords, IsPaged, IsPut, SameWords};

use crate::error::SetError;
use crate::rows::{covers_row, ones_of, with_bit};
use pages::PagedRow;

/// The words of the lowest layer: a row from index 0 on, and pages behind it. A page has those of a block of 4096 indices, and the words of a page that is not there are 0.
pub(crate) type Lowest = PagedRow<u64, 64>;

/// Whether a bit is set.
#[inline(always)]
pub(crate) fn bit_of_lowest(words: &Lowest, i: u32) -> bool
    ensures { result ≡ row_bit words.now.items i }
{
    (words.get(i / 64) >> (i % 64)) & 1 == 1
}

/// Makes the page of a bit, if it is not there, and no other. Its words are 0.
pub(crate) fn make_page(words: &mut Lowest, i: u32) -> Result<(), SetError>
    ensures same { SameWords words.old.items words.new.items }
    ensures pages { OnOk result (words.new.pages ≡ set.insert words.old.pages (i / 4096)) }
    ensures len { OnOk result (length words.new.items ≡ max (length words.old.items) (64 * (i / 4096 + 1))) }
    ensures paged { IsPaged words.old.items words.old.pages → IsPaged words.new.items words.new.pages }
    ensures err { OnErr result (words.new ≡ words.old) }
    ensures error { IfErr result (λ e. e ≡ SetError.OutOfMemory) }
{
    match words.reserve(i / 64) {
        Ok(()) => Ok(()),
        Err(_) => Err(SetError::OutOfMemory),
    }
}

/// Puts a bit of a word whose page is there, and says whether the word is not 0 then.
#[inline(always)]
pub(crate) fn put_lowest(words: &mut Lowest, i: u32, value: bool) -> bool
    requires page { HasPage 64 words.old (i / 64) }
    requires within { i / 64 < length words.old.items }
    ensures put { IsPut words.old.items words.new.items i value }
    ensures some { result ≡ not (slice_index words.new.items (i / 64) == 0) }
    ensures others { (k : ℕ) → k ≢ i / 64 → slice_index words.new.items k ≡ slice_index words.old.items k }
    ensures words { AreWords words.old.items → AreWords words.new.items }
    ensures pages { words.new.pages ≡ words.old.pages }
{
    let word = with_bit(words.get_present(i / 64), i % 64, value);
    words.set(i / 64, word);
    word != 0
}

/// Whether each bit of `inner` is set in `outer` too. It reads the pages of `inner` that are there, and the same of `outer`.
pub(crate) fn covers_lowest(outer: &Lowest, inner: &Lowest) -> bool
    requires { length inner.now.items ≤ 2 ^ 32 }
    ensures { IsTrue result ↔ ((i : ℕ) → row_bit inner.now.items i ≡ true → row_bit outer.now.items i ≡ true) }
{
    for page in 0..inner.reach() as u32 {
        if !covers_row(outer.page(page), inner.page(page)) {
            return false;
        }
    }
    true
}

/// How many bits are set. It reads the pages that are there.
pub(crate) fn ones_of_lowest(words: &Lowest) -> usize
    requires { length words.now.items ≤ 2 ^ 32 }
    ensures { result ≡ count_below (row_bit words.now.items) (64 * length words.now.items) }
{
    let mut ones: usize = 0;
    for page in 0..words.reach() as u32 {
        ones += ones_of(words.page(page));
    }
    ones
}
