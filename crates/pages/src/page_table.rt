//! Items at places, in pages that are made where an item is to be written.
ghost use Rattle.std.specs.Prelude.{◌≡◌, ℕ, ◌+◌, ◌*◌, ◌/◌, ◌%◌, ◌<◌, ◌≤◌, true, false, max, [], length, replicate, slice_index_or, slice_set, OnOk, OnErr, IsOk, if◌then◌else◌};
ghost use Rattle.std.specs.FinSet as set;
ghost use Rattle.pages.specs.Paged.{HasPage};

use crate::item::Item;
use crate::table::{entry_of, reach, spot_in, spot_of};
use std::alloc::{AllocError, Global};
use std::marker::Model;

/// An item at each place below 2^32, kept in pages of `LEN` places: page `k` has those from `k * LEN` on. A place whose page was not made reads as the
/// filler. So memory is taken for the pages that are there, and 4 bytes for each page up to the last; as lists grow, up to twice that.
///
/// Where `LEN` is a power of two, a read is a load from the table, a test for no page, and a load of the item.
pub struct Pages<T: Item, const LEN: u32> {
    // of each page, which one of `items` it is, counted from 1; 0 where there is none
    table: Vec<u32>,
    // the pages, one after another, in the order in which they were made
    items: Vec<T>,
}

impl<T: Item, const LEN: u32> Drop for Pages<T, LEN> {
    fn drop(self) {
        let Pages {
            table: _table,
            items: _items,
        } = self;
    }
}

impl<T: Item, const LEN: u32> Model for Pages<T, LEN> {
    ghost use Rattle.pages.specs.Paged.{Paged, paged_code};

    ghost Value = { Paged T };

    ghost coded = { paged_code T.code };

    ghost use Rattle.pages.specs.Table.{flat, pages_of, IsSound};

    ghost view = { λ a. record { items = flat LEN T.FILLER a.table.items a.items.items; pages = pages_of a.table.items } };

    ghost invariant = { λ a. IsSound LEN a.table.items a.items.items };
}

impl<T: Item, const LEN: u32> Pages<T, LEN> {
    /// No page is there, and no memory taken.
    pub fn new(alloc: Global) -> Self
        requires { 0 < LEN }
        ensures items { result.items ≡ [] }
        ensures pages { result.pages ≡ set.empty }
    {
        Pages {
            table: Vec::new(alloc),
            items: Vec::new(alloc),
        }
    }

    /// The item at a place: the filler where its page is not there, past the table too.
    #[inline(always)]
    pub fn get(&self, at: u32) -> T
        ensures { result ≡ slice_index_or self.now.items at T.FILLER }
    {
        let entry = entry_of(&self.table, at / LEN);
        if entry == 0 {
            return T::FILLER;
        }
        self.items[spot_in(entry, at, LEN)]
    }

    /// The item at a place whose page is there: two loads, without a test.
    #[inline(always)]
    pub fn get_present(&self, at: u32) -> T
        requires { HasPage LEN self.now at }
        ensures { result ≡ slice_index_or self.now.items at T.FILLER }
    {
        let spot = spot_of(&self.table, at, LEN);
        self.items[spot]
    }

    /// Whether the page of a place is there. A page that is there is so as a whole.
    #[inline(always)]
    pub fn has_page(&self, at: u32) -> bool
        ensures value { result ≡ set.contains self.now.pages (at / LEN) }
        ensures within { (k : ℕ) → set.contains self.now.pages k ≡ true → (k + 1) * LEN ≤ length self.now.items }
        ensures missing { (i : ℕ) → set.contains self.now.pages (i / LEN) ≡ false → slice_index_or self.now.items i T.FILLER ≡ T.FILLER }
    {
        entry_of(&self.table, at / LEN) != 0
    }

    /// Makes the page of a place, if it is not there, and no other; every place reads as before. `AllocError` is want of memory, and leaves all as it was.
    /// It writes one page, and may move the others, as a growing list does.
    #[inline(always)]
    pub fn reserve(&mut self, at: u32) -> Result<(), AllocError>
        ensures items { (i : ℕ) → slice_index_or self.new.items i T.FILLER ≡ slice_index_or self.old.items i T.FILLER }
        ensures pages { OnOk result (self.new.pages ≡ set.insert self.old.pages (at / LEN)) }
        ensures len { OnOk result (length self.new.items ≡ max (length self.old.items) ((at / LEN + 1) * LEN)) }
        ensures err { OnErr result (self.new ≡ self.old) }
        ensures had_page { HasPage LEN self.old at → IsOk result }
        ensures kept { HasPage LEN self.old at → self.new ≡ self.old }
    {
        if self.has_page(at) {
            return Ok(());
        }
        self.make_page(at)
    }

    // The same where the page is not there. Room for the items is got before the table grows, so that a refusal finds nothing to take back.
    #[inline(never)]
    fn make_page(&mut self, at: u32) -> Result<(), AllocError>
        requires { set.contains self.old.pages (at / LEN) ≡ false }
        ensures items { (i : ℕ) → slice_index_or self.new.items i T.FILLER ≡ slice_index_or self.old.items i T.FILLER }
        ensures pages { OnOk result (self.new.pages ≡ set.insert self.old.pages (at / LEN)) }
        ensures len { OnOk result (length self.new.items ≡ max (length self.old.items) ((at / LEN + 1) * LEN)) }
        ensures err { OnErr result (self.new ≡ self.old) }
    {
        let len = self.items.len();
        let page = at / LEN;
        let Ok(entry) = u32::try_from(len / LEN as usize + 1) else {
            return Err(AllocError);
        };
        self.items.reserve(LEN as usize)?;
        reach(&mut self.table, page)?;
        match self.items.resize(len + LEN as usize, T::FILLER) {
            Ok(()) => {}
            Err(_) => unreachable!(),
        }
        self.table[page as usize] = entry;
        Ok(())
    }

    /// Writes the item at a place whose page is there, and no other. It takes no memory.
    #[inline(always)]
    pub fn set(&mut self, at: u32, item: T)
        requires { HasPage LEN self.old at }
        ensures items { self.new.items ≡ slice_set self.old.items at item }
        ensures pages { self.new.pages ≡ self.old.pages }
    {
        self.items[spot_of(&self.table, at, LEN)] = item;
    }

    /// Makes every item the filler. The pages stay; it writes each of them, and no other memory.
    pub fn fill(&mut self)
        ensures items { self.new.items ≡ replicate (length self.old.items) T.FILLER }
        ensures pages { self.new.pages ≡ self.old.pages }
    {
        fill_with(&mut self.items, T::FILLER);
    }

    /// Gives all pages up, with their memory, so that every place reads as the filler.
    pub fn clear(&mut self)
        ensures items { self.new.items ≡ [] }
        ensures pages { self.new.pages ≡ set.empty }
    {
        let alloc = *self.table.allocator();
        self.table = Vec::new(alloc);
        self.items = Vec::new(alloc);
    }

    /// How many pages are there. It reads no page.
    pub fn count(&self) -> usize
        ensures { result ≡ set.len self.now.pages }
    {
        self.items.len() / LEN as usize
    }

    /// No page from this one on is there: pages are gone over by their numbers below it.
    #[inline(always)]
    pub fn reach(&self) -> usize
        ensures len { result * LEN ≡ length self.now.items }
        ensures pages { (k : ℕ) → set.contains self.now.pages k ≡ true → k < result }
    {
        self.table.len()
    }

    /// The items of page `page`, or an empty slice where it is not there.
    #[inline(always)]
    pub fn page(&self, page: u32) -> &[T]
        ensures len { length result.now ≡ (if set.contains self.now.pages page then LEN else 0) }
        ensures items { (j : ℕ) → j < LEN → slice_index_or result.now j T.FILLER ≡ slice_index_or self.now.items (page * LEN + j) T.FILLER }
    {
        let entry = entry_of(&self.table, page);
        if entry == 0 {
            return &[];
        }
        let start = (entry as usize - 1) * LEN as usize;
        &self.items[start..start + LEN as usize]
    }
}

// Makes every item the same.
pub(crate) fn fill_with<T: Copy>(items: &mut [T], item: T)
    ensures { items.new ≡ replicate (length items.old) item }
{
    for place in items {
        *place = item;
    }
}
