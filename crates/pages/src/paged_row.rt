//! Items at places: a row of pages from place 0 on, and a table of the others.
ghost use Rattle.std.specs.Prelude.{◌≡◌, ℕ, ◌+◌, ◌*◌, ◌/◌, ◌%◌, ◌<◌, ◌≤◌, true, false, max, [], length, replicate, slice_index_or, slice_set, OnOk, OnErr, IsOk, if◌then◌else◌};
ghost use Rattle.std.specs.FinSet as set;
ghost use Rattle.pages.specs.Paged.{HasPage};

use crate::item::Item;
use crate::page_table::{Pages, fill_with};
use std::alloc::{AllocError, Global};
use std::marker::Model;

/// An item at each place below 2^32, kept in pages of `LEN` places, as `Pages` keeps them: page `k` has those from `k * LEN` on, and a place whose page was
/// not made reads as the filler. The pages that were made one after another from place 0 on are a row: a read in it is one compare with its length and a
/// load of the item. Every other page stands in a table behind the row, at the cost of `Pages`, so that a far place pays for its page alone, and for 4 bytes
/// for each page up to it; as lists grow, up to twice that.
///
/// A page is added to the row where it is made just as the row ends there; the pages behind the row that come next are taken into it then.
pub struct PagedRow<T: Item, const LEN: u32> {
    // the first pages, whole, at their places
    row: Vec<T>,
    // the others, and some that the row took over
    behind: Pages<T, LEN>,
}

impl<T: Item, const LEN: u32> Drop for PagedRow<T, LEN> {
    fn drop(self) {
        let PagedRow {
            row: _row,
            behind: _behind,
        } = self;
    }
}

impl<T: Item, const LEN: u32> Model for PagedRow<T, LEN> {
    ghost use Rattle.pages.specs.Paged.{Paged, paged_code};

    ghost Value = { Paged T };

    ghost coded = { paged_code T.code };

    ghost use Rattle.std.specs.Prelude.{◌/◌, length};
    ghost use Rattle.pages.specs.Joined.{joined, with_first, IsJoined};

    ghost view = { λ a. record { items = joined a.row.items a.behind.items; pages = with_first a.behind.pages (length a.row.items / LEN) } };

    ghost invariant = { λ a. IsJoined LEN T.FILLER a.row.items a.behind };
}

impl<T: Item, const LEN: u32> PagedRow<T, LEN> {
    /// No page is there, and no memory taken.
    pub fn new(alloc: Global) -> Self
        requires { 0 < LEN }
        ensures items { result.items ≡ [] }
        ensures pages { result.pages ≡ set.empty }
    {
        PagedRow {
            row: Vec::new(alloc),
            behind: Pages::new(alloc),
        }
    }

    /// The item at a place: the filler where its page is not there.
    #[inline(always)]
    pub fn get(&self, at: u32) -> T
        ensures { result ≡ slice_index_or self.now.items at T.FILLER }
    {
        if (at as usize) < self.row.len() {
            return self.row[at as usize];
        }
        get_behind(&self.behind, at)
    }

    /// The item at a place whose page is there: in the row as `get`, behind it two loads without a test.
    #[inline(always)]
    pub fn get_present(&self, at: u32) -> T
        requires { HasPage LEN self.now at }
        ensures { result ≡ slice_index_or self.now.items at T.FILLER }
    {
        if (at as usize) < self.row.len() {
            return self.row[at as usize];
        }
        get_present_behind(&self.behind, at)
    }

    /// Whether the page of a place is there. A page that is there is so as a whole.
    #[inline(always)]
    pub fn has_page(&self, at: u32) -> bool
        ensures value { result ≡ set.contains self.now.pages (at / LEN) }
        ensures within { (k : ℕ) → set.contains self.now.pages k ≡ true → (k + 1) * LEN ≤ length self.now.items }
        ensures missing { (i : ℕ) → set.contains self.now.pages (i / LEN) ≡ false → slice_index_or self.now.items i T.FILLER ≡ T.FILLER }
    {
        if (at as usize) < self.row.len() {
            return true;
        }
        has_page_behind(&self.behind, at)
    }

    /// Makes the page of a place, if it is not there, and no other; every place reads as before. `AllocError` is want of memory, and leaves all as it was.
    /// It writes one page, and may move the others of the row, or of those behind it, as a growing list does.
    #[inline(always)]
    pub fn reserve(&mut self, at: u32) -> Result<(), AllocError>
        ensures items { (i : ℕ) → slice_index_or self.new.items i T.FILLER ≡ slice_index_or self.old.items i T.FILLER }
        ensures pages { OnOk result (self.new.pages ≡ set.insert self.old.pages (at / LEN)) }
        ensures len { OnOk result (length self.new.items ≡ max (length self.old.items) ((at / LEN + 1) * LEN)) }
        ensures err { OnErr result (self.new ≡ self.old) }
        ensures had_page { HasPage LEN self.old at → IsOk result }
        ensures kept { HasPage LEN self.old at → self.new ≡ self.old }
    {
        if (at as usize) < self.row.len() {
            return Ok(());
        }
        self.reserve_past(at)
    }

    // The same as a call of its own, which `reserve` makes where the place lies past the row.
    #[inline(never)]
    fn reserve_past(&mut self, at: u32) -> Result<(), AllocError>
        ensures items { (i : ℕ) → slice_index_or self.new.items i T.FILLER ≡ slice_index_or self.old.items i T.FILLER }
        ensures pages { OnOk result (self.new.pages ≡ set.insert self.old.pages (at / LEN)) }
        ensures len { OnOk result (length self.new.items ≡ max (length self.old.items) ((at / LEN + 1) * LEN)) }
        ensures err { OnErr result (self.new ≡ self.old) }
        ensures had_page { HasPage LEN self.old at → IsOk result }
        ensures kept { HasPage LEN self.old at → self.new ≡ self.old }
    {
        if self.has_page(at) {
            return Ok(());
        }
        self.make_page(at)?;
        self.take_over();
        Ok(())
    }

    // The same where the page is not there: the row grows where it ends before the page, and else the page goes behind it.
    fn make_page(&mut self, at: u32) -> Result<(), AllocError>
        requires { set.contains self.old.pages (at / LEN) ≡ false }
        ensures items { (i : ℕ) → slice_index_or self.new.items i T.FILLER ≡ slice_index_or self.old.items i T.FILLER }
        ensures pages { OnOk result (self.new.pages ≡ set.insert self.old.pages (at / LEN)) }
        ensures len { OnOk result (length self.new.items ≡ max (length self.old.items) ((at / LEN + 1) * LEN)) }
        ensures err { OnErr result (self.new ≡ self.old) }
    {
        let len = self.row.len();
        if (at / LEN) as usize * LEN as usize == len {
            self.row.resize(len + LEN as usize, T::FILLER)?;
            return Ok(());
        }
        self.behind.reserve(at)?;
        Ok(())
    }

    // Takes the pages behind the row that come next into it, while there is memory for them: the row is read with less.
    fn take_over(&mut self)
        ensures { self.new ≡ self.old }
    {
        for _page in 0..self.behind.reach() {
            if !self.take_next() {
                return;
            }
        }
    }

    // Takes the page behind the row that comes next into it, and says whether it did. It stays behind too, where nothing reads it.
    fn take_next(&mut self) -> bool
        ensures { self.new ≡ self.old }
    {
        let Ok(page) = u32::try_from(self.row.len() / LEN as usize) else {
            return false;
        };
        let items = self.behind.page(page);
        if items.is_empty() {
            return false;
        }
        self.row.extend_from_slice(items).is_ok()
    }

    /// Writes the item at a place whose page is there, and no other. It takes no memory.
    #[inline(always)]
    pub fn set(&mut self, at: u32, item: T)
        requires { HasPage LEN self.old at }
        ensures items { self.new.items ≡ slice_set self.old.items at item }
        ensures pages { self.new.pages ≡ self.old.pages }
    {
        if (at as usize) < self.row.len() {
            self.row[at as usize] = item;
            return;
        }
        set_behind(&mut self.behind, at, item);
    }

    /// Makes every item the filler. The pages stay; it writes each of them, and no other memory.
    pub fn fill(&mut self)
        ensures items { self.new.items ≡ replicate (length self.old.items) T.FILLER }
        ensures pages { self.new.pages ≡ self.old.pages }
    {
        fill_with(&mut self.row, T::FILLER);
        self.behind.fill();
    }

    /// Gives all pages up, with their memory, so that every place reads as the filler.
    pub fn clear(&mut self)
        ensures items { self.new.items ≡ [] }
        ensures pages { self.new.pages ≡ set.empty }
    {
        let alloc = *self.row.allocator();
        *self = PagedRow::new(alloc);
    }

    /// No page from this one on is there: pages are gone over by their numbers below it.
    #[inline(always)]
    pub fn reach(&self) -> usize
        ensures len { result * LEN ≡ length self.now.items }
        ensures pages { (k : ℕ) → set.contains self.now.pages k ≡ true → k < result }
    {
        let row = self.row.len() / LEN as usize;
        let behind = self.behind.reach();
        if row < behind { behind } else { row }
    }

    /// The items of page `page`, or an empty slice where it is not there.
    #[inline(always)]
    pub fn page(&self, page: u32) -> &[T]
        ensures len { length result.now ≡ (if set.contains self.now.pages page then LEN else 0) }
        ensures items { (j : ℕ) → j < LEN → slice_index_or result.now j T.FILLER ≡ slice_index_or self.now.items (page * LEN + j) T.FILLER }
    {
        let start = page as usize * LEN as usize;
        if start < self.row.len() {
            return &self.row[start..start + LEN as usize];
        }
        page_behind(&self.behind, page)
    }
}

// What follows is what the calls above do where the row has ended, each in a place of its own, so that what they do in the row stays short.

#[cold]
#[inline(never)]
fn get_behind<T: Item, const LEN: u32>(behind: &Pages<T, LEN>, at: u32) -> T
    ensures { result ≡ slice_index_or behind.now.items at T.FILLER }
{
    behind.get(at)
}

#[cold]
#[inline(never)]
fn get_present_behind<T: Item, const LEN: u32>(behind: &Pages<T, LEN>, at: u32) -> T
    requires { HasPage LEN behind.now at }
    ensures { result ≡ slice_index_or behind.now.items at T.FILLER }
{
    behind.get_present(at)
}

#[cold]
#[inline(never)]
fn has_page_behind<T: Item, const LEN: u32>(behind: &Pages<T, LEN>, at: u32) -> bool
    ensures { result ≡ set.contains behind.now.pages (at / LEN) }
{
    behind.has_page(at)
}

#[cold]
#[inline(never)]
fn set_behind<T: Item, const LEN: u32>(behind: &mut Pages<T, LEN>, at: u32, item: T)
    requires { HasPage LEN behind.old at }
    ensures items { behind.new.items ≡ slice_set behind.old.items at item }
    ensures pages { behind.new.pages ≡ behind.old.pages }
{
    behind.set(at, item);
}

#[cold]
#[inline(never)]
fn page_behind<T: Item, const LEN: u32>(behind: &Pages<T, LEN>, page: u32) -> &[T]
    ensures len { length result.now ≡ (if set.contains behind.now.pages page then LEN else 0) }
    ensures items { (j : ℕ) → j < LEN → slice_index_or result.now j T.FILLER ≡ slice_index_or behind.now.items (page * LEN + j) T.FILLER }
{
    behind.page(page)
}
