//! The table of pages: of each page an entry, which is 0 where the page is not there.
ghost use Rattle.std.specs.Prelude.{◌≡◌, ◌+◌, ◌-◌, ◌*◌, ◌/◌, ◌%◌, ◌<◌, max, length, slice_index, OnOk, OnErr};
ghost use Rattle.pages.specs.Table.{SameEntries};

use std::alloc::AllocError;

/// The entry of a page, 0 past the end.
#[inline(always)]
pub(crate) fn entry_of(table: &Vec<u32>, page: u32) -> u32
    ensures { result ≡ slice_index table.now.items page }
{
    match table.get(page as usize) {
        Some(entry) => *entry,
        None => 0,
    }
}

/// Where the item of a place stands, by the entry of its page: the pages lie one after another, the first of entry 1.
#[inline(always)]
pub(crate) fn spot_in(entry: u32, at: u32, len: u32) -> usize
    requires some { 0 < len }
    requires entry { 0 < entry }
    ensures { result ≡ (entry - 1) * len + at % len }
{
    (entry as usize - 1) * len as usize + (at % len) as usize
}

/// The same where the page is there.
#[inline(always)]
pub(crate) fn spot_of(table: &Vec<u32>, at: u32, len: u32) -> usize
    requires some { 0 < len }
    requires page { 0 < slice_index table.now.items (at / len) }
    ensures { result ≡ (slice_index table.now.items (at / len) - 1) * len + at % len }
{
    spot_in(table[(at / len) as usize], at, len)
}

/// Makes a table reach a page, by entries that are 0.
pub(crate) fn reach(table: &mut Vec<u32>, page: u32) -> Result<(), AllocError>
    ensures len { OnOk result (length table.new.items ≡ max (length table.old.items) (page + 1)) }
    ensures same { SameEntries table.old.items table.new.items }
    ensures err { OnErr result (table.new.items ≡ table.old.items) }
{
    let len = page as usize + 1;
    if len <= table.len() {
        return Ok(());
    }
    table.resize(len, 0)
}
