//! How many pages a row of pages has.
ghost use Rattle.std.specs.Prelude.{◌≡◌, ◌<◌, ◌≤◌, ◌^◌, length};
ghost use Rattle.std.specs.FinSet as set;

use crate::item::Item;
use crate::paged_row::PagedRow;

impl<T: Item, const LEN: u32> PagedRow<T, LEN> {
    /// How many pages are there, those of the row and those behind it. It looks at each up to the last, and reads none.
    pub fn count(&self) -> usize
        requires some { 0 < LEN }
        requires within { length self.now.items ≤ 2 ^ 32 }
        ensures { result ≡ set.len self.now.pages }
    {
        let mut count: usize = 0;
        for page in 0..self.reach() {
            if !self.page(page as u32).is_empty() {
                count += 1;
            }
        }
        count
    }
}
