//! Items at scattered places, kept in pages, so that memory is taken for the pages and not for the greatest place.
#![tactic(auto)]

mod item;
mod page_table;
mod paged_row;
mod row_count;
mod table;

pub use item::Item;
pub use page_table::Pages;
pub use paged_row::PagedRow;
