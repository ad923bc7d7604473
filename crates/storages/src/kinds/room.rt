//! Room in the vectors of storages.
ghost use Rattle.std.specs.Prelude.{◌≡◌, ◌≤◌, OnOk, vec_len};
ghost use Rattle.std.specs.Vec.{vec_capacity};

use std::alloc::AllocError;

// From so many places on, room is got for twice as many and no longer for four times as many.
const MANY: usize = 1 << 20;

/// Gets room for so many places in all.
#[inline(always)]
pub(crate) fn make_room<T>(items: &mut Vec<T>, len: usize) -> Result<(), AllocError>
    requires { vec_len items.old ≤ len }
    ensures items { items.new.items ≡ items.old.items }
    ensures room { OnOk result (len ≤ vec_capacity items.new) }
{
    if len <= items.capacity() {
        return Ok(());
    }
    get_room(items, len)
}

// Room is got for several times as many, so that a storage that fills up is seldom moved; what is not used of it costs no page of memory. Where
// there is no memory for these, it is got for just so many.
#[inline(never)]
fn get_room<T>(items: &mut Vec<T>, len: usize) -> Result<(), AllocError>
    requires { vec_len items.old ≤ len }
    ensures items { items.new.items ≡ items.old.items }
    ensures room { OnOk result (len ≤ vec_capacity items.new) }
{
    let start = items.len();
    if len < MANY && items.reserve(4 * len - start).is_ok() {
        return Ok(());
    }
    items.reserve(len - start)
}
