//! Components that threads change in their places.
ghost use Rattle.std.specs.Prelude.{◌≡◌, ◌<◌, ℕ, Some, IsSome, OnOk, OnErr};
ghost use Rattle.std.specs.FinMap as map;

use hibits::{BitSetAll, INDEX_LIMIT, Index};
use joins_parallel::{Placed, par_for_each};
use std::alloc::{Alloc, AllocError, Global};
use std::thread::Threads;
use storages::{Component, MaskedStorage};

/// In threads each component becomes a copy of one, in its place.
pub fn all_overwritten<T: Component + Copy + Send + Sync>(
    rt: &(impl Threads + Alloc<A = Global> + Sync),
    storage: &mut MaskedStorage<T>,
    to: T,
) -> Result<(), AllocError>
where
    T::Storage: Placed<T>,
    ensures each { OnOk result ((i : ℕ) → i < INDEX_LIMIT → IsSome (map.get storage.old.map i) → map.get storage.new.map i ≡ Some to) }
    ensures err { OnErr result (storage.new ≡ storage.old) }
{
    par_for_each(
        rt,
        storage,
        BitSetAll,
        |component: &mut T, _index: Index|
            ensures { component.exit.now ≡ to }
        { *component = to },
    )
}
