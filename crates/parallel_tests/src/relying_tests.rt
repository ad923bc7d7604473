//! Calls that rely on what the components are.
ghost use Rattle.std.specs.Prelude.{◌≡◌, ◌≤◌, ◌<◌, ◌+◌, ℕ, Some, OnOk};
ghost use Rattle.std.specs.FinMap as map;

use hibits::{BitSetAll, INDEX_LIMIT, Index};
use joins_parallel::{ParJoin, par_update};
use std::alloc::{Alloc, AllocError, Global};
use std::test::Fail;
use std::thread::Threads;
use storages::{Component, MaskedStorage, TryDefault, VecStorage};

/// A level.
#[derive(Clone, Copy, PartialEq, Eq, Debug)]
pub struct Level(
    /// How high.
    pub u8,
);

impl Component for Level {
    type Storage = VecStorage<Self>;
}

/// In threads each level is doubled, which fits, since none is above a hundred.
pub fn all_doubled(
    rt: &(impl Threads + Alloc<A = Global> + Sync),
    levels: &mut MaskedStorage<Level>,
) -> Result<(), AllocError>
    requires { (i : ℕ) (l : Level) → map.get levels.old.map i ≡ Some l → l.0 ≤ 100 }
    ensures { OnOk result ((i : ℕ) (l : Level) → i < INDEX_LIMIT → map.get levels.old.map i ≡ Some l → (k : Level) × (map.get levels.new.map i ≡ Some k) × (k.0 ≡ l.0 + l.0)) }
{
    par_update(
        rt,
        levels,
        BitSetAll,
        |level: &Level, _index: Index| -> Option<Level>
            requires { level.now.0 ≤ 100 }
            ensures { (k : Level) × (result ≡ Some k) × (k.0 ≡ level.now.0 + level.now.0) }
        { Some(Level(level.0 + level.0)) },
    )
}

/// The doubles of all levels, none of which is above a hundred, by their indices.
pub fn doubles(
    rt: &(impl Threads + Alloc<A = Global> + Sync),
    levels: &MaskedStorage<Level>,
) -> Result<Vec<u8>, AllocError>
    requires { (i : ℕ) (l : Level) → map.get levels.now.map i ≡ Some l → l.0 ≤ 100 }
{
    levels.par_join().map_collect(
        rt,
        |level: &Level| -> u8
            requires { level.now.0 ≤ 100 }
            ensures { result ≡ level.now.0 + level.now.0 }
        { level.0 + level.0 },
    )
}

// The level at index 0.
fn first_of(levels: &MaskedStorage<Level>) -> Option<u8> {
    match levels.get(0) {
        Some(level) => Some(level.0),
        None => None,
    }
}

// Whether a first level is doubled in a list, and then in its place.
fn is_doubled(
    rt: &(impl Threads + Alloc<A = Global> + Sync),
    levels: &mut MaskedStorage<Level>,
    level: u8,
) -> bool
    requires empty { levels.old.map ≡ map.empty }
    requires low { level ≤ 100 }
{
    let Ok(_before) = levels.put(0, Level(level)) else {
        return false;
    };
    let Ok(list) = doubles(rt, levels) else {
        return false;
    };
    list.as_slice() == [level + level].as_slice()
        && all_doubled(rt, levels).is_ok()
        && first_of(levels) == Some(level + level)
}

#[test]
fn levels_that_are_low_are_doubled(rt: HostRuntime) -> Result<(), Fail> {
    let mut levels = MaskedStorage::new(rt.alloc(), VecStorage::try_default(rt.alloc())?);
    assert!(rt; is_doubled(&rt, &mut levels, 100));
    Ok(())
}
