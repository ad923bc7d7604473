//! Components for the tests, and storages of them. A function that owns a storage of a known type is slow to prove, so the tests do not know
//! their components' types.
ghost use Rattle.std.specs.Prelude.{◌≡◌, refl};

use hibits::INDEX_LIMIT;
use joins::{Lookup, RepeatableJoin};
use joins_parallel::ParJoin;
use std::alloc::{Alloc, AllocError, Global};
use std::test::Fail;
use std::thread::Threads;
use storages::{
    Component, DefaultVecStorage, DenseVecStorage, FlaggedStorage, MaskedStorage, NullComponent,
    NullStorage, TryDefault, UnprotectedStorage, VecStorage,
};

/// A component that is one value.
pub trait Valued: Component + Drop {
    /// What it is made of.
    type Value: Copy + Drop;

    /// The component of a value.
    fn new(value: Self::Value) -> Self;

    /// The value.
    fn value(&self) -> Self::Value;
}

/// What is made of its place.
pub trait OfPlace: Valued {
    /// The component at a place.
    fn of(place: u32) -> Self;
}

/// A small number.
#[derive(Clone, Copy)]
pub struct CompInt(i8);

impl Component for CompInt {
    type Storage = VecStorage<Self>;
}

impl Valued for CompInt {
    type Value = i8;

    fn new(value: i8) -> Self {
        CompInt(value)
    }

    fn value(&self) -> i8 {
        self.0
    }
}

impl OfPlace for CompInt {
    fn of(_place: u32) -> Self {
        CompInt(-128)
    }
}

/// A truth.
#[derive(Clone, Copy)]
pub struct CompBool(bool);

impl Component for CompBool {
    type Storage = DenseVecStorage<Self>;
}

impl Valued for CompBool {
    type Value = bool;

    fn new(value: bool) -> Self {
        CompBool(value)
    }

    fn value(&self) -> bool {
        self.0
    }
}

/// A number whose changes are told.
#[derive(Clone, Copy)]
pub struct Told(u64);

impl Component for Told {
    type Storage = FlaggedStorage<Self, VecStorage<Self>>;
}

impl Valued for Told {
    type Value = u64;

    fn new(value: u64) -> Self {
        Told(value)
    }

    fn value(&self) -> u64 {
        self.0
    }
}

impl OfPlace for Told {
    fn of(place: u32) -> Self {
        Told(u64::from(place).wrapping_add(1))
    }
}

/// A number.
#[derive(Clone, Copy)]
pub struct Number(u64);

impl Component for Number {
    type Storage = VecStorage<Self>;
}

impl Valued for Number {
    type Value = u64;

    fn new(value: u64) -> Self {
        Number(value)
    }

    fn value(&self) -> u64 {
        self.0
    }
}

impl OfPlace for Number {
    fn of(place: u32) -> Self {
        Number(u64::from(place))
    }
}

/// A number at its index's place.
#[derive(Clone, Copy, Default)]
pub struct Lying(pub u64);

impl Component for Lying {
    type Storage = DefaultVecStorage<Self>;
}

impl Valued for Lying {
    type Value = u64;

    fn new(value: u64) -> Self {
        Lying(value)
    }

    fn value(&self) -> u64 {
        self.0
    }
}

impl OfPlace for Lying {
    fn of(place: u32) -> Self {
        Lying(u64::from(place))
    }
}

/// A component without data.
#[derive(Clone, Copy, Default)]
pub struct Flag;

impl NullComponent for Flag {
    ghost all_equal = { λ a b. refl };
}

impl Component for Flag {
    type Storage = NullStorage<Self>;
}

impl Valued for Flag {
    type Value = u8;

    fn new(_value: u8) -> Self {
        Flag
    }

    fn value(&self) -> u8 {
        0
    }
}

impl OfPlace for Flag {
    fn of(_place: u32) -> Self {
        Flag
    }
}

// A storage without components.
fn empty<T: Component>(alloc: Global) -> Result<MaskedStorage<T>, Fail>
where
    T::Storage: UnprotectedStorage<T> + TryDefault,
{
    Ok(MaskedStorage::new(alloc, T::Storage::try_default(alloc)?))
}

/// A storage with components at so many indices, each a step from the one before.
pub fn filled<T: OfPlace>(alloc: Global, count: u32, step: u32) -> Result<MaskedStorage<T>, Fail>
where
    T::Storage: UnprotectedStorage<T> + TryDefault,
{
    let mut storage = empty(alloc)?;
    for place in 0..count {
        let id = place.saturating_mul(step);
        if id < INDEX_LIMIT && storage.put(id, T::of(place)).is_err() {
            return Err(Fail::new("refused"));
        }
    }
    Ok(storage)
}

/// A storage with components of these values, from index 0 on.
pub fn listed<T: Valued>(alloc: Global, values: &[T::Value]) -> Result<MaskedStorage<T>, Fail>
where
    T::Storage: UnprotectedStorage<T> + TryDefault,
{
    let mut storage = empty(alloc)?;
    let mut id: u32 = 0;
    for value in values {
        if id < INDEX_LIMIT && storage.put(id, T::new(*value)).is_err() {
            return Err(Fail::new("refused"));
        }
        id = id.wrapping_add(1);
    }
    Ok(storage)
}

/// What a function makes of the items of a join, in threads.
pub fn mapped<J: RepeatableJoin + Drop, R: Send + Drop, F: Fn(J::Type) -> R + Sync + Drop>(
    rt: &(impl Threads + Alloc<A = Global> + Sync),
    join: J,
    f: F,
) -> Result<Vec<R>, AllocError>
where
    J::Value: Lookup<J::Type> + Sync,
    requires { F.IsAlwaysCallable f }
{
    join.par_join().map_collect(rt, f)
}

/// Whether there are so many answers, all true.
pub fn all_true(answers: &[bool], count: usize) -> bool {
    let mut all = answers.len() == count;
    for answer in answers {
        all = all && *answer;
    }
    all
}
