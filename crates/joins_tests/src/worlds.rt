//! Entities and storages for the tests of cursors.
use entities::{EntitiesRes, Entity};
use std::alloc::Global;
use std::test::Fail;
use storages::{
    Component, DefaultVecStorage, DenseVecStorage, FlaggedStorage, MaskedStorage, TryDefault,
    UnprotectedStorage, VecStorage,
};

/// A component of two numbers.
pub trait Numbered: Component + Copy + Drop {
    /// The component of two numbers.
    fn of(number: i32, other: i32) -> Self;

    /// The first number.
    fn number(self) -> i32;

    /// The other.
    fn other(self) -> i32;
}

/// Adds to both numbers, past the greatest from the least on.
pub fn add<N: Numbered>(place: &mut N, number: i32, other: i32) {
    let before = *place;
    *place = N::of(
        before.number().wrapping_add(number),
        before.other().wrapping_add(other),
    );
}

/// Where an entity is.
#[derive(Clone, Copy, Default)]
pub struct Position(
    /// The first number.
    pub i32,
    /// The other.
    pub i32,
);

impl Component for Position {
    type Storage = VecStorage<Self>;
}

impl Numbered for Position {
    fn of(number: i32, other: i32) -> Self {
        Position(number, other)
    }

    fn number(self) -> i32 {
        self.0
    }

    fn other(self) -> i32 {
        self.1
    }
}

/// How fast an entity goes.
#[derive(Clone, Copy, Default)]
pub struct Velocity(
    /// The first number.
    pub i32,
    /// The other.
    pub i32,
);

impl Component for Velocity {
    type Storage = DenseVecStorage<Self>;
}

impl Numbered for Velocity {
    fn of(number: i32, other: i32) -> Self {
        Velocity(number, other)
    }

    fn number(self) -> i32 {
        self.0
    }

    fn other(self) -> i32 {
        self.1
    }
}

/// Numbers whose changes are told.
#[derive(Clone, Copy, Default)]
pub struct Number(
    /// The first number.
    pub i32,
    /// The other.
    pub i32,
);

impl Component for Number {
    type Storage = FlaggedStorage<Self, VecStorage<Self>>;
}

impl Numbered for Number {
    fn of(number: i32, other: i32) -> Self {
        Number(number, other)
    }

    fn number(self) -> i32 {
        self.0
    }

    fn other(self) -> i32 {
        self.1
    }
}

/// A place in a row.
#[derive(Clone, Copy, Default)]
pub struct Place(
    /// The first number.
    pub i32,
    /// The other.
    pub i32,
);

impl Component for Place {
    type Storage = DefaultVecStorage<Self>;
}

impl Numbered for Place {
    fn of(number: i32, other: i32) -> Self {
        Place(number, other)
    }

    fn number(self) -> i32 {
        self.0
    }

    fn other(self) -> i32 {
        self.1
    }
}

/// Entities, and storages of two components, and of one more for those that are chosen.
pub struct World<
    A: Component<Storage: Drop>,
    B: Component<Storage: Drop>,
    C: Component<Storage: Drop>,
> {
    /// The entities.
    pub entities: EntitiesRes,
    /// A storage.
    pub first: MaskedStorage<A>,
    /// Another.
    pub second: MaskedStorage<B>,
    /// One more, of those that are chosen.
    pub chosen: MaskedStorage<C>,
}

impl<A: Component<Storage: Drop>, B: Component<Storage: Drop>, C: Component<Storage: Drop>> Drop
    for World<A, B, C> {
    fn drop(self) {
        let World {
            entities: _entities,
            first: _first,
            second: _second,
            chosen: _chosen,
        } = self;
    }
}

/// A storage without components.
fn empty<T: Component>(alloc: Global) -> Result<MaskedStorage<T>, Fail>
where
    T::Storage: UnprotectedStorage<T> + TryDefault,
{
    Ok(MaskedStorage::new(alloc, T::Storage::try_default(alloc)?))
}

/// Nobody lives, and there is no component.
pub fn new_world<A: Component, B: Component, C: Component>(
    alloc: Global,
) -> Result<World<A, B, C>, Fail>
where
    A::Storage: UnprotectedStorage<A> + TryDefault,
    B::Storage: UnprotectedStorage<B> + TryDefault,
    C::Storage: UnprotectedStorage<C> + TryDefault,
{
    let first = empty(alloc)?;
    let second = empty(alloc)?;
    let chosen = empty(alloc)?;
    Ok(World {
        entities: EntitiesRes::new(alloc),
        first,
        second,
        chosen,
    })
}

/// So many are born, from index 0 on.
pub fn populate(entities: &mut EntitiesRes, count: u32) -> Result<(), Fail> {
    for _ in 0..count {
        entities.create().ok().ok_or("no entity")?;
    }
    Ok(())
}

/// The entity of an index that was born once.
pub fn first_at(index: u32) -> Result<Entity, Fail> {
    Ok(Entity::from_parts(index, 1).ok_or("no entity")?)
}
