//! Entities and storages for the tests.
ghost use Rattle.std.specs.Prelude.{◌≡◌, IfOk};
ghost use Rattle.std.specs.FinMap as map;

use entities::{EntitiesRes, Entity};
use std::alloc::Global;
use std::test::Fail;
use storages::{
    Component, MaskedStorage, ReadStorage, TryDefault, UnprotectedStorage, WriteStorage,
};

/// Entities, and a storage of one component.
pub struct World<T: Component<Storage: Drop>> {
    /// The entities.
    pub entities: EntitiesRes,
    /// The storage.
    pub masked: MaskedStorage<T>,
}

impl<T: Component<Storage: Drop>> Drop for World<T> {
    fn drop(self) {
        let World {
            entities: _entities,
            masked: _masked,
        } = self;
    }
}

impl<T: Component<Storage: Drop>> World<T> {
    /// A view of the storage.
    pub fn view(&mut self) -> WriteStorage<'_, T> {
        WriteStorage::new(&self.entities, &mut self.masked)
    }

    /// A view to read.
    pub fn read(&self) -> ReadStorage<'_, T> {
        ReadStorage::new(&self.entities, &self.masked)
    }
}

/// A world in which nobody lives, and no component is.
pub fn new_world<T: Component>(alloc: Global) -> Result<World<T>, Fail>
where
    T::Storage: UnprotectedStorage<T> + TryDefault,
{
    let masked = empty(alloc)?;
    Ok(World {
        entities: EntitiesRes::new(alloc),
        masked,
    })
}

/// So many are born, from index 0 on.
pub fn populate(
    alloc: Global,
    entities: &mut EntitiesRes,
    count: u32,
) -> Result<Vec<Entity>, Fail> {
    let mut list = Vec::new(alloc);
    for _ in 0..count {
        list.push(born(entities)?)?;
    }
    Ok(list)
}

/// A birth.
pub fn born(entities: &mut EntitiesRes) -> Result<Entity, Fail> {
    Ok(entities.create().ok().ok_or("a birth")?)
}

/// A storage without components.
pub fn empty<T: Component>(alloc: Global) -> Result<MaskedStorage<T>, Fail>
where
    T::Storage: UnprotectedStorage<T> + TryDefault,
    ensures { IfOk result (λ s. s.map ≡ map.empty) }
{
    let inner = T::Storage::try_default(alloc)?;
    Ok(MaskedStorage::new(alloc, inner))
}
