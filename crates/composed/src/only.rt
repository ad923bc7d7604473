//! A struct of storages for one component type.
use hibits::BitSet;
use specs::{
    ChannelCall, ChannelReply, CloneStorages, EntitiesRes, Entity, Held, MarkError, Refusal,
    Storages, field,
};
use std::alloc::{AllocError, Global};
use storages::{Component, MaskedStorage, MaybeTracked};

/// One component type: its storage, or none where it is not registered.
#[derive(Drop)]
pub struct Only<T: Component> {
    /// The storage, or none where the component type is not registered.
    pub field: Option<MaskedStorage<T>>,
}

/// The one slot of a struct of storages for one component type.
#[derive(Clone, Copy, Debug, PartialEq, Eq)]
pub enum Sole {
    /// That slot.
    Sole,
}

impl<T: Component> Only<T> {
    ghost use Rattle.std.specs.Prelude.{◌≡◌, None};

    /// The component type is not registered.
    pub fn new() -> Self
        ensures { result.field ≡ None }
    {
        Only { field: None }
    }
}

impl<T: Component> Held for Only<T> {
    ghost use Rattle.std.specs.Prelude.{Some};
    ghost use Rattle.specs.specs.Typed.Field.{field_column};
    ghost use Rattle.specs.specs.Slots.Marks.{no_markers};
    ghost use Rattle.composed.specs.declared.only.Sole.TheVariants.{Sole};

    type Slot = Sole;

    type Value = T;

    ghost table = { λ s _. field_column s.field };

    ghost place = { λ _. Sole };

    ghost marks = { no_markers };

    ghost ids = { λ _ _. Some 0 };
}

impl<T: Component + Drop> Storages for Only<T>
where
    T::Storage: MaybeTracked<T>,
{
    ghost use Rattle.std.specs.Prelude.{refl};
    ghost use Rattle.composed.specs.Exact.{sole_is};
    ghost use Rattle.specs.specs.Typed.Field.{field_room};

    ghost room = { λ s _. field_room s.field };

    ghost exact = { λ a b. (λ _. sole_is a b, λ _. refl) };

    ghost idless = { λ _ _ _. refl };

    fn slot_of(_value: &T) -> Sole {
        Sole::Sole
    }

    fn register(&mut self, alloc: Global, _slot: Sole) -> Result<(), AllocError> {
        if self.field.is_none() {
            self.field = Some(field::empty(alloc)?);
        }
        Ok(())
    }

    fn mask(&self, _slot: Sole) -> Option<&BitSet> {
        field::mask(&self.field)
    }

    fn insert(
        &mut self,
        entities: &EntitiesRes,
        e: Entity,
        value: T,
    ) -> Result<Option<T>, (Refusal, T)> {
        field::insert(&mut self.field, entities, e, value)
    }

    fn remove(
        &mut self,
        entities: &EntitiesRes,
        _slot: Sole,
        e: Entity,
    ) -> Result<Option<T>, Refusal> {
        field::remove(&mut self.field, entities, e)
    }

    fn clear(&mut self, _slot: Sole) -> Result<(), Refusal> {
        field::clear(&mut self.field)
    }

    fn mark(
        &mut self,
        _entities: &EntitiesRes,
        _slot: Sole,
        _e: Entity,
    ) -> Result<Option<bool>, MarkError> {
        if self.field.is_some() {
            Err(MarkError::NoMarker)
        } else {
            Err(MarkError::Unregistered)
        }
    }

    fn call_channel(
        &mut self,
        _slot: Sole,
        call: ChannelCall<'_>,
    ) -> Result<ChannelReply, Refusal> {
        match call {
            ChannelCall::Register => {
                Ok(ChannelReply::Reader(field::register_reader(&mut self.field)?))
            }
            ChannelCall::Read(reader) => {
                Ok(ChannelReply::Events(field::events(&mut self.field, reader)?))
            }
            ChannelCall::End(reader) => {
                field::drop_reader(&mut self.field, reader)?;
                Ok(ChannelReply::Done)
            }
            ChannelCall::Emit(on) => {
                field::emit(&mut self.field, on)?;
                Ok(ChannelReply::Done)
            }
        }
    }

    fn reserve_drop(&mut self, count: usize) -> Result<(), AllocError> {
        field::reserve_drop(&mut self.field, count)
    }

    fn drop_all(&mut self, es: &[Entity]) {
        field::drop_all(&mut self.field, es);
    }
}

impl<T: Component + Clone + Drop> CloneStorages for Only<T>
where
    T::Storage: MaybeTracked<T>,
{
    ghost clones = { record { is_clone = T.is_clone; is_free = λ _. (t : T) → T.is_infallible t } };

    fn get(&self, entities: &EntitiesRes, _slot: Sole, e: Entity) -> Result<Option<T>, Refusal> {
        field::get_clone(&self.field, entities, e)
    }
}
