//! A struct of storages with a further field, of which its slots know nothing.
use hibits::BitSet;
use specs::{
    ChannelCall, ChannelReply, CloneStorages, EntitiesRes, Entity, Held, MarkError, Refusal,
    Storages,
};
use std::alloc::{AllocError, Global};

/// Storages, and beside them a list of numbers. Each call goes to the storages.
#[derive(Drop)]
pub struct Listed<S> {
    /// The storages.
    pub storages: S,
    /// The list.
    pub numbers: Vec<u32>,
}

impl<S: Held> Held for Listed<S> {
    type Slot = S::Slot;

    type Value = S::Value;

    ghost table = { λ s. S.table s.storages };

    ghost place = { S.place };

    ghost marks = { S.marks };

    ghost ids = { λ s. S.ids s.storages };
}

impl<S: Storages> Storages for Listed<S> {
    ghost room = { λ s. S.room s.storages };

    ghost exact = { S.exact };

    ghost idless = { λ s. S.idless s.storages };

    fn slot_of(value: &Self::Value) -> Self::Slot {
        S::slot_of(value)
    }

    fn register(&mut self, alloc: Global, slot: Self::Slot) -> Result<(), AllocError> {
        self.storages.register(alloc, slot)
    }

    fn mask(&self, slot: Self::Slot) -> Option<&BitSet> {
        self.storages.mask(slot)
    }

    fn insert(
        &mut self,
        entities: &EntitiesRes,
        e: Entity,
        value: Self::Value,
    ) -> Result<Option<Self::Value>, (Refusal, Self::Value)> {
        self.storages.insert(entities, e, value)
    }

    fn remove(
        &mut self,
        entities: &EntitiesRes,
        slot: Self::Slot,
        e: Entity,
    ) -> Result<Option<Self::Value>, Refusal> {
        self.storages.remove(entities, slot, e)
    }

    fn clear(&mut self, slot: Self::Slot) -> Result<(), Refusal> {
        self.storages.clear(slot)
    }

    fn mark(
        &mut self,
        entities: &EntitiesRes,
        slot: Self::Slot,
        e: Entity,
    ) -> Result<Option<bool>, MarkError> {
        self.storages.mark(entities, slot, e)
    }

    fn call_channel(
        &mut self,
        slot: Self::Slot,
        call: ChannelCall<'_>,
    ) -> Result<ChannelReply, Refusal> {
        self.storages.call_channel(slot, call)
    }

    fn reserve_drop(&mut self, count: usize) -> Result<(), AllocError> {
        self.storages.reserve_drop(count)
    }

    fn drop_all(&mut self, es: &[Entity]) {
        self.storages.drop_all(es);
    }
}

impl<S: CloneStorages> CloneStorages for Listed<S> {
    ghost clones = { S.clones };

    fn get(
        &self,
        entities: &EntitiesRes,
        slot: Self::Slot,
        e: Entity,
    ) -> Result<Option<Self::Value>, Refusal> {
        self.storages.get(entities, slot, e)
    }
}
