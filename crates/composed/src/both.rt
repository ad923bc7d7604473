//! Two structs of storages as one.
ghost use Rattle.std.specs.Prelude.{◌≡◌};
ghost use Rattle.std.specs.Option.{option_map};
ghost use Rattle.composed.specs.declared.either.Either.TheVariants.{First, Rest};

use crate::either::Either;
use hibits::BitSet;
use specs::{
    ChannelCall, ChannelReply, CloneStorages, EntitiesRes, Entity, Held, MarkError, Refusal,
    Storages,
};
use std::alloc::{AllocError, Global};

/// The storages of both. A call goes to the part that its slot or its value names, and costs what it costs there.
pub struct Both<A, B> {
    /// The first storages.
    pub first: A,
    /// The rest of them.
    pub rest: B,
}

impl<A: Drop, B: Drop> Drop for Both<A, B> {
    fn drop(self) {
        let Both {
            first: _first,
            rest: _rest,
        } = self;
    }
}

impl<A: Held, B: Held> Held for Both<A, B> {
    ghost use Rattle.composed.specs.Both.{table_of_both, place_of_both, of_either, markers_of_both};

    type Slot = Either<A::Slot, B::Slot>;

    type Value = Either<A::Value, B::Value>;

    ghost table = { λ s. table_of_both (A.table s.first) (B.table s.rest) };

    ghost place = { place_of_both A.place B.place };

    ghost marks = { markers_of_both A.marks B.marks };

    ghost ids = { λ s. of_either (A.ids s.first) (B.ids s.rest) };
}

impl<A: Storages, B: Storages> Storages for Both<A, B> {
    ghost use Rattle.std.specs.Prelude.{refl};
    ghost use Rattle.composed.specs.Exact.{exact_by};
    ghost use Rattle.composed.specs.Both.{of_either};
    ghost use Rattle.composed.specs.Places.{idless_of_both};

    ghost room = { λ s. of_either (A.room s.first) (B.room s.rest) };

    ghost exact = { exact_by _ A.Slot.eq B.Slot.eq (λ x y. refl) (λ x y. refl) (λ x y. refl) (λ x y. refl) A.exact B.exact };

    ghost idless = { λ s. idless_of_both A.marks.holds B.marks.holds (A.ids s.first) (B.ids s.rest) (A.idless s.first) (B.idless s.rest) };

    fn slot_of(value: &Self::Value) -> Self::Slot {
        match value {
            Either::First(value) => Either::First(A::slot_of(value)),
            Either::Rest(value) => Either::Rest(B::slot_of(value)),
        }
    }

    fn register(&mut self, alloc: Global, slot: Self::Slot) -> Result<(), AllocError> {
        match slot {
            Either::First(slot) => self.first.register(alloc, slot),
            Either::Rest(slot) => self.rest.register(alloc, slot),
        }
    }

    fn mask(&self, slot: Self::Slot) -> Option<&BitSet> {
        match slot {
            Either::First(slot) => self.first.mask(slot),
            Either::Rest(slot) => self.rest.mask(slot),
        }
    }

    fn insert(
        &mut self,
        entities: &EntitiesRes,
        e: Entity,
        value: Self::Value,
    ) -> Result<Option<Self::Value>, (Refusal, Self::Value)> {
        match value {
            Either::First(value) => match self.first.insert(entities, e, value) {
                Ok(before) => Ok(first(before)),
                Err((refusal, value)) => Err((refusal, Either::First(value))),
            },
            Either::Rest(value) => match self.rest.insert(entities, e, value) {
                Ok(before) => Ok(rest(before)),
                Err((refusal, value)) => Err((refusal, Either::Rest(value))),
            },
        }
    }

    fn remove(
        &mut self,
        entities: &EntitiesRes,
        slot: Self::Slot,
        e: Entity,
    ) -> Result<Option<Self::Value>, Refusal> {
        match slot {
            Either::First(slot) => Ok(first(self.first.remove(entities, slot, e)?)),
            Either::Rest(slot) => Ok(rest(self.rest.remove(entities, slot, e)?)),
        }
    }

    fn clear(&mut self, slot: Self::Slot) -> Result<(), Refusal> {
        match slot {
            Either::First(slot) => self.first.clear(slot),
            Either::Rest(slot) => self.rest.clear(slot),
        }
    }

    fn mark(
        &mut self,
        entities: &EntitiesRes,
        slot: Self::Slot,
        e: Entity,
    ) -> Result<Option<bool>, MarkError> {
        match slot {
            Either::First(slot) => self.first.mark(entities, slot, e),
            Either::Rest(slot) => self.rest.mark(entities, slot, e),
        }
    }

    fn call_channel(
        &mut self,
        slot: Self::Slot,
        call: ChannelCall<'_>,
    ) -> Result<ChannelReply, Refusal> {
        match slot {
            Either::First(slot) => self.first.call_channel(slot, call),
            Either::Rest(slot) => self.rest.call_channel(slot, call),
        }
    }

    fn reserve_drop(&mut self, count: usize) -> Result<(), AllocError> {
        self.first.reserve_drop(count)?;
        self.rest.reserve_drop(count)
    }

    fn drop_all(&mut self, es: &[Entity]) {
        self.first.drop_all(es);
        self.rest.drop_all(es);
    }
}

impl<A: CloneStorages, B: CloneStorages> CloneStorages for Both<A, B> {
    ghost use Rattle.composed.specs.Both.{clones_of_both};

    ghost clones = { clones_of_both A.clones B.clones };

    fn get(
        &self,
        entities: &EntitiesRes,
        slot: Self::Slot,
        e: Entity,
    ) -> Result<Option<Self::Value>, Refusal> {
        match slot {
            Either::First(slot) => Ok(first(self.first.get(entities, slot, e)?)),
            Either::Rest(slot) => Ok(rest(self.rest.get(entities, slot, e)?)),
        }
    }
}

fn first<A, B>(value: Option<A>) -> Option<Either<A, B>>
    ensures { result ≡ option_map First value }
{
    match value {
        Some(value) => Some(Either::First(value)),
        None => None,
    }
}

fn rest<A, B>(value: Option<B>) -> Option<Either<A, B>>
    ensures { result ≡ option_map Rest value }
{
    match value {
        Some(value) => Some(Either::Rest(value)),
        None => None,
    }
}
