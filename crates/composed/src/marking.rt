//! A struct of storages for one type of markers, with what gives their ids.
use crate::only::{Only, Sole};
use hibits::BitSet;
use saveload::{IdSupply, Marker, MarkerAllocator, SimpleMarker, SimpleMarkerAllocator};
use specs::{
    ChannelCall, ChannelReply, CloneStorages, EntitiesRes, Entity, Held, MarkError, Refusal,
    Storages, field_marks,
};
use std::alloc::{AllocError, Global};
use storages::{Component, MaybeTracked};

/// One type of markers: their storage, or none where they are not registered, and what gives their ids, which outlives the markers.
#[derive(Drop)]
pub struct Marking<M: Component, A> {
    /// The markers.
    pub markers: Only<M>,
    /// What gives their ids.
    pub allocator: A,
}

impl<T> Marking<SimpleMarker<T>, SimpleMarkerAllocator<T>> {
    ghost use Rattle.std.specs.Prelude.{◌≡◌, ℕ, None};
    ghost use Rattle.saveload.specs.Simple.{given};

    /// The markers are not registered, and no id is given.
    pub fn new(alloc: Global) -> Self
        ensures field { result.markers.field ≡ None }
        ensures next { result.allocator.next ≡ 0 }
        ensures mapping { (id : ℕ) → given result.allocator id ≡ None }
    {
        Marking {
            markers: Only::new(),
            allocator: SimpleMarkerAllocator::new(alloc),
        }
    }
}

impl<M: Component, A: IdSupply<M>> Held for Marking<M, A> {
    ghost use Rattle.std.specs.Prelude.{true};
    ghost use Rattle.specs.specs.Typed.Field.{field_column};
    ghost use Rattle.composed.specs.declared.only.Sole.TheVariants.{Sole};

    type Slot = Sole;

    type Value = M;

    ghost table = { λ s _. field_column s.markers.field };

    ghost place = { λ _. Sole };

    ghost marks = { record { holds = λ _. true; comes = λ _. A.ComesNext } };

    ghost ids = { λ s _. A.ids s.allocator };
}

impl<M: Marker, A: MarkerAllocator<M>> Storages for Marking<M, A>
where
    M::Storage: MaybeTracked<M>,
{
    ghost use Rattle.std.specs.Prelude.{refl};
    ghost use Rattle.std.proofs.Common.{true≢false};
    ghost use Rattle.composed.specs.Exact.{sole_is};
    ghost use Rattle.specs.specs.Typed.Field.{field_room};

    ghost room = { λ s _. field_room s.markers.field };

    ghost exact = { λ a b. (λ _. sole_is a b, λ _. refl) };

    ghost idless = { λ _ _ h. absurd (true≢false h) };

    fn slot_of(_value: &M) -> Sole {
        Sole::Sole
    }

    fn register(&mut self, alloc: Global, slot: Sole) -> Result<(), AllocError> {
        self.markers.register(alloc, slot)
    }

    fn mask(&self, slot: Sole) -> Option<&BitSet> {
        self.markers.mask(slot)
    }

    fn insert(
        &mut self,
        entities: &EntitiesRes,
        e: Entity,
        value: M,
    ) -> Result<Option<M>, (Refusal, M)> {
        self.markers.insert(entities, e, value)
    }

    fn remove(
        &mut self,
        entities: &EntitiesRes,
        slot: Sole,
        e: Entity,
    ) -> Result<Option<M>, Refusal> {
        self.markers.remove(entities, slot, e)
    }

    fn clear(&mut self, slot: Sole) -> Result<(), Refusal> {
        self.markers.clear(slot)
    }

    fn mark(
        &mut self,
        entities: &EntitiesRes,
        _slot: Sole,
        e: Entity,
    ) -> Result<Option<bool>, MarkError> {
        field_marks::mark(&mut self.markers.field, &mut self.allocator, entities, e)
    }

    fn call_channel(&mut self, slot: Sole, call: ChannelCall<'_>) -> Result<ChannelReply, Refusal> {
        self.markers.call_channel(slot, call)
    }

    fn reserve_drop(&mut self, count: usize) -> Result<(), AllocError> {
        self.markers.reserve_drop(count)
    }

    fn drop_all(&mut self, es: &[Entity]) {
        self.markers.drop_all(es);
    }
}

impl<M: Marker + Clone, A: MarkerAllocator<M>> CloneStorages for Marking<M, A>
where
    M::Storage: MaybeTracked<M>,
{
    ghost clones = { record { is_clone = M.is_clone; is_free = λ _. (m : M) → M.is_infallible m } };

    fn get(&self, entities: &EntitiesRes, slot: Sole, e: Entity) -> Result<Option<M>, Refusal> {
        self.markers.get(entities, slot, e)
    }
}
