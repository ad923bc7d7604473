//! A struct of storages for two component types.
use crate::both::Both;
use crate::either::Either;
use crate::empty::Empty;
use crate::has::{Here, InFirst, InRest};
use crate::only::{Only, Sole};
use crate::two::TwoFields;
use hibits::BitSet;
use specs::{
    ChannelCall, ChannelReply, CloneStorages, EntitiesRes, Entity, Field, Has, Held, MarkError,
    Refusal, Storages,
};
use std::alloc::{AllocError, Global};
use storages::{Component, MaskedStorage, MaybeTracked};

/// Two component types: the storages of `Both`, as one struct. A call goes to the one of both that its slot or its value names, and costs what it
/// costs there. Where a function is called at a known struct, the prover goes through all calls of each struct in it: here those of one, in `Both`
/// those of three.
#[derive(Drop)]
pub struct Pair<A: Component, B: Component> {
    /// The storages of both.
    pub both: Both<Only<A>, Only<B>>,
}

impl<A: Component, B: Component> Held for Pair<A, B> {
    type Slot = Either<Sole, Sole>;

    type Value = Either<A, B>;

    ghost table = { λ s. ⟦<Both<Only<A>, Only<B>> as Held>⟧.table s.both };

    ghost place = { ⟦<Both<Only<A>, Only<B>> as Held>⟧.place };

    ghost marks = { ⟦<Both<Only<A>, Only<B>> as Held>⟧.marks };

    ghost ids = { λ s. ⟦<Both<Only<A>, Only<B>> as Held>⟧.ids s.both };
}

impl<A: Component + Drop, B: Component + Drop> Storages for Pair<A, B>
where
    A::Storage: MaybeTracked<A>,
    B::Storage: MaybeTracked<B>,
{
    ghost use Rattle.std.specs.Prelude.{Some, false, refl};
    ghost use Rattle.composed.specs.Exact.{exact_by, sole_is};
    ghost use Rattle.composed.specs.Places.{idless_of_both};

    ghost room = { λ s. ⟦<Both<Only<A>, Only<B>> as Storages>⟧.room s.both };

    ghost exact = { exact_by _ _ _ (λ x y. refl) (λ x y. refl) (λ x y. refl) (λ x y. refl) (λ a b. (λ _. sole_is a b, λ _. refl)) (λ a b. (λ _. sole_is a b, λ _. refl)) };

    ghost idless = { λ s. idless_of_both (λ _. false) (λ _. false) (λ _. Some 0) (λ _. Some 0) (λ _ _. refl) (λ _ _. refl) };

    fn slot_of(value: &Either<A, B>) -> Self::Slot {
        <Both<Only<A>, Only<B>>>::slot_of(value)
    }

    fn register(&mut self, alloc: Global, slot: Self::Slot) -> Result<(), AllocError> {
        self.both.register(alloc, slot)
    }

    fn mask(&self, slot: Self::Slot) -> Option<&BitSet> {
        self.both.mask(slot)
    }

    fn insert(
        &mut self,
        entities: &EntitiesRes,
        e: Entity,
        value: Self::Value,
    ) -> Result<Option<Self::Value>, (Refusal, Self::Value)> {
        self.both.insert(entities, e, value)
    }

    fn remove(
        &mut self,
        entities: &EntitiesRes,
        slot: Self::Slot,
        e: Entity,
    ) -> Result<Option<Self::Value>, Refusal> {
        self.both.remove(entities, slot, e)
    }

    fn clear(&mut self, slot: Self::Slot) -> Result<(), Refusal> {
        self.both.clear(slot)
    }

    fn mark(
        &mut self,
        entities: &EntitiesRes,
        slot: Self::Slot,
        e: Entity,
    ) -> Result<Option<bool>, MarkError> {
        self.both.mark(entities, slot, e)
    }

    fn call_channel(
        &mut self,
        slot: Self::Slot,
        call: ChannelCall<'_>,
    ) -> Result<ChannelReply, Refusal> {
        self.both.call_channel(slot, call)
    }

    fn reserve_drop(&mut self, count: usize) -> Result<(), AllocError> {
        self.both.reserve_drop(count)
    }

    fn drop_all(&mut self, es: &[Entity]) {
        self.both.drop_all(es);
    }
}

impl<A: Component + Clone + Drop, B: Component + Clone + Drop> CloneStorages for Pair<A, B>
where
    A::Storage: MaybeTracked<A>,
    B::Storage: MaybeTracked<B>,
{
    ghost clones = { ⟦<Both<Only<A>, Only<B>> as CloneStorages>⟧.clones };

    fn get(
        &self,
        entities: &EntitiesRes,
        slot: Self::Slot,
        e: Entity,
    ) -> Result<Option<Self::Value>, Refusal> {
        self.both.get(entities, slot, e)
    }
}

impl<A: Component, B: Component> Empty for Pair<A, B> {
    ghost IsBlank = { λ s. ⟦<Both<Only<A>, Only<B>> as Empty>⟧.IsBlank s.both };

    fn empty(alloc: Global) -> Self {
        Pair {
            both: <Both<Only<A>, Only<B>>>::empty(alloc),
        }
    }
}

impl<A: Component, B: Component> Field<MaskedStorage<A>, InFirst<Here>> for Pair<A, B>
where
    A::Storage: Drop,
{
    ghost use Rattle.std.specs.Prelude.{Some, refl};

    ghost part = { λ s. s.both.first.field };

    ghost with_part = { λ s w. record s { both = record { first = record { field = Some w }; rest = s.both.rest } } };

    ghost puts = { λ s w. refl };

    fn field(&self) -> Option<&MaskedStorage<A>> {
        self.both.first.field()
    }

    fn field_mut(&mut self) -> Option<&mut MaskedStorage<A>> {
        let both = &mut self.both;
        both.first.field_mut()
    }

    fn set_field(&mut self, other: MaskedStorage<A>) {
        self.both.first.set_field(other);
    }
}

impl<A: Component, B: Component> Has<A, InFirst<Here>> for Pair<A, B>
where
    A::Storage: Drop,
{
    ghost use Rattle.std.proofs.Common.{Some, refl, inl};
    ghost use Rattle.specs.specs.Typed.Field.{field_column};
    ghost use Rattle.composed.specs.declared.only.Sole.TheVariants.{Sole};
    ghost use Rattle.composed.specs.declared.either.Either.TheVariants.{First};
    ghost use Rattle.composed.specs.Places.{sees_only, sees_first, only_first, of_first};

    ghost the_slot = { First Sole };

    ghost as_value = { λ t. First t };

    fn slot() -> Self::Slot {
        Either::First(Sole::Sole)
    }

    fn value(component: A) -> Self::Value {
        Either::First(component)
    }

    fn component(value: Self::Value) -> Result<A, Self::Value> {
        match value {
            Either::First(component) => Ok(component),
            Either::Rest(other) => Err(Either::Rest(other)),
        }
    }

    ghost sees = { λ s. let shown = field_column s.both.first.field in sees_first (λ t. t) shown shown (sees_only shown) };

    ghost only = { λ s w. only_first (λ _. field_column s.both.first.field) (λ _. field_column (Some w)) (λ _. field_column s.both.rest.field) Sole (elim [ Sole ↦ inl refl ]) };

    ghost keeps_ids = { λ s w. refl };

    ghost places = { λ t. refl };

    ghost one_to_one = { λ t u same. of_first same };
}

impl<A: Component, B: Component> Field<MaskedStorage<B>, InRest<Here>> for Pair<A, B>
where
    B::Storage: Drop,
{
    ghost use Rattle.std.specs.Prelude.{Some, refl};

    ghost part = { λ s. s.both.rest.field };

    ghost with_part = { λ s w. record s { both = record { rest = record { field = Some w }; first = s.both.first } } };

    ghost puts = { λ s w. refl };

    fn field(&self) -> Option<&MaskedStorage<B>> {
        self.both.rest.field()
    }

    fn field_mut(&mut self) -> Option<&mut MaskedStorage<B>> {
        let both = &mut self.both;
        both.rest.field_mut()
    }

    fn set_field(&mut self, other: MaskedStorage<B>) {
        self.both.rest.set_field(other);
    }
}

impl<A: Component, B: Component> Has<B, InRest<Here>> for Pair<A, B>
where
    B::Storage: Drop,
{
    ghost use Rattle.std.proofs.Common.{Some, refl, inl};
    ghost use Rattle.specs.specs.Typed.Field.{field_column};
    ghost use Rattle.composed.specs.declared.only.Sole.TheVariants.{Sole};
    ghost use Rattle.composed.specs.declared.either.Either.TheVariants.{Rest};
    ghost use Rattle.composed.specs.Places.{sees_only, sees_rest, only_rest, of_rest};

    ghost the_slot = { Rest Sole };

    ghost as_value = { λ t. Rest t };

    fn slot() -> Self::Slot {
        Either::Rest(Sole::Sole)
    }

    fn value(component: B) -> Self::Value {
        Either::Rest(component)
    }

    fn component(value: Self::Value) -> Result<B, Self::Value> {
        match value {
            Either::First(other) => Err(Either::First(other)),
            Either::Rest(component) => Ok(component),
        }
    }

    ghost sees = { λ s. let shown = field_column s.both.rest.field in sees_rest (λ t. t) shown shown (sees_only shown) };

    ghost only = { λ s w. only_rest (λ _. field_column s.both.first.field) (λ _. field_column s.both.rest.field) (λ _. field_column (Some w)) Sole (elim [ Sole ↦ inl refl ]) };

    ghost keeps_ids = { λ s w. refl };

    ghost places = { λ t. refl };

    ghost one_to_one = { λ t u same. of_rest same };
}

// In what follows `bound-5` is the bound below: what `Both` says of its two parts.
impl<M, N, P, A: Component, B: Component> TwoFields<M, N, P> for Pair<A, B>
where
    Both<Only<A>, Only<B>>: TwoFields<M, N, P>,
{
    ghost one = { λ s. bound-5.one s.both };

    ghost other = { λ s. bound-5.other s.both };

    ghost with_two = { λ s v w. record s { both = bound-5.with_two s.both v w } };

    ghost puts_one = { λ s v w. bound-5.puts_one s.both v w };

    ghost puts_other = { λ s v w. bound-5.puts_other s.both v w };

    fn has_two(&self) -> bool {
        self.both.has_two()
    }

    fn two(&self) -> Option<(&M, &N)> {
        self.both.two()
    }

    fn with_two<R, F: FnOnce(&mut M, &mut N) -> R>(&mut self, f: F) -> Option<R> {
        self.both.with_two(f)
    }

    fn with_two_and<E, R, F: FnOnce(&mut E, &mut M, &mut N) -> R>(
        &mut self,
        beside: &mut E,
        f: F,
    ) -> Option<R> {
        self.both.with_two_and(beside, f)
    }

    fn with_two_beside<G: Drop, D, E, R, F: FnOnce(G, &mut D, &mut E, &mut M, &mut N) -> R>(
        &mut self,
        given: G,
        first: &mut D,
        rest: &mut E,
        f: F,
    ) -> Option<R> {
        self.both.with_two_beside(given, first, rest, f)
    }
}
