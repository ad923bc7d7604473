//! The storages of component types, within composed structs.
ghost use Rattle.specs.specs.Typed.Field.{field_column};

use crate::both::Both;
use crate::either::Either;
use crate::marking::Marking;
use crate::only::{Only, Sole};
use saveload::IdSupply;
use specs::{Field, Has, Held};
use std::marker::PhantomData;
use storages::{Component, MaskedStorage};

/// In the struct itself.
pub struct Here;

/// In the first of both.
pub struct InFirst<I> {
    of: PhantomData<I>,
}

/// In the rest of both.
pub struct InRest<I> {
    of: PhantomData<I>,
}

impl<T: Component> Field<MaskedStorage<T>, Here> for Only<T>
where
    T::Storage: Drop,
{
    ghost use Rattle.std.specs.Prelude.{Some, refl};

    ghost part = { λ s. s.field };

    ghost with_part = { λ s w. record s { field = Some w } };

    ghost puts = { λ s w. refl };

    fn field(&self) -> Option<&MaskedStorage<T>> {
        self.field.as_ref()
    }

    fn field_mut(&mut self) -> Option<&mut MaskedStorage<T>> {
        self.field.as_mut()
    }

    fn set_field(&mut self, other: MaskedStorage<T>) {
        self.field = Some(other);
    }
}

impl<M: Component, A> Field<MaskedStorage<M>, Here> for Marking<M, A>
where
    M::Storage: Drop,
{
    ghost use Rattle.std.specs.Prelude.{Some, refl};

    ghost part = { λ s. s.markers.field };

    ghost with_part = { λ s w. record s { markers = record { field = Some w } } };

    ghost puts = { λ s w. refl };

    fn field(&self) -> Option<&MaskedStorage<M>> {
        self.markers.field()
    }

    fn field_mut(&mut self) -> Option<&mut MaskedStorage<M>> {
        self.markers.field_mut()
    }

    fn set_field(&mut self, other: MaskedStorage<M>) {
        self.markers.set_field(other);
    }
}

impl<T: Component, I, A: Field<MaskedStorage<T>, I>, B> Field<MaskedStorage<T>, InFirst<I>>
    for Both<A, B> {
    ghost part = { λ s. A.part s.first };

    ghost with_part = { λ s w. record s { first = A.with_part s.first w } };

    ghost puts = { λ s w. A.puts s.first w };

    fn field(&self) -> Option<&MaskedStorage<T>> {
        self.first.field()
    }

    fn field_mut(&mut self) -> Option<&mut MaskedStorage<T>> {
        self.first.field_mut()
    }

    fn set_field(&mut self, other: MaskedStorage<T>) {
        self.first.set_field(other);
    }
}

impl<T: Component, I, A, B: Field<MaskedStorage<T>, I>> Field<MaskedStorage<T>, InRest<I>>
    for Both<A, B> {
    ghost part = { λ s. B.part s.rest };

    ghost with_part = { λ s w. record s { rest = B.with_part s.rest w } };

    ghost puts = { λ s w. B.puts s.rest w };

    fn field(&self) -> Option<&MaskedStorage<T>> {
        self.rest.field()
    }

    fn field_mut(&mut self) -> Option<&mut MaskedStorage<T>> {
        self.rest.field_mut()
    }

    fn set_field(&mut self, other: MaskedStorage<T>) {
        self.rest.set_field(other);
    }
}

impl<T: Component> Has<T, Here> for Only<T>
where
    T::Storage: Drop,
{
    ghost use Rattle.composed.specs.declared.only.Sole.TheVariants.{Sole};
    ghost use Rattle.composed.specs.Places.{sees_only};
    ghost use Rattle.std.proofs.Common.{refl, inl};

    ghost the_slot = { Sole };

    ghost as_value = { λ t. t };

    fn slot() -> Sole {
        Sole::Sole
    }

    fn value(component: T) -> T {
        component
    }

    fn component(value: T) -> Result<T, T> {
        Ok(value)
    }

    ghost sees = { λ s. sees_only (field_column s.field) };

    ghost keeps_ids = { λ s w. refl };

    ghost only = { λ s w. elim [ Sole ↦ inl refl ] };

    ghost places = { λ t. refl };

    ghost one_to_one = { λ t u same. same };
}

impl<M: Component, A: IdSupply<M>> Has<M, Here> for Marking<M, A>
where
    M::Storage: Drop,
{
    ghost use Rattle.composed.specs.declared.only.Sole.TheVariants.{Sole};
    ghost use Rattle.composed.specs.Places.{sees_only};
    ghost use Rattle.specs.specs.Typed.Field.{field_column};
    ghost use Rattle.std.proofs.Common.{refl, inl};

    ghost the_slot = { Sole };

    ghost as_value = { λ t. t };

    fn slot() -> Sole {
        Sole::Sole
    }

    fn value(component: M) -> M {
        component
    }

    fn component(value: M) -> Result<M, M> {
        Ok(value)
    }

    ghost sees = { λ s. sees_only (field_column s.markers.field) };

    ghost keeps_ids = { λ s w. refl };

    ghost only = { λ s w. elim [ Sole ↦ inl refl ] };

    ghost places = { λ t. refl };

    ghost one_to_one = { λ t u same. same };
}

impl<T: Component, I, A: Has<T, I>, B: Held> Has<T, InFirst<I>> for Both<A, B> {
    ghost use Rattle.composed.specs.declared.either.Either.TheVariants.{First, Rest};
    ghost use Rattle.composed.specs.Both.{of_either};
    ghost use Rattle.composed.specs.Places.{sees_first, only_first, of_first};
    ghost use Rattle.std.proofs.Common.{ap};

    ghost the_slot = { First A.the_slot };

    ghost as_value = { λ t. First (A.as_value t) };

    fn slot() -> Self::Slot {
        Either::First(A::slot())
    }

    fn value(component: T) -> Self::Value {
        Either::First(A::value(component))
    }

    fn component(value: Self::Value) -> Result<T, Self::Value> {
        match value {
            Either::First(value) => match A::component(value) {
                Ok(component) => Ok(component),
                Err(value) => Err(Either::First(value)),
            },
            Either::Rest(value) => Err(Either::Rest(value)),
        }
    }

    ghost sees = { λ s. sees_first A.as_value (field_column (A.part s.first)) (A.table s.first A.the_slot) (A.sees s.first) };

    ghost only = { λ s w. only_first (A.table s.first) (A.table (A.with_part s.first w)) (B.table s.rest) A.the_slot (A.only s.first w) };

    ghost keeps_ids = { λ s w. ap (λ ids. of_either ids (B.ids s.rest)) (A.keeps_ids s.first w) };

    ghost places = { λ t. ap First (A.places t) };

    ghost one_to_one = { λ t u same. A.one_to_one t u (of_first same) };
}

impl<T: Component, I, A: Held, B: Has<T, I>> Has<T, InRest<I>> for Both<A, B> {
    ghost use Rattle.composed.specs.declared.either.Either.TheVariants.{First, Rest};
    ghost use Rattle.composed.specs.Both.{of_either};
    ghost use Rattle.composed.specs.Places.{sees_rest, only_rest, of_rest};
    ghost use Rattle.std.proofs.Common.{ap};

    ghost the_slot = { Rest B.the_slot };

    ghost as_value = { λ t. Rest (B.as_value t) };

    fn slot() -> Self::Slot {
        Either::Rest(B::slot())
    }

    fn value(component: T) -> Self::Value {
        Either::Rest(B::value(component))
    }

    fn component(value: Self::Value) -> Result<T, Self::Value> {
        match value {
            Either::First(value) => Err(Either::First(value)),
            Either::Rest(value) => match B::component(value) {
                Ok(component) => Ok(component),
                Err(value) => Err(Either::Rest(value)),
            },
        }
    }

    ghost sees = { λ s. sees_rest B.as_value (field_column (B.part s.rest)) (B.table s.rest B.the_slot) (B.sees s.rest) };

    ghost only = { λ s w. only_rest (A.table s.first) (B.table s.rest) (B.table (B.with_part s.rest w)) B.the_slot (B.only s.rest w) };

    ghost keeps_ids = { λ s w. ap (λ ids. of_either (A.ids s.first) ids) (B.keeps_ids s.rest w) };

    ghost places = { λ t. ap Rest (B.places t) };

    ghost one_to_one = { λ t u same. B.one_to_one t u (of_rest same) };
}
