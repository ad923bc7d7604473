//! Tuples of one to six storages whose components are saved.
ghost use Rattle.saveload.specs.Places.{place};
ghost use Rattle.saveload.specs.Unsaved.{UnsavedOne, UnsavedTwo, UnsavedThree, UnsavedFour, UnsavedFive, UnsavedSix};
ghost use Rattle.saveload.specs.Tuples.{one_place, two_places, three_places, four_places, five_places, six_places};
ghost use Rattle.saveload.specs.Tuples.{one_place_faithful, two_places_faithful, three_places_faithful, four_places_faithful, five_places_faithful, six_places_faithful};

use crate::convert::ConvertSaveload;
use crate::error::SaveError;
use crate::marker::Marker;
use crate::places::{SerializeComponents, place_references, serialize_place, serialize_with_rest};
use entities::Entity;
use std::alloc::{AllocError, Global};
use storages::GenericReadStorage;

impl<M: Marker, A: GenericReadStorage> SerializeComponents<M> for (A,)
where
    A::Component: ConvertSaveload<M>,
{
    type Row = (Option<A::Component>,);

    type Data = (Option<<A::Component as ConvertSaveload<M>>::Data>,);

    ghost conversion = { one_place A.Component.conversion };

    ghost values = { λ s e. record { 0 = A.found s.0 e } };

    ghost Unsaved = { UnsavedOne (one_place A.Component.conversion) };

    fn references(&self, alloc: Global, entity: Entity) -> Result<Vec<Entity>, AllocError> {
        place_references::<M, A>(alloc, &self.0, entity)
    }

    fn serialize_entity<F: Fn(Entity) -> Option<M>>(
        &self,
        alloc: Global,
        entity: Entity,
        ids: F,
    ) -> Result<Self::Data, SaveError> {
        let first = serialize_place(alloc, &self.0, entity, &ids)?;
        Ok((first,))
    }

    ghost faithful = { one_place_faithful _ A.Component.faithful };
}

impl<M: Marker, A: GenericReadStorage, B: GenericReadStorage> SerializeComponents<M> for (A, B)
where
    A::Component: ConvertSaveload<M>,
    B::Component: ConvertSaveload<M>,
{
    type Row = (Option<A::Component>, Option<B::Component>);

    type Data = (
        Option<<A::Component as ConvertSaveload<M>>::Data>,
        Option<<B::Component as ConvertSaveload<M>>::Data>,
    );

    ghost conversion = { two_places A.Component.conversion B.Component.conversion };

    ghost values = { λ s e. (A.found s.0 e, B.found s.1 e) };

    ghost Unsaved = { UnsavedTwo (place A.Component.conversion) (place B.Component.conversion) };

    fn references(&self, alloc: Global, entity: Entity) -> Result<Vec<Entity>, AllocError> {
        let mut list = place_references::<M, A>(alloc, &self.0, entity)?;
        let rest = place_references::<M, B>(alloc, &self.1, entity)?;
        list.extend_from_slice(&rest)?;
        Ok(list)
    }

    fn serialize_entity<F: Fn(Entity) -> Option<M>>(
        &self,
        alloc: Global,
        entity: Entity,
        ids: F,
    ) -> Result<Self::Data, SaveError> {
        let first = serialize_place(alloc, &self.0, entity, &ids)?;
        let second = serialize_place(alloc, &self.1, entity, &ids)?;
        Ok((first, second))
    }

    ghost faithful = { two_places_faithful _ _ A.Component.faithful B.Component.faithful };
}

impl<
    M: Marker,
    A: GenericReadStorage,
    B: GenericReadStorage,
    C: GenericReadStorage,
> SerializeComponents<M> for (A, B, C)
where
    A::Component: ConvertSaveload<M>,
    B::Component: ConvertSaveload<M>,
    C::Component: ConvertSaveload<M>,
{
    type Row = (
        Option<A::Component>,
        Option<B::Component>,
        Option<C::Component>,
    );

    type Data = (
        Option<<A::Component as ConvertSaveload<M>>::Data>,
        Option<<B::Component as ConvertSaveload<M>>::Data>,
        Option<<C::Component as ConvertSaveload<M>>::Data>,
    );

    ghost conversion = { three_places A.Component.conversion B.Component.conversion C.Component.conversion };

    ghost values = { λ s e. (A.found s.0 e, B.found s.1 e, C.found s.2 e) };

    ghost Unsaved = { UnsavedThree (place A.Component.conversion) (place B.Component.conversion) (place C.Component.conversion) };

    fn references(&self, alloc: Global, entity: Entity) -> Result<Vec<Entity>, AllocError> {
        let mut list = place_references::<M, A>(alloc, &self.0, entity)?;
        let others = (&self.1, &self.2);
        let rest = SerializeComponents::<M>::references(&others, alloc, entity)?;
        list.extend_from_slice(&rest)?;
        Ok(list)
    }

    fn serialize_entity<F: Fn(Entity) -> Option<M>>(
        &self,
        alloc: Global,
        entity: Entity,
        ids: F,
    ) -> Result<Self::Data, SaveError> {
        let others = (&self.1, &self.2);
        let (first, (second, third)) = serialize_with_rest(alloc, &self.0, &others, entity, ids)?;
        Ok((first, second, third))
    }

    ghost faithful = { three_places_faithful _ _ _ A.Component.faithful B.Component.faithful C.Component.faithful };
}

impl<
    M: Marker,
    A: GenericReadStorage,
    B: GenericReadStorage,
    C: GenericReadStorage,
    D: GenericReadStorage,
> SerializeComponents<M> for (A, B, C, D)
where
    A::Component: ConvertSaveload<M>,
    B::Component: ConvertSaveload<M>,
    C::Component: ConvertSaveload<M>,
    D::Component: ConvertSaveload<M>,
{
    type Row = (
        Option<A::Component>,
        Option<B::Component>,
        Option<C::Component>,
        Option<D::Component>,
    );

    type Data = (
        Option<<A::Component as ConvertSaveload<M>>::Data>,
        Option<<B::Component as ConvertSaveload<M>>::Data>,
        Option<<C::Component as ConvertSaveload<M>>::Data>,
        Option<<D::Component as ConvertSaveload<M>>::Data>,
    );

    ghost conversion = { four_places A.Component.conversion B.Component.conversion C.Component.conversion D.Component.conversion };

    ghost values = { λ s e. (A.found s.0 e, B.found s.1 e, C.found s.2 e, D.found s.3 e) };

    ghost Unsaved = { UnsavedFour (place A.Component.conversion) (place B.Component.conversion) (place C.Component.conversion) (place D.Component.conversion) };

    fn references(&self, alloc: Global, entity: Entity) -> Result<Vec<Entity>, AllocError> {
        let mut list = place_references::<M, A>(alloc, &self.0, entity)?;
        let others = (&self.1, &self.2, &self.3);
        let rest = SerializeComponents::<M>::references(&others, alloc, entity)?;
        list.extend_from_slice(&rest)?;
        Ok(list)
    }

    fn serialize_entity<F: Fn(Entity) -> Option<M>>(
        &self,
        alloc: Global,
        entity: Entity,
        ids: F,
    ) -> Result<Self::Data, SaveError> {
        let others = (&self.1, &self.2, &self.3);
        let (first, (second, third, fourth)) = serialize_with_rest(
            alloc, &self.0, &others, entity, ids,
        )?;
        Ok((first, second, third, fourth))
    }

    ghost faithful = { four_places_faithful _ _ _ _ A.Component.faithful B.Component.faithful C.Component.faithful D.Component.faithful };
}

impl<
    M: Marker,
    A: GenericReadStorage,
    B: GenericReadStorage,
    C: GenericReadStorage,
    D: GenericReadStorage,
    E: GenericReadStorage,
> SerializeComponents<M> for (A, B, C, D, E)
where
    A::Component: ConvertSaveload<M>,
    B::Component: ConvertSaveload<M>,
    C::Component: ConvertSaveload<M>,
    D::Component: ConvertSaveload<M>,
    E::Component: ConvertSaveload<M>,
{
    type Row = (
        Option<A::Component>,
        Option<B::Component>,
        Option<C::Component>,
        Option<D::Component>,
        Option<E::Component>,
    );

    type Data = (
        Option<<A::Component as ConvertSaveload<M>>::Data>,
        Option<<B::Component as ConvertSaveload<M>>::Data>,
        Option<<C::Component as ConvertSaveload<M>>::Data>,
        Option<<D::Component as ConvertSaveload<M>>::Data>,
        Option<<E::Component as ConvertSaveload<M>>::Data>,
    );

    ghost conversion = { five_places A.Component.conversion B.Component.conversion C.Component.conversion D.Component.conversion E.Component.conversion };

    ghost values = { λ s e. (A.found s.0 e, B.found s.1 e, C.found s.2 e, D.found s.3 e, E.found s.4 e) };

    ghost Unsaved = { UnsavedFive (place A.Component.conversion) (place B.Component.conversion) (place C.Component.conversion) (place D.Component.conversion) (place E.Component.conversion) };

    fn references(&self, alloc: Global, entity: Entity) -> Result<Vec<Entity>, AllocError> {
        let mut list = place_references::<M, A>(alloc, &self.0, entity)?;
        let others = (&self.1, &self.2, &self.3, &self.4);
        let rest = SerializeComponents::<M>::references(&others, alloc, entity)?;
        list.extend_from_slice(&rest)?;
        Ok(list)
    }

    fn serialize_entity<F: Fn(Entity) -> Option<M>>(
        &self,
        alloc: Global,
        entity: Entity,
        ids: F,
    ) -> Result<Self::Data, SaveError> {
        let others = (&self.1, &self.2, &self.3, &self.4);
        let (first, (second, third, fourth, fifth)) = serialize_with_rest(
            alloc, &self.0, &others, entity, ids,
        )?;
        Ok((first, second, third, fourth, fifth))
    }

    ghost faithful = { five_places_faithful _ _ _ _ _ A.Component.faithful B.Component.faithful C.Component.faithful D.Component.faithful E.Component.faithful };
}

impl<
    M: Marker,
    A: GenericReadStorage,
    B: GenericReadStorage,
    C: GenericReadStorage,
    D: GenericReadStorage,
    E: GenericReadStorage,
    G: GenericReadStorage,
> SerializeComponents<M> for (A, B, C, D, E, G)
where
    A::Component: ConvertSaveload<M>,
    B::Component: ConvertSaveload<M>,
    C::Component: ConvertSaveload<M>,
    D::Component: ConvertSaveload<M>,
    E::Component: ConvertSaveload<M>,
    G::Component: ConvertSaveload<M>,
{
    type Row = (
        Option<A::Component>,
        Option<B::Component>,
        Option<C::Component>,
        Option<D::Component>,
        Option<E::Component>,
        Option<G::Component>,
    );

    type Data = (
        Option<<A::Component as ConvertSaveload<M>>::Data>,
        Option<<B::Component as ConvertSaveload<M>>::Data>,
        Option<<C::Component as ConvertSaveload<M>>::Data>,
        Option<<D::Component as ConvertSaveload<M>>::Data>,
        Option<<E::Component as ConvertSaveload<M>>::Data>,
        Option<<G::Component as ConvertSaveload<M>>::Data>,
    );

    ghost conversion = { six_places A.Component.conversion B.Component.conversion C.Component.conversion D.Component.conversion E.Component.conversion G.Component.conversion };

    ghost values = { λ s e. (A.found s.0 e, B.found s.1 e, C.found s.2 e, D.found s.3 e, E.found s.4 e, G.found s.5 e) };

    ghost Unsaved = { UnsavedSix (place A.Component.conversion) (place B.Component.conversion) (place C.Component.conversion) (place D.Component.conversion) (place E.Component.conversion) (place G.Component.conversion) };

    fn references(&self, alloc: Global, entity: Entity) -> Result<Vec<Entity>, AllocError> {
        let mut list = place_references::<M, A>(alloc, &self.0, entity)?;
        let others = (&self.1, &self.2, &self.3, &self.4, &self.5);
        let rest = SerializeComponents::<M>::references(&others, alloc, entity)?;
        list.extend_from_slice(&rest)?;
        Ok(list)
    }

    fn serialize_entity<F: Fn(Entity) -> Option<M>>(
        &self,
        alloc: Global,
        entity: Entity,
        ids: F,
    ) -> Result<Self::Data, SaveError> {
        let others = (&self.1, &self.2, &self.3, &self.4, &self.5);
        let (first, (second, third, fourth, fifth, sixth)) = serialize_with_rest(
            alloc, &self.0, &others, entity, ids,
        )?;
        Ok((first, second, third, fourth, fifth, sixth))
    }

    ghost faithful = { six_places_faithful _ _ _ _ _ _ A.Component.faithful B.Component.faithful C.Component.faithful D.Component.faithful E.Component.faithful G.Component.faithful };
}
