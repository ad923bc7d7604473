//! Tuples of one to six storages that are lent for a load.
ghost use Rattle.saveload.specs.Loads.{column};
ghost use Rattle.saveload.specs.Places.{place};
ghost use Rattle.saveload.specs.Stops.{PartlyOne, PartlyTwo, PartlyThree, PartlyFour, PartlyFive, PartlySix};
ghost use Rattle.saveload.specs.Tuples.{one_place, two_places, three_places, four_places, five_places, six_places};
ghost use Rattle.saveload.specs.Told.{IsFilled, StoresOnce, filled_self, filled_both};
ghost use Rattle.saveload.specs.Tuples.{one_place_faithful, two_places_faithful, three_places_faithful, four_places_faithful, five_places_faithful, six_places_faithful};

use crate::convert::ConvertSaveload;
use crate::error::LoadError;
use crate::load::{
    DeserializeComponents, add_mentions, add_three, add_two, store_place, store_with_rest,
};
use crate::marker::Marker;
use entities::{EntitiesRes, Entity};
use std::alloc::{AllocError, Global};
use storages::{Component, MaskedStorage, UnprotectedStorage};

impl<M: Marker, A> DeserializeComponents<M> for (&mut MaskedStorage<A>,)
where
    A: Component<Storage: UnprotectedStorage<A>> + Drop + ConvertSaveload<M>,
{
    type Row = (Option<A>,);

    type Data = (Option<<A as ConvertSaveload<M>>::Data>,);

    ghost conversion = { one_place A.conversion };

    ghost rows = { λ s i. record { 0 = column s.0.now i } };

    ghost Partly = { PartlyOne (one_place A.conversion).unloaded };

    ghost Changes = { λ s t. IsFilled s.0 t.0 };

    ghost Stores = { λ s i row t. StoresOnce s.0.now i row.0 t.0.now };

    fn mentions(alloc: Global, saved: &Self::Data) -> Result<Vec<M>, AllocError> {
        let mut list = Vec::new(alloc);
        add_mentions::<M, A>(alloc, &mut list, &saved.0)?;
        Ok(list)
    }

    fn deserialize_entity<F: Fn(M) -> Option<Entity>>(
        &mut self,
        alloc: Global,
        entities: &EntitiesRes,
        entity: Entity,
        saved: Self::Data,
        ids: F,
    ) -> Result<(), LoadError> {
        let (first,) = saved;
        store_place(alloc, entities, self.0, entity, first, &ids)?;
        Ok(())
    }

    ghost faithful = { one_place_faithful _ A.faithful };

    ghost changes_self = { λ s. filled_self s.0 };

    ghost changes_both = { λ s t u a b. filled_both s.0 t.0 u.0 a b };
}

impl<M: Marker, A, B> DeserializeComponents<M> for (&mut MaskedStorage<A>, &mut MaskedStorage<B>)
where
    A: Component<Storage: UnprotectedStorage<A>> + Drop + ConvertSaveload<M>,
    B: Component<Storage: UnprotectedStorage<B>> + Drop + ConvertSaveload<M>,
{
    type Row = (Option<A>, Option<B>);

    type Data = (
        Option<<A as ConvertSaveload<M>>::Data>,
        Option<<B as ConvertSaveload<M>>::Data>,
    );

    ghost conversion = { two_places A.conversion B.conversion };

    ghost rows = { λ s i. (column s.0.now i, column s.1.now i) };

    ghost Partly = { PartlyTwo (place A.conversion).unloaded (place B.conversion).unloaded };

    ghost Changes = { λ s t. IsFilled s.0 t.0 × IsFilled s.1 t.1 };

    ghost Stores = { λ s i row t. StoresOnce s.0.now i row.0 t.0.now × StoresOnce s.1.now i row.1 t.1.now };

    fn mentions(alloc: Global, saved: &Self::Data) -> Result<Vec<M>, AllocError> {
        let mut list = Vec::new(alloc);
        add_two::<M, A, B>(alloc, &mut list, &saved.0, &saved.1)?;
        Ok(list)
    }

    fn deserialize_entity<F: Fn(M) -> Option<Entity>>(
        &mut self,
        alloc: Global,
        entities: &EntitiesRes,
        entity: Entity,
        saved: Self::Data,
        ids: F,
    ) -> Result<(), LoadError> {
        let (first, second) = saved;
        store_place(alloc, entities, self.0, entity, first, &ids)?;
        store_place(alloc, entities, self.1, entity, second, &ids)?;
        Ok(())
    }

    ghost faithful = { two_places_faithful _ _ A.faithful B.faithful };

    ghost changes_self = { λ s. (filled_self s.0, filled_self s.1) };

    ghost changes_both = { λ s t u a b. (filled_both s.0 t.0 u.0 a.0 b.0, filled_both s.1 t.1 u.1 a.1 b.1) };
}

impl<M: Marker, A, B, C> DeserializeComponents<M>
    for (
        &mut MaskedStorage<A>,
        &mut MaskedStorage<B>,
        &mut MaskedStorage<C>,
    )
where
    A: Component<Storage: UnprotectedStorage<A>> + Drop + ConvertSaveload<M>,
    B: Component<Storage: UnprotectedStorage<B>> + Drop + ConvertSaveload<M>,
    C: Component<Storage: UnprotectedStorage<C>> + Drop + ConvertSaveload<M>,
{
    type Row = (Option<A>, Option<B>, Option<C>);

    type Data = (
        Option<<A as ConvertSaveload<M>>::Data>,
        Option<<B as ConvertSaveload<M>>::Data>,
        Option<<C as ConvertSaveload<M>>::Data>,
    );

    ghost conversion = { three_places A.conversion B.conversion C.conversion };

    ghost rows = { λ s i. (column s.0.now i, column s.1.now i, column s.2.now i) };

    ghost Partly = { PartlyThree (place A.conversion).unloaded (place B.conversion).unloaded (place C.conversion).unloaded };

    ghost Changes = { λ s t. IsFilled s.0 t.0 × IsFilled s.1 t.1 × IsFilled s.2 t.2 };

    ghost Stores = { λ s i row t. StoresOnce s.0.now i row.0 t.0.now × StoresOnce s.1.now i row.1 t.1.now × StoresOnce s.2.now i row.2 t.2.now };

    fn mentions(alloc: Global, saved: &Self::Data) -> Result<Vec<M>, AllocError> {
        let mut list = Vec::new(alloc);
        add_three::<M, A, B, C>(alloc, &mut list, &saved.0, &saved.1, &saved.2)?;
        Ok(list)
    }

    fn deserialize_entity<F: Fn(M) -> Option<Entity>>(
        &mut self,
        alloc: Global,
        entities: &EntitiesRes,
        entity: Entity,
        saved: Self::Data,
        ids: F,
    ) -> Result<(), LoadError> {
        let (first, second, third) = saved;
        let mut others = (&mut *self.1, &mut *self.2);
        let rest = (second, third);
        store_with_rest(
            alloc,
            entities,
            entity,
            self.0,
            &mut others,
            (first, rest),
            ids,
        )
    }

    ghost faithful = { three_places_faithful _ _ _ A.faithful B.faithful C.faithful };

    ghost changes_self = { λ s. (filled_self s.0, filled_self s.1, filled_self s.2) };

    ghost changes_both = { λ s t u a b. (filled_both s.0 t.0 u.0 a.0 b.0, filled_both s.1 t.1 u.1 a.1 b.1, filled_both s.2 t.2 u.2 a.2 b.2) };
}

impl<M: Marker, A, B, C, D> DeserializeComponents<M>
    for (
        &mut MaskedStorage<A>,
        &mut MaskedStorage<B>,
        &mut MaskedStorage<C>,
        &mut MaskedStorage<D>,
    )
where
    A: Component<Storage: UnprotectedStorage<A>> + Drop + ConvertSaveload<M>,
    B: Component<Storage: UnprotectedStorage<B>> + Drop + ConvertSaveload<M>,
    C: Component<Storage: UnprotectedStorage<C>> + Drop + ConvertSaveload<M>,
    D: Component<Storage: UnprotectedStorage<D>> + Drop + ConvertSaveload<M>,
{
    type Row = (Option<A>, Option<B>, Option<C>, Option<D>);

    type Data = (
        Option<<A as ConvertSaveload<M>>::Data>,
        Option<<B as ConvertSaveload<M>>::Data>,
        Option<<C as ConvertSaveload<M>>::Data>,
        Option<<D as ConvertSaveload<M>>::Data>,
    );

    ghost conversion = { four_places A.conversion B.conversion C.conversion D.conversion };

    ghost rows = { λ s i. (column s.0.now i, column s.1.now i, column s.2.now i, column s.3.now i) };

    ghost Partly = { PartlyFour (place A.conversion).unloaded (place B.conversion).unloaded (place C.conversion).unloaded (place D.conversion).unloaded };

    ghost Changes = { λ s t. IsFilled s.0 t.0 × IsFilled s.1 t.1 × IsFilled s.2 t.2 × IsFilled s.3 t.3 };

    ghost Stores = { λ s i row t. StoresOnce s.0.now i row.0 t.0.now × StoresOnce s.1.now i row.1 t.1.now × StoresOnce s.2.now i row.2 t.2.now × StoresOnce s.3.now i row.3 t.3.now };

    fn mentions(alloc: Global, saved: &Self::Data) -> Result<Vec<M>, AllocError> {
        let mut list = Vec::new(alloc);
        add_mentions::<M, A>(alloc, &mut list, &saved.0)?;
        add_three::<M, B, C, D>(alloc, &mut list, &saved.1, &saved.2, &saved.3)?;
        Ok(list)
    }

    fn deserialize_entity<F: Fn(M) -> Option<Entity>>(
        &mut self,
        alloc: Global,
        entities: &EntitiesRes,
        entity: Entity,
        saved: Self::Data,
        ids: F,
    ) -> Result<(), LoadError> {
        let (first, second, third, fourth) = saved;
        let mut others = (&mut *self.1, &mut *self.2, &mut *self.3);
        let rest = (second, third, fourth);
        store_with_rest(
            alloc,
            entities,
            entity,
            self.0,
            &mut others,
            (first, rest),
            ids,
        )
    }

    ghost faithful = { four_places_faithful _ _ _ _ A.faithful B.faithful C.faithful D.faithful };

    ghost changes_self = { λ s. (filled_self s.0, filled_self s.1, filled_self s.2, filled_self s.3) };

    ghost changes_both = { λ s t u a b. (filled_both s.0 t.0 u.0 a.0 b.0, filled_both s.1 t.1 u.1 a.1 b.1, filled_both s.2 t.2 u.2 a.2 b.2, filled_both s.3 t.3 u.3 a.3 b.3) };
}

impl<M: Marker, A, B, C, D, E> DeserializeComponents<M>
    for (
        &mut MaskedStorage<A>,
        &mut MaskedStorage<B>,
        &mut MaskedStorage<C>,
        &mut MaskedStorage<D>,
        &mut MaskedStorage<E>,
    )
where
    A: Component<Storage: UnprotectedStorage<A>> + Drop + ConvertSaveload<M>,
    B: Component<Storage: UnprotectedStorage<B>> + Drop + ConvertSaveload<M>,
    C: Component<Storage: UnprotectedStorage<C>> + Drop + ConvertSaveload<M>,
    D: Component<Storage: UnprotectedStorage<D>> + Drop + ConvertSaveload<M>,
    E: Component<Storage: UnprotectedStorage<E>> + Drop + ConvertSaveload<M>,
{
    type Row = (Option<A>, Option<B>, Option<C>, Option<D>, Option<E>);

    type Data = (
        Option<<A as ConvertSaveload<M>>::Data>,
        Option<<B as ConvertSaveload<M>>::Data>,
        Option<<C as ConvertSaveload<M>>::Data>,
        Option<<D as ConvertSaveload<M>>::Data>,
        Option<<E as ConvertSaveload<M>>::Data>,
    );

    ghost conversion = { five_places A.conversion B.conversion C.conversion D.conversion E.conversion };

    ghost rows = { λ s i. (column s.0.now i, column s.1.now i, column s.2.now i, column s.3.now i, column s.4.now i) };

    ghost Partly = { PartlyFive (place A.conversion).unloaded (place B.conversion).unloaded (place C.conversion).unloaded (place D.conversion).unloaded (place E.conversion).unloaded };

    ghost Changes = { λ s t. IsFilled s.0 t.0 × IsFilled s.1 t.1 × IsFilled s.2 t.2 × IsFilled s.3 t.3 × IsFilled s.4 t.4 };

    ghost Stores = { λ s i row t. StoresOnce s.0.now i row.0 t.0.now × StoresOnce s.1.now i row.1 t.1.now × StoresOnce s.2.now i row.2 t.2.now × StoresOnce s.3.now i row.3 t.3.now × StoresOnce s.4.now i row.4 t.4.now };

    fn mentions(alloc: Global, saved: &Self::Data) -> Result<Vec<M>, AllocError> {
        let mut list = Vec::new(alloc);
        add_two::<M, A, B>(alloc, &mut list, &saved.0, &saved.1)?;
        add_three::<M, C, D, E>(alloc, &mut list, &saved.2, &saved.3, &saved.4)?;
        Ok(list)
    }

    fn deserialize_entity<F: Fn(M) -> Option<Entity>>(
        &mut self,
        alloc: Global,
        entities: &EntitiesRes,
        entity: Entity,
        saved: Self::Data,
        ids: F,
    ) -> Result<(), LoadError> {
        let (first, second, third, fourth, fifth) = saved;
        let mut others = (&mut *self.1, &mut *self.2, &mut *self.3, &mut *self.4);
        let rest = (second, third, fourth, fifth);
        store_with_rest(
            alloc,
            entities,
            entity,
            self.0,
            &mut others,
            (first, rest),
            ids,
        )
    }

    ghost faithful = { five_places_faithful _ _ _ _ _ A.faithful B.faithful C.faithful D.faithful E.faithful };

    ghost changes_self = { λ s. (filled_self s.0, filled_self s.1, filled_self s.2, filled_self s.3, filled_self s.4) };

    ghost changes_both = { λ s t u a b. (filled_both s.0 t.0 u.0 a.0 b.0, filled_both s.1 t.1 u.1 a.1 b.1, filled_both s.2 t.2 u.2 a.2 b.2, filled_both s.3 t.3 u.3 a.3 b.3, filled_both s.4 t.4 u.4 a.4 b.4) };
}

impl<M: Marker, A, B, C, D, E, G> DeserializeComponents<M>
    for (
        &mut MaskedStorage<A>,
        &mut MaskedStorage<B>,
        &mut MaskedStorage<C>,
        &mut MaskedStorage<D>,
        &mut MaskedStorage<E>,
        &mut MaskedStorage<G>,
    )
where
    A: Component<Storage: UnprotectedStorage<A>> + Drop + ConvertSaveload<M>,
    B: Component<Storage: UnprotectedStorage<B>> + Drop + ConvertSaveload<M>,
    C: Component<Storage: UnprotectedStorage<C>> + Drop + ConvertSaveload<M>,
    D: Component<Storage: UnprotectedStorage<D>> + Drop + ConvertSaveload<M>,
    E: Component<Storage: UnprotectedStorage<E>> + Drop + ConvertSaveload<M>,
    G: Component<Storage: UnprotectedStorage<G>> + Drop + ConvertSaveload<M>,
{
    type Row = (
        Option<A>,
        Option<B>,
        Option<C>,
        Option<D>,
        Option<E>,
        Option<G>,
    );

    type Data = (
        Option<<A as ConvertSaveload<M>>::Data>,
        Option<<B as ConvertSaveload<M>>::Data>,
        Option<<C as ConvertSaveload<M>>::Data>,
        Option<<D as ConvertSaveload<M>>::Data>,
        Option<<E as ConvertSaveload<M>>::Data>,
        Option<<G as ConvertSaveload<M>>::Data>,
    );

    ghost conversion = { six_places A.conversion B.conversion C.conversion D.conversion E.conversion G.conversion };

    ghost rows = { λ s i. (column s.0.now i, column s.1.now i, column s.2.now i, column s.3.now i, column s.4.now i, column s.5.now i) };

    ghost Partly = { PartlySix (place A.conversion).unloaded (place B.conversion).unloaded (place C.conversion).unloaded (place D.conversion).unloaded (place E.conversion).unloaded (place G.conversion).unloaded };

    ghost Changes = { λ s t. IsFilled s.0 t.0 × IsFilled s.1 t.1 × IsFilled s.2 t.2 × IsFilled s.3 t.3 × IsFilled s.4 t.4 × IsFilled s.5 t.5 };

    ghost Stores = { λ s i row t. StoresOnce s.0.now i row.0 t.0.now × StoresOnce s.1.now i row.1 t.1.now × StoresOnce s.2.now i row.2 t.2.now × StoresOnce s.3.now i row.3 t.3.now × StoresOnce s.4.now i row.4 t.4.now × StoresOnce s.5.now i row.5 t.5.now };

    fn mentions(alloc: Global, saved: &Self::Data) -> Result<Vec<M>, AllocError> {
        let mut list = Vec::new(alloc);
        add_three::<M, A, B, C>(alloc, &mut list, &saved.0, &saved.1, &saved.2)?;
        add_three::<M, D, E, G>(alloc, &mut list, &saved.3, &saved.4, &saved.5)?;
        Ok(list)
    }

    fn deserialize_entity<F: Fn(M) -> Option<Entity>>(
        &mut self,
        alloc: Global,
        entities: &EntitiesRes,
        entity: Entity,
        saved: Self::Data,
        ids: F,
    ) -> Result<(), LoadError> {
        let (first, second, third, fourth, fifth, sixth) = saved;
        let mut others = (
            &mut *self.1,
            &mut *self.2,
            &mut *self.3,
            &mut *self.4,
            &mut *self.5,
        );
        let rest = (second, third, fourth, fifth, sixth);
        store_with_rest(
            alloc,
            entities,
            entity,
            self.0,
            &mut others,
            (first, rest),
            ids,
        )
    }

    ghost faithful = { six_places_faithful _ _ _ _ _ _ A.faithful B.faithful C.faithful D.faithful E.faithful G.faithful };

    ghost changes_self = { λ s. (filled_self s.0, filled_self s.1, filled_self s.2, filled_self s.3, filled_self s.4, filled_self s.5) };

    ghost changes_both = { λ s t u a b. (filled_both s.0 t.0 u.0 a.0 b.0, filled_both s.1 t.1 u.1 a.1 b.1, filled_both s.2 t.2 u.2 a.2 b.2, filled_both s.3 t.3 u.3 a.3 b.3, filled_both s.4 t.4 u.4 a.4 b.4, filled_both s.5 t.5 u.5 a.5 b.5) };
}
