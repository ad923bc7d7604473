//! The calls of a yard, one walk in each.
use crate::asserts::{equal, holds};
use crate::cursor_walks::{
    beside_one, counted, drained, drained_at, exchange, go_on, increase, no_more_than, raise_low,
    shown_and_lent, subtract, subtract_all, sum_of_entries,
};
use crate::joined_calls::first_of;
use crate::worlds::{Numbered, World};
use crate::yard::{Told, Viewed, Yard};
use entities::Entity;
use hibits::{BitSetAll, INDEX_LIMIT};
use joins::{ChangeSet, JoinIter, JoinLiving, JoinMut, Restrict, WriteJoin};
use std::alloc::{AllocError, Global};
use std::process::Abort;
use std::test::Fail;
use storages::{
    AntiStorage, ComponentEvent, MaskedStorage, NotLent, ReadStorage, ReaderId, Tracked,
    UnprotectedStorage, WriteStorage,
};

/// Puts two numbers at an index.
fn put<N: Numbered>(storage: &mut MaskedStorage<N>, id: u32, numbers: (i32, i32)) -> bool
where
    N::Storage: UnprotectedStorage<N>,
{
    id < INDEX_LIMIT && storage.put(id, N::of(numbers.0, numbers.1)).is_ok()
}

/// The numbers of an index.
fn numbers<N: Numbered>(storage: &MaskedStorage<N>, id: u32) -> Option<(i32, i32)>
where
    N::Storage: UnprotectedStorage<N>,
{
    match storage.get(id) {
        Some(found) => Some((found.number(), found.other())),
        None => None,
    }
}

/// The number that a drain gives.
fn taken<N: Numbered>(item: Result<Option<N>, AllocError>) -> Option<i32> {
    match item {
        Ok(Some(found)) => Some(found.number()),
        _ => None,
    }
}

impl<A: Numbered, B: Numbered, C: Numbered> Yard for World<A, B, C>
where
    A::Storage: UnprotectedStorage<A>,
    B::Storage: UnprotectedStorage<B>,
    C::Storage: UnprotectedStorage<C>,
{
    fn bear(&mut self) -> Result<Entity, Fail> {
        Ok(self.entities.create().ok().ok_or("no entity")?)
    }

    fn kill(&mut self, e: Entity) -> bool {
        self.entities.alloc_mut().kill(&[e]).is_ok()
    }

    fn put_first(&mut self, id: u32, numbers: (i32, i32)) -> bool {
        put(&mut self.first, id, numbers)
    }

    fn put_second(&mut self, id: u32, numbers: (i32, i32)) -> bool {
        put(&mut self.second, id, numbers)
    }

    fn choose(&mut self, id: u32) -> bool {
        put(&mut self.chosen, id, (0, 0))
    }

    fn take_second(&mut self, id: u32) -> bool {
        self.second.remove(id).is_ok()
    }

    fn first(&self, id: u32) -> Option<(i32, i32)> {
        numbers(&self.first, id)
    }

    fn second(&self, id: u32) -> Option<(i32, i32)> {
        numbers(&self.second, id)
    }

    fn go_on(&mut self) {
        go_on(&mut self.first, &self.second);
    }

    fn count_first(&self) -> u32 {
        counted(&self.first)
    }

    fn count_beside_absence(&self) -> u32 {
        let storage = &self.first;
        counted((storage, AntiStorage(storage.mask())))
    }

    fn is_beside_no_absence(&self) -> bool {
        let view = ReadStorage::new(&self.entities, &self.first);
        first_of((&view, !&view)).is_none()
    }

    fn drain_at(&mut self, alloc: Global, id: u32) -> Result<(Vec<u32>, bool), AllocError> {
        drained_at(alloc, &mut self.first, id)
    }

    fn drain(&mut self, alloc: Global) -> Result<Vec<Entity>, AllocError> {
        drained(alloc, &mut self.first, &self.entities)
    }

    fn increase(&mut self, limit: i32) -> bool {
        increase(&self.entities, &mut self.first, &self.second, limit).is_ok()
    }

    fn sum(&mut self, number: i32) -> Result<i32, AllocError> {
        sum_of_entries(&self.entities, &mut self.first, A::of(number, 0))
    }

    fn shown_and_lent(&mut self, alloc: Global) -> Result<Option<Vec<i32>>, AllocError> {
        shown_and_lent(alloc, &self.entities, &mut self.first)
    }

    fn beside_one(&self, alloc: Global, one: Entity) -> Result<Vec<(i32, i32)>, AllocError> {
        beside_one(alloc, &self.entities, &self.first, one)
    }

    fn exchange(&mut self) {
        exchange(&mut self.first, &mut self.second, &self.chosen);
    }

    fn subtract(&mut self, changes: &ChangeSet<i32>) {
        subtract(&mut self.first, changes);
    }

    fn subtract_all(&mut self, changes: ChangeSet<i32>) {
        subtract_all(&mut self.first, changes);
    }

    fn bound(&self, changes: &mut ChangeSet<i32>) {
        no_more_than(changes, &self.first);
    }

    fn tell_of_cursor<R: Abort>(&mut self, rt: &R) {
        stands_nowhere(rt, &mut self.first.join_mut(&self.second));
    }
}

/// The next index of a cursor.
fn step<P: Numbered, V: Numbered>(cursor: &mut WriteJoin<'_, P, &MaskedStorage<V>>) -> Option<u32>
where
    P::Storage: UnprotectedStorage<P>,
    V::Storage: UnprotectedStorage<V>,
{
    cursor.next()
}

/// Whether something stands beside the component.
fn is_beside<P: Numbered, V: Numbered>(cursor: &mut WriteJoin<'_, P, &MaskedStorage<V>>) -> bool
where
    P::Storage: UnprotectedStorage<P>,
    V::Storage: UnprotectedStorage<V>,
{
    cursor.beside().is_some()
}

/// Whether a cursor lends the component.
fn lends<P: Numbered, V: Numbered>(cursor: &mut WriteJoin<'_, P, &MaskedStorage<V>>) -> bool
where
    P::Storage: UnprotectedStorage<P>,
    V::Storage: UnprotectedStorage<V>,
{
    cursor.item().is_ok()
}

/// Whether it lends none since none is there.
fn lacks<P: Numbered, V: Numbered>(cursor: &mut WriteJoin<'_, P, &MaskedStorage<V>>) -> bool
where
    P::Storage: UnprotectedStorage<P>,
    V::Storage: UnprotectedStorage<V>,
{
    matches!(cursor.item(), Err(NotLent::Absent))
}

/// A cursor before its first index, at it, and past its last.
fn stands_nowhere<R: Abort, P: Numbered, V: Numbered>(
    rt: &R,
    cursor: &mut WriteJoin<'_, P, &MaskedStorage<V>>,
)
where
    P::Storage: UnprotectedStorage<P>,
    V::Storage: UnprotectedStorage<V>,
{
    holds!(rt; lacks(cursor));
    holds!(rt; !is_beside(cursor));
    equal!(rt; step(cursor), Some(1));
    holds!(rt; is_beside(cursor));
    holds!(rt; !is_beside(cursor));
    holds!(rt; lends(cursor));
    holds!(rt; lends(cursor));
    equal!(rt; step(cursor), None);
    holds!(rt; lacks(cursor));
    holds!(rt; !is_beside(cursor));
    equal!(rt; step(cursor), None);
}

/// Writes to the position beside the first velocity, through a view.
fn write<P: Numbered, V: Numbered>(
    view: &mut WriteStorage<'_, P>,
    velocities: &MaskedStorage<V>,
    number: i32,
) -> Option<u32>
where
    P::Storage: UnprotectedStorage<P>,
    V::Storage: UnprotectedStorage<V>,
{
    let mut cursor = view.join_mut(velocities);
    let found = cursor.next();
    match cursor.item() {
        Ok(position) => *position = P::of(number, 0),
        Err(_) => return None,
    }
    found
}

/// Takes the first position out, through a view.
fn take<P: Numbered>(view: &mut WriteStorage<'_, P>) -> (Option<u32>, Option<i32>)
where
    P::Storage: UnprotectedStorage<P>,
{
    let mut cursor = view.drain();
    let found = cursor.next();
    (found, taken(cursor.item()))
}

/// The first of the living, if its place is lent through a view.
fn place<P: Numbered>(view: &mut WriteStorage<'_, P>) -> Option<u32>
where
    P::Storage: UnprotectedStorage<P>,
{
    let mut cursor = view.entries();
    let found = cursor.next();
    if cursor.item().is_err() {
        return None;
    }
    found
}

/// A look at another's position, which is lent too, through a view.
fn look<P: Numbered>(view: &mut WriteStorage<'_, P>, one: Entity) -> (Option<u32>, bool, bool)
where
    P::Storage: UnprotectedStorage<P>,
{
    let mut cursor = view.restrict_mut().join_with(BitSetAll);
    let found = cursor.next();
    let shown = cursor.get(one).is_some();
    (found, shown, cursor.get_mut(one).is_ok())
}

/// The first position that a view shows.
fn show<P: Numbered>(view: &WriteStorage<'_, P>) -> Option<i32>
where
    P::Storage: UnprotectedStorage<P>,
{
    let restricted = view.restrict();
    let mut iter = JoinIter::new(&restricted);
    match iter.next() {
        Some(paired) => Some(paired.get_unchecked().number()),
        None => None,
    }
}

/// The number of an entity.
fn at<P: Numbered>(view: &WriteStorage<'_, P>, one: Entity) -> Option<i32>
where
    P::Storage: UnprotectedStorage<P>,
{
    match view.get(one) {
        Some(found) => Some(found.number()),
        None => None,
    }
}

impl<A: Numbered, B: Numbered, C: Numbered> Viewed for World<A, B, C>
where
    A::Storage: UnprotectedStorage<A>,
    B::Storage: UnprotectedStorage<B>,
    C::Storage: UnprotectedStorage<C>,
{
    fn write(&mut self, number: i32) -> Option<u32> {
        let mut view = WriteStorage::new(&self.entities, &mut self.first);
        write(&mut view, &self.second, number)
    }

    fn take(&mut self) -> (Option<u32>, Option<i32>) {
        take(&mut WriteStorage::new(&self.entities, &mut self.first))
    }

    fn place(&mut self) -> Option<u32> {
        place(&mut WriteStorage::new(&self.entities, &mut self.first))
    }

    fn look(&mut self, one: Entity) -> (Option<u32>, bool, bool) {
        look(&mut WriteStorage::new(&self.entities, &mut self.first), one)
    }

    fn show(&mut self) -> Option<i32> {
        show(&WriteStorage::new(&self.entities, &mut self.first))
    }

    fn at(&mut self, one: Entity) -> Option<i32> {
        at(&WriteStorage::new(&self.entities, &mut self.first), one)
    }
}

/// Takes the number of the second index of a drain out.
fn take_next<N: Numbered>(numbers: &mut MaskedStorage<N>) -> (Option<u32>, Option<u32>, Option<i32>)
where
    N::Storage: UnprotectedStorage<N>,
{
    let mut cursor = numbers.drain();
    let first = cursor.next();
    let second = cursor.next();
    (first, second, taken(cursor.item()))
}

impl<A: Numbered, B: Numbered, C: Numbered> Told for World<A, B, C>
where
    A::Storage: Tracked<A>,
    B::Storage: UnprotectedStorage<B>,
    C::Storage: UnprotectedStorage<C>,
{
    fn listen(&mut self) -> bool {
        self.first.register_reader().is_ok()
    }

    fn events(&mut self) -> Option<Vec<ComponentEvent>> {
        self.first.read(&ReaderId::of(0)).ok()
    }

    fn raise_low(&mut self, limit: i32) {
        raise_low(&self.entities, &mut self.first, limit);
    }

    fn take_next(&mut self) -> (Option<u32>, Option<u32>, Option<i32>) {
        take_next(&mut self.first)
    }
}
