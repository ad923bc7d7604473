//! Walks of cursors.
ghost use Rattle.std.specs.Prelude.{◌≡◌};
ghost use Rattle.joins.specs.Cursor.{storage_name, rest as rest_of_one};
ghost use Rattle.joins.specs.CursorOfTwo.{first_name, second_name, rest};

use crate::worlds::{Numbered, add};
use entities::{EntitiesRes, Entity};
use hibits::BitSetAll;
use joins::{
    ChangeSet, Drain, EntryJoin, Join, JoinIter, JoinMut, RestrictedStorage, RestrictedStorageMut,
    WriteJoin, WriteJoin2, maybe,
};
use std::alloc::{AllocError, Global};
use storages::{Component, MaskedStorage, UnprotectedStorage};

/// Adds its velocity to each position, where there is one.
pub fn go_on<P: Numbered, V: Numbered>(
    positions: &mut MaskedStorage<P>,
    velocities: &MaskedStorage<V>,
)
where
    P::Storage: UnprotectedStorage<P>,
    V::Storage: UnprotectedStorage<V>,
{
    let mut cursor = positions.join_mut(maybe(velocities));
    while let Some(_id) = cursor.next() {
        if let Some(Some(velocity)) = cursor.beside() {
            if let Ok(position) = cursor.item() {
                add(position, velocity.number(), velocity.other());
            }
        }
    }
}

/// Takes its change from each health that has one.
pub fn subtract<H: Numbered>(healths: &mut MaskedStorage<H>, changes: &ChangeSet<i32>)
where
    H::Storage: UnprotectedStorage<H>,
{
    let mut cursor = healths.join_mut(changes);
    while let Some(_id) = cursor.next() {
        if let Some(change) = cursor.beside() {
            if let Ok(health) = cursor.item() {
                add(health, change.wrapping_neg(), 0);
            }
        }
    }
}

/// The same of a change set that is given up.
pub fn subtract_all<H: Numbered>(healths: &mut MaskedStorage<H>, changes: ChangeSet<i32>)
where
    H::Storage: UnprotectedStorage<H>,
{
    let mut cursor = healths.join_mut(changes);
    while let Some(_id) = cursor.next() {
        subtract_here(&mut cursor);
    }
}

// Takes the change at a cursor from the health there.
fn subtract_here<H: Numbered, J: Join<Type = i32>>(cursor: &mut WriteJoin<'_, H, J>)
where
    H::Storage: UnprotectedStorage<H>,
    ensures same_reference { storage_name cursor.new ≡ storage_name cursor.old }
    ensures rest { rest_of_one cursor.new ≡ rest_of_one cursor.old }
{
    if let Some(change) = cursor.beside() {
        if let Ok(health) = cursor.item() {
            add(health, change.wrapping_neg(), 0);
        }
    }
}

/// Each change becomes no more than the health beside it.
pub fn no_more_than<H: Numbered>(changes: &mut ChangeSet<i32>, healths: &MaskedStorage<H>)
where
    H::Storage: UnprotectedStorage<H>,
{
    let mut cursor = changes.join_mut(healths);
    while let Some(_id) = cursor.next() {
        if let Some(health) = cursor.beside() {
            if let Some(change) = cursor.item() {
                *change = (*change).min(health.number());
            }
        }
    }
}

/// The sum of the numbers of the living, each of which gets one where it has none.
pub fn sum_of_entries<N: Numbered>(
    entities: &EntitiesRes,
    numbers: &mut MaskedStorage<N>,
    new: N,
) -> Result<i32, AllocError>
where
    N::Storage: UnprotectedStorage<N>,
{
    let mut sum: i32 = 0;
    let mut cursor = EntryJoin::over(entities, numbers);
    while let Some(id) = cursor.next() {
        if let Ok(masked) = cursor.item() {
            match masked.entry(id).or_insert(new) {
                Ok(number) => sum = sum.wrapping_add(number.number()),
                Err((e, _)) => return Err(e),
            }
        }
    }
    Ok(sum)
}

/// The indices of a drain, of which it takes the component of one out, twice. Answers whether the second time there was none.
pub fn drained_at<P: Component + Drop>(
    alloc: Global,
    positions: &mut MaskedStorage<P>,
    at: u32,
) -> Result<(Vec<u32>, bool), AllocError>
where
    P::Storage: UnprotectedStorage<P>,
{
    let mut list = Vec::new(alloc);
    let mut once = false;
    let mut cursor = positions.drain();
    while let Some(id) = cursor.next() {
        list.push(id)?;
        if id == at {
            let first = cursor.item()?;
            let second = cursor.item()?;
            once = first.is_some() && second.is_none();
        }
    }
    Ok((list, once))
}

/// The entities of which a component was taken out.
pub fn drained<P: Component + Drop>(
    alloc: Global,
    positions: &mut MaskedStorage<P>,
    entities: &EntitiesRes,
) -> Result<Vec<Entity>, AllocError>
where
    P::Storage: UnprotectedStorage<P>,
{
    let mut list = Vec::new(alloc);
    let mut cursor = Drain::new(positions, entities);
    while let Some(_id) = cursor.next() {
        if let Some(entity) = cursor.beside() {
            if cursor.item()?.is_some() {
                list.push(entity)?;
            }
        }
    }
    Ok(list)
}

/// How many indices a storage has by a join.
pub fn counted<J: Join>(join: J) -> u32
where
    J::Type: Drop,
{
    let mut count: u32 = 0;
    let mut iter = JoinIter::new(join);
    while let Some(_item) = iter.next() {
        count = count.wrapping_add(1);
    }
    count
}

/// Increases the number of each chosen entity that lives, from 0 where it has none, and resets it at a limit.
pub fn increase<N: Numbered, C: Component>(
    entities: &EntitiesRes,
    numbers: &mut MaskedStorage<N>,
    chosen: &MaskedStorage<C>,
    limit: i32,
) -> Result<(), AllocError>
where
    N::Storage: UnprotectedStorage<N>,
    C::Storage: UnprotectedStorage<C>,
{
    let mut cursor = EntryJoin::new(entities, numbers, chosen);
    while let Some(id) = cursor.next() {
        if let Ok(masked) = cursor.item() {
            match masked.entry(id).or_insert(N::of(0, 0)) {
                Ok(number) => {
                    let next = number.number().wrapping_add(1);
                    *number = N::of(if next >= limit { 0 } else { next }, 0);
                }
                Err((e, _)) => return Err(e),
            }
        }
    }
    Ok(())
}

/// Increases the numbers that are below a limit, and only looks at the others.
pub fn raise_low<N: Numbered>(entities: &EntitiesRes, numbers: &mut MaskedStorage<N>, limit: i32)
where
    N::Storage: UnprotectedStorage<N>,
{
    let mut cursor = RestrictedStorageMut::over(entities, numbers);
    while let Some(_id) = cursor.next() {
        if is_low(&cursor, limit) {
            if let Ok(number) = cursor.get_mut_unchecked() {
                add(number, 1, 0);
            }
        }
    }
}

// Whether the number at a cursor is below a limit.
fn is_low<N: Numbered>(cursor: &RestrictedStorageMut<'_, '_, N, BitSetAll>, limit: i32) -> bool
where
    N::Storage: UnprotectedStorage<N>,
{
    match cursor.get_unchecked() {
        Some(number) => number.number() < limit,
        None => false,
    }
}

/// The numbers as they are shown, of which each is lent the same; and `None` where one is not.
pub fn shown_and_lent<P: Numbered>(
    alloc: Global,
    entities: &EntitiesRes,
    positions: &mut MaskedStorage<P>,
) -> Result<Option<Vec<i32>>, AllocError>
where
    P::Storage: UnprotectedStorage<P>,
{
    let mut list = Vec::new(alloc);
    let mut cursor = RestrictedStorageMut::over(entities, positions);
    while let Some(_id) = cursor.next() {
        let shown = shown(&cursor);
        let lent = match cursor.get_mut_unchecked() {
            Ok(position) => Some(position.number()),
            Err(_) => None,
        };
        match lent {
            Some(number) if shown == lent => list.push(number)?,
            _ => return Ok(None),
        }
    }
    Ok(Some(list))
}

// The position at a cursor.
fn shown<P: Numbered>(cursor: &RestrictedStorageMut<'_, '_, P, BitSetAll>) -> Option<i32>
where
    P::Storage: UnprotectedStorage<P>,
{
    match cursor.get_unchecked() {
        Some(position) => Some(position.number()),
        None => None,
    }
}

/// Each position beside that of one entity, to read.
pub fn beside_one<P: Numbered>(
    alloc: Global,
    entities: &EntitiesRes,
    positions: &MaskedStorage<P>,
    one: Entity,
) -> Result<Vec<(i32, i32)>, AllocError>
where
    P::Storage: UnprotectedStorage<P>,
{
    let mut list = Vec::new(alloc);
    let restricted = RestrictedStorage::new(entities, positions);
    let mut iter = JoinIter::new(&restricted);
    while let Some(paired) = iter.next() {
        let other = match paired.get(one) {
            Some(position) => position.number(),
            None => -1,
        };
        list.push((paired.get_unchecked().number(), other))?;
    }
    Ok(list)
}

/// Exchanges positions and velocities where an entity is chosen.
pub fn exchange<P: Numbered, V: Numbered, C: Component>(
    positions: &mut MaskedStorage<P>,
    velocities: &mut MaskedStorage<V>,
    chosen: &MaskedStorage<C>,
)
where
    P::Storage: UnprotectedStorage<P>,
    V::Storage: UnprotectedStorage<V>,
    C::Storage: UnprotectedStorage<C>,
{
    let mut cursor = WriteJoin2::new(positions, velocities, chosen);
    while let Some(_id) = cursor.next() {
        exchange_here(&mut cursor);
    }
}

// Exchanges what stands at a cursor.
fn exchange_here<P: Numbered, V: Numbered, C: Component>(
    cursor: &mut WriteJoin2<'_, '_, P, V, &MaskedStorage<C>>,
)
where
    P::Storage: UnprotectedStorage<P>,
    V::Storage: UnprotectedStorage<V>,
    C::Storage: UnprotectedStorage<C>,
    ensures first_reference { first_name cursor.new ≡ first_name cursor.old }
    ensures second_reference { second_name cursor.new ≡ second_name cursor.old }
    ensures rest { rest cursor.new ≡ rest cursor.old }
{
    let old = match cursor.first() {
        Ok(position) => position.number(),
        Err(_) => return,
    };
    let new = match cursor.second() {
        Ok(velocity) => {
            let before = velocity.number();
            *velocity = V::of(old, 0);
            before
        }
        Err(_) => return,
    };
    if let Ok(position) = cursor.first() {
        *position = P::of(new, 0);
    }
}
