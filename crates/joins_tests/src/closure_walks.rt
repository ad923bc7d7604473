//! Loops by calls of a closure.
use crate::worlds::{Numbered, World, add};
use crate::yard::Yard;
use joins::{Drain, EachError, ForEach, Join, JoinMut};
use std::alloc::{AllocError, Global};
use storages::{MaskedStorage, UnprotectedStorage, WriteStorage};

/// What loops by closures do to a yard. What may be refused answers whether it was not.
pub trait Looped: Yard {
    /// Adds to each first component the second beside it.
    fn add_each(&mut self) -> bool;

    /// The same so often, through a view.
    fn add_often(&mut self, times: i32) -> bool;

    /// The same, by a cursor that has passed its first index.
    fn add_behind_first(&mut self) -> bool;

    /// The same, up to the first number below 0, which is answered.
    fn add_until(&mut self) -> Result<(), EachError<i32>>;

    /// Takes each first component out that has a second beside it.
    fn take_each(&mut self) -> bool;

    /// The sum of the first numbers that stand beside a second component.
    fn sum_beside(&self) -> i32;

    /// The first numbers, ascending by index.
    fn listed(&self, alloc: Global) -> Result<Vec<i32>, AllocError>;
}

// Adds its velocity to each position.
fn add_each<P: Numbered, V: Numbered>(
    positions: &mut MaskedStorage<P>,
    velocities: &MaskedStorage<V>,
) -> Result<(), AllocError>
where
    P::Storage: UnprotectedStorage<P>,
    V::Storage: UnprotectedStorage<V>,
{
    positions.for_each_with(velocities, |position: &mut P, velocity: &V| {
        add(position, velocity.number(), velocity.other());
    })
}

// The same so often.
fn add_often<P: Numbered, V: Numbered>(
    positions: &mut WriteStorage<'_, P>,
    velocities: &MaskedStorage<V>,
    times: i32,
) -> Result<(), AllocError>
where
    P::Storage: UnprotectedStorage<P>,
    V::Storage: UnprotectedStorage<V>,
{
    positions.update_each_with(velocities, |position: &mut P, velocity: &V| {
        add(position, velocity.number().wrapping_mul(times), 0);
    })
}

// The same from the second index of both on.
fn add_behind_first<P: Numbered, V: Numbered>(
    positions: &mut MaskedStorage<P>,
    velocities: &MaskedStorage<V>,
) -> Result<(), AllocError>
where
    P::Storage: UnprotectedStorage<P>,
    V::Storage: UnprotectedStorage<V>,
{
    let mut cursor = positions.join_mut(velocities);
    let _first = cursor.next();
    cursor.for_each(|position: &mut P, velocity: &V| {
        add(position, velocity.number(), velocity.other());
    })
}

// The same up to the first below 0.
fn add_until<P: Numbered, V: Numbered>(
    positions: &mut MaskedStorage<P>,
    velocities: &MaskedStorage<V>,
) -> Result<(), EachError<i32>>
where
    P::Storage: UnprotectedStorage<P>,
    V::Storage: UnprotectedStorage<V>,
{
    positions.try_for_each_with(velocities, |position: &mut P, velocity: &V| {
        let number = velocity.number();
        if number < 0 {
            return Err(number);
        }
        add(position, number, 0);
        Ok(())
    })
}

// Takes positions out that have a velocity.
fn take_each<P: Numbered, V: Numbered>(
    positions: &mut MaskedStorage<P>,
    velocities: &MaskedStorage<V>,
) -> Result<(), AllocError>
where
    P::Storage: UnprotectedStorage<P>,
    V::Storage: UnprotectedStorage<V>,
{
    Drain::new(positions, velocities).for_each(|_position: P, _velocity: &V| {})
}

// The sum of positions beside velocities.
fn sum_beside<P: Numbered, V: Numbered>(
    positions: &MaskedStorage<P>,
    velocities: &MaskedStorage<V>,
) -> i32
where
    P::Storage: UnprotectedStorage<P>,
    V::Storage: UnprotectedStorage<V>,
{
    (positions, velocities)
        .join()
        .fold(0i32, |sum: i32, (position, _velocity): (&P, &V)| {
            sum.wrapping_add(position.number())
        })
}

// The numbers of positions.
fn listed<P: Numbered>(alloc: Global, positions: &MaskedStorage<P>) -> Result<Vec<i32>, AllocError>
where
    P::Storage: UnprotectedStorage<P>,
{
    let mut list = Vec::new(alloc);
    let mut refused = false;
    positions.join().for_each(|position: &P| {
        if list.push(position.number()).is_err() {
            refused = true;
        }
    });
    if refused {
        return Err(AllocError);
    }
    Ok(list)
}

impl<A: Numbered, B: Numbered, C: Numbered> Looped for World<A, B, C>
where
    A::Storage: UnprotectedStorage<A>,
    B::Storage: UnprotectedStorage<B>,
    C::Storage: UnprotectedStorage<C>,
{
    fn add_each(&mut self) -> bool {
        add_each(&mut self.first, &self.second).is_ok()
    }

    fn add_often(&mut self, times: i32) -> bool {
        let mut view = WriteStorage::new(&self.entities, &mut self.first);
        add_often(&mut view, &self.second, times).is_ok()
    }

    fn add_behind_first(&mut self) -> bool {
        add_behind_first(&mut self.first, &self.second).is_ok()
    }

    fn add_until(&mut self) -> Result<(), EachError<i32>> {
        add_until(&mut self.first, &self.second)
    }

    fn take_each(&mut self) -> bool {
        take_each(&mut self.first, &self.second).is_ok()
    }

    fn sum_beside(&self) -> i32 {
        sum_beside(&self.first, &self.second)
    }

    fn listed(&self, alloc: Global) -> Result<Vec<i32>, AllocError> {
        listed(alloc, &self.first)
    }
}
