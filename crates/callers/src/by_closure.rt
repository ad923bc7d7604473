//! Systems by closures: what a storage ends as is known from the closure's own body.
ghost use Rattle.std.specs.Prelude.{◌≡◌, ◌≢◌, ◌<◌, ◌+◌, ◌%◌, ◌^◌, ℕ, Bool, true, false, [], None, Some, Err, OnOk, IsOk, IsSome, is_some};
ghost use Rattle.std.specs.FinMap as map;
ghost use Rattle.std.specs.FinSet as set;
ghost use Rattle.std.specs.List.{fold};
ghost use Rattle.callers.specs.Moving.{gone_on, moved, place_at};
ghost use Rattle.joins.specs.Cursor.{here, rest, is_given};
ghost use Rattle.joins.specs.Each.{each_becomes, each_gone};
ghost use Rattle.joins.specs.Keys.{shared_indices};
ghost use Rattle.storages.specs.ReadView as read;
ghost use Rattle.storages.specs.Slot.{indices_of};
ghost use Rattle.storages.specs.WriteView as view;
ghost use Rattle.storages.specs.WriteView.{slot};

use entities::EntitiesRes;
use hibits::{BitSet, INDEX_LIMIT, Index};
use joins::{Drain, EachError, EntryJoin, ForEach, Join, JoinMut, RestrictedStorageMut, WriteJoin};
use std::alloc::AllocError;
use storages::{Component, MaskedStorage, ReadStorage, VecStorage, WriteStorage};

/// Where an entity is.
#[derive(Clone, Copy, PartialEq, Eq, Debug)]
pub struct Way(
    /// The place.
    pub u32,
);

impl Component for Way {
    type Storage = VecStorage<Self>;
}

/// How far it goes in a step.
#[derive(Clone, Copy, PartialEq, Eq, Debug)]
pub struct Pace(
    /// The distance.
    pub u32,
);

impl Component for Pace {
    type Storage = VecStorage<Self>;
}

/// Each way that has a pace goes on by it, and no other.
pub fn go_on(ways: &mut MaskedStorage<Way>, paces: &MaskedStorage<Pace>) -> Result<(), AllocError>
    ensures moved { OnOk result ((i : ℕ) (w : Way) (p : Pace) → i < INDEX_LIMIT → map.get ways.old.map i ≡ Some w → map.get paces.now.map i ≡ Some p → map.get ways.new.map i ≡ Some (moved 1 w p)) }
    ensures others { OnOk result ((i : ℕ) → map.get paces.now.map i ≡ None → map.get ways.new.map i ≡ map.get ways.old.map i) }
    ensures ok { ways.old.room ≡ None → IsOk result }
    ensures room { is_some ways.new.room ≡ is_some ways.old.room }
{
    ways.for_each_with(paces, |way: &mut Way, pace: &Pace| {
        way.0 = way.0.wrapping_add(pace.0);
    })
}

/// The same by a cursor: the whole map, as a function of what it was.
pub fn go_on_by_cursor(
    ways: &mut MaskedStorage<Way>,
    paces: &MaskedStorage<Pace>,
) -> Result<(), AllocError>
    ensures map { OnOk result (ways.new.map ≡ each_becomes (λ i w. gone_on (map.get paces.now.map i) w)
        (shared_indices ways.old.map (map.contains_key paces.now.map)) ways.old.map) }
    ensures ok { ways.old.room ≡ None → IsOk result }
{
    ways.join_mut(paces).for_each(|way: &mut Way, pace: &Pace| {
        way.0 = way.0.wrapping_add(pace.0);
    })
}

/// Each way goes on by one, in a view: it is of the same storage then, beside the same entities.
pub fn go_on_in_view<J: Join<Type: Drop>>(
    ways: &mut WriteStorage<'_, Way>,
    join: J,
) -> Result<(), AllocError>
    ensures storage { view.storage_name ways.new ≡ view.storage_name ways.old }
    ensures entities { view.entities_of ways.new ≡ view.entities_of ways.old }
{
    ways.for_each_with(join, |way: &mut Way, _beside: J::Type| {
        way.0 = way.0.wrapping_add(1);
    })
}

/// A cursor goes as far as there is memory. Where it ends, nothing is left; else it stands at an index, with what is beside it given already.
pub fn go_as_far_as_it_goes<J: Join<Type: Drop>>(cursor: &mut WriteJoin<'_, Way, J>) -> bool
    ensures ended { result ≡ true → rest cursor.new ≡ [] }
    ensures stands { result ≡ false → IsSome (here cursor.new) × (is_given cursor.new ≡ true) }
{
    let went = cursor.for_each(|way: &mut Way, _beside: J::Type| {
        way.0 = way.0.wrapping_add(1);
    });
    went.is_ok()
}

/// A step of a cursor beside any join writes nothing.
pub fn looked_beside<J: Join>(ways: &mut MaskedStorage<Way>, join: J) -> Option<Index>
    ensures { ways.new ≡ ways.old }
{
    let mut cursor = ways.join_mut(join);
    let found = cursor.next();
    let _ways = cursor.into_storage();
    found
}

/// A step of a cursor that takes out takes nothing out.
pub fn kept_beside<J: Join>(ways: &mut MaskedStorage<Way>, join: J) -> Option<Index>
    ensures { ways.new ≡ ways.old }
{
    let mut cursor = ways.drain().join_with(join);
    let found = cursor.next();
    let _ways = cursor.into_storage();
    found
}

/// A step of a cursor over the places of the living fills none.
pub fn place_beside<J: Join>(
    entities: &EntitiesRes,
    ways: &mut MaskedStorage<Way>,
    join: J,
) -> Option<Index>
    ensures { ways.new ≡ ways.old }
{
    let mut cursor = EntryJoin::new(entities, ways, join);
    let found = cursor.next();
    let _ways = cursor.into_storage();
    found
}

/// A look by a restricted cursor writes nothing.
pub fn shown_beside<J: Join>(
    entities: &EntitiesRes,
    ways: &mut MaskedStorage<Way>,
    join: J,
) -> Option<Way>
    ensures { ways.new ≡ ways.old }
{
    let mut cursor = RestrictedStorageMut::new(entities, ways, join);
    let _found = cursor.next();
    let shown = cursor.get_unchecked().copied();
    let _ways = cursor.into_storage();
    shown
}

/// Each way of a view that has a pace goes on by some steps of it, and no other.
pub fn go_far(
    ways: &mut WriteStorage<'_, Way>,
    paces: &ReadStorage<'_, Pace>,
    steps: u32,
) -> Result<(), AllocError>
    ensures moved { OnOk result ((i : ℕ) (w : Way) (p : Pace) → i < INDEX_LIMIT → map.get (slot ways.old).map i ≡ Some w
        → map.get (read.slot paces.now).map i ≡ Some p → map.get (slot ways.new).map i ≡ Some (moved steps w p)) }
    ensures others { OnOk result ((i : ℕ) → map.get (read.slot paces.now).map i ≡ None → map.get (slot ways.new).map i ≡ map.get (slot ways.old).map i) }
    ensures ok { (slot ways.old).room ≡ None → IsOk result }
{
    ways.update_each_with(paces, |way: &mut Way, pace: &Pace| {
        way.0 = way.0.wrapping_add(pace.0.wrapping_mul(steps));
    })
}

/// Each way of both is the one given.
pub fn all_are(ways: &mut MaskedStorage<Way>, other: &BitSet, to: Way) -> Result<(), AllocError>
    ensures each { OnOk result ((i : ℕ) → i < INDEX_LIMIT → IsSome (map.get ways.old.map i) → set.contains other.now.members i ≡ true → map.get ways.new.map i ≡ Some to) }
    ensures ok { ways.old.room ≡ None → IsOk result }
{
    ways.update_each_with(other, |way: &mut Way, _index: Index| {
        *way = to;
    })
}

/// The same by a cursor: the whole map.
pub fn all_are_by_cursor(
    ways: &mut MaskedStorage<Way>,
    other: &BitSet,
    to: Way,
) -> Result<(), AllocError>
    ensures map { OnOk result (ways.new.map ≡ each_becomes (λ _ _. to) (shared_indices ways.old.map (set.contains other.now.members)) ways.old.map) }
    ensures ok { ways.old.room ≡ None → IsOk result }
{
    ways.join_mut(other)
        .update_each(|way: &mut Way, _index: Index| {
            *way = to;
        })
}

/// All that both have is taken out, and nothing else.
pub fn all_out(ways: &mut MaskedStorage<Way>, other: &BitSet) -> Result<(), AllocError>
    ensures map { OnOk result (ways.new.map ≡ each_gone (shared_indices ways.old.map (set.contains other.now.members)) ways.old.map) }
    ensures ok { ways.old.room ≡ None → IsOk result }
{
    Drain::new(ways, other).for_each(|_way: Way, _index: Index| {})
}

/// A pace was too large.
#[derive(Clone, Copy, PartialEq, Eq, Debug)]
pub struct TooFar;

/// Each way goes on by the pace beside it, up to the first that does not fit.
pub fn go_on_or_stop(
    ways: &mut MaskedStorage<Way>,
    paces: &MaskedStorage<Pace>,
) -> Result<(), EachError<TooFar>>
    ensures moved { OnOk result ((i : ℕ) (w : Way) (p : Pace) → i < INDEX_LIMIT → map.get ways.old.map i ≡ Some w → map.get paces.now.map i ≡ Some p
        → map.get ways.new.map i ≡ Some (record { 0 = w.0 + p.0 })) }
    ensures others { OnOk result ((i : ℕ) → map.get paces.now.map i ≡ None → map.get ways.new.map i ≡ map.get ways.old.map i) }
    ensures memory { ways.old.room ≡ None → result ≢ Err EachError.OutOfMemory }
{
    ways.try_for_each_with(
        paces,
        |way: &mut Way, pace: &Pace| match way.0.checked_add(pace.0) {
            Some(sum) => {
                way.0 = sum;
                Ok(())
            }
            None => Err(TooFar),
        },
    )
}

/// The same by a cursor.
pub fn go_on_or_stop_by_cursor(
    ways: &mut MaskedStorage<Way>,
    paces: &MaskedStorage<Pace>,
) -> Result<(), EachError<TooFar>>
    ensures room { is_some ways.new.room ≡ is_some ways.old.room }
    ensures memory { ways.old.room ≡ None → result ≢ Err EachError.OutOfMemory }
{
    ways.join_mut(paces)
        .try_for_each(|way: &mut Way, pace: &Pace| match way.0.checked_add(pace.0) {
            Some(sum) => {
                way.0 = sum;
                Ok(())
            }
            None => Err(TooFar),
        })
}

/// The sum of all ways, which wraps.
pub fn sum_of(ways: &MaskedStorage<Way>) -> u32
    ensures { result ≡ fold (λ sum i. (sum + place_at (map.get ways.now.map i)) % 2 ^ 32) 0 (indices_of ways.now) }
{
    ways.join()
        .fold(0u32, |sum: u32, way: &Way| sum.wrapping_add(way.0))
}

/// How many ways have a pace beside them.
pub fn paced(ways: &MaskedStorage<Way>, paces: &MaskedStorage<Pace>) -> u32
    ensures { result ≡ fold (λ sum _. (sum + 1) % 2 ^ 32) 0 (shared_indices ways.now.map (map.contains_key paces.now.map)) }
{
    (ways, paces)
        .join()
        .fold(0u32, |sum: u32, _pair: (&Way, &Pace)| sum.wrapping_add(1))
}

/// The places of all, ascending by index, behind a list. Of what a closure changed beside the components no more is known than that it is safe.
pub fn listed(ways: &MaskedStorage<Way>, list: &mut Vec<u32>) -> Result<(), AllocError> {
    let mut refused = false;
    ways.join().for_each(|way: &Way| {
        if list.push(way.0).is_err() {
            refused = true;
        }
    });
    if refused { Err(AllocError) } else { Ok(()) }
}
