//! Joins, walked and in threads.
ghost use Rattle.std.specs.Prelude.{◌≡◌, ◌≤◌, ◌<◌, ◌+◌, ◌*◌, ◌&&◌, ℕ, Some, true, IfOk, IfSome, OnOk, IsSome, length, min};
ghost use Rattle.std.specs.Borrow.{Bor};
ghost use Rattle.std.specs.FinMap as map;
ghost use Rattle.std.specs.FinSet as set;
ghost use Rattle.std.specs.List.{AllZip};
ghost use Rattle.entities.specs.Census.{population};
ghost use Rattle.entities.specs.Population.{index_of, IsAlive};
ghost use Rattle.storages.specs.Slot.{indices_of};

use crate::components::Health;
use crate::own_world::Place;
use composed::{
    BitAnd, BitSet, BitSetAll, BitSetLike, EntitiesRes, Entity, INDEX_LIMIT, Index, Join,
    MaskedStorage, ParJoin, par_update,
};
use std::alloc::{Alloc, AllocError, Global};
use std::thread::{Threads, join_mut};

/// A join gives what an entity has that is alive.
pub fn points_at(healths: &MaskedStorage<Health>, entities: &EntitiesRes, e: Entity) -> Option<u32>
    ensures { (h : Health) → IsAlive (population entities.now) e → map.get healths.now.map (index_of e) ≡ Some h → result ≡ Some h.points }
{
    match healths.join().get(e, entities) {
        Some(health) => Some(health.points),
        None => None,
    }
}

/// What a walk over a set and a storage gives first is the health of the index.
pub fn first_of_both(healths: &MaskedStorage<Health>, chosen: &BitSet) -> Option<(Index, Health)>
    ensures { IfSome result (λ t. map.get healths.now.map t.0 ≡ Some t.1) }
{
    let mut walk = (chosen, healths).join();
    match walk.next() {
        Some((index, health)) => Some((index, *health)),
        None => None,
    }
}

/// A walk over a storage and a set has read few words at any moment, by the smaller of both.
pub fn words_for_one(healths: &MaskedStorage<Health>, chosen: &BitSet) -> u64
    ensures { result ≤ 2 * (4 * min (length (indices_of healths.now)) (set.len chosen.now.members) + 1) }
{
    let mut walk = (healths, chosen).join();
    let _ = walk.next();
    walk.reads()
}

/// A copy of a walk goes on as the walk does.
pub fn same_again(healths: &MaskedStorage<Health>) -> bool
    ensures { result ≡ true }
{
    let mut walk = healths.join();
    let _ = walk.next();
    let Ok(mut copy) = walk.clone() else {
        unreachable!()
    };
    match (walk.next(), copy.next()) {
        (Some(a), Some(b)) => a.points == b.points,
        (None, None) => true,
        _ => false,
    }
}

/// The combined set of two has what both have.
#[tactic(auto, using(hibits::specs::Sets::has_part_zero))]
pub fn in_both(a: &BitSet, b: &BitSet, id: Index) -> bool
    ensures { result ≡ (set.contains a.now.members id && set.contains b.now.members id) }
{
    (a, b).and().contains(id)
}

/// The points of all, from several threads, by their indices.
pub fn all_points(
    rt: &(impl Threads + Alloc<A = Global> + Sync),
    healths: &MaskedStorage<Health>,
) -> Result<Vec<u32>, AllocError>
    ensures { IfOk result (λ v. AllZip (λ i points. (h : Bor Health) × (map.get healths.now.map i ≡ Some h.now) × (points ≡ h.now.points)) (indices_of healths.now) v.items) }
{
    healths.par_join().map_collect(
        rt,
        |health: &Health| -> u32
            ensures { result ≡ health.now.points }
        { health.points },
    )
}

/// As many are counted as have a component.
pub fn counted(
    rt: &(impl Threads + Sync),
    healths: &MaskedStorage<Health>,
) -> Result<usize, AllocError>
    ensures { IfOk result (λ n. n ≡ length (indices_of healths.now)) }
{
    healths.par_join().count(rt)
}

/// In threads each health gets a hundred points.
pub fn all_healed(
    rt: &(impl Threads + Alloc<A = Global> + Sync),
    healths: &mut MaskedStorage<Health>,
) -> Result<(), AllocError>
    ensures { OnOk result ((i : ℕ) → i < INDEX_LIMIT → IsSome (map.get healths.old.map i) → (h : Health) × (map.get healths.new.map i ≡ Some h) × (h.points ≡ 100)) }
{
    par_update(
        rt,
        healths,
        BitSetAll,
        |health: &Health, _index: Index| -> Option<Health>
            ensures { (h : Health) × (result ≡ Some h) × (h.points ≡ 100) }
        {
            Some(Health {
                points: 100,
                shield: health.shield,
            })
        },
    )
}

/// Two systems side by side, each on a storage of its own: both are emptied.
pub fn both_cleared(
    rt: &impl Threads,
    healths: &mut MaskedStorage<Health>,
    places: &mut MaskedStorage<Place>,
) -> (Result<(), AllocError>, Result<(), AllocError>)
    ensures healths { OnOk result.0 (healths.new.map ≡ map.empty) }
    ensures places { OnOk result.1 (places.new.map ≡ map.empty) }
{
    join_mut(rt, &mut || healths.clear(), &mut || places.clear())
}
