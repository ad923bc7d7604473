//! The reserve of a phase, and where its entities stand in it.
ghost use Rattle.std.specs.Prelude.{◌≡◌, ℕ, ◌+◌, ◌-◌, ◌*◌, ◌<◌, ◌≤◌, ◌^◌, length, max, min, slice_get, slice_index_or, Some, IfOk, IfErr, OnOk};
ghost use Rattle.entities.specs.declared.entity.Entity.{Entity};
ghost use Rattle.entities.specs.Population.{index_of};
ghost use Rattle.entities.specs.Census.{population};
ghost use Rattle.entities.specs.Kept.{SameBut};
ghost use Rattle.entities.specs.Upcoming.{upcoming};
ghost use Rattle.entities.specs.Phase.Reserve.{IsReserve, givable};
ghost use Rattle.entities.specs.Phase.Plan.{AreLocated, ArePlaced};

use crate::entities_res::EntitiesRes;
use crate::entity::{Entity, Index};
use crate::phase::opening::OpenError;
use crate::phase::plan::Plan;
use hibits::INDEX_LIMIT;
use std::alloc::{AllocError, Global};
use std::snapshot::Snapshot;

/// The index of the entity at a place of the reserve.
#[inline]
fn index_at(reserve: &[Entity], place: usize) -> usize
    requires { place < length reserve.now }
    ensures { (d : Entity) → result ≡ index_of (slice_index_or reserve.now place d) }
{
    reserve[place].0 as usize
}

/// By free index, its place among the first `revived` of the reserve.
fn places_of(
    alloc: Global,
    reserve: &[Entity],
    born: usize,
    revived: usize,
) -> Result<Vec<Index>, AllocError>
    requires few { revived ≤ length reserve.now }
    requires fits { revived < 2 ^ 32 }
    ensures { IfOk result (λ v. (length v.items ≡ born) × ArePlaced reserve.now born revived v.items) }
{
    let mut places = vec![in alloc; 0; born]?;
    for place in 0..revived {
        let index = index_at(reserve, place);
        if index < born {
            places[index] = place as Index;
        }
    }
    Ok(places)
}

/// Room for the reserve, and the plan of a phase of it.
pub(crate) fn plan_of(
    entities: &mut EntitiesRes,
    alloc: Global,
    reserve: usize,
    passes: usize,
) -> Result<Plan, OpenError>
    requires { reserve < 2 ^ 32 }
    ensures same { SameBut entities.old entities.new }
    ensures population { population entities.new ≡ population entities.old }
    ensures kept { entities.old.room ≤ entities.new.room }
    ensures bound { entities.new.room ≤ max entities.old.room (length entities.old.generations + reserve) }
    ensures opening { IfOk result (λ p. SameBut p.opening.value entities.new) }
    ensures room { IfOk result (λ p. reserve ≤ length entities.new.free + (entities.new.room - length entities.new.generations)) }
    ensures next { IfOk result (λ p. p.reserve.items ≡ upcoming p.opening.value reserve) }
    ensures reserve { IfOk result (λ p. IsReserve (population entities.old) p.reserve.items) }
    ensures below { IfOk result (λ p. (k : ℕ) (e : Entity) → slice_get p.reserve.items k ≡ Some e → e.0 < 64 * p.width) }
    ensures located { IfOk result (λ p. AreLocated p) }
    ensures passes { IfOk result (λ p. p.passes ≡ passes) }
    ensures width { IfOk result (λ p. (length p.opening.value.generations + (reserve - length p.opening.value.free) ≤ 64 * p.width) × (p.width < 2 ^ 26)) }
    ensures limit { IfErr result (λ e. e ≡ OpenError.IndexLimit → givable (population entities.old) < reserve) }
    ensures memory { IfErr result (λ e. e ≡ OpenError.OutOfMemory → reserve ≤ givable (population entities.old)) }
    ensures kind { IfErr result (λ e. e ≡ OpenError.TooManyPasses → ⊥) }
    ensures untouched { IfErr result (λ e. e ≡ OpenError.IndexLimit → entities.new ≡ entities.old) }
    ensures enough { IfOk result (λ _. reserve ≤ givable (population entities.old)) }
{
    let born = entities.born();
    let revived = entities.free_count().min(reserve);
    let end = born + (reserve - revived);
    if end > INDEX_LIMIT as usize {
        return Err(OpenError::IndexLimit);
    }
    entities.make_room(end)?;
    let all = entities.upcoming(alloc, reserve)?;
    let places = if revived > 0 {
        places_of(alloc, all.as_slice(), born, revived)?
    } else {
        Vec::new(alloc)
    };
    Ok(Plan {
        opening: Snapshot::of(entities),
        reserve: all,
        places,
        born: born as Index,
        revived: revived as Index,
        passes,
        width: end / 64 + 1,
    })
}
