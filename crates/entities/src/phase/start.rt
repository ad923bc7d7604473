//! How a board is made, and its passes with it.
ghost use Rattle.entities.specs.declared.entity.Entity.{Entity};
ghost use Rattle.std.specs.Prelude.{◌≡◌, ℕ, ◌+◌, ◌*◌, ◌<◌, ◌≤◌, ◌^◌, [], length, slice_get, Some, IfOk, OnOk};
ghost use Rattle.entities.specs.Phase.Rule.{blank_lines};
ghost use Rattle.entities.specs.Phase.Board.{AreDealt, AreFresh};

use crate::phase::board::Board;
use crate::phase::pass::Pass;
use crate::phase::plan::Plan;
use crate::phase::rule::{FirstLine, Record, Words};
use atomic_table::Table;
use std::alloc::{AllocError, Global};

/// Cuts the keeper's record into the passes'.
fn deal(
    words: &Words,
    keeper: &mut Record,
    passes: &mut Vec<Pass>,
    count: usize,
) -> Result<(), AllocError>
    requires { (keeper.old.table_id ≡ words.now.shared.table_id) × (0 < words.now.shared.table_id.words) × (keeper.old.me ≡ (blank_lines 0 count, [])) × (passes.old.items ≡ []) }
    ensures keeper { OnOk result ((keeper.new.table_id ≡ keeper.old.table_id) × (keeper.new.me ≡ ([], []))) }
    ensures passes { OnOk result (AreDealt words.now.shared.table_id 0 passes.new.items × (length passes.new.items ≡ count)) }
{
    for number in 0..count {
        let record = words.shared.split_seat::<FirstLine>(keeper);
        passes.push(Pass {
            record,
            spent: false,
        })?;
    }
    Ok(())
}

/// The board of a plan, and its passes.
pub(crate) fn start(alloc: Global, plan: Plan) -> Result<(Board, Vec<Pass>), AllocError>
    requires fits { length plan.reserve.items + plan.passes + 1 < 2 ^ 64 }
    requires width { plan.width < 2 ^ 26 }
    requires reserve { (k : ℕ) (e : Entity) → slice_get plan.reserve.items k ≡ Some e → e.0 < 64 * plan.width }
    requires born { length plan.opening.value.generations ≤ 64 * plan.width }
    ensures plan { IfOk result (λ r. r.0.plan ≡ plan) }
    ensures passes { IfOk result (λ r. AreFresh r.0 0 r.1.items × (length r.1.items ≡ plan.passes)) }
{
    let zeros = vec![in alloc; 0u64; plan.width + 1]?;
    let (words, mut keeper) = Table::of_words(alloc, zeros.as_slice(), &plan)?;
    let mut passes = Vec::with_capacity(alloc, plan.passes)?;
    deal(&words, &mut keeper, &mut passes, plan.passes)?;
    Ok((Board { words, plan }, passes))
}
