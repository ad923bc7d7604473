//! What a caller with a type that owns memory learns of its calls.
ghost use Rattle.std.specs.Prelude.{◌≡◌, None, OnOk, IfOk, IsSome, is_some};
ghost use Rattle.entities.specs.Population.{index_of};
ghost use Rattle.storages.specs.ReadView.{found as seen};
ghost use Rattle.storages.specs.Slot.{Puts, Takes};
ghost use Rattle.storages.specs.WriteView.{found, slot};

use crate::{boxes, cargos, names};
use entities::Entity;
use std::alloc::AllocError;
use storages::{InsertError, ReadStorage, WriteStorage};

/// Names an entity: it has this very text then, and the name that it had is handed back.
pub fn named<'a>(
    view: &mut WriteStorage<'a, names::InVec>,
    entity: Entity,
    text: String,
) -> Result<Option<names::InVec>, InsertError<names::InVec>>
    ensures before { IfOk result (λ name. name ≡ found view.old entity) }
    ensures named { OnOk result (Puts (slot view.old) (slot view.new) (index_of entity) (record { 0 = text }) (is_some (found view.old entity))) }
{
    view.insert(entity, names::InVec(text))
}

/// How many goods an entity has, where it has a list of them.
pub fn goods_of(view: &ReadStorage<'_, cargos::InDenseVec>, entity: Entity) -> Option<usize>
    ensures { seen view.now entity ≡ None → result ≡ None }
{
    view.get(entity).map(|goods| goods.0.len())
}

/// Takes the box of an entity out, which is handed back.
pub fn unloaded<'a>(
    view: &mut WriteStorage<'a, boxes::InFlagged>,
    entity: Entity,
) -> Result<Option<boxes::InFlagged>, AllocError>
    ensures handed { IfOk result (λ box. box ≡ found view.old entity) }
    ensures unloaded { OnOk result (IsSome (found view.old entity) → Takes (slot view.old) (slot view.new) (index_of entity)) }
{
    view.remove(entity)
}
