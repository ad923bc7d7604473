//! Markers in a world, and entities whose components are queued.
ghost use Rattle.std.specs.Prelude.{◌≡◌, [], ◌∷◌, ◌++◌, Some, true, IsTrue, MatchOption, IfOk, IfSome};
ghost use Rattle.entities.specs.Census.{population};
ghost use Rattle.entities.specs.Population.{born, index_of, IsAlive};
ghost use Rattle.specs.specs.Slots.Column.{Column};
ghost use Rattle.std.specs.Option.{option_map};
ghost use Rattle.specs.specs.World.People.{Births};
ghost use Rattle.specs.specs.Job.Queue.{queued};
ghost use Rattle.specs.specs.World.State.{core_state};
ghost use Rattle.specs.specs.declared.job.Job.TheVariants.{Insert, Mark};

use specs::{
    Builder, Core, EntitiesRes, Entity, MarkError, MarkedBuilder, Storages, WorldJob, WorldParts,
};

/// Whether an entity has a marker: it gets one if it lives.
pub fn labelled<S: Storages>(
    storages: &mut S,
    entities: &EntitiesRes,
    slot: S::Slot,
    e: Entity,
) -> Result<bool, MarkError>
    ensures alive { IfOk result (λ had. IsTrue had → IsAlive (population entities.now) e) }
    ensures marker { IfOk result (λ had. S.marks.holds slot ≡ true) }
{
    let given = storages.mark(entities, slot, e)?;
    Ok(given.is_some())
}

/// Whether an entity gets a new marker. It has one then that may come next.
pub fn is_labelled_anew<S: Storages>(
    storages: &mut S,
    entities: &EntitiesRes,
    slot: S::Slot,
    e: Entity,
) -> bool
    ensures { IsTrue result → (v : S.Value) × S.marks.comes slot (S.ids storages.old slot) v
        × (option_map (λ (c : Column S.Value). c.values (index_of e)) (S.table storages.new slot) ≡ Some (Some v)) }
{
    match storages.mark(entities, slot, e) {
        Ok(Some(given)) => given,
        _ => false,
    }
}

/// Whether an entity gets no marker for want of an id: the slot has none left then.
pub fn has_used_up<S: Storages>(
    storages: &mut S,
    entities: &EntitiesRes,
    slot: S::Slot,
    e: Entity,
) -> bool
    ensures left { IsTrue result → S.ids storages.old slot ≡ Some 0 }
    ensures taken { IsTrue result → S.ids storages.new ≡ S.ids storages.old }
{
    match storages.mark(entities, slot, e) {
        Err(MarkError::IdsExhausted) => true,
        _ => false,
    }
}

/// An entity whose component and marker are queued, or none where memory or indices ran out.
pub fn queued_with<S: Storages, J: WorldJob<S>>(
    parts: &mut WorldParts<S, J>,
    value: S::Value,
    slot: S::Slot,
) -> Option<Entity>
    ensures { IfSome result (λ e. queued parts.new.lazy ≡ (queued parts.old.lazy ++ Insert e value ∷ []) ++ Mark slot e ∷ []) }
{
    let Ok(builder) = parts.create_entity() else {
        return None;
    };
    let Ok(builder) = builder.with_value(value) else {
        return None;
    };
    let Ok(builder) = builder.marked(slot) else {
        return None;
    };
    Some(builder.build())
}

/// An entity that is built with a marker is a birth.
pub fn born_labelled<S: Storages>(core: &mut Core<S>, slot: S::Slot) -> Option<Entity>
    ensures { MatchOption result (Unit {0}) (λ e. Births born (core_state S.table S.ids core.old).people e (core_state S.table S.ids core.new).people) }
{
    let Ok(builder) = core.create_entity() else {
        return None;
    };
    let Ok(builder) = builder.marked(slot) else {
        return None;
    };
    Some(builder.build())
}
