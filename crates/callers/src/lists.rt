//! Lists of entities, and of components, given to a world at once.
ghost use Rattle.std.specs.Prelude.{◌≡◌, ◌∷◌, ◌++◌, [], true, MatchOption, IfOk, IfSome, IfNone};
ghost use Rattle.entities.specs.Population.{born};
ghost use Rattle.specs.specs.declared.job.Job.TheVariants.{InsertAll};
ghost use Rattle.specs.specs.Job.Queue.{queued};
ghost use Rattle.specs.specs.World.State.{core_state};
ghost use Rattle.specs.specs.World.People.{Births};

use specs::{
    Builder, Component, Core, DeleteError, Entity, Has, Held, LazyUpdate, Storages,
    UnprotectedStorage,
};
use std::alloc::AllocError;

/// Of a list that died at once nobody is alive.
pub fn all_gone<S: Storages>(
    core: &mut Core<S>,
    list: &[Entity],
    k: usize,
) -> Result<bool, DeleteError>
    ensures { IfOk result (λ alive. alive ≡ true → ⊥) }
{
    core.delete_entities(list)?;
    match list.get(k) {
        Some(entity) => Ok(core.is_alive(*entity)),
        None => Ok(false),
    }
}

/// A list of insertions waits behind what waited, or comes back whole.
pub fn queued_list<S: Held, J: Drop>(
    lazy: &mut LazyUpdate<S, J>,
    pairs: Vec<(Entity, S::Value)>,
) -> Option<Vec<(Entity, S::Value)>>
    ensures queued { IfNone result (queued lazy.new ≡ queued lazy.old ++ InsertAll pairs ∷ []) }
    ensures back { IfSome result (λ list. list ≡ pairs) }
{
    match lazy.insert_all(pairs) {
        Ok(()) => None,
        Err(failed) => Some(failed.value),
    }
}

/// The storage of a component type that is registered can be read.
pub fn registered_and_there<T: Component<Storage: UnprotectedStorage<T>>, S: Has<T, I>, I>(
    core: &mut Core<S>,
) -> Result<bool, AllocError>
    ensures { IfOk result (λ there. there ≡ true) }
{
    core.register::<T, I>()?;
    Ok(core.read_storage::<T, I>().is_ok())
}

/// An entity that is built with a component, or without one, is a birth.
pub fn built_with_or_without<T: Component<Storage: UnprotectedStorage<T>> + Drop, S: Has<T, I>, I>(
    core: &mut Core<S>,
    component: Option<T>,
) -> Option<Entity>
    ensures { MatchOption result (Unit {0}) (λ e. Births born (core_state S.table S.ids core.old).people e (core_state S.table S.ids core.new).people) }
{
    let Ok(builder) = core.create_entity() else {
        return None;
    };
    let Ok(builder) = builder.maybe_with::<T, I>(component) else {
        return None;
    };
    Some(builder.build())
}
