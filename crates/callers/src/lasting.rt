//! Single calls, one after another, and then a run: what holds of each state lasts through all of them.
ghost use Rattle.std.specs.Prelude.{◌≡◌, ◌⊎◌, ℕ, true, IfSome};
ghost use Rattle.entities.specs.Census.{population};
ghost use Rattle.entities.specs.Population.{lives};
ghost use Rattle.specs.specs.Reading.Following.{AreQuiet, AllSpare, IsFollowed, Follows, given};
ghost use Rattle.specs.specs.Laws.Gone.{KeepsGone};
ghost use Rattle.specs.specs.Laws.Reached.{KeepsLiving, OnlyLiving};
ghost use Rattle.specs.specs.World.State.{core_state, state_of};
ghost use Rattle.specs.specs.Job.Steps.{world_state};

use specs::{
    Builder, CloneStorages, Command, Component, Core, DeserializeComponents, EntitiesRes, Entity,
    EntityData, Has, Marker, MarkerAllocator, MaskedStorage, ReaderId, Reply, Storages,
    UnprotectedStorage, World, WorldJob, deserialize, loads_keep, phases_keep,
};
use std::alloc::Global;

/// An entity is built with a component, and a list of others lose theirs: each component belongs to a living entity still, and who was gone
/// is gone, whatever was refused.
pub fn built_and_dropped<T: Component + Drop, I, S: Storages + Has<T, I>>(
    core: &mut Core<S>,
    component: T,
    list: &[Entity],
) -> Option<Entity>
where
    T::Storage: UnprotectedStorage<T>,
    ensures living { KeepsLiving (core_state S.table S.ids core.old) (core_state S.table S.ids core.new) }
    ensures gone { KeepsGone (core_state S.table S.ids core.old).people (core_state S.table S.ids core.new).people }
{
    let Ok(builder) = core.create_entity() else {
        return None;
    };
    let Ok(builder) = builder.with(component) else {
        return None;
    };
    let e = builder.build();
    if core.delete_components(list).is_err() {
        return None;
    }
    Some(e)
}

/// A builder that is let go unbuilt marks its entity: each component belongs to a living entity still, and who was gone is gone.
pub fn let_go<S: Storages>(core: &mut Core<S>)
    ensures living { KeepsLiving (core_state S.table S.ids core.old) (core_state S.table S.ids core.new) }
    ensures gone { KeepsGone (core_state S.table S.ids core.old).people (core_state S.table S.ids core.new).people }
{
    let _unbuilt = core.create_entity();
}

/// What a run of commands that leave a reader be gives the reader leads from the values before to those after.
pub fn followed<S: CloneStorages, J: WorldJob<S>>(
    world: &mut World<S, J>,
    slot: S::Slot,
    reader: ReaderId,
    commands: Vec<Command<S, J>>,
) -> Option<Vec<Reply<S::Value>>>
    requires living { OnlyLiving (state_of S.table S.ids world.old) }
    requires quiet { AreQuiet J.spares slot reader commands.items }
    requires spared { AllSpare J.spares slot reader (world_state S.table S.ids world.old).jobs }
    requires followed { IsFollowed slot reader (state_of S.table S.ids world.old) }
    ensures { IfSome result (λ replies. Follows slot reader (state_of S.table S.ids world.old) (state_of S.table S.ids world.new) (given (λ s. S.Slot.eq s slot) reader commands.items replies.items)) }
{
    match world.run(commands) {
        Ok(replies) => Some(replies),
        Err(_) => None,
    }
}

/// A world in which that may be asked: calls that are no commands came before.
pub fn lives_after_calls<T: Component + Drop, I, S: CloneStorages + Has<T, I>, J: WorldJob<S>>(
    world: &mut World<S, J>,
    component: T,
    list: &[Entity],
)
where
    T::Storage: UnprotectedStorage<T>,
    requires { OnlyLiving (state_of S.table S.ids world.old) }
    ensures { OnlyLiving (state_of S.table S.ids world.new) }
{
    let _ = built_and_dropped(&mut **world, component, list);
    let _ = world.maintain(10);
    let _ = world.apply(Command::CreatePending);
}

/// Somebody is born, and nobody comes back by it.
fn born<S: Storages>(core: &mut Core<S>)
    ensures { KeepsGone (core_state S.table S.ids core.old).people (core_state S.table S.ids core.new).people }
{
    if let Ok(builder) = core.create_entity() {
        let _ = builder.build();
    }
}

/// An entity that died is dead after each other call.
pub fn dead_for_good<S: CloneStorages, J: WorldJob<S>>(world: &mut World<S, J>, e: Entity) -> bool
    ensures { result ≡ true → ⊥ }
{
    if world.delete_entity(e).is_err() {
        return false;
    }
    let _ = world.apply(Command::Create);
    born(&mut **world);
    let _ = world.maintain(10);
    world.is_alive(e)
}

/// Two are born of an iterator: each component belongs to a living entity still, and who was gone is gone.
pub fn two_born<S: Storages>(core: &mut Core<S>)
    ensures living { KeepsLiving (core_state S.table S.ids core.old) (core_state S.table S.ids core.new) }
    ensures gone { KeepsGone (core_state S.table S.ids core.old).people (core_state S.table S.ids core.new).people }
{
    let mut births = core.create_iter();
    let _ = births.next();
    let _ = births.next();
}

/// A component is written in its place: it is of a living entity, before and after.
pub fn rewritten<T: Component + Drop, I, S: Storages + Has<T, I>>(
    core: &mut Core<S>,
    e: Entity,
    component: T,
)
where
    T::Storage: UnprotectedStorage<T>,
    ensures living { KeepsLiving (core_state S.table S.ids core.old) (core_state S.table S.ids core.new) }
    ensures gone { KeepsGone (core_state S.table S.ids core.old).people (core_state S.table S.ids core.new).people }
{
    let Ok(mut view) = core.write_storage::<T, I>() else {
        return;
    };
    if let Ok(place) = view.get_mut(e) {
        *place = component;
    }
}

/// Somebody is born and an entity is marked in a shared phase, which is closed: nobody came back, and each component belongs to a living entity.
pub fn through_a_phase<S: Storages>(alloc: Global, core: &mut Core<S>, e: Entity)
    ensures living { KeepsLiving (core_state S.table S.ids core.old) (core_state S.table S.ids core.new) }
    ensures gone { KeepsGone (core_state S.table S.ids core.old).people (core_state S.table S.ids core.new).people }
{
    phases_keep::<S>();
    let parts = core.parts();
    match parts.entities.open(alloc, 2, 1) {
        Ok((shared, mut passes)) => {
            let _ = shared.create(&mut passes[0]);
            let _ = shared.delete(&mut passes[0], e);
            let _ = shared.close(passes);
        }
        Err(_) => {}
    }
}

/// All of that, one after another, and then a run: each component belongs to a living entity at the end.
pub fn lives_through_all<T: Component + Drop, I, S: CloneStorages + Has<T, I>, J: WorldJob<S>>(
    alloc: Global,
    world: &mut World<S, J>,
    component: T,
    list: &[Entity],
    e: Entity,
    commands: Vec<Command<S, J>>,
)
where
    T::Storage: UnprotectedStorage<T>,
    requires { OnlyLiving (state_of S.table S.ids world.old) }
    ensures { OnlyLiving (state_of S.table S.ids world.new) }
{
    two_born(&mut **world);
    through_a_phase(alloc, &mut **world, e);
    rewritten(&mut **world, e, component);
    let _ = world.delete_components(list);
    let _ = world.run(commands);
}

/// A load, whole or refused, brings nobody back, and stores at living entities alone.
pub fn loaded_at_the_living<M: Marker, P: DeserializeComponents<M>>(
    alloc: Global,
    masked: &mut P,
    entities: &mut EntitiesRes,
    markers: &mut MaskedStorage<M>,
    allocator: &mut M::Allocator,
    list: Vec<EntityData<M, P::Data>>,
) -> bool
where
    M::Allocator: MarkerAllocator<M>,
    requires { (m n : M) → M.is_clone m n → m ≡ n }
    ensures gone { KeepsGone (population entities.old) (population entities.new) }
    ensures rows { (i : ℕ) → (P.rows masked.new i ≡ P.rows masked.old i) ⊎ (lives (population entities.new) i ≡ true) }
{
    loads_keep::<M, P>();
    deserialize(alloc, masked, entities, markers, allocator, list).is_ok()
}
