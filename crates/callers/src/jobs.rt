//! Jobs of a user's: one that queues itself, one that queues an insertion, and one that makes an entity with a component.
ghost use Rattle.std.specs.Prelude.{◌≡◌, ◌∷◌, [], ◌++◌, true, false, Some, IfOk, IfErr, OnOk, OnErr};
ghost use Rattle.entities.specs.declared.entity.Entity.{Entity as AnEntity};
ghost use Rattle.entities.specs.Population.{born};
ghost use Rattle.specs.specs.World.People.{Births};
ghost use Rattle.specs.specs.World.State.{State, core_state, OnPeople};
ghost use Rattle.specs.specs.Job.Steps.{world_state};
ghost use Rattle.specs.specs.Job.Queue.{queued};
ghost use Rattle.specs.specs.declared.job.Job.TheVariants.{Insert, Own};
ghost use Rattle.callers.specs.Spreads.{Given};

use specs::{
    Core, CreateError, Entity, Held, Job, JobList, LazyUpdate, Maintained, Parts, Storages, World,
    WorldJob,
};
use std::alloc::{AllocError, AllocFailed, Global};

/// Queues itself, so it runs again at each turn.
#[derive(Drop)]
pub struct Again {
    /// Its name.
    pub name: u64,
}

impl<S: Held> WorldJob<S> for Again {
    ghost use Rattle.std.specs.Prelude.{◌≡◌, [], ◌∷◌};
    ghost use Rattle.specs.specs.Laws.Lawful.{still_grows, still_lives};
    ghost use Rattle.specs.specs.declared.job.Job.TheVariants.{Own};
    ghost use Rattle.callers.specs.Spreads.{still_after};

    ghost does = { λ j old more new. (more ≡ Own j ∷ []) × (new ≡ old) };

    ghost wants = { λ j s. Unit {0} };

    ghost spares = { λ j slot n. Unit {0} };

    fn update(
        self,
        _core: &mut Core<S>,
        queue: &mut LazyUpdate<S, Self>,
    ) -> Result<(), (Self, AllocError)> {
        match queue.exec(self) {
            Ok(()) => Ok(()),
            Err(failed) => Err((failed.value, AllocError)),
        }
    }

    ghost grows = { λ j old new more s. still_grows old new s.1 };

    ghost lives = { λ j old new more s w. still_lives old new s.1 w };

    ghost tells = { λ j slot n old new more s spared l. still_after _ slot n old new more s.1 (Own j) tt s.0 l };
}

/// Queues an insertion, and does nothing itself.
#[derive(Drop)]
pub struct Late<S: Held> {
    /// The entity.
    pub entity: Entity,
    /// The component.
    pub value: S::Value,
}

impl<S: Held<Value: Drop>> WorldJob<S> for Late<S> {
    ghost use Rattle.std.specs.Prelude.{◌≡◌, [], ◌∷◌};
    ghost use Rattle.specs.specs.Laws.Lawful.{still_grows, still_lives};
    ghost use Rattle.specs.specs.declared.job.Job.TheVariants.{Insert};
    ghost use Rattle.callers.specs.Spreads.{still_after};

    ghost does = { λ j old more new. (more ≡ Insert j.entity j.value ∷ []) × (new ≡ old) };

    ghost wants = { λ j s. Unit {0} };

    ghost spares = { λ j slot n. Unit {0} };

    fn update(
        self,
        _core: &mut Core<S>,
        queue: &mut LazyUpdate<S, Self>,
    ) -> Result<(), (Self, AllocError)> {
        let Late { entity, value } = self;
        match queue.insert(entity, value) {
            Ok(()) => Ok(()),
            Err(failed) => {
                let value = failed.value;
                Err((Late { entity, value }, AllocError))
            }
        }
    }

    ghost grows = { λ j old new more s. still_grows old new s.1 };

    ghost lives = { λ j old new more s w. still_lives old new s.1 w };

    ghost tells = { λ j slot n old new more s spared l. still_after _ slot n old new more s.1 (Insert j.entity j.value) tt s.0 l };
}

/// Makes an entity with a component. Where no index is left it does nothing; where the component is refused the entity stays without it.
#[derive(Drop)]
pub struct Spread<S: Held> {
    /// The component.
    pub value: S::Value,
}

impl<S: Storages> WorldJob<S> for Spread<S> {
    ghost use Rattle.callers.specs.Spreads.{MaySpread, spreads_grows, spreads_lives, spreads_tells};

    ghost does = { λ j old more new. MaySpread S.place j.value old more new };

    ghost wants = { λ j s. Unit {0} };

    ghost spares = { λ j slot n. Unit {0} };

    fn update(
        self,
        core: &mut Core<S>,
        _queue: &mut LazyUpdate<S, Self>,
    ) -> Result<(), (Self, AllocError)> {
        match birth(core) {
            Ok(e) => {
                give(core, e, self.value);
                Ok(())
            }
            Err(CreateError::IndexLimit) => Ok(()),
            Err(CreateError::OutOfMemory) => Err((self, AllocError)),
        }
    }

    ghost grows = { λ j old new more s. spreads_grows S.place j.value old new more s };

    ghost lives = { λ j old new more s w. spreads_lives S.place j.value old new more s w };

    ghost tells = { λ j slot n old new more s spared l. spreads_tells _ slot n (λ k. S.Slot.eq k slot) (λ k. S.exact k slot) S.place j.value old new more s l };
}

/// A birth at once.
fn birth<S: Held>(core: &mut Core<S>) -> Result<Entity, CreateError>
    ensures ok { IfOk result (λ e. OnPeople (λ p p'. Births born p e p') (core_state S.table S.ids core.old) (core_state S.table S.ids core.new)) }
    ensures err { OnErr result (core_state S.table S.ids core.new ≡ core_state S.table S.ids core.old) }
{
    core.parts().entities.alloc_mut().allocate()
}

/// An insertion, which may be refused.
fn give<S: Storages>(core: &mut Core<S>, e: Entity, value: S::Value)
    ensures { Given S.place e value (core_state S.table S.ids core.old) (core_state S.table S.ids core.new) }
{
    let Parts { entities, storages } = core.parts();
    match storages.insert(entities, e, value) {
        Ok(_) => {}
        Err(_) => {}
    }
}

/// A job that is queued is the last that waits.
pub fn queue<S: Storages, J: WorldJob<S>>(
    world: &mut World<S, J>,
    job: J,
) -> Result<(), AllocFailed<J>>
    ensures ok { OnOk result ((world_state S.table S.ids world.new).jobs ≡ (world_state S.table S.ids world.old).jobs ++ Own job ∷ []) }
    ensures core { (world_state S.table S.ids world.new).core ≡ (world_state S.table S.ids world.old).core }
    ensures err { OnErr result (world_state S.table S.ids world.new ≡ world_state S.table S.ids world.old) }
{
    world.parts().lazy.exec(job)
}

/// A job more that is queued is one more that waits.
pub fn one_more_waits<S: Storages, J: WorldJob<S>>(world: &mut World<S, J>, job: J) -> bool
    ensures { result ≡ true }
{
    let before = world.waiting();
    match world.parts().lazy.exec(job) {
        Ok(()) => world.waiting() > before,
        Err(_) => true,
    }
}

// The value of an insertion.
fn value_in<S: Held, J: Drop>(job: Option<Job<S, J>>) -> S::Value
    requires { (e : AnEntity) × (v : S.Value) × (job ≡ Some (Insert e v)) }
    ensures { (e : AnEntity) (v : S.Value) → job ≡ Some (Insert e v) → result ≡ v }
{
    match job {
        Some(Job::Insert(_, value)) => value,
        _ => unreachable!(),
    }
}

/// Two insertions are queued, or none, and then both values come back.
pub fn queue_both<S: Held, J: Drop>(
    alloc: Global,
    queue: &mut LazyUpdate<S, J>,
    entity: Entity,
    first: S::Value,
    second: S::Value,
) -> Result<(), (S::Value, S::Value, AllocError)>
where
    S::Slot: Drop,
    S::Value: Drop,
    ensures ok { OnOk result (queued queue.new ≡ queued queue.old ++ Insert entity first ∷ Insert entity second ∷ []) }
    ensures first { IfErr result (λ r. r.0 ≡ first) }
    ensures second { IfErr result (λ r. r.1 ≡ second) }
    ensures err { OnErr result (queued queue.new ≡ queued queue.old) }
{
    let mut list = JobList::new(alloc);
    if let Err(failed) = list.push(Job::Insert(entity, first)) {
        return Err((value_in(Some(failed.value)), second, AllocError));
    }
    if let Err(failed) = list.push(Job::Insert(entity, second)) {
        let first = value_in(list.pop_front());
        return Err((first, value_in(Some(failed.value)), AllocError));
    }
    match queue.append(list) {
        Ok(()) => Ok(()),
        Err(failed) => {
            let mut list = failed.value;
            let first = value_in(list.pop_front());
            let second = value_in(list.pop_front());
            Err((first, second, AllocError))
        }
    }
}

/// A job that takes no memory stops no run: where it is the only one that waits, it is done.
pub fn is_done<S: Storages, J: WorldJob<S>>(
    world: &mut World<S, J>,
    job: J,
) -> Result<Maintained, AllocError>
    requires alone { (world_state S.table S.ids world.old).jobs ≡ [] }
    requires takes_none { (s : State S.Slot S.Value) → J.wants job s → ⊥ }
    ensures goes_on { IfOk result (λ m. m.stopped ≡ false) }
    ensures done { IfOk result (λ m. m.ran ≡ 1) }
{
    queue(world, job)?;
    let kept = world.maintain(1)?;
    Ok(kept)
}
