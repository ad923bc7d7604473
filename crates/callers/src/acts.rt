//! Jobs without laws of their own: at whichever struct of storages, and at a known one.
ghost use Rattle.specs.specs.Laws.Going.{GoesOn};
ghost use Rattle.specs.specs.Laws.Reached.{OnlyLiving};
ghost use Rattle.specs.specs.World.State.{core_state, state_of};

use composed::{
    Act, Builder, Component, Core, DenseVecStorage, Doing, Entity, Has, Held, InsertError,
    LazyUpdate, Maintained, Of2, Storages, VecStorage, World,
};
use std::alloc::AllocError;
use std::marker::PhantomData;

/// What somebody has won.
#[derive(Clone, Copy, Debug, PartialEq, Eq)]
pub struct Score(pub u32);

impl Component for Score {
    type Storage = DenseVecStorage<Self>;
}

/// Where somebody is.
#[derive(Clone, Copy, Debug, PartialEq, Eq)]
pub struct Seat(pub i64);

impl Component for Seat {
    type Storage = VecStorage<Self>;
}

/// One more point for an entity that has a score; `I` is the place of the scores.
#[derive(Drop)]
pub struct Win<I> {
    /// Who wins.
    pub entity: Entity,
    /// Where the scores are.
    pub of: PhantomData<I>,
}

impl<I, S: Has<Score, I>> Act<S> for Win<I> {
    fn act(
        self,
        core: &mut Core<S>,
        _queue: &mut LazyUpdate<S, Doing<Self>>,
    ) -> Result<(), (Self, AllocError)> {
        let Ok(mut scores) = core.write_storage::<Score, I>() else {
            return Ok(());
        };
        let Some(Score(points)) = scores.get(self.entity).copied() else {
            return Ok(());
        };
        match scores.insert(self.entity, Score(points.wrapping_add(1))) {
            Err(InsertError::OutOfMemory(_)) => Err((self, AllocError)),
            _ => Ok(()),
        }
    }
}

/// An entity with a score is born, where memory is left.
pub fn scored<S: Has<Score, I>, I>(core: &mut Core<S>)
    ensures { GoesOn (core_state S.table S.ids core.old) (core_state S.table S.ids core.new) }
{
    let entity = match core.create_entity() {
        Ok(builder) => builder.build(),
        Err(_) => return,
    };
    if let Ok(mut scores) = core.write_storage::<Score, I>() {
        let _ = scores.insert(entity, Score(0));
    }
}

/// Ten entities with a score are born, and where no memory is left, fewer.
#[derive(Drop)]
pub struct Tribe<I> {
    /// Where the scores are.
    pub of: PhantomData<I>,
}

impl<I, S: Has<Score, I>> Act<S> for Tribe<I> {
    fn act(
        self,
        core: &mut Core<S>,
        _queue: &mut LazyUpdate<S, Doing<Self>>,
    ) -> Result<(), (Self, AllocError)> {
        core.repeat(10, |core: &mut Core<S>| scored::<S, I>(core));
        Ok(())
    }
}

/// Everyone dies.
#[derive(Drop)]
pub struct Flood;

impl<S: Storages> Act<S> for Flood {
    ghost use Rattle.specs.specs.Laws.Reached.{OnlyLiving};
    ghost use Rattle.specs.specs.World.People.{NobodyLives};

    ghost acts = { λ _ old new. OnlyLiving old → NobodyLives new.people };

    fn act(
        self,
        core: &mut Core<S>,
        _queue: &mut LazyUpdate<S, Doing<Self>>,
    ) -> Result<(), (Self, AllocError)> {
        match core.delete_all() {
            Ok(()) => Ok(()),
            Err(refused) => Err((self, refused)),
        }
    }
}

/// Storages of scores and of seats.
pub type Hall = Of2<Score, Seat>;

/// Somebody comes in later, and sits down.
pub fn seated<S: Has<Seat, I>, I>(core: &mut Core<S>, seat: Seat)
    ensures { GoesOn (core_state S.table S.ids core.old) (core_state S.table S.ids core.new) }
{
    if let Ok(entity) = core.create_pending() {
        if let Ok(mut seats) = core.write_storage::<Seat, I>() {
            let _ = seats.insert(entity, seat);
        }
    }
}

/// What happens in a hall, one after another.
#[derive(Drop)]
pub enum Deed {
    /// Somebody comes in, and sits down.
    Come(Seat),
    /// Somebody leaves at the end of the turn, and somebody else is to come.
    Leave(Entity),
}

impl Act<Hall> for Deed {
    fn act(
        self,
        core: &mut Core<Hall>,
        queue: &mut LazyUpdate<Hall, Doing<Self>>,
    ) -> Result<(), (Self, AllocError)> {
        match self {
            Deed::Come(seat) => seated::<Hall, _>(core, seat),
            Deed::Leave(entity) => {
                let _ = core.mark_dead(entity);
                let _ = queue.exec(Doing(Deed::Come(Seat(0))));
            }
        }
        Ok(())
    }
}

/// Whatever acts a world does, each component belongs to a living entity.
pub fn turned<S: Storages, A: Act<S>>(
    world: &mut World<S, Doing<A>>,
    act: A,
) -> Result<Maintained, AllocError>
    requires { OnlyLiving (state_of S.table S.ids world.old) }
    ensures { OnlyLiving (state_of S.table S.ids world.new) }
{
    world.parts().lazy.exec(Doing(act))?;
    world.maintain(1)
}
