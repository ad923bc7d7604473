//! A world of one's own: five component types, the struct of their storages, and calls by type.
ghost use Rattle.std.specs.Prelude.{◌≡◌, Some, IfOk, refl};
ghost use Rattle.composed.specs.declared.only.Sole.TheVariants.{Sole as TheSole};
ghost use Rattle.composed.specs.declared.either.Either.TheVariants.{First, Rest};
ghost use Rattle.specs.specs.declared.command.Command.TheVariants.{Insert};
ghost use Rattle.specs.specs.Laws.Reached.{OnlyLiving};
ghost use Rattle.specs.specs.World.State.{state_of};

use crate::worlds::new_world;
use composed::Of5;
use specs::{Command, EntitiesRes, Entity, Has, Held, Refusal, World, by_type, slot, value};
use std::alloc::Global;
use storages::{
    Component, DenseVecStorage, HashMapStorage, NullComponent, NullStorage, UnprotectedStorage,
    VecStorage,
};

/// Where an entity is.
#[derive(Clone, Copy, Debug, PartialEq, Eq)]
pub struct Place(pub i64);

impl Component for Place {
    type Storage = VecStorage<Self>;
}

/// How fast it goes.
#[derive(Clone, Copy, Debug, PartialEq, Eq)]
pub struct Speed(pub i64);

impl Component for Speed {
    type Storage = DenseVecStorage<Self>;
}

/// What it carries.
#[derive(Clone, Copy, Debug, PartialEq, Eq)]
pub struct Load(pub u32);

impl Component for Load {
    type Storage = HashMapStorage<Self>;
}

/// That it does not move.
#[derive(Clone, Copy, Debug, Default, PartialEq, Eq)]
pub struct Frozen;

impl Component for Frozen {
    type Storage = NullStorage<Self>;
}

impl NullComponent for Frozen {
    ghost all_equal = { λ a b. refl };
}

/// Whom it follows.
#[derive(Clone, Copy, Debug, PartialEq, Eq)]
pub struct Leader(pub Entity);

impl Component for Leader {
    type Storage = VecStorage<Self>;
}

/// The storages: one for each component type.
pub type Stores = Of5<Place, Speed, Load, Frozen, Leader>;

/// The world over them.
pub type Game = World<Stores>;

/// A game that begins: each component belongs to a living entity, and a run keeps that.
pub fn new_game(alloc: Global) -> Game
    ensures { OnlyLiving (state_of ⟦<Stores as Held>⟧.table ⟦<Stores as Held>⟧.ids result) }
{
    new_world(alloc)
}

/// The slot of a component type, by the type's name.
pub fn load_slot() -> <Stores as Held>::Slot
    ensures { result ≡ Rest (First TheSole) }
{
    slot::<Load, Stores, _>()
}

/// A command, with a type for a slot.
pub fn loaded(e: Entity, load: Load) -> Command<Stores>
    ensures { result ≡ Insert e (Rest (First load)) }
{
    Command::Insert(e, value::<_, Stores, _>(load))
}

/// A component that was put at an entity is found there, in whichever struct of storages.
#[tactic(auto, using(specs::specs::Typed::Finds::found_put))]
pub fn put_and_found<T: Component<Storage: UnprotectedStorage<T>> + Copy, S: Has<T, I>, I>(
    storages: &mut S,
    entities: &EntitiesRes,
    e: Entity,
    component: T,
) -> Result<Option<T>, Refusal>
    ensures { IfOk result (λ found. found ≡ Some component) }
{
    match by_type::insert(storages, entities, e, component) {
        Ok(_before) => by_type::get(storages, entities, e),
        Err((refusal, _component)) => Err(refusal),
    }
}

/// The same, of the place of an entity of the game.
pub fn moved_and_found(
    storages: &mut Stores,
    entities: &EntitiesRes,
    e: Entity,
    place: Place,
) -> Result<Option<Place>, Refusal>
    ensures { IfOk result (λ found. found ≡ Some place) }
{
    put_and_found(storages, entities, e, place)
}
