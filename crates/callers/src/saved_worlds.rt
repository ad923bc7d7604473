//! A level that is saved and loaded in one call each, by the component types that are saved.
ghost use Rattle.std.specs.Prelude.{◌≡◌, Err};
ghost use Rattle.entities.specs.Census.{population};
ghost use Rattle.specs.specs.Laws.Gone.{KeepsGone};
ghost use Rattle.composed.specs.declared.saved_error.LoadWorldError.TheVariants.{Unregistered};

use crate::saved_types::{Bag, Pose};
use composed::{Both, LoadWorldError, Marking, Of3, SaveWorldError, SavesWorld};
use saveload::{Link, Relation, SimpleMarker, SimpleMarkerAllocator};
use specs::World;
use std::alloc::Global;
use storages::DenseVecStorage;

/// That an entity guards another: its component is `Link<Guards>`.
pub struct Guards;

impl Relation for Guards {
    type Storage = DenseVecStorage<Link<Self>>;
}

/// What is saved of a level.
#[derive(Clone, Copy)]
pub struct Kept;

/// Names an entity in a text.
pub type Label = SimpleMarker<Kept>;

/// A level: three component types, and markers.
pub type Level = World<
    Both<Of3<Pose, Bag, Link<Guards>>, Marking<Label, SimpleMarkerAllocator<Kept>>>,
>;

/// The text of a level, which stays as it is: what each that has a marker carries, and whom it guards.
pub fn level_saved(level: &mut Level, alloc: Global) -> Result<String, SaveWorldError>
    ensures same { level.new ≡ level.old }
{
    level.save_to_json::<(Bag, Link<Guards>), _>(alloc)
}

/// Takes a text's entities up in a level. Where not all is registered nothing changes; and whoever was gone before stays gone.
pub fn level_loaded(level: &mut Level, alloc: Global, text: &str) -> Result<(), LoadWorldError>
    ensures same { result ≡ Err Unregistered → level.new ≡ level.old }
    ensures gone { KeepsGone (population level.old.parts.core.parts.entities) (population level.new.parts.core.parts.entities) }
{
    level.load_from_json::<(Bag, Link<Guards>), _>(alloc, text)
}

/// Carries the poses of all that have markers over from one level into another. The first stays as it is.
pub fn poses_carried(from: &mut Level, to: &mut Level, alloc: Global) -> bool
    ensures same { from.new ≡ from.old }
{
    match from.save_to_json::<(Pose,), _>(alloc) {
        Ok(text) => to
            .load_from_json::<(Pose,), _>(alloc, text.as_str())
            .is_ok(),
        Err(_) => false,
    }
}
