//! The program's slots, each of one component type.
use crate::components::{Defense, Health, Link, Mapped, Position, Tag, Treed, Velocity};
use composed::{Both, Either, Marking, Of2, Of6, Sole};
use saveload::{SimpleMarker, SimpleMarkerAllocator};
use specs::Held;

/// The kind of the program's markers.
#[derive(Clone, Copy)]
pub struct Saved;

/// A marker of the program, by which an entity is saved.
pub type Label = SimpleMarker<Saved>;

/// The components that are saved.
pub type SavedPlaces = Of2<Position, Link>;

/// The markers, with what gives their ids.
pub type Labels = Marking<Label, SimpleMarkerAllocator<Saved>>;

/// What is saved, and by what.
pub type SavedSlots = Both<SavedPlaces, Labels>;

/// A storage for each component type that is registered.
pub type Slots = Both<Of6<Velocity, Defense, Mapped, Treed, Tag, Health>, SavedSlots>;

/// A component type of the program.
pub type Slot = <Slots as Held>::Slot;

/// A component of the program.
pub type Value = <Slots as Held>::Value;

/// `vel`: whole numbers, in a dense vector.
pub const VEL: Slot = Either::First(Either::First(Either::First(Sole::Sole)));
/// `def`: whole numbers, in a vector with defaults.
pub const DEF: Slot = Either::First(Either::First(Either::Rest(Sole::Sole)));
/// `map`: whole numbers, in a hash map.
pub const MAP: Slot = Either::First(Either::Rest(Either::First(Either::First(Sole::Sole))));
/// `tree`: whole numbers, in a tree.
pub const TREE: Slot = Either::First(Either::Rest(Either::First(Either::Rest(Sole::Sole))));
/// `tag`: no data.
pub const TAG: Slot = Either::First(Either::Rest(Either::Rest(Either::First(Sole::Sole))));
/// `hp`: whole numbers, in a dense vector whose changes are told.
pub const HP: Slot = Either::First(Either::Rest(Either::Rest(Either::Rest(Sole::Sole))));
/// `pos`: whole numbers, in a vector.
pub const POS: Slot = Either::Rest(Either::First(Either::First(Sole::Sole)));
/// `link`: entities, in a vector.
pub const LINK: Slot = Either::Rest(Either::First(Either::Rest(Sole::Sole)));
/// `id`: markers, in a dense vector.
pub const ID: Slot = Either::Rest(Either::Rest(Sole::Sole));
