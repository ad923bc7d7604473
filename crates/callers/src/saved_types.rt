//! Components of a game that are saved by their fields: with no data, no conversion and no proof written for them.
ghost use Rattle.std.specs.Prelude.{◌≡◌, Some, IfOk, IfSome};
ghost use Rattle.saveload.specs.Saved.{DistinctIds, TellsApart};
ghost use Rattle.storages.specs.ReadView.{found as seen};

use saveload::{
    EntityData, JsonData, JsonFields, LoadError, Marker, SavedText, SavedVec, SimpleMarker,
    from_json, serialize_to_json, to_json,
};
use std::alloc::{AllocError, Global};
use storages::{Component, DenseVecStorage, ReadStorage};

/// Where an entity is, and which way it looks.
#[derive(Clone, Copy, Drop)]
pub struct Pose {
    pub x: f64,
    pub y: f64,
    pub turn: f32,
}

impl JsonFields for Pose {
    type As = (f64, f64, f32);

    ghost fields = { λ p. (p.x, p.y, p.turn) };

    ghost of_fields = { λ f. Some (record { x = f.0; y = f.1; turn = f.2 }) };

    fn fields(&self, _alloc: Global) -> Result<(f64, f64, f32), AllocError> {
        Ok((self.x, self.y, self.turn))
    }

    fn of_fields(saved: (f64, f64, f32)) -> Option<Pose> {
        Some(Pose {
            x: saved.0,
            y: saved.1,
            turn: saved.2,
        })
    }
}

impl Component for Pose {
    type Storage = DenseVecStorage<Self>;
}

/// What an entity carries.
#[derive(Drop)]
pub struct Bag {
    pub name: SavedText,
    pub slots: SavedVec<Option<u32>>,
}

impl JsonFields for Bag {
    type As = (SavedText, SavedVec<Option<u32>>);

    ghost fields = { λ b. (b.name, b.slots) };

    ghost of_fields = { λ f. Some (record { name = f.0; slots = f.1 }) };

    fn fields(&self, alloc: Global) -> Result<(SavedText, SavedVec<Option<u32>>), AllocError> {
        Ok((self.name.copy(alloc)?, self.slots.copy(alloc)?))
    }

    fn of_fields(saved: (SavedText, SavedVec<Option<u32>>)) -> Option<Bag> {
        Some(Bag {
            name: saved.0,
            slots: saved.1,
        })
    }
}

impl Component for Bag {
    type Storage = DenseVecStorage<Self>;
}

/// How much of an entity is left.
#[derive(Clone, Copy, Drop)]
pub struct Vigour(pub u8);

impl JsonFields for Vigour {
    type As = u8;

    ghost fields = { λ v. v.0 };

    ghost of_fields = { λ n. Some (record { 0 = n }) };

    fn fields(&self, _alloc: Global) -> Result<u8, AllocError> {
        Ok(self.0)
    }

    fn of_fields(saved: u8) -> Option<Vigour> {
        Some(Vigour(saved))
    }
}

/// What was saved of poses and bags is read again, to the very bits of their floats.
pub fn poses_and_bags<T: Drop>(
    alloc: Global,
    list: &[EntityData<SimpleMarker<T>, (Option<Pose>, Option<Bag>)>],
) -> Result<Vec<EntityData<SimpleMarker<T>, (Option<Pose>, Option<Bag>)>>, LoadError>
    ensures { IfOk result (λ l. l.items ≡ list.now) }
{
    let text = to_json(alloc, list)?;
    from_json(alloc, text.as_str())
}

/// What was saved of bits, numbers, characters and arrays is read again.
pub fn marks(
    alloc: Global,
    list: &[EntityData<u64, (Option<[u8; 4]>, Option<(bool, char)>, Option<i16>)>],
) -> Result<Vec<EntityData<u64, (Option<[u8; 4]>, Option<(bool, char)>, Option<i16>)>>, LoadError>
    ensures { IfOk result (λ l. l.items ≡ list.now) }
{
    let text = to_json(alloc, list)?;
    from_json(alloc, text.as_str())
}

/// Any datum is read from its own value.
pub fn read_from_its_value<D: JsonData>(datum: &D, alloc: Global) -> Result<Option<D>, AllocError>
    ensures { IfOk result (λ o. o ≡ Some datum.now) }
{
    let value = datum.to_value(alloc)?;
    D::from_value(alloc, &value)
}

/// What is saved of the poses and bags of a world, by way of a text: the ids of two records differ where those of the markers do.
pub fn poses_and_bags_of_all<M: Marker + Copy + JsonData + Drop>(
    alloc: Global,
    places: &(ReadStorage<'_, Pose>, ReadStorage<'_, Bag>),
    markers: &ReadStorage<'_, M>,
) -> Option<Vec<EntityData<M, (Option<Pose>, Option<Bag>)>>>
    ensures { TellsApart M.id_of (λ e. seen markers.now e) → IfSome result (λ list. DistinctIds M.id_of list.items) }
{
    let Ok(text) = serialize_to_json(alloc, places, markers) else {
        return None;
    };
    from_json(alloc, text.as_str()).ok()
}
