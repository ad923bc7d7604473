//! Storages of types of one's own, one of which owns memory.
ghost use Rattle.std.specs.Prelude.{◌≡◌, true, IfSome, OnOk};
ghost use Rattle.std.specs.FinMap as map;
ghost use Rattle.entities.specs.Population.{index_of};
ghost use Rattle.storages.specs.Limit.{IsIndex};
ghost use Rattle.storages.specs.WriteView.{slot};

use entities::{Entity, Index};
use storages::{
    Component, DenseVecStorage, FlaggedStorage, MaskedStorage, NotLent, Replaced, VecStorage,
    WriteStorage,
};

/// A title.
#[derive(Debug, Drop)]
pub struct Title(pub String);

impl Component for Title {
    type Storage = FlaggedStorage<Self, VecStorage<Self>>;
}

/// A weight.
#[derive(Clone, Copy, Debug, Default)]
pub struct Weight(pub u64);

impl Component for Weight {
    type Storage = DenseVecStorage<Self>;
}

/// A living entity has a weight of one, whether it had a weight or not.
pub fn weighs_one(view: &mut WriteStorage<'_, Weight>, e: Entity) -> Result<(), NotLent>
    ensures { OnOk result ((slot view.new).map ≡ map.insert (slot view.old).map (index_of e) (record { 0 = 1 })) }
{
    *view.get_mut_or_default(e)? = Weight(1);
    Ok(())
}

/// What was put at an index is there, whether something was there or not.
#[tactic(auto, using(storages::specs::Finds::got_put))]
pub fn is_titled(titles: &mut MaskedStorage<Title>, id: Index, title: Title) -> Option<bool>
    requires { IsIndex id }
    ensures { IfSome result (λ there. there ≡ true) }
{
    match titles.put(id, title) {
        Ok(_before) => Some(titles.get(id).is_some()),
        Err(_) => None,
    }
}

/// A title that is put at a living entity through a view is found there.
#[tactic(auto, using(storages::specs::Finds::found_put))]
pub fn is_titled_in_view(
    view: &mut WriteStorage<'_, Title>,
    e: Entity,
    title: Title,
) -> Option<bool>
    ensures { IfSome result (λ there. there ≡ true) }
{
    match view.insert(e, title) {
        Ok(_before) => Some(view.get(e).is_some()),
        Err(_) => None,
    }
}

/// The mask of a storage that is taken apart has what the storage had.
pub fn had(weights: MaskedStorage<Weight>, id: Index) -> bool
    ensures { result ≡ map.contains_key weights.map id }
{
    let (mask, _inner) = weights.into_parts();
    mask.contains(id)
}

/// Another title at an index: what was there comes back.
pub fn retitled(titles: &mut MaskedStorage<Title>, id: Index, title: Title) -> Option<bool>
    requires { IsIndex id }
    ensures { IfSome result (λ was. was ≡ map.contains_key titles.old.map id) }
{
    match titles.entry(id).replace(title) {
        Ok(Replaced { before, .. }) => Some(before.is_some()),
        Err(_) => None,
    }
}
