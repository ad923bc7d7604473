//! Code over the traits of storages, whoever implements them.
ghost use Rattle.std.specs.Prelude.{◌≡◌, ℕ, Some, false, cond, IfSome, IsSome};
ghost use Rattle.std.specs.FinMap as map;
ghost use Rattle.entities.specs.Deaths.{has_index};
ghost use Rattle.entities.specs.Population.{index_of};

use composed::{
    AnyStorage, Component, Entity, MaskedStorage, SliceAccess, UnprotectedStorage, WithComponent,
};

/// The components of a list of entities are gone, and the others are there still.
pub fn dropped_and_gone<A: AnyStorage>(storage: &mut A, list: &[Entity])
    requires { A.IsReadyFor storage.old list.now }
    ensures { (q : ℕ) → A.has storage.new q ≡ cond (has_index list.now q) false (A.has storage.old q) }
{
    storage.drop(list);
}

/// A slice has each component at its index's place.
pub fn slice_of<T: Component<Storage: SliceAccess<T>>>(
    storage: &MaskedStorage<T>,
) -> &[<T::Storage as SliceAccess<T>>::Element]
    ensures { (q : ℕ) → IsSome (map.get storage.now.map q) → T.Storage.item_at storage.now.order result.now q ≡ map.get storage.now.map q }
{
    storage.as_slice()
}

/// The entity that is being built has the component, whatever builder it is.
#[tactic(auto, using(storages::specs::Finds::got_put))]
pub fn put_by_builder<B: WithComponent + Drop, T: Component + Drop>(
    builder: B,
    masked: &mut MaskedStorage<T>,
    component: T,
) -> Option<B>
where
    T::Storage: UnprotectedStorage<T>,
    ensures { IfSome result (λ b. map.get masked.new.map (index_of (B.built b)) ≡ Some component) }
{
    builder.with(masked, component).ok()
}
