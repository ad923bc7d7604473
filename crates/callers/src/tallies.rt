//! What a view to write tells of its storage.
ghost use Rattle.std.specs.Prelude.{◌≡◌, ◌↔◌, IsTrue, IfOk, IfSome, IsSome, length};
ghost use Rattle.std.specs.FinMap as map;
ghost use Rattle.storages.specs.Slot.{indices_of};
ghost use Rattle.specs.specs.Typed.Writing.{storages_of};

use specs::{Component, Core, Has, Index, SliceAccess, Unregistered, Writing};

/// How many components of a type there are, and whether there is none.
pub fn count_of<T: Component, S: Has<T, I>, I>(
    core: &mut Core<S>,
) -> Result<(usize, bool), Unregistered>
    ensures count { IfOk result (λ found. IfSome (S.part core.old.parts.storages) (λ w. found.0 ≡ length (indices_of w))) }
    ensures none { IfOk result (λ found. IfSome (S.part core.old.parts.storages) (λ w. IsTrue found.1 ↔ (w.map ≡ map.empty))) }
    ensures same { core.new ≡ core.old }
{
    let view = core.write_storage::<T, I>()?;
    Ok((view.count(), view.is_empty()))
}

/// Whether an index has a component, by the mask.
pub fn index_is_taken<T: Component, S: Has<T, I>, I>(
    core: &mut Core<S>,
    index: Index,
) -> Result<bool, Unregistered>
    ensures taken { IfOk result (λ found. IfSome (S.part core.old.parts.storages) (λ w. found ≡ map.contains_key w.map index)) }
    ensures same { core.new ≡ core.old }
{
    let view = core.write_storage::<T, I>()?;
    Ok(view.mask().contains(index))
}

/// The slice of the components, of a view that is there.
pub fn slice_through<'a, S: Has<T, I>, T: Component, I>(
    view: &'a Writing<'_, S, T, I>,
) -> &'a [<T::Storage as SliceAccess<T>>::Element]
where
    T::Storage: SliceAccess<T>,
    requires { IsSome (S.part (storages_of view.now)) }
    ensures { IfSome (S.part (storages_of view.now)) (λ w. T.Storage.IsSlice (map.get w.map) w.extent w.order result.now) }
{
    view.as_slice()
}
