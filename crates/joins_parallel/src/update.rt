//! Components that are replaced by what threads made of them.
ghost use Rattle.std.specs.Prelude.{◌≡◌, ◌<◌, ◌≤◌, ◌^◌, ℕ, Some, None, true, false, length, List, [], IfOk, IsOk, IsOkAnd, OnOk, OnErr, IsSome, Option, flat_map};
ghost use Rattle.std.specs.Borrow.{Bor};
ghost use Rattle.std.specs.FinMap as map;
ghost use Rattle.std.specs.List.{AllZip, All};
ghost use Rattle.storages.specs.declared.event.ComponentEvent.TheVariants.{Modified};
ghost use Rattle.storages.specs.declared.event.ComponentEvent.{ComponentEvent};
ghost use Rattle.storages.specs.Meaning.{HasRoom};
ghost use Rattle.storages.specs.Slot.{IsSame, Becomes};
ghost use Rattle.joins.specs.Keys.{shared_indices};
ghost use Rattle.joins_parallel.specs.Cutting.{listed, is_at_words};
ghost use Rattle.joins_parallel.specs.Replacing.{Updates, UpdatedAt, MadeAt, given, at_index, PutsEach};

use crate::cut::{Cut, cut_of};
use crate::pieces::{ask_each, values_count};
use hibits::{BitSetAnd, INDEX_LIMIT, Index};
use joins::{Lookup, RepeatableJoin};
use std::alloc::{Alloc, AllocError, Global};
use std::thread::Threads;
use storages::{Component, MaskedStorage, UnprotectedStorage};

/// Puts a value at an index that has a component, in room that is there for the event.
#[inline(always)]
pub(crate) fn replace<T: Component<Storage: UnprotectedStorage<T>> + Drop>(
    storage: &mut MaskedStorage<T>,
    id: Index,
    value: T,
)
    requires present { IsSome (map.get storage.old.map id) }
    requires room { HasRoom storage.old.room 1 }
    ensures becomes { Becomes storage.old storage.new (map.insert storage.old.map id value) (ComponentEvent.Modified id) }
    ensures keys { (q : ℕ) → map.contains_key storage.new.map q ≡ map.contains_key storage.old.map q }
{
    match storage.present_mut(id) {
        Ok(component) => *component = value,
        Err(_) => unreachable!(),
    }
}

/// Puts each value of a list at its index, in turn, in room that is there for the events.
fn write_part<T: Component<Storage: UnprotectedStorage<T>> + Drop>(
    storage: &mut MaskedStorage<T>,
    part: Vec<(Index, T)>,
)
    requires present { All (λ p. map.contains_key storage.old.map p.0 ≡ true) part.items }
    requires room { HasRoom storage.old.room (length part.items) }
    ensures { PutsEach storage.old storage.new part.items }
{
    for (id, value) in part {
        replace(storage, id, value);
    }
}

/// The same with lists side by side.
pub(crate) fn write_all<T: Component<Storage: UnprotectedStorage<T>> + Drop>(
    storage: &mut MaskedStorage<T>,
    parts: Vec<Vec<(Index, T)>>,
)
    requires present { All (λ p. map.contains_key storage.old.map p.0 ≡ true) (flat_map (λ w. w.items) parts.items) }
    requires room { HasRoom storage.old.room (length (flat_map (λ w. w.items) parts.items)) }
    ensures { PutsEach storage.old storage.new (flat_map (λ w. w.items) parts.items) }
{
    for part in parts {
        write_part(storage, part);
    }
}

/// What `f` makes of the component and of what is looked up, at each index, where it makes anything, with its index before it.
fn made_of<
    T: Component<Storage: UnprotectedStorage<T>> + Drop + Send + Sync,
    I,
    V: Lookup<I> + Sync,
    F: Fn(&T, I) -> Option<T> + Sync,
>(
    rt: &(impl Threads + Sync),
    alloc: Global,
    cut: &Cut,
    storage: &MaskedStorage<T>,
    values: &V,
    f: &F,
) -> Result<Vec<Vec<(Index, T)>>, AllocError>
where
    T::Storage: Sync,
    requires called { All (λ i. (x : Bor T) (z : I) → map.get storage.now.map i ≡ Some x.now → V.finds values.now i z → F.pre f.now x z) (listed cut.now) }
    requires present { All (λ i. map.contains_key storage.now.map i ≡ true) (listed cut.now) }
    requires ready { All (λ i. V.can_look values.now i ≡ true) (listed cut.now) }
    ensures made { IfOk result (λ v. (ys : List (Option T)) × AllZip (MadeAt storage.now (V.finds values.now) (F.post f.now)) (listed cut.now) ys × (flat_map (λ w. w.items) v.items ≡ given (listed cut.now) ys)) }
    ensures idle { is_at_words cut.now ≡ false → listed cut.now ≡ [] → IsOkAnd result (λ v. v.items ≡ []) }
{
    let make = |id: Index| -> Option<(Index, T)>
        requires { (map.contains_key storage.now.map id ≡ true) × (V.can_look values.now id ≡ true) × ((x : Bor T) (z : I) → map.get storage.now.map id ≡ Some x.now → V.finds values.now id z → F.pre f.now x z) }
        ensures { (y : Option T) × (x : Bor T) × (z : I) × (map.get storage.entry.now.map id ≡ Some x.now) × V.finds values.entry.now id z × F.post f.entry.now x z y × (result ≡ at_index id y) }
    {
        match f(storage.unprotected_storage().get(id), values.at(id)) {
            Some(value) => Some((id, value)),
            None => None,
        }
    };
    ask_each(rt, alloc, cut, &make)
}

/// Each component at the indices of a storage and of a join becomes what `f` makes of it and of the join's item, where it makes anything.
/// `f` is called with the components at these indices, and with nothing else, in as many threads as there are processors. The indices are listed
/// first, and fewer than 4,096 of them stay in the caller's thread; where they lie in 2,048 words of 64 or more, these words are listed instead. The
/// components are replaced ascending, each by one modification, after all calls. Where the calls of `f` together take less than some 0.5 ms, a
/// loop that writes in place is faster.
///
/// After an error nothing has changed: memory was refused for the answers, or for the events of a tracked storage. Where the two share no index
/// it is not refused. Stands for
/// `specs::join::ParJoin::par_join` over a storage to write to.
pub fn par_update<
    T: Component<Storage: UnprotectedStorage<T>> + Drop + Send + Sync,
    J: RepeatableJoin,
    F: Fn(&T, J::Type) -> Option<T> + Sync + Drop,
>(
    rt: &(impl Threads + Alloc<A = Global> + Sync),
    storage: &mut MaskedStorage<T>,
    join: J,
    f: F,
) -> Result<(), AllocError>
where
    T::Storage: Sync,
    J::Value: Lookup<J::Type> + Sync,
    requires called { (i : ℕ) (x : Bor T) (z : J.Type) → map.get storage.old.map i ≡ Some x.now → J.has join i ≡ true → J.gives join i z → F.pre f x z }
    ensures ok { OnOk result (Updates storage.old storage.new (shared_indices storage.old.map (J.has join)) (J.gives join) (F.post f)) }
    ensures each { OnOk result ((i : ℕ) → i < INDEX_LIMIT → map.contains_key storage.old.map i ≡ true → J.has join i ≡ true → UpdatedAt storage.old storage.new i (J.gives join) (F.post f)) }
    ensures others { OnOk result ((i : ℕ) → J.has join i ≡ false → map.get storage.new.map i ≡ map.get storage.old.map i) }
    ensures err { OnErr result (IsSame storage.old storage.new) }
    ensures idle { shared_indices storage.old.map (J.has join) ≡ [] → IsOk result }
{
    let alloc = rt.alloc();
    let (mask, values) = join.open();
    let cut = cut_of(alloc, BitSetAnd(storage.mask(), mask))?;
    let made = made_of(rt, alloc, &cut, storage, &values, &f)?;
    storage.reserve_events(values_count(&made))?;
    write_all(storage, made);
    Ok(())
}
