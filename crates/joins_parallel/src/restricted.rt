//! Components that are replaced by what threads made of the storage, paired with each index.
ghost use Rattle.std.specs.Prelude.{◌≡◌, ◌<◌, ℕ, true, false, [], List, IfOk, IsOk, IsOkAnd, OnOk, OnErr, Option, flat_map};
ghost use Rattle.std.specs.FinMap as map;
ghost use Rattle.std.specs.List.{AllZip, All};
ghost use Rattle.joins.specs.Indexed.{Indexed};
ghost use Rattle.joins.specs.Keys.{shared_indices};
ghost use Rattle.joins_parallel.specs.Replacing.{Remakes, RemadeAt, MadeOfPaired, given, at_index};
ghost use Rattle.joins_parallel.specs.Cutting.{listed, is_at_words};
ghost use Rattle.storages.specs.Slot.{IsSame};

use crate::cut::{Cut, cut_of};
use crate::pieces::{ask_each, values_count};
use crate::update::write_all;
use hibits::{BitSetAnd, INDEX_LIMIT, Index};
use joins::{IndexedStorage, Lookup, RepeatableJoin};
use std::alloc::{Alloc, AllocError, Global};
use std::thread::Threads;
use storages::{Component, MaskedStorage, UnprotectedStorage};

/// What makes a component of a storage paired with an index, and of a join's item there. It stands for a closure.
pub trait Remake<T: Component, I> {
    // what it makes
    ghost makes: { Self → Indexed T → I → Option T → Type 0 };

    /// The component that is to stand at the index, or none where the one that is there stays.
    fn remake(&self, paired: &IndexedStorage<'_, T>, item: I) -> Option<T>
        ensures { makes self.now paired.now item result };
}

/// What is made of the storage paired with each index, and of what is looked up there, where anything is, with its index before it.
fn remade_of<T: Component + Drop + Send + Sync, I, V: Lookup<I> + Sync, F: Remake<T, I> + Sync>(
    rt: &(impl Threads + Sync),
    alloc: Global,
    cut: &Cut,
    storage: &MaskedStorage<T>,
    values: &V,
    f: &F,
) -> Result<Vec<Vec<(Index, T)>>, AllocError>
where
    T::Storage: Sync,
    requires present { All (λ i. map.contains_key storage.now.map i ≡ true) (listed cut.now) }
    requires ready { All (λ i. V.can_look values.now i ≡ true) (listed cut.now) }
    ensures made { IfOk result (λ v. (ys : List (Option T)) × AllZip (MadeOfPaired storage.now (V.finds values.now) (F.makes f.now)) (listed cut.now) ys × (flat_map (λ w. w.items) v.items ≡ given (listed cut.now) ys)) }
    ensures idle { is_at_words cut.now ≡ false → listed cut.now ≡ [] → IsOkAnd result (λ v. v.items ≡ []) }
{
    let remake = |id: Index| -> Option<(Index, T)>
        requires { (map.contains_key storage.now.map id ≡ true) × (V.can_look values.now id ≡ true) }
        ensures { (y : Option T) × (x : Indexed T) × (z : I) × (x.slot ≡ storage.entry.now) × (x.index ≡ id) × V.finds values.entry.now id z × F.makes f.entry.now x z y × (result ≡ at_index id y) }
    {
        let paired = IndexedStorage::new(storage, id);
        match f.remake(&paired, values.at(id)) {
            Some(value) => Some((id, value)),
            None => None,
        }
    };
    ask_each(rt, alloc, cut, &remake)
}

/// As `par_update`, where `f` is given the storage paired with the index, to read. After an error nothing has changed. Stands for
/// `specs::storage::Storage::par_restrict_mut`.
pub fn par_restrict_mut<
    T: Component<Storage: UnprotectedStorage<T>> + Drop + Send + Sync,
    J: RepeatableJoin,
    F: Remake<T, J::Type> + Sync + Drop,
>(
    rt: &(impl Threads + Alloc<A = Global> + Sync),
    storage: &mut MaskedStorage<T>,
    join: J,
    f: F,
) -> Result<(), AllocError>
where
    T::Storage: Sync,
    J::Value: Lookup<J::Type> + Sync,
    ensures ok { OnOk result (Remakes storage.old storage.new (shared_indices storage.old.map (J.has join)) (J.gives join) (F.makes f)) }
    ensures each { OnOk result ((i : ℕ) → i < INDEX_LIMIT → map.contains_key storage.old.map i ≡ true → J.has join i ≡ true → RemadeAt storage.old storage.new i (J.gives join) (F.makes f)) }
    ensures others { OnOk result ((i : ℕ) → J.has join i ≡ false → map.get storage.new.map i ≡ map.get storage.old.map i) }
    ensures err { OnErr result (IsSame storage.old storage.new) }
    ensures idle { shared_indices storage.old.map (J.has join) ≡ [] → IsOk result }
{
    let alloc = rt.alloc();
    let (mask, values) = join.open();
    let cut = cut_of(alloc, BitSetAnd(storage.mask(), mask))?;
    let made = remade_of(rt, alloc, &cut, storage, &values, &f)?;
    storage.reserve_events(values_count(&made))?;
    write_all(storage, made);
    Ok(())
}
