//! Keys as the components of a storage have them.
ghost use Rattle.std.specs.Prelude.{◌≡◌, ◌==◌, ◌||◌, ℕ, [], not, IsOk, IfOk, OnOk};
ghost use Rattle.std.specs.BTreeSet.{contains};
ghost use Rattle.std.specs.Ordering.{nat_cmp};
ghost use Rattle.storages.specs.Named.{is_named};
ghost use Rattle.key_index.specs.Indexed.{FollowsEvents, Keeps, key_in};

use crate::key_lists::KeyLists;
use crate::key_of::KeyOf;
use hibits::{INDEX_LIMIT, Index};
use std::alloc::{AllocError, Global};
use std::collections::BTreeSet;
use storages::{Component, ComponentEvent, MaskedStorage, UnprotectedStorage};

// Of up to so many events each is compared with those before it, and of more a set is kept.
const FEW: usize = 16;

// The key of the component of an index, if it has one.
fn key_now<T: Component<Storage: UnprotectedStorage<T>>, K: KeyOf<T>>(
    key: &K,
    masked: &MaskedStorage<T>,
    id: Index,
) -> Option<K::Key>
    ensures { result ≡ key_in (K.key key.now) masked.now id }
{
    match masked.get(id) {
        Some(component) => Some(key.key_of(component)),
        None => None,
    }
}

// Whether an index is not in a set yet. It is from then on.
fn is_first(followed: &mut BTreeSet<Index>, id: Index) -> Result<bool, AllocError>
    ensures first { IfOk result (λ first. first ≡ not (contains nat_cmp followed.old id)) }
    ensures seen { OnOk result ((i : ℕ) → contains nat_cmp followed.new i ≡ (contains nat_cmp followed.old i || (id == i))) }
{
    Ok(followed.insert(id)?)
}

// Whether an index stands in events.
fn stands_in(events: &[ComponentEvent], id: Index) -> bool
    ensures { result ≡ is_named id events.now }
{
    for event in events {
        if event.id() == id {
            return true;
        }
    }
    false
}

// Brings the keys of the indices that events are of up to the storage now, each once. It looks for each index among the events before, which takes no memory.
fn follow_few<T: Component<Storage: UnprotectedStorage<T>>, K: KeyOf<T>>(
    lists: &mut KeyLists<K::Key>,
    key: &K,
    events: &[ComponentEvent],
    masked: &MaskedStorage<T>,
) -> Result<(), AllocError>
    ensures ok { OnOk result (FollowsEvents (K.key key.now) events.now lists.old lists.new masked.now) }
    ensures idle { events.now ≡ [] → IsOk result }
{
    for (place, event) in events.iter().enumerate() {
        let id = event.id();
        if id < INDEX_LIMIT && !stands_in(&events[..place], id) {
            let now = key_now(key, masked, id);
            lists.set(id, now)?;
        }
    }
    Ok(())
}

// The same by a set of the indices that were followed: a look at all events before would take long.
fn follow_many<T: Component<Storage: UnprotectedStorage<T>>, K: KeyOf<T>>(
    alloc: Global,
    lists: &mut KeyLists<K::Key>,
    key: &K,
    events: &[ComponentEvent],
    masked: &MaskedStorage<T>,
) -> Result<(), AllocError>
    ensures ok { OnOk result (FollowsEvents (K.key key.now) events.now lists.old lists.new masked.now) }
{
    let mut followed = BTreeSet::new(alloc);
    for event in events {
        let id = event.id();
        if id < INDEX_LIMIT && is_first(&mut followed, id)? {
            let now = key_now(key, masked, id);
            lists.set(id, now)?;
        }
    }
    Ok(())
}

// The same, by what is faster for so many events. Where there are none it takes no memory.
pub(crate) fn follow<T: Component<Storage: UnprotectedStorage<T>>, K: KeyOf<T>>(
    alloc: Global,
    lists: &mut KeyLists<K::Key>,
    key: &K,
    events: &[ComponentEvent],
    masked: &MaskedStorage<T>,
) -> Result<(), AllocError>
    ensures ok { OnOk result (FollowsEvents (K.key key.now) events.now lists.old lists.new masked.now) }
    ensures idle { events.now ≡ [] → IsOk result }
{
    if events.len() <= FEW {
        follow_few(lists, key, events, masked)
    } else {
        follow_many(alloc, lists, key, events, masked)
    }
}

// The keys of all components of a storage.
pub(crate) fn all_keys<T: Component<Storage: UnprotectedStorage<T>>, K: KeyOf<T>>(
    alloc: Global,
    key: &K,
    masked: &MaskedStorage<T>,
) -> Result<KeyLists<K::Key>, AllocError>
    ensures { IfOk result (λ lists. Keeps (K.key key.now) lists masked.now) }
{
    let mut lists = KeyLists::new(alloc);
    let mut walk = masked.mask().iter();
    while let Some(id) = walk.next() {
        let now = key_now(key, masked, id);
        lists.set(id, now)?;
    }
    Ok(lists)
}
