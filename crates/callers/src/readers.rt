//! What the readers of a storage have to read.
ghost use Rattle.std.specs.Prelude.{◌≡◌, ◌∷◌, [], None, Some, true, false, IfSome};
ghost use Rattle.std.specs.FinMap as map;
ghost use Rattle.storages.specs.Limit.{IsIndex};
ghost use Rattle.storages.specs.Unread.{unread_of};
ghost use Rattle.storages.specs.declared.event.ComponentEvent.TheVariants.{Inserted, Modified};

use hibits::Index;
use storages::{Component, ComponentEvent, MaskedStorage, ReaderId, Tracked, WriteStorage};

/// A new reader reads the insertion that came after it, and nothing else.
pub fn insertion_heard<T: Component + Drop>(
    masked: &mut MaskedStorage<T>,
    id: Index,
    value: T,
) -> Option<Vec<ComponentEvent>>
where
    T::Storage: Tracked<T>,
    requires absent { map.get masked.old.map id ≡ None }
    requires limit { IsIndex id }
    requires emission { masked.old.channel.emission ≡ true }
    ensures { IfSome result (λ v. v.items ≡ Inserted id ∷ []) }
{
    let Ok(reader) = masked.register_reader() else {
        return None;
    };
    if masked.insert(id, value).is_err() {
        return None;
    }
    masked.read(&reader).ok()
}

/// A reader that has read all reads an insertion and an event by hand, and one that was registered between reads the
/// second alone.
pub fn both_heard<T: Component + Drop>(
    masked: &mut MaskedStorage<T>,
    first: &ReaderId,
    id: Index,
    value: T,
) -> Option<(Vec<ComponentEvent>, Vec<ComponentEvent>)>
where
    T::Storage: Tracked<T>,
    requires absent { map.get masked.old.map id ≡ None }
    requires limit { IsIndex id }
    requires emission { masked.old.channel.emission ≡ true }
    requires all_read { unread_of first.now masked.old.channel.readers ≡ Some [] }
    ensures first { IfSome result (λ r. r.0.items ≡ Inserted id ∷ Modified id ∷ []) }
    ensures second { IfSome result (λ r. r.1.items ≡ Modified id ∷ []) }
{
    if masked.insert(id, value).is_err() {
        return None;
    }
    let Ok(second) = masked.register_reader() else {
        return None;
    };
    if masked.flag(ComponentEvent::Modified(id)).is_err() {
        return None;
    }
    let Ok(read_by_first) = masked.read(first) else {
        return None;
    };
    let Ok(read_by_second) = masked.read(&second) else {
        return None;
    };
    Some((read_by_first, read_by_second))
}

/// An insertion while emission is off is heard by nobody.
pub fn nothing_heard<T: Component + Drop>(
    masked: &mut MaskedStorage<T>,
    reader: &ReaderId,
    id: Index,
    value: T,
) -> Option<Vec<ComponentEvent>>
where
    T::Storage: Tracked<T>,
    requires absent { map.get masked.old.map id ≡ None }
    requires limit { IsIndex id }
    requires emission { masked.old.channel.emission ≡ false }
    requires all_read { unread_of reader.now masked.old.channel.readers ≡ Some [] }
    ensures { IfSome result (λ v. v.items ≡ []) }
{
    if masked.insert(id, value).is_err() {
        return None;
    }
    masked.read(reader).ok()
}

/// Who has read all of a storage has nothing more to read.
pub fn read_before<T: Component>(
    view: &mut WriteStorage<'_, T>,
    reader: &ReaderId,
) -> Option<Vec<ComponentEvent>>
where
    T::Storage: Tracked<T>,
    ensures { IfSome result (λ v. v.items ≡ []) }
{
    if view.read(reader).is_err() {
        return None;
    }
    view.read(reader).ok()
}
