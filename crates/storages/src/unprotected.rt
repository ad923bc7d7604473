//! The one contract that every kind of storage meets.
ghost use Rattle.std.specs.Prelude.{◌≡◌, ℕ, [], Some, true, false, length, is_some, IsOk, IsTrue, OnOk, OnErr, IfOk, IfErr, ◌<◌};
ghost use Rattle.std.specs.String.{string_bytes};
ghost use Rattle.std.specs.Borrow.{sem};
ghost use Rattle.std.specs.FinSet as set;
ghost use Rattle.hibits.specs.Left.{left};
ghost use Rattle.storages.specs.declared.event.ComponentEvent.{ComponentEvent};
ghost use Rattle.storages.specs.declared.event.ComponentEvent.TheVariants.{Inserted};
ghost use Rattle.storages.specs.Limit.{IsIndex};
ghost use Rattle.storages.specs.Meaning.{Meaning, Puts, Frees, Keeps, Empties, IsNew, IsReady, HasRoom, has_place, IsWanted, Masks, lends_at};

use crate::event::ComponentEvent;
use hibits::{BitSet, Index};
use std::alloc::{AllocError, Global};

/// A storage as it begins. Ports `specs::storage::TryDefault`.
pub trait TryDefault: Sized {
    // Holds of each value that `try_default` may give.
    ghost IsDefault: { Self → Type 0 };

    // Holds where a first value takes no memory, as one of each kind here.
    ghost TakesNone: { Type 0 };

    /// A first value. It is refused for want of memory alone, with the empty text, and never where it takes none.
    fn try_default(alloc: Global) -> Result<Self, String>
        ensures ok { IfOk result IsDefault }
        ensures err { IfErr result (λ text. string_bytes text ≡ []) }
        ensures succeeds { TakesNone → IsOk result };
}

/// What the states of a storage mean. It has no functions, so that a type which names its storage alone brings none.
pub trait Kind<T> {
    // What a state means.
    ghost meaning: { Self → Meaning T };
}

/// A finite map from indices to components, without the set of its indices. Whoever holds one knows which indices have
/// a component, and calls accordingly: that is asked by condition and not tested.
///
/// Ports `specs::storage::UnprotectedStorage`.
pub trait UnprotectedStorage<T>: Kind<T> + TryDefault + Drop {
    /// Takes every component out, where `has` is the set of the indices that have one. A tracked storage emits one
    /// removal for each, ascending. After an error nothing has changed.
    fn clean(&mut self, has: &BitSet) -> Result<(), AllocError>
        requires { Masks has.now.members (Self.meaning self.old) }
        ensures ok { OnOk result (Empties (Self.meaning self.old) (Self.meaning self.new) (left (λ i. set.contains has.now.members i) 0)) }
        ensures err { OnErr result (Keeps (Self.meaning self.old) (Self.meaning self.new)) }
        ensures succeeds { HasRoom (Self.meaning self.old).room (length (left (λ i. set.contains has.now.members i) 0)) → IsOk result };

    /// The component of an index that has one.
    fn get(&self, id: Index) -> &T
        requires { IsTrue (is_some ((Self.meaning self.now).at id)) }
        ensures { (Self.meaning self.now).at id ≡ Some result.now };

    /// The component of an index that has one, to write to. A tracked storage emits a modification, for which memory
    /// may be refused; then nothing has changed.
    fn get_mut(&mut self, id: Index) -> Result<&mut T, AllocError>
        requires { IsTrue (is_some ((Self.meaning self.old).at id)) }
        ensures* writes_back { sem 𝓛 (lends_at Self.row T.row Self.meaning self.entry id result) }
        ensures value { IfOk result (λ x. (Self.meaning self.old).at id ≡ Some x.now) }
        ensures succeeds { IsReady (Self.meaning self.old) → IsOk result };

    /// Puts a component at an index that has none. Where memory is refused nothing has changed, and the component is
    /// handed back. Where the place of the index is there already, memory is asked for the event alone.
    fn insert(&mut self, id: Index, value: T) -> Result<(), (AllocError, T)>
        requires free { (Self.meaning self.old).is_free id ≡ true }
        requires limit { IsIndex id }
        ensures ok { OnOk result (Puts (Self.meaning self.old) (Self.meaning self.new) id value (ComponentEvent.Inserted id)) }
        ensures err { OnErr result (Keeps (Self.meaning self.old) (Self.meaning self.new)) }
        ensures value_returned { IfErr result (λ e. e.1 ≡ value) }
        ensures succeeds { has_place (Self.meaning self.old) id ≡ true → IsReady (Self.meaning self.old) → IsOk result };

    /// Takes the component of an index that has one out. Memory may be refused for a tracked storage's event; then
    /// nothing has changed.
    fn remove(&mut self, id: Index) -> Result<T, AllocError>
        requires { IsTrue (is_some ((Self.meaning self.old).at id)) }
        ensures value { IfOk result (λ x. (Self.meaning self.old).at id ≡ Some x) }
        ensures ok { OnOk result (Frees (Self.meaning self.old) (Self.meaning self.new) id) }
        ensures err { OnErr result (Keeps (Self.meaning self.old) (Self.meaning self.new)) }
        ensures succeeds { IsReady (Self.meaning self.old) → IsOk result };

    /// Takes the component of an index that has one out and lets it go, in room that is there for the event.
    fn drop(&mut self, id: Index)
        requires present { IsTrue (is_some ((Self.meaning self.old).at id)) }
        requires ready { IsReady (Self.meaning self.old) }
        ensures { Frees (Self.meaning self.old) (Self.meaning self.new) id };

    /// Makes room for the events of the next `n` calls of `insert`, `get_mut`, `remove` and `drop`, of which then only
    /// an `insert` can be refused.
    fn reserve_events(&mut self, n: usize) -> Result<(), AllocError>
        ensures keeps { Keeps (Self.meaning self.old) (Self.meaning self.new) }
        ensures ok { OnOk result (HasRoom (Self.meaning self.new).room n) }
        ensures succeeds { HasRoom (Self.meaning self.old).room n → IsOk result };

    /// Whether a call that emits an event can be refused.
    fn needs_room(&self) -> bool
        ensures { result ≡ is_some (Self.meaning self.now).room };

    // A call that emits an event can be refused exactly while the inner storage's can, or a reader is registered and
    // events are emitted.
    ghost room_is_wanted: { (s : Self) → IsWanted (Self.meaning s) };

    // A first value is empty and has no reader; one that is tracked emits its events.
    ghost default_is_new: { (s : Self) → Self.IsDefault s → IsNew (Self.meaning s) };
}

/// Every type is one, at each number. It says nothing: without a number among its bounds, the check of an `impl Component` for a type that owns
/// memory does not end well.
pub trait Numbered<const N: usize> {}

impl<T, const N: usize> Numbered<N> for T {}

/// A type whose values belong to entities, and the storage that they are kept in. Ports `specs::Component`.
pub trait Component: Numbered<0> {
    /// The kind of storage.
    type Storage: Kind<Self>;
}
