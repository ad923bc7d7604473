//! The storage of one component type, within a struct of storages.
ghost use Rattle.std.specs.Prelude.{◌≡◌, ◌⊎◌, Option, Some, None, Ok, MatchOption, IfOk, IfErr};
ghost use Rattle.std.specs.Borrow.{sem};
ghost use Rattle.std.specs.Option.{option_map};
ghost use Rattle.storages.specs.Slot as masked;
ghost use Rattle.specs.specs.Typed.Field.{field_column};
ghost use Rattle.specs.specs.World.Lending.{LendsPart};
ghost use Rattle.specs.specs.Typed.Shows.{column_as};

use crate::slots::Held;
use storages::{Component, MaskedStorage};

/// A struct with a part of a type, or none, at a place.
pub trait Field<M, I>: Sized {
    ghost part: { Self → Option M };

    ghost with_part: { Self → M → Self };

    /// The part, or none.
    fn field(&self) -> Option<&M>
        ensures { MatchOption result (part self.now ≡ None) (λ s. part self.now ≡ Some s.now) };

    /// The part, to write to.
    fn field_mut(&mut self) -> Option<&mut M>
        ensures* writes_back { sem 𝓛 (LendsPart Self.row M.row self.entry result (with_part self.old)) }
        ensures value { MatchOption result (part self.old ≡ None) (λ s. part self.old ≡ Some s.now) };

    /// Puts another part.
    fn set_field(&mut self, other: M)
        ensures { self.new ≡ with_part self.old other };

    ghost puts: { (s : Self) (w : M) → part (with_part s w) ≡ Some w };
}

/// A struct of storages with one of a component type.
pub trait Has<T: Component, I>: Held + Field<MaskedStorage<T>, I> {
    /// The component type's slot.
    ghost the_slot: { Self.Slot };

    /// A component as a value of any slot.
    ghost as_value: { T → Self.Value };

    /// The component type's slot.
    fn slot() -> Self::Slot
        ensures { result ≡ the_slot };

    /// A component as a value of any slot.
    fn value(component: T) -> Self::Value
        ensures { result ≡ as_value component };

    /// The component that a value is, or the value again where it is of another slot.
    fn component(value: Self::Value) -> Result<T, Self::Value>
        ensures wrapped { (t : T) → value ≡ as_value t → result ≡ Ok t }
        ensures ok { IfOk result (λ t. value ≡ as_value t) }
        ensures err { IfErr result (λ v. v ≡ value) };

    /// The field is what the slot's calls see.
    ghost sees: { (s : Self) → Self.table s the_slot ≡ option_map (column_as as_value) (field_column (Self.part s)) };

    /// Another storage in the field changes no other slot.
    ghost only: { (s : Self) (w : masked.Slot T) (k : Self.Slot) → (k ≡ the_slot) ⊎ (Self.table (Self.with_part s w) k ≡ Self.table s k) };

    /// Another storage in the field takes no id and gives none back.
    ghost keeps_ids: { (s : Self) (w : masked.Slot T) → Self.ids (Self.with_part s w) ≡ Self.ids s };

    ghost places: { (t : T) → Self.place (as_value t) ≡ the_slot };

    /// Components whose values are one are one.
    ghost one_to_one: { (t u : T) → as_value t ≡ as_value u → t ≡ u };
}

/// The slot of a component type.
pub fn slot<T: Component, S: Has<T, I>, I>() -> S::Slot
    ensures { result ≡ S.the_slot }
{
    S::slot()
}

/// A component as a value.
pub fn value<T: Component, S: Has<T, I>, I>(component: T) -> S::Value
    ensures { result ≡ S.as_value component }
{
    S::value(component)
}

/// The component that a value is, or the value again where it is of another component type.
pub fn component<T: Component, S: Has<T, I>, I>(value: S::Value) -> Result<T, S::Value>
    ensures wrapped { (t : T) → value ≡ S.as_value t → result ≡ Ok t }
    ensures ok { IfOk result (λ t. value ≡ S.as_value t) }
    ensures err { IfErr result (λ v. v ≡ value) }
{
    S::component(value)
}
