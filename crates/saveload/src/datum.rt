//! Components that are a value and nothing more.
ghost use Rattle.std.specs.Prelude.{◌≡◌, Some};

use crate::json_fields::JsonFields;
use crate::json_parts::{JsonParts, copy_by_parts};
use std::alloc::{AllocError, Global};
use std::fmt;
use std::marker::PhantomData;
use storages::{Component, Kind};

/// What a [`Datum`](crate::Datum) with a value `V` stands for, as a unit struct of the user's: it says which storage keeps the data.
///
/// ```
/// pub struct Called;
///
/// impl Plain<SavedText> for Called {
///     type Storage = HashMapStorage<Datum<Self, SavedText>>;
/// }
/// ```
pub trait Plain<V>: Sized {
    /// Keeps the data, as `Component::Storage` keeps other components.
    type Storage: Kind<Datum<Self, V>>;
}

/// A component that is a value, of a kind `R`: data of two kinds are two types of components.
///
/// It is saved as its value, a number, a text, a list or a tuple of such, without a line of the user's. Ports a struct of one field with serde's derives.
pub struct Datum<R, V> {
    /// What it is.
    pub value: V,
    of: PhantomData<R>,
}

impl<R, V: Drop> Drop for Datum<R, V> {
    fn drop(self) {
        let Datum {
            value: _value,
            of: _of,
        } = self;
    }
}

impl<R, V> Datum<R, V> {
    /// The component that is a value.
    pub fn new(value: V) -> Self
        ensures { result.value ≡ value }
    {
        Datum {
            value,
            of: PhantomData,
        }
    }
}

/// It is written as its value.
impl<R, V: fmt::Debug> fmt::Debug for Datum<R, V> {
    ghost debug_output = { λ d. V.debug_output d.value };

    fn fmt<W: fmt::Write>(&self, f: &mut fmt::Formatter<W>) -> fmt::Result {
        self.value.fmt(f)
    }
}

impl<R: Plain<V>, V: Drop> Component for Datum<R, V> {
    type Storage = R::Storage;
}

/// It is saved as its value.
impl<R, V: JsonParts + Drop> JsonFields for Datum<R, V> {
    type As = V;

    ghost fields = { λ d. d.value };

    ghost of_fields = { λ v. Some (record { value = v; of = _ }) };

    fn fields(&self, alloc: Global) -> Result<V, AllocError> {
        copy_by_parts(&self.value, alloc)
    }

    fn of_fields(saved: V) -> Option<Datum<R, V>> {
        Some(Datum::new(saved))
    }
}
