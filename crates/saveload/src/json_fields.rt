//! Data that is saved as other data: a struct as the tuple of its fields, or as one of them.
ghost use Rattle.std.specs.Prelude.{◌≡◌, Option, Some, IfOk, IfSome};

use crate::convert::ConvertSaveload;
use crate::error::{LoadError, SaveError};
use crate::json_data::JsonData;
use crate::json_parts::JsonParts;
use crate::marker::Marker;
use entities::Entity;
use serde_json::Value;
use std::alloc::{AllocError, Global};

/// Data that is saved as other data: a struct as the tuple of its fields, or as one of them.
///
/// It is a [`JsonData`](crate::JsonData) and a [`JsonParts`](crate::JsonParts) where what it is saved as is one, and its own data in a
/// [`ConvertSaveload`](crate::ConvertSaveload). Ports `ConvertSaveload` of each type of serde, which is its own data there: what serde derives is
/// written here as the fields, once each way.
///
/// ```
/// impl JsonFields for Pose {
///     type As = (f64, f64);
///     ghost fields = { λ p. (p.x, p.y) };
///     ghost of_fields = { λ f. Some (record { x = f.0; y = f.1 }) };
///     fn fields(&self, _alloc: Global) -> Result<(f64, f64), AllocError> { Ok((self.x, self.y)) }
///     fn of_fields(saved: (f64, f64)) -> Option<Pose> { Some(Pose { x: saved.0, y: saved.1 }) }
/// }
/// ```
pub trait JsonFields: Sized {
    /// What it is saved as.
    type As: Drop;

    // What it is saved as.
    ghost fields: { Self → Self.As };

    // What is made of it, if there is such a datum.
    ghost of_fields: { Self.As → Option Self };

    /// What it is saved as, of which it is made again: a copy of what it holds.
    fn fields(&self, alloc: Global) -> Result<Self::As, AllocError>
        ensures value { IfOk result (λ f. f ≡ fields self.now) }
        ensures back { IfOk result (λ f. of_fields f ≡ Some self.now) };

    /// The datum that is saved so, or none, where there is no such: a load refuses it then.
    fn of_fields(saved: Self::As) -> Option<Self>
        ensures value { result ≡ of_fields saved }
        ensures same { IfSome result (λ x. fields x ≡ saved) };
}

impl<T: JsonFields> JsonData for T
where
    T::As: JsonData,
{
    ghost use Rattle.saveload.specs.JsonFields.{fields_json, fields_from};

    ghost json = { fields_json T.fields T.As.json };

    ghost from = { fields_from T.of_fields T.As.from };

    fn to_value(&self, alloc: Global) -> Result<Value, AllocError> {
        let saved = self.fields(alloc)?;
        saved.to_value(alloc)
    }

    fn write(&self, alloc: Global, text: &mut String) -> Result<(), AllocError> {
        let saved = self.fields(alloc)?;
        saved.write(alloc, text)
    }

    fn take<'t>(alloc: Global, text: &'t [u8]) -> Result<Option<(Self, &'t [u8])>, AllocError> {
        let Some((saved, rest)) = T::As::take(alloc, text)? else {
            return Ok(None);
        };
        match T::of_fields(saved) {
            Some(datum) => Ok(Some((datum, rest))),
            None => Ok(None),
        }
    }

    fn from_value(alloc: Global, value: &Value) -> Result<Option<Self>, AllocError> {
        match T::As::from_value(alloc, value)? {
            Some(saved) => Ok(T::of_fields(saved)),
            None => Ok(None),
        }
    }

    ghost whole = { λ x. T.As.whole (T.fields x) };

    ghost shallow = { λ x. T.As.shallow (T.fields x) };
}

impl<T: JsonFields> JsonParts for T
where
    T::As: JsonParts,
{
    ghost use Rattle.saveload.specs.JsonFields.{fields_parts, fields_split};

    ghost parts = { fields_parts T.fields T.As.parts };

    ghost split = { fields_split T.of_fields T.As.split };

    fn push_parts(&self, alloc: Global, row: &mut Vec<Value>) -> Result<(), AllocError> {
        let saved = self.fields(alloc)?;
        saved.push_parts(alloc, row)
    }

    fn split_parts<'v>(
        alloc: Global,
        row: &'v [Value],
    ) -> Result<Option<(Self, &'v [Value])>, AllocError> {
        let Some((saved, rest)) = T::As::split_parts(alloc, row)? else {
            return Ok(None);
        };
        match T::of_fields(saved) {
            Some(datum) => Ok(Some((datum, rest))),
            None => Ok(None),
        }
    }

    ghost whole = { λ x. T.As.whole (T.fields x) };

    ghost flat = { λ x. T.As.flat (T.fields x) };
}

impl<M: Marker, T: JsonFields + Drop> ConvertSaveload<M> for T {
    ghost use Rattle.saveload.specs.Plain.{plain_conversion, plain_faithful};

    type Data = T;

    ghost conversion = { plain_conversion };

    fn references(&self, alloc: Global) -> Result<Vec<Entity>, AllocError> {
        Ok(Vec::new(alloc))
    }

    fn mentions(alloc: Global, _saved: &T) -> Result<Vec<M>, AllocError> {
        Ok(Vec::new(alloc))
    }

    fn convert_into<F: Fn(Entity) -> Option<M>>(
        &self,
        alloc: Global,
        _ids: F,
    ) -> Result<T, SaveError> {
        let saved = self.fields(alloc)?;
        match T::of_fields(saved) {
            Some(datum) => Ok(datum),
            None => unreachable!(),
        }
    }

    fn convert_from<F: Fn(M) -> Option<Entity>>(
        saved: T,
        _alloc: Global,
        _ids: F,
    ) -> Result<T, LoadError> {
        Ok(saved)
    }

    ghost faithful = { plain_faithful };
}
