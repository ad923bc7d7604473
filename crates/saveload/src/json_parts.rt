//! Data as a row of plain values.
ghost use Rattle.std.specs.Prelude.{◌≡◌, List, ◌++◌, map, Option, Some, IfOk, OnOk, OnErr, MatchOption, option_map, false};
ghost use Rattle.serde_json.specs.Data.{Data, Items, no_items, item, items_depth};
ghost use Rattle.serde_json.specs.View.{view, items_of, items_view};
ghost use Rattle.serde_json.specs.Written.{items_have_float};
ghost use Rattle.saveload.specs.Json.{Begins};
ghost use Rattle.saveload.specs.JsonParts.{row_json, row_from, Splits, one_parts, one_split};

use crate::json_data::JsonData;
use serde_json::Value;
use std::alloc::{AllocError, Global};

/// Data that is a row of plain values, one after another: numbers, flags and texts, and no array within another.
///
/// So an option of a list of pairs is as flat as a number, and no datum nests too deep to be read. As a
/// [`JsonData`](crate::JsonData) it is the array of its row, which is written and read by way of its value.
pub trait JsonParts: Sized {
    // Its values.
    ghost parts: { Self → List Data };

    // What stands at the front of a row, and the values behind it.
    ghost split: { Items → Option (Self × Items) };

    /// Appends its values to a row, from which it is split off again. An error leaves the row, and maybe some of them behind it.
    fn push_parts(&self, alloc: Global, row: &mut Vec<Value>) -> Result<(), AllocError>
        ensures parts { OnOk result (map view row.new.items ≡ map view row.old.items ++ parts self.now) }
        ensures back { OnOk result (Splits parts split self.now) }
        ensures err { OnErr result (Begins (map view row.old.items) (map view row.new.items)) };

    /// What stands at the front of a row, and the values behind it; or none, where the row has another form. Takes time in the length of what is
    /// split off.
    fn split_parts<'v>(
        alloc: Global,
        row: &'v [Value],
    ) -> Result<Option<(Self, &'v [Value])>, AllocError>
        ensures { IfOk result (λ o. option_map (λ p. (p.0, items_view p.1.now)) o ≡ split (items_view row.now)) };

    // No number has a fraction or an exponent.
    ghost whole: { (x : Self) → items_have_float (items_of (parts x)) ≡ false };

    // No value holds another.
    ghost flat: { (x : Self) → items_depth (items_of (parts x)) ≡ 0 };
}

/// A copy of a datum, by way of its row, in time of the row's length. A type that is `Copy`, a [`SavedText`](crate::SavedText) and a
/// [`SavedVec`](crate::SavedVec) of such are copied at less cost by themselves.
pub fn copy_by_parts<T: JsonParts + Drop>(datum: &T, alloc: Global) -> Result<T, AllocError>
    ensures { IfOk result (λ x. x ≡ datum.now) }
{
    let row = row_value(datum, alloc)?;
    match row_of(alloc, &row)? {
        Some(copy) => Ok(copy),
        None => unreachable!(),
    }
}

// The first value of a row, and those behind it.
pub(crate) fn first_part(row: &[Value]) -> Option<(&Value, &[Value])>
    ensures { MatchOption result (items_view row.now ≡ no_items) (λ p. items_view row.now ≡ item (view p.0.now) (items_view p.1.now)) }
{
    row.split_first()
}

// Appends a datum that is one value.
pub(crate) fn push_one<T: JsonData>(
    part: &T,
    alloc: Global,
    row: &mut Vec<Value>,
) -> Result<(), AllocError>
    ensures parts { OnOk result (map view row.new.items ≡ map view row.old.items ++ one_parts T.json part.now) }
    ensures back { OnOk result (Splits (one_parts T.json) (one_split T.from) part.now) }
    ensures err { OnErr result (row.new.items ≡ row.old.items) }
{
    let value = part.to_value(alloc)?;
    row.push(value)?;
    Ok(())
}

// Splits a datum that is one value off a row.
pub(crate) fn split_one<'v, T: JsonData + Drop>(
    alloc: Global,
    row: &'v [Value],
) -> Result<Option<(T, &'v [Value])>, AllocError>
    ensures { IfOk result (λ o. option_map (λ p. (p.0, items_view p.1.now)) o ≡ one_split T.from (items_view row.now)) }
{
    let Some((first, rest)) = first_part(row) else {
        return Ok(None);
    };
    match T::from_value(alloc, first)? {
        Some(part) => Ok(Some((part, rest))),
        None => Ok(None),
    }
}

// The array of a row.
pub(crate) fn row_value<T: JsonParts>(datum: &T, alloc: Global) -> Result<Value, AllocError>
    ensures value { IfOk result (λ v. view v ≡ row_json T.parts datum.now) }
    ensures back { IfOk result (λ v. row_from T.split (row_json T.parts datum.now) ≡ Some datum.now) }
{
    let mut row = Vec::new(alloc);
    datum.push_parts(alloc, &mut row)?;
    Ok(Value::Array(row))
}

// What an array is, if it is one row and nothing more.
pub(crate) fn row_of<T: JsonParts + Drop>(
    alloc: Global,
    value: &Value,
) -> Result<Option<T>, AllocError>
    ensures { IfOk result (λ o. o ≡ row_from T.split (view value.now)) }
{
    let Some(row) = value.as_array() else {
        return Ok(None);
    };
    let Some((datum, rest)) = T::split_parts(alloc, row.as_slice())? else {
        return Ok(None);
    };
    if first_part(rest).is_none() {
        Ok(Some(datum))
    } else {
        Ok(None)
    }
}
