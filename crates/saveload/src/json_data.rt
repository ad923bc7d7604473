//! Saved lists as JSON.
ghost use Rattle.std.specs.Prelude.{◌≡◌, ◌≤◌, ◌⊎◌, List, Option, Some, None, Ok, Err, IfOk, IfErr, IfSome, OnOk, OnErr, string_bytes, option_and_then, option_map, false};
ghost use Rattle.serde_json.specs.Data.{Data, depth, items_depth};
ghost use Rattle.serde_json.specs.Read.{read};
ghost use Rattle.serde_json.specs.View.{view, items_of};
ghost use Rattle.serde_json.specs.Written.{has_float, items_have_float, compact_text};
ghost use Rattle.saveload.specs.Json.{array_json, list_json, list_from, record_from, place_from, place_at, has_places, has_two_members, only, Begins, Writes, Takes};

use crate::entity_data::EntityData;
use crate::error::LoadError;
use crate::json_text::{take_list, write_list};
use serde_json::Value;
use std::alloc::{AllocError, Global};

/// A marker, or a component's data, as a JSON value.
///
/// What serde derives for specs is written by hand here: for each type, or as its fields, by [`JsonFields`](crate::JsonFields).
pub trait JsonData: Sized {
    // The value that it is written as.
    ghost json: { Self → Data };

    // What a value is read as.
    ghost from: { Data → Option Self };

    /// Its value, which is read as it again.
    fn to_value(&self, alloc: Global) -> Result<Value, AllocError>
        ensures value { IfOk result (λ v. view v ≡ json self.now) }
        ensures back { IfOk result (λ v. from (json self.now) ≡ Some self.now) };

    /// What a value is, or none, where it has another form.
    fn from_value(alloc: Global, value: &Value) -> Result<Option<Self>, AllocError>
        ensures { IfOk result (λ o. o ≡ from (view value.now)) };

    /// Writes the compact text of its value behind a text. An error leaves the text, and maybe something behind it.
    ///
    /// A type that writes its text by itself saves the memory of a value.
    fn write(&self, alloc: Global, text: &mut String) -> Result<(), AllocError>
        ensures written { OnOk result (Writes json from self.now (string_bytes text.old) (string_bytes text.new)) }
        ensures err { OnErr result (Begins (string_bytes text.old) (string_bytes text.new)) }
    {
        let value = self.to_value(alloc)?;
        let written = value.to_string(alloc)?;
        text.push_str(written.as_str())?;
        Ok(())
    }

    /// Takes what [`write`](JsonData::write) writes off the front of a text: the data and what stands behind it. None says nothing of the text.
    ///
    /// A type that takes its text by itself saves the memory of a value.
    fn take<'t>(_alloc: Global, _text: &'t [u8]) -> Result<Option<(Self, &'t [u8])>, AllocError>
        ensures { IfOk result (λ o. IfSome o (λ p. Takes json from _text.now p.0 p.1.now)) }
    {
        Ok(None)
    }

    // No number has a fraction or an exponent.
    ghost whole: { (x : Self) → has_float (json x) ≡ false };

    // It nests so deep at most that a list of records can be read.
    ghost shallow: { (x : Self) → depth (json x) ≤ 123 };
}

/// A tuple of one to six places: the data of each storage's component, or none.
pub trait JsonPlaces: Sized {
    // The values of its places.
    ghost places: { Self → List Data };

    // What an array of places is read as.
    ghost from: { Data → Option Self };

    /// Writes the compact text of its array behind a text. An error leaves the text, and maybe something behind it.
    fn write(&self, alloc: Global, text: &mut String) -> Result<(), AllocError>
        ensures written { OnOk result (Writes (array_json places) from self.now (string_bytes text.old) (string_bytes text.new)) }
        ensures err { OnErr result (Begins (string_bytes text.old) (string_bytes text.new)) };

    /// Takes what [`write`](JsonPlaces::write) writes off the front of a text: the places and what stands behind them. None says nothing of the text.
    fn take<'t>(alloc: Global, text: &'t [u8]) -> Result<Option<(Self, &'t [u8])>, AllocError>
        ensures { IfOk result (λ o. IfSome o (λ p. Takes (array_json places) from text.now p.0 p.1.now)) };

    /// What a value is, or none, where it has another form.
    fn from_value(alloc: Global, value: &Value) -> Result<Option<Self>, AllocError>
        ensures { IfOk result (λ o. o ≡ from (view value.now)) };

    ghost whole: { (x : Self) → items_have_float (items_of (places x)) ≡ false };

    ghost shallow: { (x : Self) → items_depth (items_of (places x)) ≤ 124 };
}

/// The compact text of a saved list, which [`from_json`] reads as that list again.
///
/// Takes time in the length of the text.
pub fn to_json<M: JsonData, D: JsonPlaces>(
    alloc: Global,
    list: &[EntityData<M, D>],
) -> Result<String, AllocError>
    ensures text { IfOk result (λ s. string_bytes s ≡ compact_text (list_json M.json D.places list.now)) }
    ensures value { IfOk result (λ s. read (string_bytes s) ≡ Some (list_json M.json D.places list.now)) }
    ensures reads_back { IfOk result (λ s. option_and_then (list_from M.from D.from) (read (string_bytes s)) ≡ Some list.now) }
{
    let mut text = String::new(alloc);
    write_list(alloc, list, &mut text)?;
    Ok(text)
}

/// The list that a text is.
///
/// A text that is no JSON, or whose value is no saved list, is `NotTheForm`. A key given twice takes its last value; a further key, a missing one,
/// a number with a fraction or an exponent, and one out of range are of another form. Nothing nests deeper than 127.
pub fn from_json<M: JsonData + Drop, D: JsonPlaces + Drop>(
    alloc: Global,
    text: &str,
) -> Result<Vec<EntityData<M, D>>, LoadError>
    ensures ok { IfOk result (λ list. option_and_then (list_from M.from D.from) (read text.now) ≡ Some list.items) }
    ensures form { result ≡ Err LoadError.NotTheForm → option_and_then (list_from M.from D.from) (read text.now) ≡ None }
    ensures refused { IfErr result (λ e. (e ≡ LoadError.NotTheForm) ⊎ (e ≡ LoadError.OutOfMemory)) }
{
    // What `to_json` wrote is read record by record, any other text by way of its value.
    if let Some(list) = take_list(alloc, text.as_bytes())? {
        return Ok(list);
    }
    match Value::from_str(alloc, text) {
        Ok(value) => match read_list(alloc, &value)? {
            Some(list) => Ok(list),
            None => Err(LoadError::NotTheForm),
        },
        Err(error) => {
            if error.is_memory() {
                Err(LoadError::OutOfMemory)
            } else {
                Err(LoadError::NotTheForm)
            }
        }
    }
}

// The list that a value is.
fn read_list<M: JsonData + Drop, D: JsonPlaces + Drop>(
    alloc: Global,
    value: &Value,
) -> Result<Option<Vec<EntityData<M, D>>>, AllocError>
    ensures { IfOk result (λ o. option_map (λ l. l.items) o ≡ list_from M.from D.from (view value.now)) }
{
    let Some(values) = value.as_array() else {
        return Ok(None);
    };
    let mut list = Vec::with_capacity(alloc, values.len())?;
    for value in values {
        match read_record(alloc, value)? {
            Some(record) => list.push(record)?,
            None => return Ok(None),
        }
    }
    Ok(Some(list))
}

// The record that a value is.
fn read_record<M: JsonData + Drop, D: JsonPlaces + Drop>(
    alloc: Global,
    value: &Value,
) -> Result<Option<EntityData<M, D>>, AllocError>
    ensures { IfOk result (λ o. o ≡ record_from M.from D.from (view value.now)) }
{
    if !is_pair(value) {
        return Ok(None);
    }
    let (Some(places), Some(marker)) = (value.get("components"), value.get("marker")) else {
        return Ok(None);
    };
    let Some(components) = D::from_value(alloc, places)? else {
        return Ok(None);
    };
    match M::from_value(alloc, marker)? {
        Some(marker) => Ok(Some(EntityData { marker, components })),
        None => Ok(None),
    }
}

// Whether a value is an object of two members.
fn is_pair(value: &Value) -> bool
    ensures { result ≡ has_two_members (view value.now) }
{
    match value.as_object() {
        Some(map) => map.len() == 2,
        None => false,
    }
}

// Whether a value is an array of so many places.
pub(crate) fn is_array_of(value: &Value, count: usize) -> bool
    ensures { result ≡ has_places count (view value.now) }
{
    match value.as_array() {
        Some(list) => list.len() == count,
        None => false,
    }
}

// What the place of a number holds, if it is one.
pub(crate) fn read_place<D: JsonData + Drop>(
    alloc: Global,
    value: &Value,
    number: usize,
) -> Result<Option<Option<D>>, AllocError>
    ensures { IfOk result (λ o. o ≡ place_at D.from number (view value.now)) }
{
    match value.get(number) {
        Some(place) => read_option(alloc, place),
        None => Ok(None),
    }
}

// What a place holds, if it is one.
fn read_option<D: JsonData + Drop>(
    alloc: Global,
    value: &Value,
) -> Result<Option<Option<D>>, AllocError>
    ensures { IfOk result (λ o. o ≡ place_from D.from (view value.now)) }
{
    if value.is_null() {
        return Ok(Some(None));
    }
    match only_item(value) {
        Some(inner) => Ok(D::from_value(alloc, inner)?.map(Some)),
        None => Ok(None),
    }
}

// The item of an array of exactly one.
fn only_item(value: &Value) -> Option<&Value>
    ensures { option_map (λ v. view v.now) result ≡ only (view value.now) }
{
    match value.as_array() {
        Some(list) if list.len() == 1 => Some(&list[0]),
        _ => None,
    }
}
