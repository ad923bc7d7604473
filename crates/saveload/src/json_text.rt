//! The compact text of saved lists, a record at a time.
ghost use Rattle.std.specs.Prelude.{◌≡◌, [], ◌∷◌, ◌++◌, IfOk, IfSome, OnOk, OnErr, string_bytes};
ghost use Rattle.serde_json.specs.Written.{compact_text};
ghost use Rattle.saveload.specs.Json.{list_json, list_from, record_json, record_from, place_json, place_from, Begins, IsRead, Writes, Takes};

use crate::entity_data::EntityData;
use crate::json_data::{JsonData, JsonPlaces};
use std::alloc::{AllocError, Global};

// Writes a place behind a text.
#[inline(always)]
pub(crate) fn write_place<D: JsonData>(
    alloc: Global,
    place: &Option<D>,
    text: &mut String,
) -> Result<(), AllocError>
    ensures text { OnOk result (string_bytes text.new ≡ string_bytes text.old ++ compact_text (place_json D.json place.now)) }
    ensures read { OnOk result (IsRead (place_json D.json) (place_from D.from) place.now) }
    ensures err { OnErr result (Begins (string_bytes text.old) (string_bytes text.new)) }
{
    match place {
        Some(data) => {
            text.push_str("[")?;
            data.write(alloc, text)?;
            text.push_str("]")
        }
        None => text.push_str("null"),
    }
}

// Writes a place that follows another behind a text.
#[inline(always)]
pub(crate) fn write_next<D: JsonData>(
    alloc: Global,
    place: &Option<D>,
    text: &mut String,
) -> Result<(), AllocError>
    ensures text { OnOk result (string_bytes text.new ≡ string_bytes text.old ++ (44 ∷ compact_text (place_json D.json place.now))) }
    ensures read { OnOk result (IsRead (place_json D.json) (place_from D.from) place.now) }
    ensures err { OnErr result (Begins (string_bytes text.old) (string_bytes text.new)) }
{
    match place {
        Some(data) => {
            text.push_str(",[")?;
            data.write(alloc, text)?;
            text.push_str("]")
        }
        None => text.push_str(",null"),
    }
}

// Writes a record behind a text.
pub(crate) fn write_record<M: JsonData, D: JsonPlaces>(
    alloc: Global,
    saved: &EntityData<M, D>,
    text: &mut String,
) -> Result<(), AllocError>
    ensures { OnOk result (Writes (record_json M.json D.places) (record_from M.from D.from) saved.now (string_bytes text.old) (string_bytes text.new)) }
{
    text.push_str("{\"components\":")?;
    saved.components.write(alloc, text)?;
    text.push_str(",\"marker\":")?;
    saved.marker.write(alloc, text)?;
    text.push_str("}")?;
    Ok(())
}

// Writes a list behind a text.
pub(crate) fn write_list<M: JsonData, D: JsonPlaces>(
    alloc: Global,
    list: &[EntityData<M, D>],
    text: &mut String,
) -> Result<(), AllocError>
    ensures { OnOk result (Writes (list_json M.json D.places) (list_from M.from D.from) list.now (string_bytes text.old) (string_bytes text.new)) }
{
    text.push_str("[")?;
    let mut separator = "";
    for record in list {
        text.push_str(separator)?;
        write_record(alloc, record, text)?;
        separator = ",";
    }
    text.push_str("]")?;
    Ok(())
}

// What stands behind a front.
#[inline(always)]
pub(crate) fn after<'t>(text: &'t [u8], front: &str) -> Option<&'t [u8]>
    ensures { IfSome result (λ rest. text.now ≡ front.now ++ rest.now) }
{
    text.strip_prefix(front.as_bytes())
}

// What stands behind a first byte.
#[inline(always)]
pub(crate) fn after_byte(text: &[u8], byte: u8) -> Option<&[u8]>
    ensures { IfSome result (λ rest. text.now ≡ byte ∷ rest.now) }
{
    match text.split_first() {
        Some((first, rest)) if *first == byte => Some(rest),
        _ => None,
    }
}

// Takes a place off the front of a text.
#[inline(always)]
pub(crate) fn take_place<'t, D: JsonData + Drop>(
    alloc: Global,
    text: &'t [u8],
) -> Result<Option<(Option<D>, &'t [u8])>, AllocError>
    ensures { IfOk result (λ o. IfSome o (λ p. Takes (place_json D.json) (place_from D.from) text.now p.0 p.1.now)) }
{
    let Some(inner) = after_byte(text, b'[') else {
        return match after(text, "null") {
            Some(rest) => Ok(Some((None, rest))),
            None => Ok(None),
        };
    };
    let Some((data, behind)) = D::take(alloc, inner)? else {
        return Ok(None);
    };
    match after_byte(behind, b']') {
        Some(rest) => Ok(Some((Some(data), rest))),
        None => Ok(None),
    }
}

// Takes a place that follows another off the front of a text.
#[inline(always)]
pub(crate) fn take_next<'t, D: JsonData + Drop>(
    alloc: Global,
    text: &'t [u8],
) -> Result<Option<(Option<D>, &'t [u8])>, AllocError>
    ensures text { IfOk result (λ o. IfSome o (λ p. text.now ≡ 44 ∷ (compact_text (place_json D.json p.0) ++ p.1.now))) }
    ensures read { IfOk result (λ o. IfSome o (λ p. IsRead (place_json D.json) (place_from D.from) p.0)) }
{
    match after_byte(text, b',') {
        Some(rest) => take_place(alloc, rest),
        None => Ok(None),
    }
}

// Takes a record off the front of a text.
fn take_record<'t, M: JsonData + Drop, D: JsonPlaces + Drop>(
    alloc: Global,
    text: &'t [u8],
) -> Result<Option<(EntityData<M, D>, &'t [u8])>, AllocError>
    ensures { IfOk result (λ o. IfSome o (λ p. Takes (record_json M.json D.places) (record_from M.from D.from) text.now p.0 p.1.now)) }
{
    let Some(first) = after(text, "{\"components\":") else {
        return Ok(None);
    };
    let Some((components, behind)) = D::take(alloc, first)? else {
        return Ok(None);
    };
    let Some(second) = after(behind, ",\"marker\":") else {
        return Ok(None);
    };
    let Some((marker, end)) = M::take(alloc, second)? else {
        return Ok(None);
    };
    match after_byte(end, b'}') {
        Some(rest) => Ok(Some((EntityData { marker, components }, rest))),
        None => Ok(None),
    }
}

// The list of a text, if it is what is written of one. None says nothing of the text.
pub(crate) fn take_list<M: JsonData + Drop, D: JsonPlaces + Drop>(
    alloc: Global,
    text: &[u8],
) -> Result<Option<Vec<EntityData<M, D>>>, AllocError>
    ensures { IfOk result (λ o. IfSome o (λ l. Takes (list_json M.json D.places) (list_from M.from D.from) text.now l.items [])) }
{
    let Some(mut rest) = after_byte(text, b'[') else {
        return Ok(None);
    };
    let mut list = Vec::new(alloc);
    let mut separator = "";
    while rest != "]".as_bytes() {
        let Some(next) = after(rest, separator) else {
            return Ok(None);
        };
        let Some((record, behind)) = take_record(alloc, next)? else {
            return Ok(None);
        };
        list.push(record)?;
        separator = ",";
        rest = behind;
    }
    Ok(Some(list))
}
