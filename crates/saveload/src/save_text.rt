//! Saving as a text, a record at a time.
ghost use Rattle.std.specs.Prelude.{IfOk, IfErr, OnOk, IsSome, string_bytes};
ghost use Rattle.storages.specs.ReadView.{found};
ghost use Rattle.saveload.specs.Conversion.{AllNamed};
ghost use Rattle.saveload.specs.Saved.{IsSavedList, DistinctIds, TellsApart, HoldsReferences, RefusesSave, marked_read};
ghost use Rattle.saveload.specs.Json.{IsTextOf, WritesSome};

use crate::error::SaveError;
use crate::json_data::{JsonData, JsonPlaces};
use crate::json_text::write_record;
use crate::marker::Marker;
use crate::places::SerializeComponents;
use crate::save::{marked, save_one};
use entities::Entity;
use std::alloc::Global;
use storages::ReadStorage;

/// The compact text of the list that [`serialize`](crate::serialize) saves. Each record is written before the next is saved, so no list
/// of them is kept.
///
/// Ports `SerializeComponents::serialize` with a serializer of JSON.
pub fn serialize_to_json<M: Marker + Copy + JsonData, P: SerializeComponents<M>>(
    alloc: Global,
    places: &P,
    markers: &ReadStorage<'_, M>,
) -> Result<String, SaveError>
where
    P::Data: JsonPlaces,
    ensures saved { IfOk result (λ s. IsTextOf M.json M.from P.Data.places P.Data.from
        (IsSavedList P.conversion (λ e. found markers.now e) (λ e. P.values places.now e) (marked_read markers.now)) (string_bytes s)) }
    ensures holds { OnOk result (HoldsReferences P.conversion (λ e. P.values places.now e) (marked_read markers.now)) }
    ensures distinct { TellsApart M.id_of (λ e. found markers.now e) → IfOk result (λ s. IsTextOf M.json M.from P.Data.places P.Data.from (DistinctIds M.id_of) (string_bytes s)) }
    ensures refused { IfErr result (RefusesSave P.conversion (λ e. found markers.now e) (λ e. P.values places.now e) (marked_read markers.now)) }
{
    let list = marked(alloc, markers.fetched_entities(), markers.storage())?;
    let mut text = String::new(alloc);
    write_saved(alloc, places, markers, &list, &mut text)?;
    Ok(text)
}

// Writes the saved list of entities, which are alive and have markers, behind a text.
fn write_saved<M: Marker + Copy + JsonData, P: SerializeComponents<M>>(
    alloc: Global,
    places: &P,
    markers: &ReadStorage<'_, M>,
    list: &[Entity],
    text: &mut String,
) -> Result<(), SaveError>
where
    P::Data: JsonPlaces,
    requires { AllNamed (λ e. found markers.now e) list.now }
    ensures saved { OnOk result (WritesSome M.json M.from P.Data.places P.Data.from
        (IsSavedList P.conversion (λ e. found markers.now e) (λ e. P.values places.now e) list.now) (string_bytes text.old) (string_bytes text.new)) }
    ensures refused { IfErr result (RefusesSave P.conversion (λ e. found markers.now e) (λ e. P.values places.now e) list.now) }
{
    text.push_str("[")?;
    let mut separator = "";
    for e in list {
        text.push_str(separator)?;
        let saved = save_one(alloc, places, markers, *e)?;
        write_record(alloc, &saved, text)?;
        separator = ",";
    }
    text.push_str("]")?;
    Ok(())
}
