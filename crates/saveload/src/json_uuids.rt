//! Markers that are identifiers of sixteen bytes, as JSON values.
ghost use Rattle.std.specs.Prelude.{◌≡◌};
ghost use Rattle.saveload.specs.JsonUuids.{uuid_of_text};

use crate::json_data::JsonData;
use crate::uuids::UuidMarker;
use serde_json::Value;
use std::alloc::{AllocError, Global};
use uuid::Uuid;

impl<R> JsonData for UuidMarker<R> {
    ghost use Rattle.saveload.specs.JsonUuids.{uuid_json, uuid_from, uuid_whole, uuid_shallow};

    ghost json = { uuid_json };

    ghost from = { uuid_from };

    fn to_value(&self, alloc: Global) -> Result<Value, AllocError> {
        let mut buffer = Uuid::encode_buffer();
        let text = self.uuid().hyphenated().encode_lower(&mut buffer);
        Ok(Value::String(String::from_str(alloc, text)?))
    }

    fn from_value(_alloc: Global, value: &Value) -> Result<Option<Self>, AllocError> {
        match value.as_str() {
            Some(text) => Ok(read_uuid(text).map(|uuid| UuidMarker::new(uuid))),
            None => Ok(None),
        }
    }

    ghost whole = { uuid_whole };

    ghost shallow = { uuid_shallow };
}

// The identifier that is written as a text.
#[tactic(auto, using(crate::proofs::JsonTexts::not_written))]
fn read_uuid(text: &str) -> Option<Uuid>
    ensures { result ≡ uuid_of_text text.now }
{
    match Uuid::parse_str(text) {
        Ok(uuid) => {
            let mut buffer = Uuid::encode_buffer();
            if uuid.hyphenated().encode_lower(&mut buffer) == text {
                Some(uuid)
            } else {
                None
            }
        }
        Err(_) => None,
    }
}
