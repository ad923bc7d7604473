//! A datum of two numbers, which is saved as an array of both and writes its text by itself.
ghost use Rattle.std.specs.Prelude.{◌≡◌, IfOk};
ghost use Rattle.saveload.specs.Json.{has_places};
ghost use Rattle.serde_json.specs.View.{view};

use saveload::{EntityData, JsonData, LoadError, SimpleMarker, from_json, to_json};
use serde_json::{Value, json};
use std::alloc::{AllocError, Global};

/// Two numbers.
#[derive(Clone, Copy, Drop)]
pub struct Spot {
    pub x: u64,
    pub y: u64,
}

impl JsonData for Spot {
    ghost use Rattle.callers.specs.Spot.{spot_json, spot_from, spot_whole, spot_shallow};

    ghost json = { spot_json };

    ghost from = { spot_from };

    fn to_value(&self, alloc: Global) -> Result<Value, AllocError> {
        json!(in alloc; [self.x, self.y])
    }

    fn from_value(_alloc: Global, value: &Value) -> Result<Option<Self>, AllocError> {
        let (Some(x), Some(y)) = (value.get(0), value.get(1)) else {
            return Ok(None);
        };
        match (x.as_u64(), y.as_u64()) {
            (Some(x), Some(y)) if has_two(value) => Ok(Some(Spot { x, y })),
            _ => Ok(None),
        }
    }

    fn write(&self, alloc: Global, text: &mut String) -> Result<(), AllocError> {
        text.push_str("[")?;
        self.x.write(alloc, text)?;
        text.push_str(",")?;
        self.y.write(alloc, text)?;
        text.push_str("]")?;
        Ok(())
    }

    fn take<'t>(alloc: Global, text: &'t [u8]) -> Result<Option<(Self, &'t [u8])>, AllocError> {
        let Some((b'[', first)) = text.split_first() else {
            return Ok(None);
        };
        let Some((x, behind)) = u64::take(alloc, first)? else {
            return Ok(None);
        };
        let Some((b',', second)) = behind.split_first() else {
            return Ok(None);
        };
        let Some((y, end)) = u64::take(alloc, second)? else {
            return Ok(None);
        };
        match end.split_first() {
            Some((b']', rest)) => Ok(Some((Spot { x, y }, rest))),
            _ => Ok(None),
        }
    }

    ghost whole = { spot_whole };

    ghost shallow = { spot_shallow };
}

// Whether a value is an array of two.
fn has_two(value: &Value) -> bool
    ensures { result ≡ has_places 2 (view value.now) }
{
    match value.as_array() {
        Some(list) => list.len() == 2,
        None => false,
    }
}

/// What was written of spots is read again.
pub fn written_and_read<T: Drop>(
    alloc: Global,
    list: &[EntityData<SimpleMarker<T>, (Option<Spot>,)>],
) -> Result<Vec<EntityData<SimpleMarker<T>, (Option<Spot>,)>>, LoadError>
    ensures { IfOk result (λ l. l.items ≡ list.now) }
{
    let text = to_json(alloc, list)?;
    from_json(alloc, text.as_str())
}
