//! Options of data as rows: a flag, and what there is.
use crate::json_data::JsonData;
use crate::json_parts::{JsonParts, first_part, push_one, row_of, row_value};
use serde_json::Value;
use std::alloc::{AllocError, Global};

/// A flag, and behind `true` what there is: `[false]`, `[true,5]`.
impl<T: JsonParts + Drop> JsonParts for Option<T> {
    ghost use Rattle.saveload.specs.JsonParts.{option_parts, option_split};
    ghost use Rattle.saveload.specs.PartsKept.{option_whole, option_flat};

    ghost parts = { option_parts T.parts };

    ghost split = { option_split T.split };

    fn push_parts(&self, alloc: Global, row: &mut Vec<Value>) -> Result<(), AllocError> {
        match self {
            Some(datum) => {
                push_one(&true, alloc, row)?;
                datum.push_parts(alloc, row)?;
            }
            None => push_one(&false, alloc, row)?,
        }
        Ok(())
    }

    fn split_parts<'v>(
        alloc: Global,
        row: &'v [Value],
    ) -> Result<Option<(Self, &'v [Value])>, AllocError> {
        let Some((flag, rest)) = first_part(row) else {
            return Ok(None);
        };
        match flag.as_bool() {
            Some(true) => match T::split_parts(alloc, rest)? {
                Some((datum, behind)) => Ok(Some((Some(datum), behind))),
                None => Ok(None),
            },
            Some(false) => Ok(Some((None, rest))),
            None => Ok(None),
        }
    }

    ghost whole = { option_whole T.parts T.whole };

    ghost flat = { option_flat T.parts T.flat };
}

impl<T: JsonParts + Drop> JsonData for Option<T> {
    ghost use Rattle.saveload.specs.JsonParts.{row_json, row_from, option_parts, option_split};
    ghost use Rattle.saveload.specs.PartsKept.{option_whole, option_flat, row_shallow};

    ghost json = { row_json (option_parts T.parts) };

    ghost from = { row_from (option_split T.split) };

    fn to_value(&self, alloc: Global) -> Result<Value, AllocError> {
        row_value(self, alloc)
    }

    fn from_value(alloc: Global, value: &Value) -> Result<Option<Self>, AllocError> {
        row_of(alloc, value)
    }

    ghost whole = { option_whole T.parts T.whole };

    ghost shallow = { λ x. row_shallow (option_parts T.parts x) (option_flat T.parts T.flat x) };
}
