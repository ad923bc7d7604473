//! Data that is one plain value: a flag, or a number of 64 bits.
ghost use Rattle.std.specs.Prelude.{◌≡◌};

use crate::json_data::JsonData;
use crate::json_parts::{JsonParts, push_one, split_one};
use serde_json::Value;
use std::alloc::{AllocError, Global};

/// `true` or `false`.
impl JsonData for bool {
    ghost use Rattle.saveload.specs.JsonValues.{flag_json, flag_from, flag_whole, flag_shallow};

    ghost json = { flag_json };

    ghost from = { flag_from };

    fn to_value(&self, _alloc: Global) -> Result<Value, AllocError> {
        Ok(Value::Bool(*self))
    }

    fn from_value(_alloc: Global, value: &Value) -> Result<Option<bool>, AllocError> {
        Ok(value.as_bool())
    }

    ghost whole = { flag_whole };

    ghost shallow = { flag_shallow };
}

impl JsonParts for bool {
    ghost use Rattle.saveload.specs.JsonParts.{one_parts, one_split};
    ghost use Rattle.saveload.specs.JsonValues.{flag_json, flag_from, flag_parts_whole, flag_parts_flat};

    ghost parts = { one_parts flag_json };

    ghost split = { one_split flag_from };

    fn push_parts(&self, alloc: Global, row: &mut Vec<Value>) -> Result<(), AllocError> {
        push_one(self, alloc, row)
    }

    fn split_parts<'v>(
        alloc: Global,
        row: &'v [Value],
    ) -> Result<Option<(bool, &'v [Value])>, AllocError> {
        split_one(alloc, row)
    }

    ghost whole = { flag_parts_whole };

    ghost flat = { flag_parts_flat };
}

impl JsonParts for u64 {
    ghost use Rattle.saveload.specs.JsonParts.{one_parts, one_split};
    ghost use Rattle.saveload.specs.JsonNumbers.{id_json, id_from};
    ghost use Rattle.saveload.specs.JsonValues.{id_parts_whole, id_parts_flat};

    ghost parts = { one_parts id_json };

    ghost split = { one_split id_from };

    fn push_parts(&self, alloc: Global, row: &mut Vec<Value>) -> Result<(), AllocError> {
        push_one(self, alloc, row)
    }

    fn split_parts<'v>(
        alloc: Global,
        row: &'v [Value],
    ) -> Result<Option<(u64, &'v [Value])>, AllocError> {
        split_one(alloc, row)
    }

    ghost whole = { id_parts_whole };

    ghost flat = { id_parts_flat };
}

impl JsonParts for i64 {
    ghost use Rattle.saveload.specs.JsonParts.{one_parts, one_split};
    ghost use Rattle.saveload.specs.JsonNumbers.{whole_json, whole_from};
    ghost use Rattle.saveload.specs.JsonValues.{whole_parts_whole, whole_parts_flat};

    ghost parts = { one_parts whole_json };

    ghost split = { one_split whole_from };

    fn push_parts(&self, alloc: Global, row: &mut Vec<Value>) -> Result<(), AllocError> {
        push_one(self, alloc, row)
    }

    fn split_parts<'v>(
        alloc: Global,
        row: &'v [Value],
    ) -> Result<Option<(i64, &'v [Value])>, AllocError> {
        split_one(alloc, row)
    }

    ghost whole = { whole_parts_whole };

    ghost flat = { whole_parts_flat };
}
