//! Tuples of two to four data as rows: the values of one behind those of another.
ghost use Rattle.std.specs.Prelude.{◌≡◌};

use crate::json_data::JsonData;
use crate::json_parts::{JsonParts, row_of, row_value};
use serde_json::Value;
use std::alloc::{AllocError, Global};

impl<A: JsonParts + Drop, B: JsonParts + Drop> JsonParts for (A, B) {
    ghost use Rattle.saveload.specs.JsonParts.{pair_parts, pair_split};
    ghost use Rattle.saveload.specs.PartsKept.{pair_whole, pair_flat};

    ghost parts = { pair_parts A.parts B.parts };

    ghost split = { pair_split A.split B.split };

    fn push_parts(&self, alloc: Global, row: &mut Vec<Value>) -> Result<(), AllocError> {
        self.0.push_parts(alloc, row)?;
        self.1.push_parts(alloc, row)?;
        Ok(())
    }

    fn split_parts<'v>(
        alloc: Global,
        row: &'v [Value],
    ) -> Result<Option<(Self, &'v [Value])>, AllocError> {
        let Some((first, after_first)) = A::split_parts(alloc, row)? else {
            return Ok(None);
        };
        let Some((second, rest)) = B::split_parts(alloc, after_first)? else {
            return Ok(None);
        };
        Ok(Some(((first, second), rest)))
    }

    ghost whole = { pair_whole A.parts B.parts A.whole B.whole };

    ghost flat = { pair_flat A.parts B.parts A.flat B.flat };
}

impl<A: JsonParts + Drop, B: JsonParts + Drop> JsonData for (A, B) {
    ghost use Rattle.saveload.specs.JsonParts.{row_json, row_from, pair_parts, pair_split};
    ghost use Rattle.saveload.specs.PartsKept.{pair_whole, pair_flat, row_shallow};

    ghost json = { row_json (pair_parts A.parts B.parts) };

    ghost from = { row_from (pair_split A.split B.split) };

    fn to_value(&self, alloc: Global) -> Result<Value, AllocError> {
        row_value(self, alloc)
    }

    fn from_value(alloc: Global, value: &Value) -> Result<Option<Self>, AllocError> {
        row_of(alloc, value)
    }

    ghost whole = { pair_whole A.parts B.parts A.whole B.whole };

    ghost shallow = { λ x. row_shallow (pair_parts A.parts B.parts x) (pair_flat A.parts B.parts A.flat B.flat x) };
}

impl<A: JsonParts + Drop, B: JsonParts + Drop, C: JsonParts + Drop> JsonParts for (A, B, C) {
    ghost use Rattle.saveload.specs.JsonParts.{three_parts, three_split};
    ghost use Rattle.saveload.specs.PartsKept.{three_parts_whole, three_parts_flat};

    ghost parts = { three_parts A.parts B.parts C.parts };

    ghost split = { three_split A.split B.split C.split };

    fn push_parts(&self, alloc: Global, row: &mut Vec<Value>) -> Result<(), AllocError> {
        self.0.push_parts(alloc, row)?;
        self.1.push_parts(alloc, row)?;
        self.2.push_parts(alloc, row)?;
        Ok(())
    }

    fn split_parts<'v>(
        alloc: Global,
        row: &'v [Value],
    ) -> Result<Option<(Self, &'v [Value])>, AllocError> {
        let Some((first, after_first)) = A::split_parts(alloc, row)? else {
            return Ok(None);
        };
        let Some((second, after_second)) = B::split_parts(alloc, after_first)? else {
            return Ok(None);
        };
        let Some((third, rest)) = C::split_parts(alloc, after_second)? else {
            return Ok(None);
        };
        Ok(Some(((first, second, third), rest)))
    }

    ghost whole = { three_parts_whole A.parts B.parts C.parts A.whole B.whole C.whole };

    ghost flat = { three_parts_flat A.parts B.parts C.parts A.flat B.flat C.flat };
}

impl<A: JsonParts + Drop, B: JsonParts + Drop, C: JsonParts + Drop> JsonData for (A, B, C) {
    ghost use Rattle.saveload.specs.JsonParts.{row_json, row_from, three_parts, three_split};
    ghost use Rattle.saveload.specs.PartsKept.{three_parts_whole, three_parts_flat, row_shallow};

    ghost json = { row_json (three_parts A.parts B.parts C.parts) };

    ghost from = { row_from (three_split A.split B.split C.split) };

    fn to_value(&self, alloc: Global) -> Result<Value, AllocError> {
        row_value(self, alloc)
    }

    fn from_value(alloc: Global, value: &Value) -> Result<Option<Self>, AllocError> {
        row_of(alloc, value)
    }

    ghost whole = { three_parts_whole A.parts B.parts C.parts A.whole B.whole C.whole };

    ghost shallow = { λ x. row_shallow (three_parts A.parts B.parts C.parts x) (three_parts_flat A.parts B.parts C.parts A.flat B.flat C.flat x) };
}

impl<A: JsonParts + Drop, B: JsonParts + Drop, C: JsonParts + Drop, D: JsonParts + Drop> JsonParts
    for (A, B, C, D) {
    ghost use Rattle.saveload.specs.JsonParts.{four_parts, four_split};
    ghost use Rattle.saveload.specs.PartsKept.{four_parts_whole, four_parts_flat};

    ghost parts = { four_parts A.parts B.parts C.parts D.parts };

    ghost split = { four_split A.split B.split C.split D.split };

    fn push_parts(&self, alloc: Global, row: &mut Vec<Value>) -> Result<(), AllocError> {
        self.0.push_parts(alloc, row)?;
        self.1.push_parts(alloc, row)?;
        self.2.push_parts(alloc, row)?;
        self.3.push_parts(alloc, row)?;
        Ok(())
    }

    fn split_parts<'v>(
        alloc: Global,
        row: &'v [Value],
    ) -> Result<Option<(Self, &'v [Value])>, AllocError> {
        let Some((first, after_first)) = A::split_parts(alloc, row)? else {
            return Ok(None);
        };
        let Some((second, after_second)) = B::split_parts(alloc, after_first)? else {
            return Ok(None);
        };
        let Some((third, after_third)) = C::split_parts(alloc, after_second)? else {
            return Ok(None);
        };
        let Some((fourth, rest)) = D::split_parts(alloc, after_third)? else {
            return Ok(None);
        };
        Ok(Some(((first, second, third, fourth), rest)))
    }

    ghost whole = { four_parts_whole A.parts B.parts C.parts D.parts A.whole B.whole C.whole D.whole };

    ghost flat = { four_parts_flat A.parts B.parts C.parts D.parts A.flat B.flat C.flat D.flat };
}

impl<A: JsonParts + Drop, B: JsonParts + Drop, C: JsonParts + Drop, D: JsonParts + Drop> JsonData
    for (A, B, C, D) {
    ghost use Rattle.saveload.specs.JsonParts.{row_json, row_from, four_parts, four_split};
    ghost use Rattle.saveload.specs.PartsKept.{four_parts_whole, four_parts_flat, row_shallow};

    ghost json = { row_json (four_parts A.parts B.parts C.parts D.parts) };

    ghost from = { row_from (four_split A.split B.split C.split D.split) };

    fn to_value(&self, alloc: Global) -> Result<Value, AllocError> {
        row_value(self, alloc)
    }

    fn from_value(alloc: Global, value: &Value) -> Result<Option<Self>, AllocError> {
        row_of(alloc, value)
    }

    ghost whole = { four_parts_whole A.parts B.parts C.parts D.parts A.whole B.whole C.whole D.whole };

    ghost shallow = { λ x. row_shallow (four_parts A.parts B.parts C.parts D.parts x) (four_parts_flat A.parts B.parts C.parts D.parts A.flat B.flat C.flat D.flat x) };
}
