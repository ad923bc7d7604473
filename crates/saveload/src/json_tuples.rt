//! Tuples of one to six places as JSON values.
ghost use Rattle.std.specs.Prelude.{◌≡◌};

use crate::json_chain::{JsonChain, take_array};
use crate::json_data::{JsonData, JsonPlaces, is_array_of};
use crate::json_text::{write_next, write_place};
use serde_json::Value;
use std::alloc::{AllocError, Global};

impl<A: JsonData + Drop> JsonPlaces for (Option<A>,) {
    ghost use Rattle.saveload.specs.JsonTuples.{one_json, one_from, one_whole, one_shallow};

    ghost places = { one_json A.json };

    ghost from = { one_from A.from };

    fn write(&self, alloc: Global, text: &mut String) -> Result<(), AllocError> {
        text.push_str("[")?;
        write_place(alloc, &self.0, text)?;
        text.push_str("]")?;
        Ok(())
    }

    fn take<'t>(alloc: Global, text: &'t [u8]) -> Result<Option<(Self, &'t [u8])>, AllocError> {
        let Some((row, rest)) = take_array(alloc, text)? else {
            return Ok(None);
        };
        let (first, ()) = row;
        Ok(Some(((first,), rest)))
    }

    fn from_value(alloc: Global, value: &Value) -> Result<Option<Self>, AllocError> {
        if !is_array_of(value, 1) {
            return Ok(None);
        }
        let Some(row) = JsonChain::read_rest(alloc, value, 0)? else {
            return Ok(None);
        };
        let (first, ()) = row;
        Ok(Some((first,)))
    }

    ghost whole = { one_whole _ A.whole };

    ghost shallow = { one_shallow _ A.shallow };
}

impl<A: JsonData + Drop, B: JsonData + Drop> JsonPlaces for (Option<A>, Option<B>) {
    ghost use Rattle.saveload.specs.JsonTuples.{two_json, two_from, two_whole, two_shallow};

    ghost places = { two_json A.json B.json };

    ghost from = { two_from A.from B.from };

    fn write(&self, alloc: Global, text: &mut String) -> Result<(), AllocError> {
        text.push_str("[")?;
        write_place(alloc, &self.0, text)?;
        write_next(alloc, &self.1, text)?;
        text.push_str("]")?;
        Ok(())
    }

    fn take<'t>(alloc: Global, text: &'t [u8]) -> Result<Option<(Self, &'t [u8])>, AllocError> {
        let Some((row, rest)) = take_array(alloc, text)? else {
            return Ok(None);
        };
        let (first, (second, ())) = row;
        Ok(Some(((first, second), rest)))
    }

    fn from_value(alloc: Global, value: &Value) -> Result<Option<Self>, AllocError> {
        if !is_array_of(value, 2) {
            return Ok(None);
        }
        let Some(row) = JsonChain::read_rest(alloc, value, 0)? else {
            return Ok(None);
        };
        let (first, (second, ())) = row;
        Ok(Some((first, second)))
    }

    ghost whole = { two_whole _ _ A.whole B.whole };

    ghost shallow = { two_shallow _ _ A.shallow B.shallow };
}

impl<A: JsonData + Drop, B: JsonData + Drop, C: JsonData + Drop> JsonPlaces
    for (Option<A>, Option<B>, Option<C>) {
    ghost use Rattle.saveload.specs.JsonTuples.{three_json, three_from, three_whole, three_shallow};

    ghost places = { three_json A.json B.json C.json };

    ghost from = { three_from A.from B.from C.from };

    fn write(&self, alloc: Global, text: &mut String) -> Result<(), AllocError> {
        text.push_str("[")?;
        write_place(alloc, &self.0, text)?;
        write_next(alloc, &self.1, text)?;
        write_next(alloc, &self.2, text)?;
        text.push_str("]")?;
        Ok(())
    }

    fn take<'t>(alloc: Global, text: &'t [u8]) -> Result<Option<(Self, &'t [u8])>, AllocError> {
        let Some((row, rest)) = take_array(alloc, text)? else {
            return Ok(None);
        };
        let (first, (second, (third, ()))) = row;
        Ok(Some(((first, second, third), rest)))
    }

    fn from_value(alloc: Global, value: &Value) -> Result<Option<Self>, AllocError> {
        if !is_array_of(value, 3) {
            return Ok(None);
        }
        let Some(row) = JsonChain::read_rest(alloc, value, 0)? else {
            return Ok(None);
        };
        let (first, (second, (third, ()))) = row;
        Ok(Some((first, second, third)))
    }

    ghost whole = { three_whole _ _ _ A.whole B.whole C.whole };

    ghost shallow = { three_shallow _ _ _ A.shallow B.shallow C.shallow };
}

impl<A: JsonData + Drop, B: JsonData + Drop, C: JsonData + Drop, D: JsonData + Drop> JsonPlaces
    for (Option<A>, Option<B>, Option<C>, Option<D>) {
    ghost use Rattle.saveload.specs.JsonTuples.{four_json, four_from, four_whole, four_shallow};

    ghost places = { four_json A.json B.json C.json D.json };

    ghost from = { four_from A.from B.from C.from D.from };

    fn write(&self, alloc: Global, text: &mut String) -> Result<(), AllocError> {
        text.push_str("[")?;
        write_place(alloc, &self.0, text)?;
        write_next(alloc, &self.1, text)?;
        write_next(alloc, &self.2, text)?;
        write_next(alloc, &self.3, text)?;
        text.push_str("]")?;
        Ok(())
    }

    fn take<'t>(alloc: Global, text: &'t [u8]) -> Result<Option<(Self, &'t [u8])>, AllocError> {
        let Some((row, rest)) = take_array(alloc, text)? else {
            return Ok(None);
        };
        let (first, (second, (third, (fourth, ())))) = row;
        Ok(Some(((first, second, third, fourth), rest)))
    }

    fn from_value(alloc: Global, value: &Value) -> Result<Option<Self>, AllocError> {
        if !is_array_of(value, 4) {
            return Ok(None);
        }
        let Some(row) = JsonChain::read_rest(alloc, value, 0)? else {
            return Ok(None);
        };
        let (first, (second, (third, (fourth, ())))) = row;
        Ok(Some((first, second, third, fourth)))
    }

    ghost whole = { four_whole _ _ _ _ A.whole B.whole C.whole D.whole };

    ghost shallow = { four_shallow _ _ _ _ A.shallow B.shallow C.shallow D.shallow };
}

impl<
    A: JsonData + Drop,
    B: JsonData + Drop,
    C: JsonData + Drop,
    D: JsonData + Drop,
    E: JsonData + Drop,
> JsonPlaces for (Option<A>, Option<B>, Option<C>, Option<D>, Option<E>) {
    ghost use Rattle.saveload.specs.JsonTuples.{five_json, five_from, five_whole, five_shallow};

    ghost places = { five_json A.json B.json C.json D.json E.json };

    ghost from = { five_from A.from B.from C.from D.from E.from };

    fn write(&self, alloc: Global, text: &mut String) -> Result<(), AllocError> {
        text.push_str("[")?;
        write_place(alloc, &self.0, text)?;
        write_next(alloc, &self.1, text)?;
        write_next(alloc, &self.2, text)?;
        write_next(alloc, &self.3, text)?;
        write_next(alloc, &self.4, text)?;
        text.push_str("]")?;
        Ok(())
    }

    fn take<'t>(alloc: Global, text: &'t [u8]) -> Result<Option<(Self, &'t [u8])>, AllocError> {
        let Some((row, rest)) = take_array(alloc, text)? else {
            return Ok(None);
        };
        let (first, (second, (third, (fourth, (fifth, ()))))) = row;
        Ok(Some(((first, second, third, fourth, fifth), rest)))
    }

    fn from_value(alloc: Global, value: &Value) -> Result<Option<Self>, AllocError> {
        if !is_array_of(value, 5) {
            return Ok(None);
        }
        let Some(row) = JsonChain::read_rest(alloc, value, 0)? else {
            return Ok(None);
        };
        let (first, (second, (third, (fourth, (fifth, ()))))) = row;
        Ok(Some((first, second, third, fourth, fifth)))
    }

    ghost whole = { five_whole _ _ _ _ _ A.whole B.whole C.whole D.whole E.whole };

    ghost shallow = { five_shallow _ _ _ _ _ A.shallow B.shallow C.shallow D.shallow E.shallow };
}

impl<
    A: JsonData + Drop,
    B: JsonData + Drop,
    C: JsonData + Drop,
    D: JsonData + Drop,
    E: JsonData + Drop,
    F: JsonData + Drop,
> JsonPlaces
    for (
        Option<A>,
        Option<B>,
        Option<C>,
        Option<D>,
        Option<E>,
        Option<F>,
    ) {
    ghost use Rattle.saveload.specs.JsonTuples.{six_json, six_from, six_whole, six_shallow};

    ghost places = { six_json A.json B.json C.json D.json E.json F.json };

    ghost from = { six_from A.from B.from C.from D.from E.from F.from };

    fn write(&self, alloc: Global, text: &mut String) -> Result<(), AllocError> {
        text.push_str("[")?;
        write_place(alloc, &self.0, text)?;
        write_next(alloc, &self.1, text)?;
        write_next(alloc, &self.2, text)?;
        write_next(alloc, &self.3, text)?;
        write_next(alloc, &self.4, text)?;
        write_next(alloc, &self.5, text)?;
        text.push_str("]")?;
        Ok(())
    }

    fn take<'t>(alloc: Global, text: &'t [u8]) -> Result<Option<(Self, &'t [u8])>, AllocError> {
        let Some((row, rest)) = take_array(alloc, text)? else {
            return Ok(None);
        };
        let (first, (second, (third, (fourth, (fifth, (sixth, ())))))) = row;
        Ok(Some(((first, second, third, fourth, fifth, sixth), rest)))
    }

    fn from_value(alloc: Global, value: &Value) -> Result<Option<Self>, AllocError> {
        if !is_array_of(value, 6) {
            return Ok(None);
        }
        let Some(row) = JsonChain::read_rest(alloc, value, 0)? else {
            return Ok(None);
        };
        let (first, (second, (third, (fourth, (fifth, (sixth, ())))))) = row;
        Ok(Some((first, second, third, fourth, fifth, sixth)))
    }

    ghost whole = { six_whole _ _ _ _ _ _ A.whole B.whole C.whole D.whole E.whole F.whole };

    ghost shallow = { six_shallow _ _ _ _ _ _ A.shallow B.shallow C.shallow D.shallow E.shallow F.shallow };
}
