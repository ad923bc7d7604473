//! The places of an array behind its first one, as nested pairs.
ghost use Rattle.std.specs.Prelude.{◌≡◌, true, ◌+◌, ◌<◌, ◌^◌, ◌++◌, ℕ, List, [], ◌∷◌, Option, Some, IfOk, IfSome};
ghost use Rattle.std.specs.Option.{option_zip};
ghost use Rattle.serde_json.specs.Data.{Data, array};
ghost use Rattle.serde_json.specs.View.{view, items_of};
ghost use Rattle.serde_json.specs.Written.{items_text};
ghost use Rattle.saveload.specs.Json.{place_json, place_from, place_at, IsKept, TakesRow};

use crate::json_data::{JsonData, read_place};
use crate::json_text::{after_byte, take_next, take_place};
use serde_json::Value;
use std::alloc::{AllocError, Global};

// Places that follow others: none, or one and those behind it.
pub(crate) trait JsonChain: Sized {
    // How many they are.
    ghost count: { ℕ };

    // Their values.
    ghost places: { Self → List Data };

    // What they are read as, from the place of a number on.
    ghost from: { ℕ → Data → Option Self };

    // The value of each is read as it again.
    ghost Back: { Self → Type 0 };

    // Takes them, up to the end of their array, off the front of a text.
    fn take_rest<'t>(alloc: Global, text: &'t [u8]) -> Result<Option<(Self, &'t [u8])>, AllocError>
        ensures text { IfOk result (λ o. IfSome o (λ p. text.now ≡ items_text true (items_of (places p.0)) ++ p.1.now)) }
        ensures kept { IfOk result (λ o. IfSome o (λ p. IsKept (array (items_of (places p.0))))) }
        ensures back { IfOk result (λ o. IfSome o (λ p. Back p.0)) };

    // What stands in an array from the place of a number on.
    fn read_rest(alloc: Global, value: &Value, number: usize) -> Result<Option<Self>, AllocError>
        requires { number + count < 2 ^ 64 }
        ensures { IfOk result (λ o. o ≡ from number (view value.now)) };
}

impl JsonChain for () {
    ghost count = { 0 };

    ghost places = { λ x. [] };

    ghost from = { λ n d. Some tt };

    ghost Back = { λ x. Unit {0} };

    fn take_rest<'t>(_alloc: Global, text: &'t [u8]) -> Result<Option<((), &'t [u8])>, AllocError> {
        match after_byte(text, b']') {
            Some(rest) => Ok(Some(((), rest))),
            None => Ok(None),
        }
    }

    fn read_rest(_alloc: Global, _value: &Value, _number: usize) -> Result<Option<()>, AllocError> {
        Ok(Some(()))
    }
}

impl<A: JsonData + Drop, R: JsonChain> JsonChain for (Option<A>, R) {
    ghost count = { 1 + R.count };

    ghost places = { λ x. place_json A.json x.0 ∷ R.places x.1 };

    ghost from = { λ n d. option_zip (place_at A.from n d) (R.from (n + 1) d) };

    ghost Back = { λ x. (place_from A.from (place_json A.json x.0) ≡ Some x.0) × R.Back x.1 };

    fn take_rest<'t>(
        alloc: Global,
        text: &'t [u8],
    ) -> Result<Option<(Self, &'t [u8])>, AllocError> {
        let Some((first, behind)) = take_next(alloc, text)? else {
            return Ok(None);
        };
        let Some((others, rest)) = R::take_rest(alloc, behind)? else {
            return Ok(None);
        };
        Ok(Some(((first, others), rest)))
    }

    fn read_rest(alloc: Global, value: &Value, number: usize) -> Result<Option<Self>, AllocError> {
        let Some(first) = read_place(alloc, value, number)? else {
            return Ok(None);
        };
        let Some(others) = R::read_rest(alloc, value, number + 1)? else {
            return Ok(None);
        };
        Ok(Some((first, others)))
    }
}

// Takes an array of a first place and those behind it off the front of a text.
pub(crate) fn take_array<'t, A: JsonData + Drop, R: JsonChain>(
    alloc: Global,
    text: &'t [u8],
) -> Result<Option<((Option<A>, R), &'t [u8])>, AllocError>
    ensures { IfOk result (λ o. IfSome o (λ p. TakesRow (place_json A.json) (place_from A.from) R.places R.Back text.now p.0 p.1.now)) }
{
    let Some(inner) = after_byte(text, b'[') else {
        return Ok(None);
    };
    let Some((first, behind)) = take_place(alloc, inner)? else {
        return Ok(None);
    };
    let Some((others, rest)) = R::take_rest(alloc, behind)? else {
        return Ok(None);
    };
    Ok(Some(((first, others), rest)))
}
