//! Numbers, and markers that are numbers, as JSON values.
ghost use Rattle.std.specs.Prelude.{◌≡◌, IfSome, OnOk, OnErr, string_bytes};
ghost use Rattle.saveload.specs.Json.{Begins, Writes, Takes};
ghost use Rattle.saveload.specs.JsonNumbers.{id_json, id_from, whole_json, whole_from};

use crate::json_data::JsonData;
use crate::json_text::after;
use crate::marker::Marker;
use crate::simple::SimpleMarker;
use itoa::Buffer;
use serde_json::Value;
use std::alloc::{AllocError, Global};

impl JsonData for u64 {
    ghost use Rattle.saveload.specs.JsonNumbers.{id_json, id_from, id_whole, id_shallow};

    ghost json = { id_json };

    ghost from = { id_from };

    fn to_value(&self, _alloc: Global) -> Result<Value, AllocError> {
        Ok(Value::from(*self))
    }

    fn write(&self, _alloc: Global, text: &mut String) -> Result<(), AllocError> {
        write_id(*self, text)
    }

    fn take<'t>(_alloc: Global, text: &'t [u8]) -> Result<Option<(u64, &'t [u8])>, AllocError> {
        let number = leading(text);
        match after_id(number, text) {
            Some(rest) => Ok(Some((number, rest))),
            None => Ok(None),
        }
    }

    fn from_value(_alloc: Global, value: &Value) -> Result<Option<u64>, AllocError> {
        Ok(value.as_u64())
    }

    ghost whole = { id_whole };

    ghost shallow = { id_shallow };
}

impl JsonData for i64 {
    ghost use Rattle.saveload.specs.JsonNumbers.{whole_json, whole_from, whole_whole, whole_shallow};

    ghost json = { whole_json };

    ghost from = { whole_from };

    fn to_value(&self, _alloc: Global) -> Result<Value, AllocError> {
        Ok(Value::from(*self))
    }

    fn write(&self, _alloc: Global, text: &mut String) -> Result<(), AllocError> {
        write_whole(*self, text)
    }

    fn take<'t>(_alloc: Global, text: &'t [u8]) -> Result<Option<(i64, &'t [u8])>, AllocError> {
        let number = leading_signed(text);
        match after_whole(number, text) {
            Some(rest) => Ok(Some((number, rest))),
            None => Ok(None),
        }
    }

    fn from_value(_alloc: Global, value: &Value) -> Result<Option<i64>, AllocError> {
        Ok(value.as_i64())
    }

    ghost whole = { whole_whole };

    ghost shallow = { whole_shallow };
}

impl<T> JsonData for SimpleMarker<T> {
    ghost use Rattle.saveload.specs.JsonNumbers.{marker_json, marker_from, id_whole, id_shallow};

    ghost json = { marker_json };

    ghost from = { marker_from };

    fn to_value(&self, _alloc: Global) -> Result<Value, AllocError> {
        Ok(Value::from(self.id()))
    }

    fn write(&self, alloc: Global, text: &mut String) -> Result<(), AllocError> {
        self.id().write(alloc, text)
    }

    fn take<'t>(alloc: Global, text: &'t [u8]) -> Result<Option<(Self, &'t [u8])>, AllocError> {
        match u64::take(alloc, text)? {
            Some((id, rest)) => Ok(Some((SimpleMarker::of(id), rest))),
            None => Ok(None),
        }
    }

    fn from_value(_alloc: Global, value: &Value) -> Result<Option<Self>, AllocError> {
        Ok(value.as_u64().map(|id| SimpleMarker::of(id)))
    }

    ghost whole = { λ m. id_whole m.id };

    ghost shallow = { λ m. id_shallow m.id };
}

// Writes a number that is not negative behind a text.
#[inline(always)]
fn write_id(number: u64, text: &mut String) -> Result<(), AllocError>
    ensures written { OnOk result (Writes id_json id_from number (string_bytes text.old) (string_bytes text.new)) }
    ensures err { OnErr result (string_bytes text.new ≡ string_bytes text.old) }
{
    let mut buffer = Buffer::new();
    text.push_str(buffer.format(number))?;
    Ok(())
}

// What stands behind the digits of a number, where these are at the front of a text.
#[inline(always)]
fn after_id(number: u64, text: &[u8]) -> Option<&[u8]>
    ensures { IfSome result (λ rest. Takes id_json id_from text.now number rest.now) }
{
    let mut buffer = Buffer::new();
    after(text, buffer.format(number))
}

// Writes a number behind a text.
#[inline(always)]
fn write_whole(number: i64, text: &mut String) -> Result<(), AllocError>
    ensures written { OnOk result (Writes whole_json whole_from number (string_bytes text.old) (string_bytes text.new)) }
    ensures err { OnErr result (string_bytes text.new ≡ string_bytes text.old) }
{
    let mut buffer = Buffer::new();
    text.push_str(buffer.format(number))?;
    Ok(())
}

// What stands behind a number, where it is at the front of a text.
#[inline(always)]
fn after_whole(number: i64, text: &[u8]) -> Option<&[u8]>
    ensures { IfSome result (λ rest. Takes whole_json whole_from text.now number rest.now) }
{
    let mut buffer = Buffer::new();
    after(text, buffer.format(number))
}

// The number that the digits at the front of a text are.
#[inline(always)]
fn leading(text: &[u8]) -> u64 {
    let mut number: u64 = 0;
    for &byte in text {
        if !byte.is_ascii_digit() {
            break;
        }
        number = number.wrapping_mul(10).wrapping_add(u64::from(byte - b'0'));
    }
    number
}

// The same with a minus before it, where there is one.
#[inline(always)]
fn leading_signed(text: &[u8]) -> i64 {
    match text.strip_prefix("-".as_bytes()) {
        Some(rest) => 0i64.wrapping_sub(leading(rest).cast_signed()),
        None => leading(text).cast_signed(),
    }
}
