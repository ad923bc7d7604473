//! Texts that are saved.
ghost use Rattle.std.specs.Prelude.{◌≡◌, IfOk, string_bytes};

use crate::json_data::JsonData;
use crate::json_parts::{JsonParts, push_one, split_one};
use serde_json::Value;
use std::alloc::{AllocError, Global};
use std::fmt;
use std::marker::Model;

/// A text that is saved: a `String` of which contracts see the bytes alone, and not its address or its capacity, which no save keeps.
#[derive(Drop)]
pub struct SavedText {
    text: String,
}

impl Model for SavedText {
    ghost use Rattle.std.specs.Prelude.{ℕ, List, string_bytes};

    ghost Value = { List ℕ };

    ghost view = { λ s. string_bytes s.text };
}

impl SavedText {
    /// The text of a `String`, which it keeps. Takes constant time.
    pub fn new(text: String) -> SavedText
        ensures { result ≡ string_bytes text }
    {
        SavedText { text }
    }

    /// A copy of a text.
    pub fn from_str(alloc: Global, text: &str) -> Result<SavedText, AllocError>
        ensures { IfOk result (λ s. s ≡ text.now) }
    {
        Ok(SavedText {
            text: String::from_str(alloc, text)?,
        })
    }

    /// Its text.
    pub fn as_str(&self) -> &str
        ensures { result.now ≡ self.now }
    {
        self.text.as_str()
    }

    /// Its `String`.
    pub fn into_string(self) -> String
        ensures { string_bytes result ≡ self }
    {
        self.text
    }

    /// A copy of it, in time of its length.
    pub fn copy(&self, alloc: Global) -> Result<SavedText, AllocError>
        ensures { IfOk result (λ s. s ≡ self.now) }
    {
        SavedText::from_str(alloc, self.as_str())
    }
}

/// As the `String` is shown.
impl fmt::Debug for SavedText {
    ghost use Rattle.std.specs.Fmt.{debug_str};

    ghost debug_output = { λ s. debug_str s };

    fn fmt<W: fmt::Write>(&self, f: &mut fmt::Formatter<W>) -> fmt::Result {
        fmt::Debug::fmt(&self.text, f)
    }
}

/// A JSON string.
impl JsonData for SavedText {
    ghost use Rattle.saveload.specs.JsonValues.{text_json, text_from, text_whole, text_shallow};

    ghost json = { text_json };

    ghost from = { text_from };

    fn to_value(&self, alloc: Global) -> Result<Value, AllocError> {
        Ok(Value::String(String::from_str(alloc, self.as_str())?))
    }

    fn from_value(alloc: Global, value: &Value) -> Result<Option<SavedText>, AllocError> {
        match value.as_str() {
            Some(text) => Ok(Some(SavedText::from_str(alloc, text)?)),
            None => Ok(None),
        }
    }

    ghost whole = { text_whole };

    ghost shallow = { text_shallow };
}

impl JsonParts for SavedText {
    ghost use Rattle.saveload.specs.JsonParts.{one_parts, one_split};
    ghost use Rattle.saveload.specs.JsonValues.{text_json, text_from, text_parts_whole, text_parts_flat};

    ghost parts = { one_parts text_json };

    ghost split = { one_split text_from };

    fn push_parts(&self, alloc: Global, row: &mut Vec<Value>) -> Result<(), AllocError> {
        push_one(self, alloc, row)
    }

    fn split_parts<'v>(
        alloc: Global,
        row: &'v [Value],
    ) -> Result<Option<(SavedText, &'v [Value])>, AllocError> {
        split_one(alloc, row)
    }

    ghost whole = { text_parts_whole };

    ghost flat = { text_parts_flat };
}
