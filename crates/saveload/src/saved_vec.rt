//! Lists that are saved.
ghost use Rattle.std.specs.Prelude.{◌≡◌, ◌∷◌, ◌++◌, [], map, List, IfOk, OnOk, OnErr, option_map};
ghost use Rattle.serde_json.specs.View.{view, items_view};
ghost use Rattle.saveload.specs.Json.{Begins};
ghost use Rattle.saveload.specs.JsonParts.{all_parts, all_split, AllSplit};

use crate::json_data::JsonData;
use crate::json_parts::{JsonParts, push_one, row_of, row_value, split_one};
use serde_json::Value;
use std::alloc::{AllocError, Global};
use std::fmt;
use std::marker::Model;

/// A list that is saved: a `Vec` of which contracts see the items alone, and not its address or its capacity, which no save keeps.
#[derive(Drop)]
pub struct SavedVec<T> {
    list: Vec<T>,
}

impl<T> Model for SavedVec<T> {
    ghost use Rattle.std.specs.Prelude.{List};

    ghost Value = { List T };

    ghost view = { λ v. v.list.items };
}

impl<T> SavedVec<T> {
    /// The list of a `Vec`, which it keeps. Takes constant time.
    pub fn new(list: Vec<T>) -> SavedVec<T>
        ensures { result ≡ list.items }
    {
        SavedVec { list }
    }

    /// Its items.
    pub fn as_slice(&self) -> &[T]
        ensures { result.now ≡ self.now }
    {
        self.list.as_slice()
    }

    /// Its `Vec`.
    pub fn into_vec(self) -> Vec<T>
        ensures { result.items ≡ self }
    {
        self.list
    }
}

impl<T: Drop> SavedVec<T> {
    /// Puts an item behind its last one. An error leaves the list as it was.
    pub fn push(&mut self, item: T) -> Result<(), AllocError>
        ensures ok { OnOk result (self.new ≡ self.old ++ item ∷ []) }
        ensures err { OnErr result (self.new ≡ self.old) }
    {
        self.list.push(item)?;
        Ok(())
    }
}

impl<T: Copy + Drop> SavedVec<T> {
    /// A copy of it, in time of its length.
    pub fn copy(&self, alloc: Global) -> Result<SavedVec<T>, AllocError>
        ensures { IfOk result (λ v. v ≡ self.now) }
    {
        let mut list = Vec::with_capacity(alloc, self.list.len())?;
        list.extend_from_slice(self.list.as_slice())?;
        Ok(SavedVec { list })
    }
}

/// As the `Vec` is shown.
impl<T: fmt::Debug> fmt::Debug for SavedVec<T> {
    ghost use Rattle.std.specs.Fmt.{debug_list};

    ghost debug_output = { λ v. debug_list T.debug_output v };

    fn fmt<W: fmt::Write>(&self, f: &mut fmt::Formatter<W>) -> fmt::Result {
        fmt::Debug::fmt(&self.list, f)
    }
}

/// How many there are, and each of them: `[2,10,20]`.
impl<T: JsonParts + Drop> JsonParts for SavedVec<T> {
    ghost use Rattle.saveload.specs.JsonParts.{list_parts, list_split};
    ghost use Rattle.saveload.specs.PartsKept.{list_whole, list_flat};

    ghost parts = { list_parts T.parts };

    ghost split = { list_split T.split };

    fn push_parts(&self, alloc: Global, row: &mut Vec<Value>) -> Result<(), AllocError> {
        let count = self.list.len() as u64;
        push_one(&count, alloc, row)?;
        push_all(self.list.as_slice(), alloc, row)?;
        Ok(())
    }

    fn split_parts<'v>(
        alloc: Global,
        row: &'v [Value],
    ) -> Result<Option<(Self, &'v [Value])>, AllocError> {
        let Some((count, rest)) = split_one(alloc, row)? else {
            return Ok(None);
        };
        match split_all(alloc, rest, count)? {
            Some((list, behind)) => Ok(Some((SavedVec { list }, behind))),
            None => Ok(None),
        }
    }

    ghost whole = { list_whole T.parts T.whole };

    ghost flat = { list_flat T.parts T.flat };
}

impl<T: JsonParts + Drop> JsonData for SavedVec<T> {
    ghost use Rattle.saveload.specs.JsonParts.{row_json, row_from, list_parts, list_split};
    ghost use Rattle.saveload.specs.PartsKept.{list_whole, list_flat, row_shallow};

    ghost json = { row_json (list_parts T.parts) };

    ghost from = { row_from (list_split T.split) };

    fn to_value(&self, alloc: Global) -> Result<Value, AllocError> {
        row_value(self, alloc)
    }

    fn from_value(alloc: Global, value: &Value) -> Result<Option<Self>, AllocError> {
        row_of(alloc, value)
    }

    ghost whole = { list_whole T.parts T.whole };

    ghost shallow = { λ x. row_shallow (list_parts T.parts x) (list_flat T.parts T.flat x) };
}

// Appends the rows of some data to a row, one after another.
fn push_all<T: JsonParts>(list: &[T], alloc: Global, row: &mut Vec<Value>) -> Result<(), AllocError>
    ensures parts { OnOk result (map view row.new.items ≡ map view row.old.items ++ all_parts T.parts list.now) }
    ensures back { OnOk result (AllSplit T.parts T.split list.now) }
    ensures err { OnErr result (Begins (map view row.old.items) (map view row.new.items)) }
{
    for datum in list {
        datum.push_parts(alloc, row)?;
    }
    Ok(())
}

// So many data that stand at the front of a row, and the values behind them.
fn split_all<'v, T: JsonParts + Drop>(
    alloc: Global,
    row: &'v [Value],
    count: u64,
) -> Result<Option<(Vec<T>, &'v [Value])>, AllocError>
    ensures { IfOk result (λ o. option_map (λ p. (p.0.items, items_view p.1.now)) o ≡ all_split T.split count (items_view row.now)) }
{
    let mut list = Vec::new(alloc);
    let mut rest = row;
    let mut left = count;
    while left > 0 {
        let Some((datum, behind)) = T::split_parts(alloc, rest)? else {
            return Ok(None);
        };
        list.push(datum)?;
        rest = behind;
        left -= 1;
    }
    Ok(Some((list, rest)))
}
