//! The key that is kept of each index, and for each key its indices.
ghost use Rattle.std.specs.Prelude.{◌≡◌, ◌<◌, ◌==◌, ℕ, None, OnOk, OnErr, cond};
ghost use Rattle.key_index.specs.Keys.{key_at, indices_with};

use crate::lists::exchange;
use crate::ranked::Ranked;
use hibits::{INDEX_LIMIT, Index};
use pages::Pages;
use std::alloc::{AllocError, Global};
use std::collections::BTreeMap;
use std::marker::Model;

/// The key that is kept of each index, and for each key the ascending list of its indices.
///
/// Contracts see it as the keys that are kept, by index.
#[derive(Drop)]
pub struct KeyLists<Q: Ord + Copy> {
    // in pages, so that memory is taken for the indices that have keys, and not for all up to the greatest
    kept: Pages<Option<Q>, 256>,
    lists: BTreeMap<Ranked<Q>, Vec<Index>>,
    alloc: Global,
}

impl<Q: Ord + Copy> Model for KeyLists<Q> {
    ghost use Rattle.std.specs.Prelude.{List, Option};
    ghost use Rattle.key_index.specs.Keys.{IsListed};

    ghost Value = { List (Option Q) };

    ghost view = { λ s. s.kept.items };

    ghost invariant = { λ s. IsListed Q.cmp s.kept.items s.lists };
}

impl<Q: Ord + Copy> KeyLists<Q> {
    /// No index has a key.
    pub fn new(alloc: Global) -> Self
        ensures { (i : ℕ) → key_at result i ≡ None }
    {
        KeyLists {
            kept: Pages::new(alloc),
            lists: BTreeMap::new(alloc),
            alloc,
        }
    }

    /// The indices whose key equals this one, ascending. It takes no memory.
    pub fn at(&self, key: Q) -> &[Index]
        ensures { result.now ≡ indices_with Q.cmp (key_at self.now) key }
    {
        match self.lists.get(&Ranked::new(key)) {
            Some(list) => list.as_slice(),
            None => &[],
        }
    }

    /// The key of an index is this one from now on, or none. Where memory is refused every index keeps its key.
    pub fn set(&mut self, id: Index, key: Option<Q>) -> Result<(), AllocError>
        requires { id < INDEX_LIMIT }
        ensures ok { OnOk result ((i : ℕ) → key_at self.new i ≡ cond (i == id) key (key_at self.old i)) }
        ensures err { OnErr result ((i : ℕ) → key_at self.new i ≡ key_at self.old i) }
    {
        let old = self.kept.get(id);
        if key.is_none() && old.is_none() {
            return Ok(());
        }
        self.kept.reserve(id)?;
        exchange(&mut self.lists, self.alloc, id, old, key)?;
        self.kept.set(id, key);
        Ok(())
    }
}
