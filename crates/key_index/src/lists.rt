//! Ascending lists of indices under keys.
ghost use Rattle.std.specs.Prelude.{◌≡◌, ◌<◌, true, [], Some, OnOk, OnErr, cond};
ghost use Rattle.std.specs.List.Sorted.{IsStrictlyIncreasing};
ghost use Rattle.key_index.specs.Indices.{with_index, without_index};
ghost use Rattle.key_index.specs.Keys.{Exchanges, is_key, list_at, same_key};

use crate::ranked::Ranked;
use hibits::{INDEX_LIMIT, Index};
use std::alloc::{AllocError, Global};
use std::collections::BTreeMap;

// Puts an index into an ascending list.
fn put_into(list: &mut Vec<Index>, id: Index) -> Result<(), AllocError>
    ensures ok { OnOk result (IsStrictlyIncreasing list.old.items → list.new.items ≡ with_index id list.old.items) }
    ensures err { OnErr result (list.new.items ≡ list.old.items) }
{
    match list.binary_search(&id) {
        Ok(_) => Ok(()),
        Err(place) => {
            list.insert(place, id)?;
            Ok(())
        }
    }
}

// Takes an index out of an ascending list.
fn take_out_of(list: &mut Vec<Index>, id: Index)
    ensures { IsStrictlyIncreasing list.old.items → list.new.items ≡ without_index id list.old.items }
{
    if let Ok(place) = list.binary_search(&id) {
        list.remove(place);
    }
}

// Puts an index into the list of a key, if there is a key.
fn put<Q: Ord + Copy>(
    lists: &mut BTreeMap<Ranked<Q>, Vec<Index>>,
    alloc: Global,
    key: Option<Q>,
    id: Index,
) -> Result<(), AllocError>
    ensures ok { OnOk result ((q : Q) → IsStrictlyIncreasing (list_at Q.cmp lists.old q) → list_at Q.cmp lists.new q ≡ cond (is_key Q.cmp q key) (with_index id (list_at Q.cmp lists.old q)) (list_at Q.cmp lists.old q)) }
    ensures err { OnErr result ((q : Q) → list_at Q.cmp lists.new q ≡ list_at Q.cmp lists.old q) }
{
    let Some(key) = key else {
        return Ok(());
    };
    if let Some(list) = lists.get_mut(&Ranked::new(key)) {
        return put_into(list, id);
    }
    let mut list = Vec::new(alloc);
    list.push(id)?;
    lists.insert(Ranked::new(key), list)?;
    Ok(())
}

// Takes an index out of the list of a key, if there is a key.
fn take_out<Q: Ord + Copy>(lists: &mut BTreeMap<Ranked<Q>, Vec<Index>>, key: Option<Q>, id: Index)
    ensures { (q : Q) → IsStrictlyIncreasing (list_at Q.cmp lists.old q) → list_at Q.cmp lists.new q ≡ cond (is_key Q.cmp q key) (without_index id (list_at Q.cmp lists.old q)) (list_at Q.cmp lists.old q) }
{
    if let Some(key) = key
        && take_one(lists, key, id)
    {
        lists.remove(&Ranked::new(key));
    }
}

// Takes an index out of the list of a key, and says whether nothing is left there.
fn take_one<Q: Ord + Copy>(lists: &mut BTreeMap<Ranked<Q>, Vec<Index>>, key: Q, id: Index) -> bool
    ensures list { (q : Q) → IsStrictlyIncreasing (list_at Q.cmp lists.old q) → list_at Q.cmp lists.new q ≡ cond (is_key Q.cmp q (Some key)) (without_index id (list_at Q.cmp lists.old q)) (list_at Q.cmp lists.old q) }
    ensures empty { result ≡ true → list_at Q.cmp lists.new key ≡ [] }
{
    match lists.get_mut(&Ranked::new(key)) {
        Some(list) => {
            take_out_of(list, id);
            list.is_empty()
        }
        None => false,
    }
}

// Whether two keys are equal, where there are any.
fn is_same<Q: Ord + Copy>(a: Option<Q>, b: Option<Q>) -> bool
    ensures { result ≡ same_key Q.cmp a b }
{
    match (a, b) {
        (None, None) => true,
        (Some(a), Some(b)) => a.cmp(&b).is_eq(),
        _ => false,
    }
}

// An index goes from the list of one key to that of another, where there are any. Equal keys change nothing, and take no memory.
pub(crate) fn exchange<Q: Ord + Copy>(
    lists: &mut BTreeMap<Ranked<Q>, Vec<Index>>,
    alloc: Global,
    id: Index,
    old: Option<Q>,
    new: Option<Q>,
) -> Result<(), AllocError>
    requires { id < INDEX_LIMIT }
    ensures ok { OnOk result (Exchanges Q.cmp lists.old lists.new id old new) }
    ensures err { OnErr result ((q : Q) → list_at Q.cmp lists.new q ≡ list_at Q.cmp lists.old q) }
{
    if is_same(old, new) {
        return Ok(());
    }
    put(lists, alloc, new, id)?;
    take_out(lists, old, id);
    Ok(())
}
