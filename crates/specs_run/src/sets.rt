//! The sets of a script's lines, written before what they are of: `and pos not tag`.
use crate::slot_names::Named;
use specs::SetExpr;
use std::alloc::{AllocError, Global};

/// How many operators of a set may stand one within another. A set is answered, and let go, by calls that nest as it does, so a deeper
/// one could use up the stack.
pub const NESTING_LIMIT: u32 = 250;

/// A set that was read, and how many of its operators stand one within another.
#[derive(Drop)]
struct Told<K> {
    set: SetExpr<K>,
    depth: u32,
}

/// Two sets for one operator, and the depth of the set that it makes of them.
#[derive(Drop)]
struct ToldPair<K> {
    left: Box<SetExpr<K>>,
    right: Box<SetExpr<K>>,
    depth: u32,
}

/// The set that the words tell, if they tell one whose operators nest no deeper than `NESTING_LIMIT`. The words are read from the last to
/// the first, so each operator comes after the sets that it is of.
pub fn set<K: Named>(alloc: Global, words: &[&str]) -> Result<Option<SetExpr<K>>, AllocError> {
    let mut operands = Vec::new(alloc);
    for word in words.iter().rev() {
        match operand(alloc, word, &mut operands)? {
            Some(operand) => operands.push(operand)?,
            None => return Ok(None),
        }
    }
    match operands.pop() {
        Some(whole) if operands.is_empty() => Ok(Some(whole.set)),
        _ => Ok(None),
    }
}

/// What a word makes of the sets behind it, the nearest of which is the last of the list; it takes those that it is of.
fn operand<K: Named>(
    alloc: Global,
    word: &str,
    behind: &mut Vec<Told<K>>,
) -> Result<Option<Told<K>>, AllocError> {
    match word {
        "not" => complement(alloc, behind),
        "and" => Ok(pair(alloc, behind)?.map(|p| Told {
            set: SetExpr::And(p.left, p.right),
            depth: p.depth,
        })),
        "or" => Ok(pair(alloc, behind)?.map(|p| Told {
            set: SetExpr::Or(p.left, p.right),
            depth: p.depth,
        })),
        "xor" => Ok(pair(alloc, behind)?.map(|p| Told {
            set: SetExpr::Xor(p.left, p.right),
            depth: p.depth,
        })),
        "living" => Ok(Some(Told {
            set: SetExpr::Living,
            depth: 0,
        })),
        name => Ok(K::named(name).map(|s| Told {
            set: SetExpr::Slot(s),
            depth: 0,
        })),
    }
}

/// The complement of the nearest set.
fn complement<K: Named>(
    alloc: Global,
    behind: &mut Vec<Told<K>>,
) -> Result<Option<Told<K>>, AllocError> {
    match behind.pop() {
        Some(Told { set, depth }) if depth < NESTING_LIMIT => Ok(Some(Told {
            set: SetExpr::Not(Box::new(alloc, set)?),
            depth: depth + 1,
        })),
        _ => Ok(None),
    }
}

/// The nearest two sets.
fn pair<K: Named>(
    alloc: Global,
    behind: &mut Vec<Told<K>>,
) -> Result<Option<ToldPair<K>>, AllocError> {
    let (Some(left), Some(right)) = (behind.pop(), behind.pop()) else {
        return Ok(None);
    };
    let depth = left.depth.max(right.depth);
    if depth >= NESTING_LIMIT {
        return Ok(None);
    }
    Ok(Some(ToldPair {
        left: Box::new(alloc, left.set)?,
        right: Box::new(alloc, right.set)?,
        depth: depth + 1,
    }))
}
