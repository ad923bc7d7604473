//! Sets of indices: what they have in common, in either, or not in both.
use anyhow::Result;
use hibits::{BitIter, BitSet, Index, Layers};
use std::alloc::Global;

/// The set of the multiples of a number, below a limit.
fn multiples(alloc: Global, of: u32, limit: Index) -> Result<BitSet> {
    let mut set = BitSet::new(alloc);
    for id in 0..limit {
        if of != 0 && id % of == 0 {
            set.add(id)?;
        }
    }
    Ok(set)
}

/// A line: the name of a set, and its members, ascending.
fn show<M: Layers + Drop>(text: &mut String, name: &str, set: M) -> Result<()> {
    write!(text, "{name}:")?;
    for id in BitIter::new(set) {
        write!(text, " {id}")?;
    }
    writeln!(text)?;
    Ok(())
}

/// What the multiples of 4 and of 6 have to do with each other. No set is made for a view: `&fours & &sixes` reads both while it is walked.
pub fn bitset(alloc: Global) -> Result<String> {
    let mut text = String::new(alloc);
    let fours = multiples(alloc, 4, 40)?;
    let sixes = multiples(alloc, 6, 40)?;
    show(&mut text, "fours", &fours)?;
    show(&mut text, "sixes", &sixes)?;
    show(&mut text, "both", &fours & &sixes)?;
    show(&mut text, "either", &fours | &sixes)?;
    show(&mut text, "one alone", &fours ^ &sixes)?;
    show(&mut text, "fours alone", &fours & !&sixes)?;
    let count = fours.count();
    writeln!(text, "{count} fours, 12 is one: {}", fours.contains(12))?;
    Ok(text)
}
