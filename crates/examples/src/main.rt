//! Examples of what the crates are for. `examples NAME ..` prints what the examples of these names answer.
#![tactic(auto)]

mod basic;
mod bitset;
mod cluster_bomb;
mod game;
mod orbits;
mod ordered_tracking;
mod phase;
mod saving;
mod score_board;
mod story;
mod told;

use anyhow::{Result, bail};
use std::alloc::Global;
use std::io::Print;

/// What an example answers.
fn answer(alloc: Global, name: &str) -> Result<String> {
    match name {
        "basic" => basic::basic(alloc),
        "bitset" => bitset::bitset(alloc),
        "cluster_bomb" => told::cluster_bomb(alloc),
        "ordered_tracking" => ordered_tracking::ordered_tracking(alloc),
        "orbits" => told::orbits(alloc),
        "phase" => phase::phase(alloc),
        "saving" => saving::saving(alloc),
        "score_board" => score_board::score_board(alloc),
        _ => bail!("no example has this name"),
    }
}

/// Prints what each of some examples answers; where they are several, below its name.
fn print_all(rt: &impl Print, alloc: Global, names: &[String]) -> Result<()> {
    for name in names {
        if names.len() > 1 {
            println!(rt; "== {name}")?;
        }
        print!(rt; "{}", answer(alloc, name.as_str())?)?;
    }
    Ok(())
}

fn main(rt: HostRuntime) -> Result<()> {
    let mut names = Vec::new(rt.alloc());
    for name in std::env::args(&rt)?.skip(1) {
        names.push(name)?;
    }
    print_all(&rt, rt.alloc(), names.as_slice())
}
