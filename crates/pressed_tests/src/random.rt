//! Phases one after another, whose passes create and delete at random, against what the passes were told.
use crate::calls::{dead_of_merge, is_marked, is_there, pressed};
use crate::wander::{Did, Wander};
use entities::{Closed, EntitiesRes, Entity};
use std::alloc::Global;
use std::collections::HashSet;
use std::mem;
use std::sync::atomic::AtomicU64;
use std::test::Fail;
use std::thread::Threads;

const PHASES: u64 = 200;

const PASSES: usize = 64;

const RESERVE: u32 = 128;

/// What the passes of one phase were told.
#[derive(Drop)]
struct Tally {
    given: Vec<Entity>,
    marks: Vec<Entity>,
    marked: HashSet<Entity>,
    refused: Vec<Entity>,
    exhausted: bool,
}

/// What the phases before came to.
#[derive(Drop)]
struct Past {
    /// All that were ever given.
    given: HashSet<Entity>,
    /// Those that were given in the last phase.
    last: Vec<Entity>,
    /// Those that were marked since the last merge.
    marked: HashSet<Entity>,
    /// Those that died.
    dead: HashSet<Entity>,
}

fn new_tally(alloc: Global) -> Tally {
    Tally {
        given: Vec::new(alloc),
        marks: Vec::new(alloc),
        marked: HashSet::new(alloc),
        refused: Vec::new(alloc),
        exhausted: false,
    }
}

fn new_past(alloc: Global) -> Past {
    Past {
        given: HashSet::new(alloc),
        last: Vec::new(alloc),
        marked: HashSet::new(alloc),
        dead: HashSet::new(alloc),
    }
}

impl Tally {
    /// Takes up what a call did. It is false where there is no memory for it.
    fn take(&mut self, did: Did) -> bool {
        match did {
            Did::Given(e) => self.given.push(e).is_ok(),
            Did::Marked(e) => self.marked.insert(e).is_ok() && self.marks.push(e).is_ok(),
            Did::Refused(e) => self.refused.push(e).is_ok(),
            Did::Exhausted => {
                self.exhausted = true;
                true
            }
            Did::Nothing => true,
        }
    }

    /// Takes up what a pass did.
    fn take_pass(&mut self, answer: &[Did; 4]) -> bool {
        let [first, second, third, fourth] = answer;
        self.take(*first) && self.take(*second) && self.take(*third) && self.take(*fourth)
    }

    /// Takes up what all passes did.
    fn take_all(&mut self, answers: &[[Did; 4]]) -> bool {
        for answer in answers {
            if !self.take_pass(answer) {
                return false;
            }
        }
        true
    }

    /// Whether a phase came to that.
    fn is_told_by(&self, closed: Closed) -> bool {
        let wanted = Closed {
            births: self.given.len(),
            marks: self.marked.len(),
            passes_back: PASSES,
        };
        closed == wanted && (!self.exhausted || closed.births == RESERVE as usize)
    }
}

impl Past {
    /// Whether each that was given was never given before, and is alive.
    fn are_new(&mut self, entities: &EntitiesRes, given: &[Entity]) -> bool {
        for e in given {
            if !(matches!(self.given.insert(*e), Ok(true)) && is_there(entities, *e)) {
                return false;
            }
        }
        true
    }

    /// Whether each that was marked is, and had not died.
    fn are_marked(&mut self, entities: &EntitiesRes, marks: &[Entity]) -> bool {
        for e in marks {
            if !(self.marked.insert(*e).is_ok() && is_marked(entities, *e))
                || self.dead.contains(e)
            {
                return false;
            }
        }
        true
    }

    /// Whether each whose deletion was refused had died.
    fn had_died(&self, refused: &[Entity]) -> bool {
        for e in refused {
            if !self.dead.contains(e) {
                return false;
            }
        }
        true
    }

    /// Whether the passes of a phase were told what may be after the phases before, and takes it up.
    fn goes_on(&mut self, entities: &EntitiesRes, tally: Tally) -> bool {
        let new = self.are_new(entities, tally.given.as_slice());
        let marked = self.are_marked(entities, tally.marks.as_slice());
        let died = self.had_died(tally.refused.as_slice());
        self.last = tally.given;
        new && marked && died
    }

    /// Whether each that died was marked, and is not alive.
    fn have_died(&mut self, entities: &EntitiesRes, dead: &[Entity]) -> bool {
        for e in dead {
            if is_there(entities, *e) || !self.marked.contains(e) || self.dead.insert(*e).is_err() {
                return false;
            }
        }
        true
    }

    /// Whether those die at a merge that were marked since the last one, and nobody else.
    fn merges(&mut self, alloc: Global, entities: &mut EntitiesRes) -> Result<bool, Fail> {
        let dead = dead_of_merge(alloc, entities)?;
        let died = self.have_died(entities, dead.as_slice());
        let all = dead.len() == self.marked.len();
        self.marked = HashSet::new(alloc);
        Ok(died && all)
    }
}

/// Whether a phase, of this number, comes to what its passes were told, and they were told what may be.
fn phase_agrees(
    rt: &(impl Threads + Sync),
    alloc: Global,
    entities: &mut EntitiesRes,
    past: &mut Past,
    number: u64,
) -> bool {
    let wander = Wander {
        number: AtomicU64::new(number.wrapping_mul(64).wrapping_add(1)),
        older: mem::replace(&mut past.last, Vec::new(alloc)),
    };
    let Ok((closed, answers)) = pressed(rt, alloc, entities, RESERVE, PASSES, &wander) else {
        return false;
    };
    let mut tally = new_tally(alloc);
    tally.take_all(answers.as_slice()) && tally.is_told_by(closed) && past.goes_on(entities, tally)
}

/// Whether phases come to what their passes were told, of which every third is followed by a merge.
pub fn phases_agree(
    rt: &(impl Threads + Sync),
    alloc: Global,
    entities: &mut EntitiesRes,
) -> Result<bool, Fail> {
    let mut past = new_past(alloc);
    for number in 0..PHASES {
        if !phase_agrees(rt, alloc, entities, &mut past, number) {
            return Ok(false);
        }
        if number % 3 == 2 && !past.merges(alloc, entities)? {
            return Ok(false);
        }
    }
    Ok(true)
}
