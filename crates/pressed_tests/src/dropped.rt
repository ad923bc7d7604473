//! A pass that is dropped.
use crate::calls::{dead_of_merge, first_of, is_there, merged_count};
use entities::{Closed, EntitiesRes, OpenError};
use phase_threads::create_all;
use std::alloc::Global;
use std::test::Fail;
use std::thread::Threads;

/// What a phase comes to whose three passes each create once, of five in the reserve, and of which one deletes its own and is dropped.
fn one_is_dropped(
    rt: &(impl Threads + Sync),
    alloc: Global,
    entities: &mut EntitiesRes,
) -> Result<Closed, OpenError> {
    match entities.open(alloc, 5, 3) {
        Ok((shared, mut passes)) => {
            if let Some(mut dropped) = passes.pop() {
                if let Ok(e) = shared.create(&mut dropped) {
                    let _ = shared.delete(&mut dropped, e);
                }
            }
            create_all(rt, &shared, &mut passes);
            Ok(shared.close(passes))
        }
        Err(error) => Err(error),
    }
}

/// Whether what a dropped pass did counts, and whom it deleted dies at the merge.
pub fn dropped_pass_counts(
    rt: &(impl Threads + Sync),
    alloc: Global,
    entities: &mut EntitiesRes,
) -> Result<bool, Fail> {
    let wanted = Closed {
        births: 3,
        marks: 1,
        passes_back: 2,
    };
    let told = one_is_dropped(rt, alloc, entities) == Ok(wanted);
    let dead = dead_of_merge(alloc, entities)?;
    let first = first_of(0).ok_or("an entity")?;
    let died = dead.as_slice() == [first].as_slice() && !is_there(entities, first);
    Ok(told && died && merged_count(entities) == 2)
}
