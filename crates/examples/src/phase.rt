//! A phase, in which passes make entities and let entities die at once, without a lock. Each may be given to a thread of its own.
use crate::story::{Fresh, told_of};
use anyhow::Result;
use entities::{Closed, EntitiesRes, Entity};
use std::alloc::Global;

impl Fresh for EntitiesRes {
    fn fresh(alloc: Global) -> Result<Self> {
        Ok(EntitiesRes::new(alloc))
    }
}

/// Who was made, and what the phase came to.
fn tell(text: &mut String, made: [Option<Entity>; 2], closed: Closed) -> Result<()> {
    let [first, second] = made;
    writeln!(text, "made: {first:?}, {second:?}")?;
    writeln!(text, "{} births, {} marks", closed.births, closed.marks)?;
    Ok(())
}

/// Two passes make an entity each, and one of them marks one that lived before.
fn share(entities: &mut EntitiesRes, text: &mut String, alloc: Global) -> Result<()> {
    let doomed = entities.create()?;
    match entities.open(alloc, 2, 2) {
        Ok((shared, mut passes)) => {
            let mut first = None;
            let mut second = None;
            if let Some(mut pass) = passes.pop() {
                first = shared.create(&mut pass).ok();
                let _ = shared.delete(&mut pass, doomed);
            }
            if let Some(mut pass) = passes.pop() {
                second = shared.create(&mut pass).ok();
            }
            let closed = shared.close(passes);
            tell(text, [first, second], closed)
        }
        Err(error) => Err(error.into()),
    }
}

/// Takes up what was born and marked, and tells who died and who lives.
fn merge(entities: &mut EntitiesRes, text: &mut String, alloc: Global) -> Result<()> {
    let dead = entities.alloc_mut().merge(alloc)?;
    write!(text, "died: {dead:?}, living:")?;
    for id in entities.alive().iter() {
        write!(text, " {id}")?;
    }
    writeln!(text)?;
    Ok(())
}

/// What a phase comes to.
pub fn phase(alloc: Global) -> Result<String> {
    told_of::<EntitiesRes, _>(alloc, |entities, text| {
        share(entities, text, alloc)?;
        merge(entities, text, alloc)
    })
}
