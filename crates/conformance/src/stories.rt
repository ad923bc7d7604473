//! The stories that are told of new worlds, and the one function that names their storages.
use crate::{
    acts, composed_slots, doc_jobs, indexed_worlds, jobs, own_jobs, typed_worlds, upstream_births,
    upstream_lazy, worlds,
};
use composed::{Empty, Of2};
use script_slots::{Health, Position};
use specs::{CloneStorages, Has, Storages};
use std::alloc::Global;
use std::process::Abort;
use std::test::Fail;

/// What is told of new worlds.
#[derive(Clone, Copy)]
pub enum Story {
    /// Births and deaths, mixed with merges.
    Mixed,
    /// Births and deaths before a merge.
    Stillborn,
    /// Each change of storages.
    Changes,
    /// Of jobs.
    Jobs(jobs::Story),
    /// Of a user's own jobs.
    Own(own_jobs::Story),
    /// Of jobs without laws of their own.
    Acts(acts::Story),
    /// Of jobs of doc examples.
    Doc(doc_jobs::Story),
    /// Of lazy updates.
    Lazy(upstream_lazy::Story),
    /// Of calls of a world.
    Worlds(worlds::Story),
    /// Of calls by component types.
    Typed(typed_worlds::Story),
    /// Of an index of healths.
    Indexed(indexed_worlds::Story),
}

/// Tells a story over whatever storages have positions and healths.
fn tell_of_new<R: Abort, P, H, S: CloneStorages + Empty + Has<Position, P> + Has<Health, H> + Drop>(
    rt: &R,
    alloc: Global,
    story: Story,
) -> Result<(), Fail> {
    match story {
        Story::Mixed => {
            upstream_births::merges::<R, S>(rt, alloc);
            Ok(())
        }
        Story::Stillborn => upstream_births::are_stillborn::<R, P, S>(rt, alloc),
        Story::Changes => composed_slots::tell_of_new::<R, P, H, S>(rt, alloc),
        Story::Jobs(story) => jobs::tell_of_new::<R, P, H, S>(rt, alloc, story),
        Story::Own(story) => {
            own_jobs::tell_of_new::<R, S>(rt, alloc, story);
            Ok(())
        }
        Story::Acts(story) => acts::tell_of_new::<R, P, H, S>(rt, alloc, story),
        Story::Doc(story) => doc_jobs::tell_of_new::<R, S>(rt, alloc, story),
        Story::Lazy(story) => upstream_lazy::tell_of_new::<R, P, H, S>(rt, alloc, story),
        Story::Worlds(story) => worlds::tell_of_new::<R, P, H, S>(rt, alloc, story),
        Story::Typed(story) => typed_worlds::tell_of_new::<R, P, H, S>(rt, alloc, story),
        Story::Indexed(story) => indexed_worlds::tell_of_new::<R, H, S>(rt, alloc, story),
    }
}

/// Tells it of positions and healths. They are named here alone: each call at storages of known types is slow to prove.
pub fn told<R: Abort>(rt: &R, alloc: Global, story: Story) -> Result<(), Fail> {
    tell_of_new::<R, _, _, Of2<Position, Health>>(rt, alloc, story)
}
