//! The stories that are told of entities and a storage of numbers.
use crate::components::InDense;
use crate::numbers::{Flag, Flagged, InBTree, InDefaultVec, InFlagged, InHash, InVec, Number};
use crate::shelf::Entries;
use crate::world::{new_world, populate};
use crate::{entry_tests, kind_tests, kinds, memory_tests, view_tests};
use entities::Entity;
use std::alloc::Global;
use std::process::Abort;
use std::test::Fail;
use storages::{TryDefault, UnprotectedStorage};

/// What is told, by the name of the function that tells it.
#[derive(Clone, Copy)]
pub enum Story {
    One,
    Add,
    Sub,
    GetMut,
    GetMutOrDefault,
    AddGen,
    SubGen,
    Places,
    Clear,
    SetTwice,
    SameKey,
    DropsAList,
    Entries,
    OccupiedEntry,
    Builds,
    ComesAndGoes,
    Stale,
    MarkedAndLent,
    ByTrait,
}

/// What is told of every kind of storage of numbers.
pub const OF_EACH_KIND: [Story; 9] = [
    Story::One,
    Story::Add,
    Story::Sub,
    Story::GetMut,
    Story::GetMutOrDefault,
    Story::AddGen,
    Story::SubGen,
    Story::Places,
    Story::Clear,
];

// Tells of every kind of storage.
fn tell_of_kind<R: Abort, S: Entries>(rt: &R, story: Story, shelf: &mut S, list: &[Entity]) {
    match story {
        Story::One => kinds::test_one(rt, shelf, list),
        Story::Add => kinds::test_add(rt, shelf, list),
        Story::Sub => kinds::test_sub(rt, shelf, list),
        Story::GetMut => kinds::test_get_mut(rt, shelf, list),
        Story::GetMutOrDefault => kinds::test_get_mut_or_default(rt, shelf, list),
        Story::AddGen => kinds::test_add_gen(rt, shelf, list),
        Story::SubGen => kinds::test_sub_gen(rt, shelf, list),
        Story::Places => kinds::test_places(rt, shelf),
        _ => kinds::test_clear(rt, shelf, list),
    }
}

// Tells a story of entities and a storage of no component.
fn tell<R: Abort, S: Entries>(
    rt: &R,
    alloc: Global,
    story: Story,
    shelf: &mut S,
    list: &[Entity],
) -> Result<(), Fail> {
    match story {
        Story::SetTwice => kind_tests::is_set_twice(rt, shelf, list),
        Story::SameKey => kind_tests::are_inserted_twice(rt, shelf, list),
        Story::DropsAList => kind_tests::first_and_third_are_dropped(rt, shelf, list),
        Story::Entries => entry_tests::entries(rt, shelf, list),
        Story::OccupiedEntry => entry_tests::occupied_entry(rt, shelf),
        Story::Builds => memory_tests::is_built(rt, shelf),
        Story::ComesAndGoes => memory_tests::comes_and_goes(rt, shelf),
        Story::Stale => view_tests::stale(rt, alloc, shelf)?,
        Story::MarkedAndLent => view_tests::are_marked_and_lent(rt, shelf, list),
        Story::ByTrait => view_tests::by_trait(rt, shelf, list),
        _ => tell_of_kind(rt, story, shelf, list),
    }
    Ok(())
}

// Tells a story of so many living entities, from index 0 on, and of a new storage.
fn tell_of_new<R: Abort, T: Number>(
    rt: &R,
    alloc: Global,
    count: u32,
    story: Story,
) -> Result<(), Fail>
where
    T::Storage: UnprotectedStorage<T> + TryDefault,
{
    let mut world = new_world::<T>(alloc)?;
    let list = populate(alloc, &mut world.entities, count)?;
    tell(rt, alloc, story, &mut world, list.as_slice())
}

// Tells stories, each of a new storage.
fn tell_all<R: Abort, T: Number>(
    rt: &R,
    alloc: Global,
    count: u32,
    stories: &[Story],
) -> Result<(), Fail>
where
    T::Storage: UnprotectedStorage<T> + TryDefault,
{
    for story in stories {
        tell_of_new::<R, T>(rt, alloc, count, *story)?;
    }
    Ok(())
}

/// Tells stories of numbers in a `VecStorage`, with so many living entities, from index 0 on, each of a new storage.
pub fn in_vec<R: Abort>(rt: &R, alloc: Global, count: u32, stories: &[Story]) -> Result<(), Fail> {
    tell_all::<R, InVec>(rt, alloc, count, stories)
}

/// Tells stories of numbers in a `DefaultVecStorage`, with so many living entities, from index 0 on, each of a new storage.
pub fn in_default_vec<R: Abort>(
    rt: &R,
    alloc: Global,
    count: u32,
    stories: &[Story],
) -> Result<(), Fail> {
    tell_all::<R, InDefaultVec>(rt, alloc, count, stories)
}

/// Tells stories of numbers in a `DenseVecStorage`, with so many living entities, from index 0 on, each of a new storage.
pub fn in_dense<R: Abort>(
    rt: &R,
    alloc: Global,
    count: u32,
    stories: &[Story],
) -> Result<(), Fail> {
    tell_all::<R, InDense>(rt, alloc, count, stories)
}

/// Tells stories of numbers in a `HashMapStorage`, with so many living entities, from index 0 on, each of a new storage.
pub fn in_hash<R: Abort>(rt: &R, alloc: Global, count: u32, stories: &[Story]) -> Result<(), Fail> {
    tell_all::<R, InHash>(rt, alloc, count, stories)
}

/// Tells stories of numbers in a `BTreeStorage`, with so many living entities, from index 0 on, each of a new storage.
pub fn in_btree<R: Abort>(
    rt: &R,
    alloc: Global,
    count: u32,
    stories: &[Story],
) -> Result<(), Fail> {
    tell_all::<R, InBTree>(rt, alloc, count, stories)
}

/// Tells stories of numbers in a `VecStorage` that tells of each change, with so many living entities, from index 0 on, each of a new storage.
pub fn in_flagged<R: Abort>(
    rt: &R,
    alloc: Global,
    count: u32,
    stories: &[Story],
) -> Result<(), Fail> {
    tell_all::<R, InFlagged>(rt, alloc, count, stories)
}

/// Tells stories of numbers in a `FlaggedStorage` where no other is named, with so many living entities, from index 0 on, each of a new storage.
pub fn in_flagged_dense<R: Abort>(
    rt: &R,
    alloc: Global,
    count: u32,
    stories: &[Story],
) -> Result<(), Fail> {
    tell_all::<R, Flagged>(rt, alloc, count, stories)
}

/// Tells stories of components without data, with so many living entities, from index 0 on, each of a new storage.
pub fn in_null<R: Abort>(rt: &R, alloc: Global, count: u32, stories: &[Story]) -> Result<(), Fail> {
    tell_all::<R, Flag>(rt, alloc, count, stories)
}
