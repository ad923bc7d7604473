//! The stories that are told of yards.
use crate::closure_walks::Looped;
use crate::worlds::{Number, Numbered, Place, Position, Velocity, World, new_world, populate};
use crate::yard::{Joined, Told, Viewed};
use crate::{change_set_tests, closure_tests, cursor_tests, getting_tests};
use std::alloc::Global;
use std::process::Abort;
use std::test::Fail;
use storages::{Tracked, TryDefault, UnprotectedStorage};

/// What is told, by the name of the function that tells it.
#[derive(Clone, Copy)]
pub enum Story {
    GoesOn,
    NeverAbsent,
    OneIsTaken,
    AllAreTaken,
    ChosenAreCounted,
    NumbersAreSummed,
    ShownAndLent,
    OthersAreShown,
    Exchanged,
    LendsWhereItStands,
    ByAView,
    Subtracts,
    SubtractsAll,
    Bounded,
    GivenByGeneration,
    LookedMidway,
    PairsByCopies,
    TwoHaveBoth,
    JoinedFromNoneToOne,
    BesideItsAbsence,
    EachIsCalled,
    ACallRefuses,
    AllAreRead,
}

/// The same, of a yard whose first storage tells of each change.
#[derive(Clone, Copy)]
pub enum TrackedStory {
    LowOnesAreTold,
    AllAreTold,
    ToldAreJoined,
    CallsAreTold,
}

// Tells of change sets and of what joins give.
fn tell_of_joins<R: Abort, Y: Joined>(
    rt: &R,
    alloc: Global,
    story: Story,
    yard: &mut Y,
) -> Result<(), Fail> {
    match story {
        Story::Subtracts => change_set_tests::subtracts(rt, alloc, yard),
        Story::SubtractsAll => change_set_tests::subtracts_all(rt, alloc, yard),
        Story::Bounded => change_set_tests::are_bounded(rt, alloc, yard),
        Story::GivenByGeneration => getting_tests::given_by_generation(rt, yard),
        Story::LookedMidway => getting_tests::looked_midway(rt, yard),
        Story::PairsByCopies => getting_tests::paired(rt, alloc, yard),
        Story::TwoHaveBoth => getting_tests::two_have_both(rt, yard),
        Story::JoinedFromNoneToOne => getting_tests::joined_from_none_to_one(rt, yard),
        _ => getting_tests::beside_its_absence(rt, yard),
    }
}

// Tells of loops by closures, or else of joins.
fn tell_of_loops<R: Abort, Y: Joined + Looped>(
    rt: &R,
    alloc: Global,
    story: Story,
    yard: &mut Y,
) -> Result<(), Fail> {
    match story {
        Story::EachIsCalled => closure_tests::each_is_called(rt, yard),
        Story::ACallRefuses => closure_tests::a_call_refuses(rt, yard),
        Story::AllAreRead => closure_tests::all_are_read(rt, alloc, yard)?,
        _ => tell_of_joins(rt, alloc, story, yard)?,
    }
    Ok(())
}

// Tells of cursors, or else of loops and joins.
fn tell<R: Abort, Y: Viewed + Joined + Looped>(
    rt: &R,
    alloc: Global,
    story: Story,
    yard: &mut Y,
) -> Result<(), Fail> {
    match story {
        Story::GoesOn => cursor_tests::goes_on(rt, yard),
        Story::NeverAbsent => cursor_tests::is_never_absent(rt, yard),
        Story::OneIsTaken => cursor_tests::one_is_taken(rt, alloc, yard)?,
        Story::AllAreTaken => cursor_tests::all_are_taken(rt, alloc, yard)?,
        Story::ChosenAreCounted => cursor_tests::chosen_are_counted(rt, yard)?,
        Story::NumbersAreSummed => cursor_tests::numbers_are_summed(rt, yard)?,
        Story::ShownAndLent => cursor_tests::are_shown_and_lent(rt, alloc, yard)?,
        Story::OthersAreShown => cursor_tests::others_are_shown(rt, alloc, yard)?,
        Story::Exchanged => cursor_tests::are_exchanged(rt, yard),
        Story::LendsWhereItStands => cursor_tests::lends_only_where_it_stands(rt, yard),
        Story::ByAView => cursor_tests::by_a_view(rt, yard)?,
        _ => tell_of_loops(rt, alloc, story, yard)?,
    }
    Ok(())
}

// Tells it of a new world. Its components are not known here: a function that names storages of known types is slow to prove.
fn tell_of_new<R: Abort, A: Numbered, B: Numbered, C: Numbered>(
    rt: &R,
    alloc: Global,
    count: u32,
    story: Story,
) -> Result<(), Fail>
where
    A::Storage: UnprotectedStorage<A> + TryDefault,
    B::Storage: UnprotectedStorage<B> + TryDefault,
    C::Storage: UnprotectedStorage<C> + TryDefault,
{
    let mut world: World<A, B, C> = new_world(alloc)?;
    populate(&mut world.entities, count)?;
    tell(rt, alloc, story, &mut world)
}

/// Tells a story of so many living entities, from index 0 on, and of new storages.
pub fn told<R: Abort>(rt: &R, alloc: Global, count: u32, story: Story) -> Result<(), Fail> {
    tell_of_new::<R, Position, Velocity, Place>(rt, alloc, count, story)
}

/// The same where the first storage has default values.
pub fn told_of_defaults<R: Abort>(
    rt: &R,
    alloc: Global,
    count: u32,
    story: Story,
) -> Result<(), Fail> {
    tell_of_new::<R, Place, Velocity, Position>(rt, alloc, count, story)
}

// Tells of a yard whose first storage tells of each change.
fn tell_tracked<R: Abort, Y: Told + Looped>(
    rt: &R,
    alloc: Global,
    story: TrackedStory,
    yard: &mut Y,
) -> Result<(), Fail> {
    match story {
        TrackedStory::LowOnesAreTold => cursor_tests::low_ones_are_told(rt, yard),
        TrackedStory::AllAreTold => cursor_tests::all_are_told(rt, yard),
        TrackedStory::ToldAreJoined => cursor_tests::told_are_joined(rt, alloc, yard)?,
        TrackedStory::CallsAreTold => closure_tests::calls_are_told(rt, yard),
    }
    Ok(())
}

// The same of a new one.
fn tell_of_tracked<R: Abort, A: Numbered, B: Numbered, C: Numbered>(
    rt: &R,
    alloc: Global,
    count: u32,
    story: TrackedStory,
) -> Result<(), Fail>
where
    A::Storage: Tracked<A> + TryDefault,
    B::Storage: UnprotectedStorage<B> + TryDefault,
    C::Storage: UnprotectedStorage<C> + TryDefault,
{
    let mut world: World<A, B, C> = new_world(alloc)?;
    populate(&mut world.entities, count)?;
    tell_tracked(rt, alloc, story, &mut world)
}

/// Tells a story of so many living entities and of new storages, of which the first tells of each change.
pub fn told_of_tracked<R: Abort>(
    rt: &R,
    alloc: Global,
    count: u32,
    story: TrackedStory,
) -> Result<(), Fail> {
    tell_of_tracked::<R, Number, Position, Place>(rt, alloc, count, story)
}
