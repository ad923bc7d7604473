//! What is told of phases.
use crate::dropped::dropped_pass_counts;
use crate::many::half_of_them_die;
use crate::meeting::passes_meet;
use crate::random::phases_agree;
use crate::small::{nobody_is_born, pending_one_dies};
use entities::EntitiesRes;
use std::alloc::Global;
use std::test::Fail;
use std::thread::Threads;

/// What is told.
#[derive(Clone, Copy)]
enum Story {
    HalfOfThemDie,
    PassesMeet,
    DroppedPassCounts,
    NobodyIsBorn,
    PendingOneDies,
    PhasesAgree,
}

/// Whether a story comes true where nobody was born. A function that owns entities is slow to prove, so this one does for all stories.
fn comes_true(rt: &(impl Threads + Sync), alloc: Global, story: Story) -> Result<bool, Fail> {
    let mut entities = EntitiesRes::new(alloc);
    match story {
        Story::HalfOfThemDie => half_of_them_die(rt, alloc, &mut entities),
        Story::PassesMeet => Ok(passes_meet(rt, alloc, &mut entities)),
        Story::DroppedPassCounts => dropped_pass_counts(rt, alloc, &mut entities),
        Story::NobodyIsBorn => nobody_is_born(rt, alloc, &mut entities),
        Story::PendingOneDies => pending_one_dies(rt, alloc, &mut entities),
        Story::PhasesAgree => phases_agree(rt, alloc, &mut entities),
    }
}

#[test]
fn four_thousand_passes_share_three_thousand_entities(rt: HostRuntime) -> Result<(), Fail> {
    assert!(rt; comes_true(&rt, rt.alloc(), Story::HalfOfThemDie)?);
    Ok(())
}

#[test]
fn the_first_pass_sees_what_the_last_one_did(rt: HostRuntime) -> Result<(), Fail> {
    assert!(rt; comes_true(&rt, rt.alloc(), Story::PassesMeet)?);
    Ok(())
}

#[test]
fn what_a_dropped_pass_did_counts(rt: HostRuntime) -> Result<(), Fail> {
    assert!(rt; comes_true(&rt, rt.alloc(), Story::DroppedPassCounts)?);
    Ok(())
}

#[test]
fn a_phase_without_a_reserve_bears_nobody(rt: HostRuntime) -> Result<(), Fail> {
    assert!(rt; comes_true(&rt, rt.alloc(), Story::NobodyIsBorn)?);
    Ok(())
}

#[test]
fn one_that_was_pending_dies_at_the_merge(rt: HostRuntime) -> Result<(), Fail> {
    assert!(rt; comes_true(&rt, rt.alloc(), Story::PendingOneDies)?);
    Ok(())
}

#[test]
fn two_hundred_phases_come_to_what_their_passes_did(rt: HostRuntime) -> Result<(), Fail> {
    assert!(rt; comes_true(&rt, rt.alloc(), Story::PhasesAgree)?);
    Ok(())
}
