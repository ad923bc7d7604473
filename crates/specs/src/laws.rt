//! Laws over all runs.
ghost use Rattle.specs.specs.Reading.Following.{Follows, Replays};
ghost use Rattle.specs.specs.Laws.Keeping.{EvolvingKeepsGone, EvolvingKeepsLiving, LoadsKeep, PhasesKeepGone, PhasesKeepLiving, StopsKeep};
ghost use Rattle.specs.specs.Laws.Runs.{KeepsOnlyLiving, ReachesOnlyLiving, StaysGone, TellsWatched, StaysWatched};

use crate::job::WorldJob;
use crate::slots::{CloneStorages, Held};
use saveload::{DeserializeComponents, Marker};

/// From a state where each index with a value lives, every run leads to such a state, with whatever jobs. A new world is in such a state, so
/// each component that any run leaves in it belongs to a living entity.
pub fn only_living<S: CloneStorages, J: WorldJob<S>>()
    ensures kept { KeepsOnlyLiving S.place S.clones S.marks J.does J.wants }
    ensures from_new { ReachesOnlyLiving S.place S.clones S.marks J.does J.wants }
{}

/// What died stays dead: an entity that was given and is not alive is never alive again, whatever a run and its jobs do.
pub fn stays_dead<S: CloneStorages, J: WorldJob<S>>()
    ensures { StaysGone S.place S.clones S.marks J.does J.wants }
{}

/// Let a slot be registered with its events on, a reader of it be registered, and the jobs that wait spare that reader, throughout a run. Then
/// what the replies gave the reader, and what it has not read after the run, lead from the slot's values before the run to those after, behind
/// what it had not read before; so, replayed, they give the indices of the values after, and each index at which a value changed stands in one
/// of them.
pub fn events_lead<S: CloneStorages, J: WorldJob<S>>()
    ensures follows { TellsWatched S.place S.clones S.marks J.does J.wants J.spares S.Slot.eq Follows }
    ensures replays { TellsWatched S.place S.clones S.marks J.does J.wants J.spares S.Slot.eq Replays }
{}

/// Where no command ends a reader, turns its slot's events off or queues a job that does not spare the reader, a reader that follows the slot at
/// the start does so throughout the run.
pub fn quiet_runs<S: CloneStorages, J: WorldJob<S>>()
    ensures { StaysWatched S.place S.clones S.marks J.does J.wants J.spares }
{}

/// A shared phase over a world's entities, once it is closed, leaves it so that each index with a value lives, if it did at the opening; and who
/// was gone is gone.
pub fn phases_keep<S: Held>()
    ensures living { PhasesKeepLiving S.Slot S.Value }
    ensures gone { PhasesKeepGone }
{}

/// A load makes births and marks alone: who was gone is gone, who lived lives, and a row or a marker changed at living indices alone. So it is of
/// a load that was refused.
pub fn loads_keep<M: Marker, P: DeserializeComponents<M>>()
    ensures whole { LoadsKeep M.id_of M.Identifier.eq P.conversion }
    ensures refused { StopsKeep M.id_of M.Identifier.eq P.conversion P.Partly }
{}

/// Where a population came by births, deaths, marks and merges, who was gone is gone; and if besides each index with a value lives, what holds of
/// each state that a run reaches still holds.
pub fn evolving_keeps<S: Held>()
    ensures living { EvolvingKeepsLiving S.Slot S.Value }
    ensures gone { EvolvingKeepsGone }
{}
