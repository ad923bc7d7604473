//! Runs of a world that an index is kept over.
ghost use Rattle.std.specs.Prelude.{◌≡◌, Err, IfOk, OnOk, OnErr};
ghost use Rattle.key_index.specs.Indexed.{IsFresh, IsStale};
ghost use Rattle.specs.specs.Reading.Following.{IsWatched};
ghost use Rattle.specs.specs.Laws.Gone.{KeepsGone};
ghost use Rattle.specs.specs.Indexing.{LeaveAloneIn, IfFollowing, KeepsAll, Knows, IsUpToDate, RunsAndReads, stored};
ghost use Rattle.specs.specs.Laws.Reached.{KeepsLiving};
ghost use Rattle.specs.specs.World.State.{state_of};
ghost use Rattle.specs.specs.Job.Steps.{world_state, Run};

use crate::command::{Command, Reply};
use crate::indexing::WorldIndexError;
use crate::job::WorldJob;
use crate::laws::quiet_runs;
use crate::slots::CloneStorages;
use crate::typed::{Field, Has};
use crate::world::World;
use key_index::{KeyIndex, KeyOf};
use std::alloc::AllocError;
use storages::{Component, Tracked};

// `World::run`, over which an index that is not refreshed still knows which indices it has to look at.
fn run_covered<T: Component, S: CloneStorages + Has<T, I>, I, J: WorldJob<S>, K: KeyOf<T>>(
    world: &mut World<S, J>,
    commands: Vec<Command<S, J>>,
    index: &KeyIndex<T, K>,
) -> Result<Vec<Reply<S::Value>>, AllocError>
where
    T::Storage: Tracked<T>,
    ensures covered { IfFollowing J.spares S.the_slot S.table S.ids S.part K.key index.now.reader index.now commands world.old (OnOk result (Knows K.key index.now (S.part (stored world.new)))) }
    ensures watched { LeaveAloneIn J.spares S.the_slot S.table S.ids index.now.reader commands world.old
        → OnOk result (IsWatched J.spares S.the_slot index.now.reader (world_state S.table S.ids world.new)) }
    ensures run { IfOk result (λ replies. Run S.place S.clones S.marks J.does J.wants (world_state S.table S.ids world.old) commands.items replies.items (world_state S.table S.ids world.new)) }
    ensures living { KeepsLiving (state_of S.table S.ids world.old) (state_of S.table S.ids world.new) }
    ensures gone { KeepsGone (state_of S.table S.ids world.old).people (state_of S.table S.ids world.new).people }
    ensures err { OnErr result (world_state S.table S.ids world.new ≡ world_state S.table S.ids world.old) }
{
    quiet_runs::<S, J>();
    let replies = world.run(commands)?;
    Ok(replies)
}

impl<S: CloneStorages, J: WorldJob<S>> World<S, J> {
    /// `run`, and then `refresh_index`; where the run is refused neither is done, and the index is as it was.
    ///
    /// Let the index cover its storage before: it is stale, or each index of which it keeps another key stands in an event that its reader has not
    /// read, as it is of a new one and after each refresh. Let its reader follow the slot, and let no command or job read its events, end it, turn
    /// the slot's events off or write one by hand. Then after Ok, and Ok of the refresh, `at` answers for each key what an index that was made now
    /// would. The refresh is refused for memory alone, and the reader follows the slot still, so that runs go on.
    pub fn run_indexed<T: Component, K: KeyOf<T>, I>(
        &mut self,
        commands: Vec<Command<S, J>>,
        index: &mut KeyIndex<T, K>,
    ) -> Result<(Vec<Reply<S::Value>>, Result<(), WorldIndexError>), AllocError>
    where
        S: Has<T, I>,
        T::Storage: Tracked<T>,
        ensures ok { IfFollowing J.spares S.the_slot S.table S.ids S.part K.key index.old.reader index.old commands self.old
            (IfOk result (λ r. OnOk r.1 (IsUpToDate K.key K.Key.cmp index.new (S.part (stored self.new))))) }
        ensures keeps { IfFollowing J.spares S.the_slot S.table S.ids S.part K.key index.old.reader index.old commands self.old
            (IfOk result (λ r. OnOk r.1 (KeepsAll K.key index.new (S.part (stored self.new))))) }
        ensures knows { IfFollowing J.spares S.the_slot S.table S.ids S.part K.key index.old.reader index.old commands self.old (OnOk result (Knows K.key index.new (S.part (stored self.new)))) }
        ensures fresh { IfOk result (λ r. OnOk r.1 (IsFresh index.new)) }
        ensures there { LeaveAloneIn J.spares S.the_slot S.table S.ids index.old.reader commands self.old → IfOk result (λ r. r.1 ≡ Err WorldIndexError.Unregistered → ⊥) }
        ensures known { LeaveAloneIn J.spares S.the_slot S.table S.ids index.old.reader commands self.old → IfOk result (λ r. r.1 ≡ Err WorldIndexError.UnknownReader → ⊥) }
        ensures memory { IfOk result (λ r. r.1 ≡ Err WorldIndexError.OutOfMemory → IsStale index.new) }
        ensures watched { LeaveAloneIn J.spares S.the_slot S.table S.ids index.old.reader commands self.old
            → OnOk result (IsWatched J.spares S.the_slot index.old.reader (world_state S.table S.ids self.new)) }
        ensures run { IfOk result (λ r. RunsAndReads S.place S.clones S.marks J.does J.wants S.the_slot index.old.reader
            (world_state S.table S.ids self.old) commands.items r.0.items (world_state S.table S.ids self.new)) }
        ensures living { KeepsLiving (state_of S.table S.ids self.old) (state_of S.table S.ids self.new) }
        ensures gone { KeepsGone (state_of S.table S.ids self.old).people (state_of S.table S.ids self.new).people }
        ensures key { index.new.key ≡ index.old.key }
        ensures reader { index.new.reader ≡ index.old.reader }
        ensures err { OnErr result (world_state S.table S.ids self.new ≡ world_state S.table S.ids self.old) }
        ensures index { OnErr result (index.new ≡ index.old) }
    {
        let replies = run_covered::<T, S, I, J, K>(self, commands, index)?;
        let refreshed = self.parts.core.refresh_index(index);
        Ok((replies, refreshed))
    }
}
