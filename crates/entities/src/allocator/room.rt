//! Room for indices, got for many at once.
ghost use Rattle.std.specs.Prelude.{◌≡◌, ℕ, ◌*◌, ◌<◌, ◌≤◌, max, IfErr, IsOk, OnOk, OnErr, length};
ghost use Rattle.hibits.specs.Sets.{HasRoom};
ghost use Rattle.entities.specs.Population.{NoneUnused};
ghost use Rattle.entities.specs.Census.{population};
ghost use Rattle.entities.specs.Kept.{SameBut};

use crate::allocator::Allocator;
use crate::allocator::births::CreateError;
use crate::entity::Index;
use hibits::{BitSet, INDEX_LIMIT};
use std::alloc::AllocError;

/// How many indices the first room is for.
const FIRST_ROOM: usize = 64;

/// How many indices of a set get their room together.
const BLOCK: usize = 4096;

impl Allocator {
    /// Room for the least unused index: where there is none, room for as many indices again.
    #[inline]
    pub(super) fn make_next_room(&mut self) -> Result<(), CreateError>
        ensures same { SameBut self.old self.new }
        ensures ok { OnOk result (length self.new.generations < self.new.room) }
        ensures population { population self.new ≡ population self.old }
        ensures limit { IfErr result (λ e. e ≡ CreateError.IndexLimit → NoneUnused (population self.old)) }
        ensures memory { IfErr result (λ e. e ≡ CreateError.OutOfMemory → NoneUnused (population self.old) → ⊥) }
        ensures err { OnErr result (self.new ≡ self.old) }
        ensures had_room { length self.old.generations < self.old.room → IsOk result }
        ensures grows { self.old.room ≤ self.new.room }
        ensures kept { length self.old.generations < self.old.room → self.new ≡ self.old }
        ensures bound { self.new.room ≤ max self.old.room (max 64 (2 * length self.old.generations)) }
    {
        let born = self.generations.len();
        if born < self.room {
            return Ok(());
        }
        if born >= INDEX_LIMIT as usize {
            return Err(CreateError::IndexLimit);
        }
        let end = (born + born).max(FIRST_ROOM).min(INDEX_LIMIT as usize);
        match self.make_room(end) {
            Ok(()) => Ok(()),
            Err(AllocError) => Err(CreateError::OutOfMemory),
        }
    }

    /// Room for the indices below `end` in each part: for their births, marks and deaths.
    pub(crate) fn make_room(&mut self, end: usize) -> Result<(), AllocError>
        requires { end ≤ INDEX_LIMIT }
        ensures same { SameBut self.old self.new }
        ensures ok { OnOk result (end ≤ self.new.room) }
        ensures err { OnErr result (self.new ≡ self.old) }
        ensures grows { self.old.room ≤ self.new.room }
        ensures bound { self.new.room ≤ max self.old.room end }
    {
        if end <= self.room {
            return Ok(());
        }
        self.generations.reserve(end - self.generations.len())?;
        self.free.reserve(end - self.free.len())?;
        make_set_room(&mut self.alive, end)?;
        make_set_room(&mut self.raised, end)?;
        make_set_room(&mut self.killed, end)?;
        self.room = end;
        Ok(())
    }
}

/// Room for the indices below `end` in a set.
fn make_set_room(set: &mut BitSet, end: usize) -> Result<(), AllocError>
    requires { end ≤ INDEX_LIMIT }
    ensures members { set.new.members ≡ set.old.members }
    ensures kept { (i : ℕ) → HasRoom set.old i → HasRoom set.new i }
    ensures ok { OnOk result ((i : ℕ) → i < end → HasRoom set.new i) }
{
    for block in 0..end.div_ceil(BLOCK) {
        if set.reserve_for((BLOCK * block) as Index).is_err() {
            return Err(AllocError);
        }
    }
    Ok(())
}
