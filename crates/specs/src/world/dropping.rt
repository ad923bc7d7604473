//! Components that are let go without their entities.
ghost use Rattle.std.specs.Prelude.{◌≡◌, [], IsOk, IfOk, OnOk, OnErr};
ghost use Rattle.std.specs.List.{filter};
ghost use Rattle.storages.specs.Life.{is_alive};
ghost use Rattle.specs.specs.World.Dropping.{DropsComponents};
ghost use Rattle.specs.specs.Laws.Going.{GoesOn};
ghost use Rattle.specs.specs.Laws.Gone.{KeepsGone};
ghost use Rattle.specs.specs.Laws.Reached.{KeepsLiving};
ghost use Rattle.specs.specs.World.State.{core_state};

use crate::slots::Storages;
use crate::world::Core;
use entities::Entity;
use std::alloc::AllocError;

impl<S: Storages> Core<S> {
    /// Lets the components of the entities of a list go, and passes over those that are not alive. The entities stay. It takes memory for
    /// the list of the others, and for events, and a refused call changes nothing; the empty list is never refused. Ports `WorldExt::delete_components`.
    pub fn delete_components(&mut self, list: &[Entity]) -> Result<(), AllocError>
        ensures ok { OnOk result (DropsComponents list.now (core_state S.table S.ids self.old) (core_state S.table S.ids self.new)) }
        ensures entities { self.new.parts.entities ≡ self.old.parts.entities }
        ensures living { KeepsLiving (core_state S.table S.ids self.old) (core_state S.table S.ids self.new) }
        ensures goes_on { GoesOn (core_state S.table S.ids self.old) (core_state S.table S.ids self.new) }
        ensures gone { KeepsGone (core_state S.table S.ids self.old).people (core_state S.table S.ids self.new).people }
        ensures err { OnErr result (core_state S.table S.ids self.new ≡ core_state S.table S.ids self.old) }
        ensures idle { list.now ≡ [] → IsOk result }
    {
        self.drop_components(list)?;
        Ok(())
    }

    // `delete_components`, without what holds of each state.
    fn drop_components(&mut self, list: &[Entity]) -> Result<(), AllocError>
        ensures ok { OnOk result (DropsComponents list.now (core_state S.table S.ids self.old) (core_state S.table S.ids self.new)) }
        ensures entities { self.new.parts.entities ≡ self.old.parts.entities }
        ensures err { OnErr result (core_state S.table S.ids self.new ≡ core_state S.table S.ids self.old) }
        ensures idle { list.now ≡ [] → IsOk result }
    {
        let living = self.living_of(list)?;
        self.parts.storages.reserve_drop(living.len())?;
        self.parts.storages.drop_all(living.as_slice());
        Ok(())
    }

    // Those of a list that are alive.
    fn living_of(&self, list: &[Entity]) -> Result<Vec<Entity>, AllocError>
        ensures items { IfOk result (λ living. living.items ≡ filter (is_alive (core_state S.table S.ids self.now).people) list.now) }
        ensures idle { list.now ≡ [] → IsOk result }
    {
        let mut living = Vec::new(self.alloc);
        for e in list {
            if self.parts.entities.is_alive(*e) {
                living.push(*e)?;
            }
        }
        Ok(living)
    }
}
