//! Lists of the indices of a set.
ghost use Rattle.std.specs.Prelude.{◌≡◌, ℕ, ◌<◌, true, IfOk, IfErr};
ghost use Rattle.hibits.specs.declared.limits.TheConstants.{INDEX_LIMIT};
ghost use Rattle.hibits.specs.MaskExprs.{expr_has};
ghost use Rattle.hibits.specs.Sets.{has_part};
ghost use Rattle.specs.specs.World.Sets.{is_chosen, is_member, is_registered, SelectIsRefused};
ghost use Rattle.specs.specs.World.State.{core_state, Selects};

use crate::command::{Refusal, SetExpr};
use crate::slots::Storages;
use crate::world::Core;
use crate::world::chosen::Chosen;
use hibits::{BitSet, Index, MaskExpr, Walk};
use std::alloc::AllocError;

impl<S: Storages> Core<S> {
    /// The ascending list of the members of a set, or `Unregistered` where it names a slot without a storage.
    pub fn select(&self, set: &SetExpr<S::Slot>) -> Result<Vec<Index>, Refusal>
        ensures ok { IfOk result (λ indices. Selects (core_state S.table S.ids self.now) set.now indices.items) }
        ensures refused { IfErr result (SelectIsRefused (core_state S.table S.ids self.now).table set.now) }
    {
        if !self.names_registered(set) {
            return Err(Refusal::Unregistered);
        }
        let Ok(mask) = self.mask_of(set) else {
            return Err(Refusal::OutOfMemory);
        };
        let mut indices = Vec::new(self.alloc);
        let mut walk = Walk::new(&mask);
        while let Some(i) = walk.next(&mask) {
            if indices.push(i).is_err() {
                return Err(Refusal::OutOfMemory);
            }
        }
        Ok(indices)
    }

    fn names_registered(&self, set: &SetExpr<S::Slot>) -> bool
        ensures { result ≡ is_registered (core_state S.table S.ids self.now).table set.now }
    {
        match set {
            SetExpr::Slot(slot) => self.parts.storages.is_registered(*slot),
            SetExpr::Living => true,
            SetExpr::And(a, b) | SetExpr::Or(a, b) | SetExpr::Xor(a, b) => {
                self.names_registered(a) && self.names_registered(b)
            }
            SetExpr::Not(a) => self.names_registered(a),
        }
    }

    /// The set as a mask. No mask of a storage is copied.
    fn mask_of(&self, set: &SetExpr<S::Slot>) -> Result<MaskExpr<&BitSet>, AllocError>
        requires { is_registered (core_state S.table S.ids self.now).table set.now ≡ true }
        ensures { IfOk result (λ mask. (i : ℕ) → i < INDEX_LIMIT → expr_has (λ m. has_part m.now.members) mask 0 i ≡ is_member (core_state S.table S.ids self.now).people
            (core_state S.table S.ids self.now).table set.now i) }
    {
        self.chosen(set)?.into_mask(self.alloc)
    }

    fn chosen(&self, set: &SetExpr<S::Slot>) -> Result<Chosen<'_>, AllocError>
        requires { is_registered (core_state S.table S.ids self.now).table set.now ≡ true }
        ensures { IfOk result (λ it. (i : ℕ) → i < INDEX_LIMIT → is_chosen it i ≡ is_member (core_state S.table S.ids self.now).people
            (core_state S.table S.ids self.now).table set.now i) }
    {
        let alloc = self.alloc;
        match set {
            SetExpr::Slot(slot) => match self.parts.storages.mask(*slot) {
                Some(mask) => Ok(Chosen {
                    mask: MaskExpr::Mask(mask),
                    is_turned: false,
                }),
                None => unreachable!(),
            },
            SetExpr::Living => {
                let merged = Box::new(alloc, MaskExpr::Mask(self.parts.entities.alive()))?;
                let pending = Box::new(alloc, MaskExpr::Mask(self.parts.entities.raised()))?;
                Ok(Chosen {
                    mask: MaskExpr::Or(merged, pending),
                    is_turned: false,
                })
            }
            SetExpr::And(a, b) => self.chosen(a)?.and(self.chosen(b)?, alloc),
            SetExpr::Or(a, b) => self.chosen(a)?.or(self.chosen(b)?, alloc),
            SetExpr::Xor(a, b) => self.chosen(a)?.xor(self.chosen(b)?, alloc),
            SetExpr::Not(a) => Ok(self.chosen(a)?.turned()),
        }
    }
}
