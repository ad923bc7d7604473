//! Components that refer to entities.
ghost use Rattle.std.specs.Prelude.{◌≡◌, ◌∷◌, [], Option, Some, None, IfOk, IfErr};
ghost use Rattle.entities.specs.declared.entity.Entity.{Entity as Being};
ghost use Rattle.saveload.specs.Conversion.{Conversion, IsFaithful, Answers, AllNamed, GivesEach, IsOwn, NoCause, entity_conversion, entity_faithful};
ghost use Rattle.saveload.specs.Stops.{IsOfStoring};

use crate::error::{LoadError, SaveError};
use crate::marker::Marker;
use entities::Entity;
use std::alloc::{AllocError, Global};

/// A component saved as data in which each reference is replaced by a marker.
pub trait ConvertSaveload<M: Marker>: Sized {
    type Data: Drop;

    ghost conversion: { Conversion M Self Self.Data };

    /// The entities that it refers to.
    fn references(&self, alloc: Global) -> Result<Vec<Entity>, AllocError>
        ensures { IfOk result (λ v. v.items ≡ conversion.references self.now) };

    /// The markers that its data mentions.
    fn mentions(alloc: Global, saved: &Self::Data) -> Result<Vec<M>, AllocError>
        requires { (m n : M) → M.is_clone m n → m ≡ n }
        ensures { IfOk result (λ v. v.items ≡ conversion.mentions saved.now) };

    /// Its data, by the markers of the entities that it refers to.
    fn convert_into<F: Fn(Entity) -> Option<M>>(
        &self,
        alloc: Global,
        ids: F,
    ) -> Result<Self::Data, SaveError>
        requires { F.IsAlwaysCallable ids }
        ensures exact { (f : Being → M) → GivesEach (F.post ids) (conversion.references self.now) f → IfOk result (λ d. d ≡ conversion.saved f self.now) }
        ensures refused { (g : Being → Option M) → Answers (F.post ids) (conversion.references self.now) g → AllNamed g (conversion.references self.now) → IfErr result (IsOwn (conversion.unsaved self.now)) };

    /// The value again, by the entities that the markers name.
    fn convert_from<F: Fn(M) -> Option<Entity>>(
        saved: Self::Data,
        alloc: Global,
        ids: F,
    ) -> Result<Self, LoadError>
        requires { F.IsAlwaysCallable ids }
        ensures exact { (f : M → Being) → GivesEach (F.post ids) (conversion.mentions saved) f → IfOk result (λ v. v ≡ conversion.loaded f saved) }
        ensures refused { (f : M → Being) → GivesEach (F.post ids) (conversion.mentions saved) f → IfErr result (IsOfStoring (conversion.unloaded saved)) };

    ghost faithful: { IsFaithful conversion };
}

impl<M: Marker> ConvertSaveload<M> for Entity {
    type Data = M;

    ghost conversion = { entity_conversion };

    fn references(&self, alloc: Global) -> Result<Vec<Entity>, AllocError> {
        let mut list = Vec::with_capacity(alloc, 1)?;
        list.push(*self)?;
        Ok(list)
    }

    fn mentions(alloc: Global, saved: &M) -> Result<Vec<M>, AllocError> {
        let mut list = Vec::with_capacity(alloc, 1)?;
        list.push(saved.clone()?)?;
        Ok(list)
    }

    /// As the trait says. Where `ids` gives none for it, it is refused as `SaveError::Unmarked`.
    fn convert_into<F: Fn(Entity) -> Option<M>>(
        &self,
        _alloc: Global,
        ids: F,
    ) -> Result<M, SaveError>
        requires { F.IsAlwaysCallable ids }
        ensures exact { (f : Being → M) → GivesEach (F.post ids) (self.now ∷ []) f → IfOk result (λ m. m ≡ f self.now) }
        ensures refused { (g : Being → Option M) → Answers (F.post ids) (self.now ∷ []) g → AllNamed g (self.now ∷ []) → IfErr result (IsOwn NoCause) }
        ensures named { IfOk result (λ m. F.post ids self.now (Some m)) }
        ensures unnamed { IfErr result (λ e. (e ≡ SaveError.Unmarked self.now) × F.post ids self.now None) }
    {
        ids(*self).ok_or(SaveError::Unmarked(*self))
    }

    /// As the trait says. Where `ids` gives none for the marker, the answer is `LoadError::NotTheForm`.
    fn convert_from<F: Fn(M) -> Option<Entity>>(
        saved: M,
        _alloc: Global,
        ids: F,
    ) -> Result<Entity, LoadError>
        requires { F.IsAlwaysCallable ids }
        ensures exact { (f : M → Being) → GivesEach (F.post ids) (saved ∷ []) f → IfOk result (λ v. v ≡ f saved) }
        ensures refused { (f : M → Being) → GivesEach (F.post ids) (saved ∷ []) f → IfErr result (IsOfStoring NoCause) }
        ensures named { IfOk result (λ v. F.post ids saved (Some v)) }
        ensures unnamed { IfErr result (λ e. (e ≡ LoadError.NotTheForm) × F.post ids saved None) }
    {
        ids(saved).ok_or(LoadError::NotTheForm)
    }

    ghost faithful = { entity_faithful };
}
