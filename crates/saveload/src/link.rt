//! Components that are a reference to another entity and nothing more.
ghost use Rattle.std.specs.Prelude.{◌≡◌, ◌∷◌, [], Option, Some, None, IfOk, IfErr, ⊤, refl};
ghost use Rattle.entities.specs.declared.entity.Entity.{Entity as Being};
ghost use Rattle.saveload.specs.Conversion.{Answers, AllNamed, GivesEach, IsOwn, NoCause};
ghost use Rattle.saveload.specs.Stops.{IsOfStoring};
ghost use Rattle.saveload.specs.Wrapped.{link_conversion, link_faithful};

use crate::convert::ConvertSaveload;
use crate::error::{LoadError, SaveError};
use crate::marker::Marker;
use entities::Entity;
use std::alloc::{AllocError, Global};
use std::fmt;
use std::marker::PhantomData;
use storages::{Component, Kind};

/// What a [`Link`](crate::Link) stands for, as a unit struct of the user's: it says which storage keeps the links.
///
/// Ports `specs::Component` of a struct of one `Entity`, which names its storage.
///
/// ```
/// pub struct Hunts;
///
/// impl Relation for Hunts {
///     type Storage = DenseVecStorage<Link<Self>>;
/// }
/// ```
pub trait Relation: Sized {
    /// Keeps the links, as `Component::Storage` keeps other components.
    type Storage: Kind<Link<Self>>;
}

/// A component that refers to another entity, of a relation `R`: links of two relations are two types of components.
///
/// It is saved as the marker of its entity alone; a save refuses it by `SaveError::Unmarked` where the entity has none.
/// Ports a struct of one `Entity` with `#[derive(ConvertSaveload)]` of `specs-derive`.
#[derive_where(PartialEq, Eq)]
pub struct Link<R> {
    /// Whom it refers to.
    pub entity: Entity,
    of: PhantomData<R>,
}

impl<R> Link<R> {
    /// A link to an entity, alive or not.
    pub fn new(entity: Entity) -> Self
        ensures { result.entity ≡ entity }
    {
        Link {
            entity,
            of: PhantomData,
        }
    }
}

impl<R> Clone for Link<R> {
    ghost is_clone = { λ a b. a ≡ b };

    ghost is_infallible = { λ _. ⊤ };

    fn clone(&self) -> Result<Self, AllocError> {
        Ok(Link::new(self.entity))
    }
}

impl<R> Copy for Link<R> {}

/// It is written as its entity, whatever `R` is.
impl<R> fmt::Debug for Link<R> {
    ghost use Rattle.entities.specs.Texts.{entity_text};

    ghost debug_output = { λ l. Some (entity_text l.entity) };

    fn fmt<W: fmt::Write>(&self, f: &mut fmt::Formatter<W>) -> fmt::Result {
        self.entity.fmt(f)
    }
}

impl<R: Relation> Component for Link<R> {
    type Storage = R::Storage;
}

impl<M: Marker, R> ConvertSaveload<M> for Link<R> {
    type Data = M;

    ghost conversion = { link_conversion (λ v. v.entity) (λ e. record { entity = e; of = _ }) };

    fn references(&self, alloc: Global) -> Result<Vec<Entity>, AllocError> {
        let mut list = Vec::with_capacity(alloc, 1)?;
        list.push(self.entity)?;
        Ok(list)
    }

    fn mentions(alloc: Global, saved: &M) -> Result<Vec<M>, AllocError> {
        let mut list = Vec::with_capacity(alloc, 1)?;
        list.push(saved.clone()?)?;
        Ok(list)
    }

    /// As the trait says. Where `ids` gives none for its entity, that one is refused as `SaveError::Unmarked`.
    fn convert_into<F: Fn(Entity) -> Option<M>>(
        &self,
        _alloc: Global,
        ids: F,
    ) -> Result<M, SaveError>
        requires { F.IsAlwaysCallable ids }
        ensures exact { (f : Being → M) → GivesEach (F.post ids) (self.now.entity ∷ []) f → IfOk result (λ m. m ≡ f self.now.entity) }
        ensures refused { (g : Being → Option M) → Answers (F.post ids) (self.now.entity ∷ []) g → AllNamed g (self.now.entity ∷ []) → IfErr result (IsOwn NoCause) }
        ensures named { IfOk result (λ m. F.post ids self.now.entity (Some m)) }
        ensures unnamed { IfErr result (λ e. (e ≡ SaveError.Unmarked self.now.entity) × F.post ids self.now.entity None) }
    {
        ids(self.entity).ok_or(SaveError::Unmarked(self.entity))
    }

    /// As the trait says. Where `ids` gives none for the marker, the answer is `LoadError::NotTheForm`.
    fn convert_from<F: Fn(M) -> Option<Entity>>(
        saved: M,
        _alloc: Global,
        ids: F,
    ) -> Result<Self, LoadError>
        requires { F.IsAlwaysCallable ids }
        ensures exact { (f : M → Being) → GivesEach (F.post ids) (saved ∷ []) f → IfOk result (λ v. v.entity ≡ f saved) }
        ensures refused { (f : M → Being) → GivesEach (F.post ids) (saved ∷ []) f → IfErr result (IsOfStoring NoCause) }
        ensures named { IfOk result (λ v. F.post ids saved (Some v.entity)) }
        ensures unnamed { IfErr result (λ e. (e ≡ LoadError.NotTheForm) × F.post ids saved None) }
    {
        match ids(saved) {
            Some(entity) => Ok(Link::new(entity)),
            None => Err(LoadError::NotTheForm),
        }
    }

    ghost faithful = { link_faithful (λ v. v.entity) (λ e. record { entity = e; of = _ }) (λ v. refl) (λ e. refl) };
}
