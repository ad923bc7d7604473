//! How the program's components are saved: a number as itself, a reference as the marker of its entity.
ghost use Rattle.std.specs.Prelude.{refl};
ghost use Rattle.saveload.specs.Plain.{plain_conversion, plain_faithful};
ghost use Rattle.saveload.specs.Wrapped.{link_conversion, link_faithful};

use crate::components::{Link, Position};
use saveload::{ConvertSaveload, JsonData, LoadError, Marker, SaveError};
use serde_json::Value;
use specs::Entity;
use std::alloc::{AllocError, Global};

impl<M: Marker> ConvertSaveload<M> for Position {
    type Data = Position;

    ghost conversion = { plain_conversion };

    fn references(&self, alloc: Global) -> Result<Vec<Entity>, AllocError> {
        Ok(Vec::new(alloc))
    }

    fn mentions(alloc: Global, _saved: &Position) -> Result<Vec<M>, AllocError> {
        Ok(Vec::new(alloc))
    }

    fn convert_into<F: Fn(Entity) -> Option<M>>(
        &self,
        _alloc: Global,
        _ids: F,
    ) -> Result<Position, SaveError> {
        Ok(*self)
    }

    fn convert_from<F: Fn(M) -> Option<Entity>>(
        saved: Position,
        _alloc: Global,
        _ids: F,
    ) -> Result<Self, LoadError> {
        Ok(saved)
    }

    ghost faithful = { plain_faithful };
}

impl<M: Marker> ConvertSaveload<M> for Link {
    type Data = M;

    ghost conversion = { link_conversion (λ v. v.0) (λ e. record { 0 = e }) };

    fn references(&self, alloc: Global) -> Result<Vec<Entity>, AllocError> {
        let mut list = Vec::with_capacity(alloc, 1)?;
        list.push(self.0)?;
        Ok(list)
    }

    fn mentions(alloc: Global, saved: &M) -> Result<Vec<M>, AllocError> {
        let mut list = Vec::with_capacity(alloc, 1)?;
        list.push(saved.clone()?)?;
        Ok(list)
    }

    fn convert_into<F: Fn(Entity) -> Option<M>>(
        &self,
        _alloc: Global,
        ids: F,
    ) -> Result<M, SaveError> {
        ids(self.0).ok_or(SaveError::Unmarked(self.0))
    }

    fn convert_from<F: Fn(M) -> Option<Entity>>(
        saved: M,
        _alloc: Global,
        ids: F,
    ) -> Result<Self, LoadError> {
        match ids(saved) {
            Some(e) => Ok(Link(e)),
            None => Err(LoadError::NotTheForm),
        }
    }

    ghost faithful = { link_faithful (λ v. v.0) (λ e. record { 0 = e }) (λ v. refl) (λ e. refl) };
}

impl JsonData for Position {
    ghost use Rattle.saveload.specs.Wrapped.{position_json, position_from, position_whole, position_shallow};

    ghost json = { position_json (λ p. p.0) };

    ghost from = { position_from (λ z. record { 0 = z }) };

    fn to_value(&self, alloc: Global) -> Result<Value, AllocError> {
        self.0.to_value(alloc)
    }

    fn from_value(alloc: Global, value: &Value) -> Result<Option<Self>, AllocError> {
        Ok(i64::from_value(alloc, value)?.map(|number| Position(number)))
    }

    fn write(&self, alloc: Global, text: &mut String) -> Result<(), AllocError> {
        self.0.write(alloc, text)
    }

    fn take<'t>(alloc: Global, text: &'t [u8]) -> Result<Option<(Self, &'t [u8])>, AllocError> {
        match i64::take(alloc, text)? {
            Some((number, rest)) => Ok(Some((Position(number), rest))),
            None => Ok(None),
        }
    }

    ghost whole = { position_whole (λ p. p.0) };

    ghost shallow = { position_shallow (λ p. p.0) };
}
