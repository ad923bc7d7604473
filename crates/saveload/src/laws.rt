//! The laws of saving and loading.
ghost use Rattle.saveload.specs.Conversion.{KeepsValues};
ghost use Rattle.saveload.specs.Law.{OneRenaming};
ghost use Rattle.saveload.specs.Giving.{GivesIds, NextIsNew};

use crate::convert::ConvertSaveload;
use crate::load::DeserializeComponents;
use crate::marker::Marker;
use crate::simple::SimpleMarker;

/// What is saved and then loaded into a world in which nobody lives and no id is mapped is renamed, one to one.
pub fn one_renaming<M: Marker, P: DeserializeComponents<M>>()
    ensures { OneRenaming M.id_of M.Identifier.eq P.conversion }
{}

/// No conversion loses what it converts: a value that is saved, and loaded by a function that leads back from the markers to what it refers to, is itself.
pub fn nothing_is_lost<M: Marker, V: ConvertSaveload<M>>()
    ensures { KeepsValues V.conversion }
{}

/// A load gives some ids from outside, one after another: as many new ones are left as these leave, and no other id is mapped that wasn't before.
pub fn loads_give_ids<M: Marker, P: DeserializeComponents<M>>()
    ensures { GivesIds M.id_of M.Identifier.eq P.conversion }
{}

/// After a load where no number was mapped, the next new number is mapped to nobody: no number that was loaded is given again.
pub fn next_number_is_new<T, P: DeserializeComponents<SimpleMarker<T>>>()
    ensures { NextIsNew P.conversion }
{}
