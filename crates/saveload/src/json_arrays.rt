//! Arrays that are saved as lists.
ghost use Rattle.std.specs.Prelude.{◌≡◌};

use crate::json_fields::JsonFields;
use crate::saved_vec::SavedVec;
use std::alloc::{AllocError, Global};

/// The list of its items; one of more or fewer is refused.
impl<T: Copy + Drop, const N: usize> JsonFields for [T; N] {
    ghost use Rattle.saveload.specs.JsonScalars.{array_of};

    type As = SavedVec<T>;

    ghost fields = { λ xs. xs };

    ghost of_fields = { array_of N };

    fn fields(&self, alloc: Global) -> Result<SavedVec<T>, AllocError> {
        Ok(SavedVec::new(Vec::from_array(alloc, *self)?))
    }

    fn of_fields(saved: SavedVec<T>) -> Option<[T; N]> {
        <[T; N]>::try_from(saved.into_vec()).ok()
    }
}
