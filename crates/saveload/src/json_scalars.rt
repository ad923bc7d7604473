//! Whole numbers of fewer bits, and characters, saved as numbers of 64 bits.
ghost use Rattle.std.specs.Prelude.{◌≡◌};

use crate::json_fields::JsonFields;
use std::alloc::{AllocError, Global};

/// A number up to 2^8 - 1; another is refused.
impl JsonFields for u8 {
    ghost use Rattle.saveload.specs.JsonScalars.{below};
    ghost use Rattle.std.specs.Prelude.{◌^◌};

    type As = u64;

    ghost fields = { λ n. n };

    ghost of_fields = { below (2 ^ 8) };

    fn fields(&self, _alloc: Global) -> Result<u64, AllocError> {
        Ok(u64::from(*self))
    }

    fn of_fields(saved: u64) -> Option<u8> {
        if saved <= u64::from(u8::MAX) {
            Some(saved as u8)
        } else {
            None
        }
    }
}

/// A number up to 2^16 - 1; another is refused.
impl JsonFields for u16 {
    ghost use Rattle.saveload.specs.JsonScalars.{below};
    ghost use Rattle.std.specs.Prelude.{◌^◌};

    type As = u64;

    ghost fields = { λ n. n };

    ghost of_fields = { below (2 ^ 16) };

    fn fields(&self, _alloc: Global) -> Result<u64, AllocError> {
        Ok(u64::from(*self))
    }

    fn of_fields(saved: u64) -> Option<u16> {
        if saved <= u64::from(u16::MAX) {
            Some(saved as u16)
        } else {
            None
        }
    }
}

/// A number up to 2^32 - 1; another is refused.
impl JsonFields for u32 {
    ghost use Rattle.saveload.specs.JsonScalars.{below};
    ghost use Rattle.std.specs.Prelude.{◌^◌};

    type As = u64;

    ghost fields = { λ n. n };

    ghost of_fields = { below (2 ^ 32) };

    fn fields(&self, _alloc: Global) -> Result<u64, AllocError> {
        Ok(u64::from(*self))
    }

    fn of_fields(saved: u64) -> Option<u32> {
        if saved <= u64::from(u32::MAX) {
            Some(saved as u32)
        } else {
            None
        }
    }
}

/// A number of 64 bits.
impl JsonFields for usize {
    ghost use Rattle.saveload.specs.JsonScalars.{all};

    type As = u64;

    ghost fields = { λ n. n };

    ghost of_fields = { all };

    fn fields(&self, _alloc: Global) -> Result<u64, AllocError> {
        Ok(*self as u64)
    }

    fn of_fields(saved: u64) -> Option<usize> {
        Some(saved as usize)
    }
}

/// A number from -2^7 up to 2^7 - 1; another is refused.
impl JsonFields for i8 {
    ghost use Rattle.saveload.specs.JsonScalars.{within};
    ghost use Rattle.std.specs.Prelude.{◌^◌};

    type As = i64;

    ghost fields = { λ n. n };

    ghost of_fields = { within (2 ^ 7) };

    fn fields(&self, _alloc: Global) -> Result<i64, AllocError> {
        Ok(i64::from(*self))
    }

    fn of_fields(saved: i64) -> Option<i8> {
        if i64::from(i8::MIN) <= saved && saved <= i64::from(i8::MAX) {
            Some(saved as i8)
        } else {
            None
        }
    }
}

/// A number from -2^15 up to 2^15 - 1; another is refused.
impl JsonFields for i16 {
    ghost use Rattle.saveload.specs.JsonScalars.{within};
    ghost use Rattle.std.specs.Prelude.{◌^◌};

    type As = i64;

    ghost fields = { λ n. n };

    ghost of_fields = { within (2 ^ 15) };

    fn fields(&self, _alloc: Global) -> Result<i64, AllocError> {
        Ok(i64::from(*self))
    }

    fn of_fields(saved: i64) -> Option<i16> {
        if i64::from(i16::MIN) <= saved && saved <= i64::from(i16::MAX) {
            Some(saved as i16)
        } else {
            None
        }
    }
}

/// A number from -2^31 up to 2^31 - 1; another is refused.
impl JsonFields for i32 {
    ghost use Rattle.saveload.specs.JsonScalars.{within};
    ghost use Rattle.std.specs.Prelude.{◌^◌};

    type As = i64;

    ghost fields = { λ n. n };

    ghost of_fields = { within (2 ^ 31) };

    fn fields(&self, _alloc: Global) -> Result<i64, AllocError> {
        Ok(i64::from(*self))
    }

    fn of_fields(saved: i64) -> Option<i32> {
        if i64::from(i32::MIN) <= saved && saved <= i64::from(i32::MAX) {
            Some(saved as i32)
        } else {
            None
        }
    }
}

/// A number of 64 bits.
impl JsonFields for isize {
    ghost use Rattle.saveload.specs.JsonScalars.{all};

    type As = i64;

    ghost fields = { λ n. n };

    ghost of_fields = { all };

    fn fields(&self, _alloc: Global) -> Result<i64, AllocError> {
        Ok(*self as i64)
    }

    fn of_fields(saved: i64) -> Option<isize> {
        Some(saved as isize)
    }
}

/// The code of a character; a number that is no character's is refused.
impl JsonFields for char {
    ghost use Rattle.saveload.specs.JsonScalars.{scalar};

    type As = u64;

    ghost fields = { λ n. n };

    ghost of_fields = { scalar };

    fn fields(&self, _alloc: Global) -> Result<u64, AllocError> {
        Ok(u64::from(u32::from(*self)))
    }

    fn of_fields(saved: u64) -> Option<char> {
        if saved < 0xD800 || (0xE000 <= saved && saved <= 0x10_FFFF) {
            char::from_u32(saved as u32)
        } else {
            None
        }
    }
}
