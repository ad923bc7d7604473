//! Floats, saved by their bits.
ghost use Rattle.std.specs.Prelude.{◌≡◌, Some};
ghost use Rattle.saveload.specs.JsonFloats.{double_bits, double_of, single_bits, single_of};

use crate::json_fields::JsonFields;
use std::alloc::{AllocError, Global};
use std::num::{
    f32_from_bits_with_nan, f32_to_bits_with_nan, f64_from_bits_with_nan, f64_to_bits_with_nan,
};

/// Its bits as one number, since a saved text has no fractions: `1.5` is `4609434218613702656`. What is read is the very float, `-0.0` and the
/// infinities too. A NaN is saved as its one pattern, and read as a NaN; a pattern of another NaN is refused.
impl JsonFields for f64 {
    type As = u64;

    ghost fields = { double_bits };

    ghost of_fields = { double_of };

    fn fields(&self, _alloc: Global) -> Result<u64, AllocError> {
        Ok(bits_of_double(*self))
    }

    fn of_fields(saved: u64) -> Option<f64> {
        let float = f64_from_bits_with_nan(saved);
        if f64_to_bits_with_nan(float) == saved {
            Some(float)
        } else {
            None
        }
    }
}

/// Its bits as one number: `1.5` is `1069547520`; a number of more than 32 bits is refused. Else as an `f64`.
impl JsonFields for f32 {
    type As = u32;

    ghost fields = { single_bits };

    ghost of_fields = { single_of };

    fn fields(&self, _alloc: Global) -> Result<u32, AllocError> {
        Ok(bits_of_single(*self))
    }

    fn of_fields(saved: u32) -> Option<f32> {
        let float = f32_from_bits_with_nan(saved);
        if f32_to_bits_with_nan(float) == saved {
            Some(float)
        } else {
            None
        }
    }
}

// The bits of a float, which is that of these bits.
fn bits_of_double(float: f64) -> u64
    ensures value { result ≡ double_bits float }
    ensures back { double_of result ≡ Some float }
{
    f64_to_bits_with_nan(float)
}

// The bits of a float, which is that of these bits.
fn bits_of_single(float: f32) -> u32
    ensures value { result ≡ single_bits float }
    ensures back { single_of result ≡ Some float }
{
    f32_to_bits_with_nan(float)
}
