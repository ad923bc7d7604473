//! Values that take others of their kind in.
ghost use Rattle.std.specs.Prelude.{◌≡◌, ◌+◌, OnOk, OnErr};

use thiserror::Error;

/// A value did not take another in, and is as it was.
#[derive(Clone, Copy, Debug, PartialEq, Eq, Error)]
#[error("the value refuses to combine with another")]
pub struct Refused;

/// A value that takes others of its kind in, one after another. It stands for `AddAssign` of specs, whose sums can overflow.
pub trait Combine: Sized {
    // What a value becomes that takes the other in.
    ghost combined: { Self → Self → Self };

    // Holds where a value may refuse to take the other in.
    ghost may_refuse: { Self → Self → Type 0 };

    /// Takes another value in, or leaves this one as it was.
    fn combine(&mut self, other: Self) -> Result<(), Refused>
        ensures ok { OnOk result (self.new ≡ combined self.old other) }
        ensures err { OnErr result (self.new ≡ self.old) }
        ensures refused { OnErr result (may_refuse self.old other) };
}

/// The sum, refused where it does not fit.
impl Combine for i32 {
    ghost use Rattle.std.specs.Prelude.{◌+ℤ◌, FitsSigned};
    ghost use Rattle.std.specs.Int.{w32};

    ghost combined = { λ a b. a +ℤ b };

    ghost may_refuse = { λ a b. ¬ (FitsSigned w32 (a +ℤ b)) };

    fn combine(&mut self, other: i32) -> Result<(), Refused> {
        let Some(sum) = self.checked_add(other) else {
            return Err(Refused);
        };
        *self = sum;
        Ok(())
    }
}

/// The sum, refused where it does not fit.
impl Combine for i64 {
    ghost use Rattle.std.specs.Prelude.{◌+ℤ◌, FitsSigned};
    ghost use Rattle.std.specs.Int.{w64};

    ghost combined = { λ a b. a +ℤ b };

    ghost may_refuse = { λ a b. ¬ (FitsSigned w64 (a +ℤ b)) };

    fn combine(&mut self, other: i64) -> Result<(), Refused> {
        let Some(sum) = self.checked_add(other) else {
            return Err(Refused);
        };
        *self = sum;
        Ok(())
    }
}

/// The sum, refused where it does not fit.
impl Combine for u32 {
    ghost use Rattle.std.specs.Prelude.{◌^◌, ◌≤◌};

    ghost combined = { λ a b. a + b };

    ghost may_refuse = { λ a b. 2 ^ 32 ≤ a + b };

    fn combine(&mut self, other: u32) -> Result<(), Refused> {
        let Some(sum) = self.checked_add(other) else {
            return Err(Refused);
        };
        *self = sum;
        Ok(())
    }
}

/// The sum, refused where it does not fit.
impl Combine for u64 {
    ghost use Rattle.std.specs.Prelude.{◌^◌, ◌≤◌};

    ghost combined = { λ a b. a + b };

    ghost may_refuse = { λ a b. 2 ^ 64 ≤ a + b };

    fn combine(&mut self, other: u64) -> Result<(), Refused> {
        let Some(sum) = self.checked_add(other) else {
            return Err(Refused);
        };
        *self = sum;
        Ok(())
    }
}
