//! A value of one of two types.
use std::fmt;

/// A slot, or a value, of the first of two structs of storages, or of the rest.
#[derive(Clone, Copy, Debug, PartialEq, Eq, Drop)]
pub enum Either<A, B> {
    /// Of the first.
    First(A),
    /// Of the rest.
    Rest(B),
}

impl<A: fmt::Display, B: fmt::Display> fmt::Display for Either<A, B> {
    ghost use Rattle.composed.specs.Both.{of_either};

    ghost output = { of_either A.output B.output };

    ghost styled_output = { of_either A.styled_output B.styled_output };

    fn fmt<W: fmt::Write>(&self, f: &mut fmt::Formatter<W>) -> fmt::Result {
        match self {
            Either::First(value) => value.fmt(f),
            Either::Rest(value) => value.fmt(f),
        }
    }
}
