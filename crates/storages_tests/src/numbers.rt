//! Components of each kind of storage.
ghost use Rattle.std.specs.Prelude.{◌≡◌, refl};

use crate::components::InDense;
use std::rc::Rc;
use storages::{
    BTreeStorage, Component, DefaultVecStorage, FlaggedStorage, HashMapStorage, NullComponent,
    NullStorage, VecStorage,
};

/// A component that is a number, or one without data, whose number is 0.
pub trait Number: Component + Copy + Default + Drop {
    /// The component of a number.
    fn of(number: u32) -> Self;

    /// The number.
    fn number(self) -> u32;
}

/// A number in a `VecStorage`.
#[derive(Clone, Copy, Default)]
pub struct InVec(pub u32);

impl Component for InVec {
    type Storage = VecStorage<Self>;
}

/// A number in a `DefaultVecStorage`.
#[derive(Clone, Copy, Default)]
pub struct InDefaultVec(pub u32);

impl Component for InDefaultVec {
    type Storage = DefaultVecStorage<Self>;
}

/// A number in a `HashMapStorage`.
#[derive(Clone, Copy, Default)]
pub struct InHash(pub u32);

impl Component for InHash {
    type Storage = HashMapStorage<Self>;
}

/// A number in a `BTreeStorage`.
#[derive(Clone, Copy, Default)]
pub struct InBTree(pub u32);

impl Component for InBTree {
    type Storage = BTreeStorage<Self>;
}

/// A number in a `VecStorage` that tells of each change.
#[derive(Clone, Copy, Default)]
pub struct InFlagged(pub u32);

impl Component for InFlagged {
    type Storage = FlaggedStorage<Self, VecStorage<Self>>;
}

/// A number in a storage that tells of each change, and is a `DenseVecStorage` where none is named.
#[derive(Clone, Copy, Default)]
pub struct Flagged(pub u32);

impl Component for Flagged {
    type Storage = FlaggedStorage<Self>;
}

impl Number for InVec {
    fn of(number: u32) -> Self {
        InVec(number)
    }

    fn number(self) -> u32 {
        self.0
    }
}

impl Number for InDefaultVec {
    fn of(number: u32) -> Self {
        InDefaultVec(number)
    }

    fn number(self) -> u32 {
        self.0
    }
}

impl Number for InHash {
    fn of(number: u32) -> Self {
        InHash(number)
    }

    fn number(self) -> u32 {
        self.0
    }
}

impl Number for InBTree {
    fn of(number: u32) -> Self {
        InBTree(number)
    }

    fn number(self) -> u32 {
        self.0
    }
}

impl Number for InFlagged {
    fn of(number: u32) -> Self {
        InFlagged(number)
    }

    fn number(self) -> u32 {
        self.0
    }
}

impl Number for Flagged {
    fn of(number: u32) -> Self {
        Flagged(number)
    }

    fn number(self) -> u32 {
        self.0
    }
}

impl Number for InDense {
    fn of(number: u32) -> Self {
        InDense(number)
    }

    fn number(self) -> u32 {
        self.0
    }
}

/// A component without data.
#[derive(Clone, Copy, Default)]
pub struct Flag;

impl NullComponent for Flag {
    ghost all_equal = { λ a b. refl };
}

impl Component for Flag {
    type Storage = NullStorage<Self>;
}

impl Number for Flag {
    fn of(_number: u32) -> Self {
        Flag
    }

    fn number(self) -> u32 {
        0
    }
}

/// A value in a `VecStorage` that several components share.
#[derive(Drop)]
pub struct Shared<T>(pub Rc<T>);

impl<T: Drop> Component for Shared<T> {
    type Storage = VecStorage<Self>;
}
