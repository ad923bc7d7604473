//! What is kept in pages.
ghost use Rattle.std.specs.Prelude.{None};

/// What can be kept in pages.
pub trait Item: Copy {
    ghost FILLER: { Self };

    /// The filler: what a place without a page reads as, and what a new page is full of.
    const FILLER: Self;
}

impl Item for u64 {
    ghost FILLER = { 0 };

    const FILLER: u64 = 0;
}

impl Item for u32 {
    ghost FILLER = { 0 };

    const FILLER: u32 = 0;
}

impl<Q: Copy> Item for Option<Q> {
    ghost FILLER = { None };

    const FILLER: Option<Q> = None;
}
