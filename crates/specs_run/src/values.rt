//! The components of a script's lines.
use crate::words::{entity, whole};
use composed::{Either, Sole};
use script_slots::{Defense, Health, Label, Link, Mapped, Position, Tag, Treed, Velocity};

/// A component that a script can write, at a slot of its own.
pub trait Worded<K>: Sized {
    /// The component of a slot that a word tells, if there is one.
    fn read(slot: K, word: &str) -> Option<Self>;
}

impl<K, L, A: Worded<K>, B: Worded<L>> Worded<Either<K, L>> for Either<A, B> {
    fn read(slot: Either<K, L>, word: &str) -> Option<Self> {
        match slot {
            Either::First(slot) => Some(Either::First(A::read(slot, word)?)),
            Either::Rest(slot) => Some(Either::Rest(B::read(slot, word)?)),
        }
    }
}

impl Worded<Sole> for Position {
    fn read(_slot: Sole, word: &str) -> Option<Self> {
        Some(Position(whole(word)?))
    }
}

impl Worded<Sole> for Velocity {
    fn read(_slot: Sole, word: &str) -> Option<Self> {
        Some(Velocity(whole(word)?))
    }
}

impl Worded<Sole> for Defense {
    fn read(_slot: Sole, word: &str) -> Option<Self> {
        Some(Defense(whole(word)?))
    }
}

impl Worded<Sole> for Mapped {
    fn read(_slot: Sole, word: &str) -> Option<Self> {
        Some(Mapped(whole(word)?))
    }
}

impl Worded<Sole> for Treed {
    fn read(_slot: Sole, word: &str) -> Option<Self> {
        Some(Treed(whole(word)?))
    }
}

impl Worded<Sole> for Tag {
    fn read(_slot: Sole, word: &str) -> Option<Self> {
        if word == "tag" { Some(Tag) } else { None }
    }
}

impl Worded<Sole> for Health {
    fn read(_slot: Sole, word: &str) -> Option<Self> {
        Some(Health(whole(word)?))
    }
}

impl Worded<Sole> for Label {
    /// A script writes no marker.
    fn read(_slot: Sole, _word: &str) -> Option<Self> {
        None
    }
}

impl Worded<Sole> for Link {
    fn read(_slot: Sole, word: &str) -> Option<Self> {
        Some(Link(entity(word)?))
    }
}
