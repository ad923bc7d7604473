//! Events on components.
ghost use Rattle.std.specs.Prelude.{◌≡◌};
ghost use Rattle.storages.specs.Named.{index_at};

use hibits::Index;

/// What happened to the component at an index. Ports `specs::storage::ComponentEvent`.
#[derive(Clone, Copy, PartialEq, Eq, Debug)]
pub enum ComponentEvent {
    /// A component was inserted at this index, which had none.
    Inserted(u32),
    /// The component of this index was lent for writing, or replaced.
    Modified(u32),
    /// The component of this index was taken out.
    Removed(u32),
}

impl ComponentEvent {
    /// The index that it is of.
    pub fn id(self) -> Index
        ensures { result ≡ index_at self }
    {
        match self {
            ComponentEvent::Inserted(id) => id,
            ComponentEvent::Modified(id) => id,
            ComponentEvent::Removed(id) => id,
        }
    }
}
