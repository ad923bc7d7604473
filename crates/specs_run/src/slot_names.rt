//! The names of the slots.
use script_slots::{DEF, HP, ID, LINK, MAP, POS, Slot, TAG, TREE, VEL};

/// Slots that a script names.
pub trait Named: Copy {
    /// The slot of a name, if there is one.
    fn named(word: &str) -> Option<Self>;

    /// The slot of labels.
    fn of_labels() -> Self;
}

impl Named for Slot {
    fn named(word: &str) -> Option<Slot> {
        match word {
            "pos" => Some(POS),
            "vel" => Some(VEL),
            "def" => Some(DEF),
            "map" => Some(MAP),
            "tree" => Some(TREE),
            "tag" => Some(TAG),
            "hp" => Some(HP),
            "link" => Some(LINK),
            "id" => Some(ID),
            _ => None,
        }
    }

    fn of_labels() -> Slot {
        ID
    }
}
