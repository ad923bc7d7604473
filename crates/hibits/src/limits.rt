//! The range of indices.
ghost use Rattle.std.specs.Prelude.{◌≡◌, ◌^◌};

/// An index of an entity. Those that a set can hold lie below `INDEX_LIMIT`.
pub type Index = u32;

/// How many layers of words a set has. The top layer is one word of 64 bits.
pub const LAYERS: usize = 5;

/// Indices lie below this, which is 64 to the power of `LAYERS`.
pub const INDEX_LIMIT: u32 = 1_073_741_824;

/// The limits, by their numbers.
pub fn range_of_indices()
    ensures layers { LAYERS ≡ 5 }
    ensures indices { INDEX_LIMIT ≡ 1073741824 }
    ensures parts { INDEX_LIMIT ≡ 64 ^ LAYERS }
{}
