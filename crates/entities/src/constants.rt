//! The limits, by their numbers.
ghost use Rattle.entities.specs.Limits.{IndicesEnd, GenerationsEnd, PassesEnd, DeletionIsNamed};

/// The limits of entities, for callers' proofs: an index lies below `INDEX_LIMIT`, the last generation is 2,147,483,647, a phase has at most
/// 4,096 passes, and a refusal of a death or a mark names `delete`. It does nothing.
#[inline]
pub fn limits()
    ensures indices { IndicesEnd }
    ensures generations { GenerationsEnd }
    ensures passes { PassesEnd }
    ensures action { DeletionIsNamed }
{}
