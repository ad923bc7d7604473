//! What is saved of an entity.

/// What is saved of an entity: its marker, and its components with a marker in place of each reference.
///
/// Ports `specs::saveload::EntityData`.
#[derive(Drop)]
pub struct EntityData<M, D> {
    /// The entity's marker.
    pub marker: M,
    /// For each storage the component's data, or none.
    pub components: D,
}
