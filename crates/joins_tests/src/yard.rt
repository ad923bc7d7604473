//! What tests ask of entities and storages, in calls whose types say nothing of the storages: a function that names a storage's type, or a
//! parameter of one, is slow to prove, and a story that is told of whatever is a yard is not.
use entities::Entity;
use hibits::BitSet;
use joins::ChangeSet;
use std::alloc::{AllocError, Global};
use std::process::Abort;
use std::test::Fail;
use storages::ComponentEvent;

/// Entities, and storages of two components of two numbers, and of a third for those that are chosen. What may be refused answers whether it was
/// not. A single number is the first of the two.
pub trait Yard {
    /// A birth.
    fn bear(&mut self) -> Result<Entity, Fail>;

    /// Kills an entity.
    fn kill(&mut self, e: Entity) -> bool;

    /// Puts two numbers at an index of the first storage.
    fn put_first(&mut self, id: u32, numbers: (i32, i32)) -> bool;

    /// The same of the second storage.
    fn put_second(&mut self, id: u32, numbers: (i32, i32)) -> bool;

    /// Chooses an index.
    fn choose(&mut self, id: u32) -> bool;

    /// Takes the second component of an index out.
    fn take_second(&mut self, id: u32) -> bool;

    /// The numbers of an index in the first storage.
    fn first(&self, id: u32) -> Option<(i32, i32)>;

    /// The same of the second storage.
    fn second(&self, id: u32) -> Option<(i32, i32)>;

    /// Adds to each first component the second beside it.
    fn go_on(&mut self);

    /// How many indices a join of the first storage gives.
    fn count_first(&self) -> u32;

    /// How many a join of the first storage and its absence gives.
    fn count_beside_absence(&self) -> u32;

    /// Whether a join of a view of the first storage and the view's absence gives nothing.
    fn is_beside_no_absence(&self) -> bool;

    /// The indices of a drain of the first storage, of which it takes one out, twice. Answers whether the second time there was none.
    fn drain_at(&mut self, alloc: Global, id: u32) -> Result<(Vec<u32>, bool), AllocError>;

    /// The entities of which a drain takes the first component out.
    fn drain(&mut self, alloc: Global) -> Result<Vec<Entity>, AllocError>;

    /// Increases the first number of each living entity that has a second component, from 0 where it has none, and resets it at a limit.
    fn increase(&mut self, limit: i32) -> bool;

    /// The sum of the first numbers of the living, each of which gets one where it has none.
    fn sum(&mut self, number: i32) -> Result<i32, AllocError>;

    /// The first numbers as they are shown, of which each is lent the same; and `None` where one is not.
    fn shown_and_lent(&mut self, alloc: Global) -> Result<Option<Vec<i32>>, AllocError>;

    /// Each first number beside that of one entity.
    fn beside_one(&self, alloc: Global, one: Entity) -> Result<Vec<(i32, i32)>, AllocError>;

    /// Exchanges the components of the chosen.
    fn exchange(&mut self);

    /// Takes its change from each first number that has one.
    fn subtract(&mut self, changes: &ChangeSet<i32>);

    /// The same of changes that are given up.
    fn subtract_all(&mut self, changes: ChangeSet<i32>);

    /// Each change becomes no more than the first number beside it.
    fn bound(&self, changes: &mut ChangeSet<i32>);

    /// Tells of a cursor over both storages that writes to the first.
    fn tell_of_cursor<R: Abort>(&mut self, rt: &R);
}

/// The cursors of a view of the first storage.
pub trait Viewed: Yard {
    /// Writes to the first index that has both components.
    fn write(&mut self, number: i32) -> Option<u32>;

    /// Takes the first component out.
    fn take(&mut self) -> (Option<u32>, Option<i32>);

    /// The first of the living, if its place is lent.
    fn place(&mut self) -> Option<u32>;

    /// Looks at an entity, and writes to it, from the first index of a walk.
    fn look(&mut self, one: Entity) -> (Option<u32>, bool, bool);

    /// The first number that a walk to read shows.
    fn show(&mut self) -> Option<i32>;

    /// The first number of an entity.
    fn at(&mut self, one: Entity) -> Option<i32>;
}

/// What joins of both storages give.
pub trait Joined: Yard {
    /// At an entity.
    fn both_at(&self, e: Entity) -> Option<(i32, i32)>;

    /// At an index.
    fn both_in(&self, id: u32) -> Option<(i32, i32)>;

    /// At an entity and at an index, of the first storage, restricted.
    fn restricted_at(&self, e: Entity) -> Option<(i32, i32)>;

    /// First, then at an entity, and then as the next, of the first storage.
    fn midway(&self, e: Entity) -> Option<(i32, i32, i32)>;

    /// To a walk and its copy next, after a step.
    fn both_next(&self) -> Option<(i32, i32)>;

    /// The pairs of first numbers, by a copy of the walk at each step.
    fn pairs(&self, alloc: Global) -> Result<Vec<(i32, i32)>, AllocError>;

    /// The first of the living.
    fn living(&self) -> Option<Entity>;

    /// How many words a walk over both has read after one step.
    fn reads(&self) -> u64;

    /// What a walk over both gives, if it gives two and ends.
    fn two(&self) -> Option<((i32, i32), (i32, i32))>;

    /// What a walk over the living and both gives first, and whether that is all.
    fn three(&self) -> Option<(Entity, i32, i32, bool)>;

    /// The sum of the first numbers at the indices of a set.
    fn sum_at(&self, set: &BitSet) -> i32;
}

/// A yard whose first storage tells of each change.
pub trait Told: Joined {
    /// Registers the first reader.
    fn listen(&mut self) -> bool;

    /// What the first reader reads.
    fn events(&mut self) -> Option<Vec<ComponentEvent>>;

    /// Increases the first numbers that are below a limit, and only looks at the others.
    fn raise_low(&mut self, limit: i32);

    /// Takes the number of the second index of a drain out.
    fn take_next(&mut self) -> (Option<u32>, Option<u32>, Option<i32>);
}
