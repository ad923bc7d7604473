//! What the entities answer, step by step, on small worlds.
use entities::{CreateError, EntitiesRes, Entity, Error, INDEX_LIMIT, WrongGeneration};
use std::alloc::{AllocError, Global};
use std::test::Fail;

/// A call, with what identifies its entities.
enum Step {
    Allocate,
    Create,
    Build,
    BuildAndDrop,
    Delete(u32, i32),
    Kill(&'static [(u32, i32)]),
    Merge,
    EntityAt(u32),
    GenerationAt(u32),
    IsAlive(u32, i32),
    IsMerged(u32, i32),
    IsMarked(u32),
}

fn entity(index: u32, generation: i32) -> Option<Entity> {
    Entity::from_parts(index, generation)
}

fn text_of_birth(alloc: Global, birth: Result<Entity, CreateError>) -> Result<String, AllocError> {
    match birth {
        Ok(e) => format!(in alloc; "{e:?}"),
        Err(error) => format!(in alloc; "{error}"),
    }
}

fn text_of_death(alloc: Global, death: Result<(), WrongGeneration>) -> Result<String, AllocError> {
    match death {
        Ok(()) => "ok".to_string(alloc),
        Err(refused) => {
            let error = Error::from(refused);
            format!(in alloc; "{error}")
        }
    }
}

fn build(entities: &mut EntitiesRes, whole: bool) -> Result<Entity, CreateError> {
    match entities.build_entity() {
        Ok(builder) => {
            let entity = builder.entity();
            if whole {
                return Ok(builder.build());
            }
            Ok(entity)
        }
        Err(error) => Err(error),
    }
}

fn kill(
    alloc: Global,
    entities: &mut EntitiesRes,
    list: &[(u32, i32)],
) -> Result<String, AllocError> {
    let mut all = Vec::new(alloc);
    for (index, generation) in list {
        if let Some(e) = entity(*index, *generation) {
            all.push(e)?;
        }
    }
    text_of_death(alloc, entities.alloc_mut().kill(all.as_slice()))
}

fn merge(alloc: Global, entities: &mut EntitiesRes) -> Result<String, AllocError> {
    let dead = entities.alloc_mut().merge(alloc)?;
    let mut text = String::new(alloc);
    for e in dead.iter() {
        let one = format!(in alloc; "{e:?};")?;
        text.push_str(one.as_str())?;
    }
    Ok(text)
}

fn text_of(alloc: Global, entities: &mut EntitiesRes, step: &Step) -> Result<String, AllocError> {
    match step {
        Step::Allocate => text_of_birth(alloc, entities.alloc_mut().allocate()),
        Step::Create => text_of_birth(alloc, entities.create()),
        Step::Build => text_of_birth(alloc, build(entities, true)),
        Step::BuildAndDrop => text_of_birth(alloc, build(entities, false)),
        Step::Delete(index, generation) => match entity(*index, *generation) {
            Some(e) => text_of_death(alloc, entities.delete(e)),
            None => "no entity".to_string(alloc),
        },
        Step::Kill(list) => kill(alloc, entities, list),
        Step::Merge => merge(alloc, entities),
        Step::EntityAt(index) => text_of_birth(alloc, Ok(entities.entity(*index))),
        Step::GenerationAt(index) => match entities.alloc_mut().generation(*index) {
            Some(generation) => format!(in alloc; "{generation:?}"),
            None => "none".to_string(alloc),
        },
        Step::IsAlive(index, generation) => {
            let alive = match entity(*index, *generation) {
                Some(e) => entities.is_alive(e),
                None => false,
            };
            format!(in alloc; "{alive}")
        }
        Step::IsMerged(index, generation) => {
            let merged = match entity(*index, *generation) {
                Some(e) => entities.alloc_mut().is_merged(e),
                None => false,
            };
            format!(in alloc; "{merged}")
        }
        Step::IsMarked(index) => {
            let marked = entities.marked().contains(*index);
            format!(in alloc; "{marked}")
        }
    }
}

const FIRST: &str = "Entity(0, Generation(1))";

const FIRST_REFUSED: &str =
    "Wrong generation: Tried to delete entity Entity(0, Generation(1)), but the generation is no longer valid; it should be Generation(2)";

/// Each story begins in a new world.
const STORIES: &[(&str, &[(Step, &str)])] = &[
    (
        "a mark waits for the merge",
        &[
            (Step::Allocate, FIRST),
            (Step::Delete(0, 1), "ok"),
            (Step::Delete(0, 1), "ok"),
            (Step::Allocate, "Entity(1, Generation(1))"),
            (Step::IsMarked(0), "true"),
            (Step::Merge, "Entity(0, Generation(1));"),
            (Step::IsMarked(0), "false"),
        ],
    ),
    (
        "a death at once takes the mark away",
        &[
            (Step::Allocate, FIRST),
            (Step::Delete(0, 1), "ok"),
            (Step::Allocate, "Entity(1, Generation(1))"),
            (Step::IsMarked(0), "true"),
            (Step::Kill(&[(0, 1)]), "ok"),
            (Step::IsMarked(0), "false"),
            (Step::Allocate, "Entity(0, Generation(2))"),
            (Step::IsMarked(0), "false"),
            (Step::Merge, ""),
            (Step::Delete(0, 1), FIRST_REFUSED),
            (Step::Kill(&[(1, 1), (0, 1)]), FIRST_REFUSED),
            (Step::IsAlive(1, 1), "true"),
        ],
    ),
    (
        "a pending birth is marked",
        &[
            (Step::Create, FIRST),
            (Step::Delete(0, 1), "ok"),
            (Step::IsAlive(0, 1), "true"),
            (Step::IsMerged(0, 1), "false"),
            (Step::Merge, "Entity(0, Generation(1));"),
            (Step::Create, "Entity(0, Generation(2))"),
        ],
    ),
    (
        "an index that was never born",
        &[
            (Step::EntityAt(9), "Entity(9, Generation(1))"),
            (
                Step::EntityAt(INDEX_LIMIT),
                "Entity(1073741824, Generation(1))",
            ),
            (Step::IsAlive(9, 1), "false"),
            (Step::GenerationAt(9), "none"),
            (
                Step::Delete(9, 1),
                "Wrong generation: Tried to delete entity Entity(9, Generation(1)), but the generation is no longer valid; it should be Generation(1)",
            ),
        ],
    ),
    (
        "a builder dropped unbuilt marks",
        &[
            (Step::BuildAndDrop, FIRST),
            (Step::IsAlive(0, 1), "true"),
            (Step::Merge, "Entity(0, Generation(1));"),
            (Step::Create, "Entity(0, Generation(2))"),
            (Step::Build, "Entity(1, Generation(1))"),
            (Step::Merge, ""),
            (Step::IsMerged(1, 1), "true"),
        ],
    ),
    (
        "pending a second time",
        &[
            (Step::Allocate, FIRST),
            (Step::Kill(&[(0, 1)]), "ok"),
            (Step::Create, "Entity(0, Generation(2))"),
            (Step::EntityAt(0), "Entity(0, Generation(2))"),
            (Step::GenerationAt(0), "Generation(-1)"),
            (
                Step::Kill(&[(0, 2), (0, 2)]),
                "Wrong generation: Tried to delete entity Entity(0, Generation(2)), but the generation is no longer valid; it should be Generation(-1)",
            ),
            (Step::Kill(&[]), "ok"),
            (Step::Kill(&[(0, 2)]), "ok"),
            (Step::EntityAt(0), "Entity(0, Generation(-2))"),
            (Step::IsAlive(0, -2), "false"),
            (Step::Merge, ""),
        ],
    ),
];

#[test]
fn stories_go_as_told(rt: HostRuntime) -> Result<(), Fail> {
    for (name, steps) in STORIES {
        let mut entities = EntitiesRes::new(rt.alloc());
        for (step, expected) in steps.iter() {
            let text = text_of(rt.alloc(), &mut entities, step)?;
            assert_eq!(rt; text.as_str(), *expected, "{name}");
        }
    }
    let custom = Error::Custom("x".to_string(rt.alloc())?);
    let text = format!(in rt.alloc(); "{custom}")?;
    assert_eq!(rt; text.as_str(), "Custom: x");
    Ok(())
}

/// How many items there are until it ends, and how many of them are entities.
fn made(entities: &mut EntitiesRes, most: usize) -> (usize, usize) {
    let mut items = 0;
    let mut count = 0;
    for item in entities.create_iter().take(most) {
        if items < most && count < most {
            items += 1;
            if item.is_ok() {
                count += 1;
            }
        }
    }
    (items, count)
}

#[test]
fn five_made_and_marked(rt: HostRuntime) -> Result<(), Fail> {
    let mut entities = EntitiesRes::new(rt.alloc());
    assert_eq!(rt; made(&mut entities, 5), (5, 5));
    for index in (0..5).rev() {
        if let Some(e) = entity(index, 1) {
            let _ = entities.delete(e);
        }
    }
    let text = merge(rt.alloc(), &mut entities)?;
    assert_eq!(rt;
        text.as_str(),
        "Entity(0, Generation(1));Entity(1, Generation(1));Entity(2, Generation(1));Entity(3, Generation(1));Entity(4, Generation(1));"
    );
    Ok(())
}
