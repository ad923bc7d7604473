//! Tests of specs on the components of a world, by their names there.
use crate::runs::{Tale, assert_tale};
use std::alloc::{AllocError, Global};
use std::test::Fail;

/// As many entities, each with its index for a position.
fn positions(alloc: Global, count: u32) -> Result<Tale, AllocError> {
    let mut tale = Tale::new(alloc);
    tale.line("register pos", "ok")?;
    for index in 0..count {
        let entity = format!(in alloc; "{index}:1")?;
        let insert = format!(in alloc; "insert pos {entity} {index}")?;
        tale.line("create", entity.as_str())?;
        tale.line(insert.as_str(), "none")?;
    }
    Ok(tale)
}

/// Asks for the position of each entity, and says that it is its index.
fn get_each(alloc: Global, tale: &mut Tale, count: u32) -> Result<(), AllocError> {
    for index in 0..count {
        let get = format!(in alloc; "get pos {index}:1")?;
        let number = format!(in alloc; "{index}")?;
        tale.line(get.as_str(), number.as_str())?;
    }
    Ok(())
}

#[test]
fn insert(rt: HostRuntime) -> Result<(), Fail> {
    let mut tale = positions(rt.alloc(), 1000)?;
    get_each(rt.alloc(), &mut tale, 1000)?;
    tale.assert_holds(&rt, rt.alloc());
    Ok(())
}

#[test]
fn insert_100k(rt: HostRuntime) -> Result<(), Fail> {
    let mut tale = positions(rt.alloc(), 100_000)?;
    get_each(rt.alloc(), &mut tale, 100_000)?;
    tale.assert_holds(&rt, rt.alloc());
    Ok(())
}

/// Removes each position, and then finds none.
fn remove_each(alloc: Global, tale: &mut Tale, count: u32) -> Result<(), AllocError> {
    for index in 0..count {
        let remove = format!(in alloc; "remove pos {index}:1")?;
        let number = format!(in alloc; "{index}")?;
        let get = format!(in alloc; "get pos {index}:1")?;
        tale.line(remove.as_str(), number.as_str())?;
        tale.line(get.as_str(), "none")?;
    }
    Ok(())
}

#[test]
fn remove(rt: HostRuntime) -> Result<(), Fail> {
    let mut tale = positions(rt.alloc(), 1000)?;
    get_each(rt.alloc(), &mut tale, 1000)?;
    remove_each(rt.alloc(), &mut tale, 1000)?;
    tale.assert_holds(&rt, rt.alloc());
    Ok(())
}

/// Inserts a second position, the first one's negative, and finds it. The first entity keeps its position, which is 0.
fn negate_each(alloc: Global, tale: &mut Tale, count: u32) -> Result<(), AllocError> {
    for index in 1..count {
        let insert = format!(in alloc; "insert pos {index}:1 -{index}")?;
        let get = format!(in alloc; "get pos {index}:1")?;
        let before = format!(in alloc; "{index}")?;
        let after = format!(in alloc; "-{index}")?;
        tale.line(insert.as_str(), before.as_str())?;
        tale.line(get.as_str(), after.as_str())?;
    }
    Ok(())
}

#[test]
fn test_gen(rt: HostRuntime) -> Result<(), Fail> {
    let mut tale = positions(rt.alloc(), 1000)?;
    negate_each(rt.alloc(), &mut tale, 1000)?;
    tale.assert_holds(&rt, rt.alloc());
    Ok(())
}

/// Where specs panics, the insertion is refused.
#[test]
fn wrap(rt: HostRuntime) -> Result<(), Fail> {
    let mut tale = Tale::new(rt.alloc());
    tale.line("register pos", "ok")?;
    tale.line(
        "insert pos 33554432:1 7",
        "error: Tried to insert component for entity entity Entity(33554432, Generation(1)), but the generation is no longer valid; it should be Generation(1)",
    )?;
    tale.assert_holds(&rt, rt.alloc());
    Ok(())
}

#[test]
fn register_idempotency(rt: HostRuntime) -> Result<(), Fail> {
    assert_tale(
        &rt,
        rt.alloc(),
        "
        register pos -> ok
        create -> 0:1
        insert pos 0:1 10 -> none
        register pos -> ok
        get pos 0:1 -> 10
        ",
    )?;
    Ok(())
}
