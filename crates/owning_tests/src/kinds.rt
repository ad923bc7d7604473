//! Each component goes into a storage of its kind, stays there beside another, and comes out whole.
use entities::{EntitiesRes, Entity};
use owning::{boxes, cargos, counts, labels, names};
use std::alloc::Global;
use std::process::Abort;
use std::rc::Rc;
use std::test::Fail;
use storages::{Component, MaskedStorage, TryDefault, UnprotectedStorage, WriteStorage};

/// A birth.
fn born(entities: &mut EntitiesRes) -> Result<Entity, Fail> {
    Ok(entities.create().ok().ok_or("a birth")?)
}

/// The component of one entity, out of a new storage in which another stays.
fn kept<T: Component<Storage: UnprotectedStorage<T> + TryDefault> + Drop>(
    alloc: Global,
    value: T,
    other: T,
) -> Result<Option<T>, Fail> {
    let mut entities = EntitiesRes::new(alloc);
    let first = born(&mut entities)?;
    let second = born(&mut entities)?;
    let inner = T::Storage::try_default(alloc)?;
    let mut masked = MaskedStorage::new(alloc, inner);
    let mut view = WriteStorage::new(&entities, &mut masked);
    view.insert(first, value).ok().ok_or("memory")?;
    view.insert(second, other).ok().ok_or("memory")?;
    Ok(view.remove(first)?)
}

/// Of two values the first goes in and comes out, as large as it was.
fn comes_out<T, V, M: Fn(V) -> T, S: Fn(&T) -> usize, R: Abort>(
    rt: &R,
    alloc: Global,
    values: (V, V),
    made: M,
    size: S,
) -> Result<(), Fail>
where
    T: Component<Storage: UnprotectedStorage<T> + TryDefault> + Drop,
    V: Drop,
    requires makes { M.IsAlwaysCallable made }
    requires measures { S.IsAlwaysCallable size }
{
    let (first, second) = values;
    let out = kept(alloc, made(first), made(second))?;
    assert_eq!(rt; out.map(|it| size(&it)), Some(7));
    Ok(())
}

/// A text of so many letters.
fn text(alloc: Global, letters: u32) -> Result<String, Fail> {
    let mut it = String::new(alloc);
    for _ in 0..letters {
        it.push('a')?;
    }
    Ok(it)
}

/// Two texts.
fn texts(alloc: Global) -> Result<(String, String), Fail> {
    Ok((text(alloc, 7)?, text(alloc, 9)?))
}

/// A list of so many goods.
fn list(alloc: Global, count: u32) -> Result<Vec<u32>, Fail> {
    let mut it = Vec::new(alloc);
    for at in 0..count {
        it.push(at)?;
    }
    Ok(it)
}

/// Two lists.
fn lists(alloc: Global) -> Result<(Vec<u32>, Vec<u32>), Fail> {
    Ok((list(alloc, 7)?, list(alloc, 9)?))
}

/// Two numbers in boxes.
fn boxed(alloc: Global) -> Result<(Box<u32>, Box<u32>), Fail> {
    Ok((Box::new(alloc, 7)?, Box::new(alloc, 9)?))
}

/// Two counted numbers.
fn counted(alloc: Global) -> Result<(Rc<u32>, Rc<u32>), Fail> {
    Ok((Rc::new(alloc, 7)?, Rc::new(alloc, 9)?))
}

#[test]
fn texts_stay_whole_in_each_kind(rt: HostRuntime) -> Result<(), Fail> {
    let a = rt.alloc();
    comes_out(&rt, a, texts(a)?, |it| names::InVec(it), |it| it.0.len())?;
    comes_out(
        &rt,
        a,
        texts(a)?,
        |it| names::InDenseVec(it),
        |it| it.0.len(),
    )?;
    comes_out(
        &rt,
        a,
        texts(a)?,
        |it| names::InHashMap(it),
        |it| it.0.len(),
    )?;
    comes_out(&rt, a, texts(a)?, |it| names::InBTree(it), |it| it.0.len())?;
    comes_out(
        &rt,
        a,
        texts(a)?,
        |it| names::InFlagged(it),
        |it| it.0.len(),
    )
}

#[test]
fn lists_stay_whole(rt: HostRuntime) -> Result<(), Fail> {
    let a = rt.alloc();
    comes_out(
        &rt,
        a,
        lists(a)?,
        |it| cargos::InDenseVec(it),
        |it| it.0.len(),
    )
}

#[test]
fn boxes_stay_whole(rt: HostRuntime) -> Result<(), Fail> {
    let a = rt.alloc();
    comes_out(
        &rt,
        a,
        boxed(a)?,
        |it| boxes::InFlagged(it),
        |it| *it.0 as usize,
    )
}

#[test]
fn counted_references_stay_whole(rt: HostRuntime) -> Result<(), Fail> {
    let a = rt.alloc();
    comes_out(
        &rt,
        a,
        counted(a)?,
        |it| counts::InHashMap(it),
        |it| *it.0 as usize,
    )
}

#[test]
fn labels_stay_whole(rt: HostRuntime) -> Result<(), Fail> {
    let a = rt.alloc();
    comes_out(
        &rt,
        a,
        texts(a)?,
        |it| labels::InDefaultVec::Called(it),
        |it| match it {
            labels::InDefaultVec::Called(text) => text.len(),
            labels::InDefaultVec::Unknown => 0,
        },
    )
}
