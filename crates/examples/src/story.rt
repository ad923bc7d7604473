//! How the examples are told: what they work on begins with nothing in it, and lives here alone.
use anyhow::Result;
use std::alloc::Global;

/// What begins with nothing in it.
pub trait Fresh: Sized {
    /// It, as it begins.
    fn fresh(alloc: Global) -> Result<Self>;
}

/// The text that a story writes of something new. What is new is a local here alone, where its type is not known: a function that owns storages
/// of a known type is slow to prove.
pub fn told_of<W: Fresh + Drop, F: FnOnce(&mut W, &mut String) -> Result<()>>(
    alloc: Global,
    story: F,
) -> Result<String>
    requires { F.IsAlwaysCallable story }
{
    let mut text = String::new(alloc);
    let mut world = W::fresh(alloc)?;
    story(&mut world, &mut text)?;
    Ok(text)
}
