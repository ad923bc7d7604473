//! The lines of a script.
use crate::sets::set;
use crate::slot_names::Named;
use crate::values::Worded;
use crate::words::{entity, index, number, whole};
use script_slots::ScriptJob;
use specs::{Command, Entity, Held, Job, ReaderId};
use std::alloc::{AllocError, Global};
use std::str;

/// What a line asks for.
#[derive(Drop)]
pub enum Line<'a, S: Held, J> {
    /// A command of the world.
    Command(Command<S, J>),
    /// What has to do with labels.
    Saving(Saving<'a>),
    /// What has to do with the index of `hp`.
    Finding(Finding),
}

/// What a line asks for that has to do with the index of `hp`.
#[derive(Clone, Copy)]
pub enum Finding {
    /// A new index, in place of an earlier one.
    Index,
    /// The indices that have this value.
    Find(i64),
}

/// What a line asks for that has to do with labels.
#[derive(Drop)]
pub enum Saving<'a> {
    /// The label of an entity, which gets one if it has none.
    Label(Entity),
    /// The text of the entities that have labels.
    Save,
    /// The same, and of those that they lead to, which get labels.
    SaveAll,
    /// The entities of a text.
    Load(&'a str),
}

/// What a line of a script asks for, of whatever storages: it is shorter to prove where they are not known.
pub type ScriptLine<'a, S> = Line<'a, S, ScriptJob>;

/// What a line without its line feed asks for, if it can be read.
pub fn read<S: Held>(alloc: Global, line: &[u8]) -> Result<Option<ScriptLine<'_, S>>, AllocError>
where
    S::Slot: Named,
    S::Value: Worded<S::Slot>,
{
    let Ok(text) = str::from_utf8(line) else {
        return Ok(None);
    };
    match text.strip_prefix("load ") {
        Some(saved) => match load(saved) {
            Some(saving) => Ok(Some(Line::Saving(saving))),
            None => Ok(None),
        },
        None => words(alloc, text),
    }
}

/// A text that is not empty and has no space at either end.
fn load(text: &str) -> Option<Saving<'_>> {
    if text.is_empty() || text.starts_with(' ') || text.ends_with(' ') {
        None
    } else {
        Some(Saving::Load(text))
    }
}

/// What words ask for that are parted by one space.
fn words<S: Held>(alloc: Global, text: &str) -> Result<Option<ScriptLine<'_, S>>, AllocError>
where
    S::Slot: Named,
    S::Value: Worded<S::Slot>,
{
    let mut words = Vec::new(alloc);
    for word in text.split(' ') {
        words.push(word)?;
    }
    match words.as_slice() {
        ["label", e] => match entity(e) {
            Some(e) => Ok(Some(Line::Saving(Saving::Label(e)))),
            None => Ok(None),
        },
        ["index", "hp"] => Ok(Some(Line::Finding(Finding::Index))),
        ["find", v] => match whole(v) {
            Some(v) => Ok(Some(Line::Finding(Finding::Find(v)))),
            None => Ok(None),
        },
        ["save"] => Ok(Some(Line::Saving(Saving::Save))),
        ["save-all"] => Ok(Some(Line::Saving(Saving::SaveAll))),
        words => match command(alloc, words)? {
            Some(command) => Ok(Some(Line::Command(command))),
            None => Ok(None),
        },
    }
}

/// A command of the world.
fn command<S: Held>(
    alloc: Global,
    words: &[&str],
) -> Result<Option<Command<S, ScriptJob>>, AllocError>
where
    S::Slot: Named,
    S::Value: Worded<S::Slot>,
{
    match words {
        ["delete", rest @ ..] => match entities(alloc, rest)? {
            Some(list) => Ok(Some(Command::Delete(list))),
            None => Ok(None),
        },
        ["job", rest @ ..] => match job(rest) {
            Some(job) => Ok(Some(Command::Queue(job))),
            None => Ok(None),
        },
        ["select", rest @ ..] => match set(alloc, rest)? {
            Some(set) => Ok(Some(Command::Select(set))),
            None => Ok(None),
        },
        words => Ok(plain(words)),
    }
}

/// A command that holds no list and no set.
fn plain<S: Held>(words: &[&str]) -> Option<Command<S, ScriptJob>>
where
    S::Slot: Named,
    S::Value: Worded<S::Slot>,
{
    match words {
        ["create"] => Some(Command::Create),
        ["create", "pending"] => Some(Command::CreatePending),
        ["delete-all"] => Some(Command::DeleteAll),
        ["register", s] => Some(Command::Register(S::Slot::named(s)?)),
        ["mark", e] => Some(Command::MarkDead(entity(e)?)),
        ["alive", e] => Some(Command::IsAlive(entity(e)?)),
        ["living", e] => Some(Command::IsLiving(entity(e)?)),
        ["entity", i] => Some(Command::EntityAt(index(i)?)),
        ["insert", s, e, v] => Some(Command::Insert(
            entity(e)?,
            S::Value::read(S::Slot::named(s)?, v)?,
        )),
        ["get", s, e] => Some(Command::Get(S::Slot::named(s)?, entity(e)?)),
        ["remove", s, e] => Some(Command::Remove(S::Slot::named(s)?, entity(e)?)),
        ["clear", s] => Some(Command::Clear(S::Slot::named(s)?)),
        ["count", s] => Some(Command::Count(S::Slot::named(s)?)),
        ["maintain", n] => Some(Command::Maintain(number(n)?)),
        ["reader", s] => Some(Command::Reader(S::Slot::named(s)?)),
        ["events", s, n] => Some(Command::Events(S::Slot::named(s)?, ReaderId::of(number(n)?))),
        ["emit", s, "on"] => Some(Command::Emit(S::Slot::named(s)?, true)),
        ["emit", s, "off"] => Some(Command::Emit(S::Slot::named(s)?, false)),
        _ => None,
    }
}

/// A job.
fn job<S: Held>(words: &[&str]) -> Option<Job<S, ScriptJob>>
where
    S::Slot: Named,
    S::Value: Worded<S::Slot>,
{
    match words {
        ["insert", s, e, v] => Some(Job::Insert(
            entity(e)?,
            S::Value::read(S::Slot::named(s)?, v)?,
        )),
        ["remove", s, e] => Some(Job::Remove(S::Slot::named(s)?, entity(e)?)),
        ["label", e] => Some(Job::Mark(S::Slot::of_labels(), entity(e)?)),
        ["again"] => Some(Job::Own(ScriptJob::Again)),
        ["create"] => Some(Job::Own(ScriptJob::Create)),
        _ => None,
    }
}

/// A list of one entity or more.
fn entities(alloc: Global, words: &[&str]) -> Result<Option<Vec<Entity>>, AllocError> {
    if words.is_empty() {
        return Ok(None);
    }
    let mut list = Vec::new(alloc);
    for word in words {
        match entity(word) {
            Some(e) => list.push(e)?,
            None => return Ok(None),
        }
    }
    Ok(Some(list))
}
