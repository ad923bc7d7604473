//! What is printed for a reply.
use specs::{Entity, Maintained, ReaderId, Refusal, Reply};
use std::fmt;

/// A reply, on one line without its line feed.
#[derive(Drop)]
pub struct Printed<V>(pub Reply<V>);

impl<V: fmt::Display> fmt::Display for Printed<V> {
    fn fmt<W: fmt::Write>(&self, f: &mut fmt::Formatter<W>) -> fmt::Result {
        match &self.0 {
            Reply::Done => write!(f, "ok"),
            Reply::Entity(e) => write_entity(f, *e),
            Reply::Bool(b) => write!(f, "{b}"),
            Reply::Value(None) => write!(f, "none"),
            Reply::Value(Some(value)) => write!(f, "{value}"),
            Reply::Count(n) => write!(f, "{n}"),
            Reply::Indices(indices) => write!(f, "{indices:?}"),
            Reply::Maintained(maintained) => write_maintained(f, maintained),
            Reply::Reader(reader) => write_reader(f, reader),
            Reply::Events(events) => write!(f, "{events:?}"),
            Reply::Refused(refusal) => write_refusal(f, *refusal),
            Reply::InsertRefused(refusal, _) => write_refusal(f, *refusal),
        }
    }
}

pub fn write_entity<W: fmt::Write>(f: &mut fmt::Formatter<W>, e: Entity) -> fmt::Result {
    let index = e.id();
    let generation = e.generation().id();
    write!(f, "{index}:{generation}")
}

fn write_reader<W: fmt::Write>(f: &mut fmt::Formatter<W>, reader: &ReaderId) -> fmt::Result {
    let number = reader.number();
    write!(f, "reader {number}")
}

fn write_maintained<W: fmt::Write>(
    f: &mut fmt::Formatter<W>,
    maintained: &Maintained,
) -> fmt::Result {
    let Maintained {
        deleted,
        ran,
        refused,
        left,
        stopped,
    } = maintained;
    write!(f, "deleted [")?;
    for (k, e) in deleted.iter().enumerate() {
        if k > 0 {
            write!(f, ", ")?;
        }
        write_entity(f, *e)?;
    }
    write!(f, "] ran {ran} refused {refused} left {left}")?;
    if *stopped {
        write!(f, " stopped")?;
    }
    Ok(())
}

fn write_refusal<W: fmt::Write>(f: &mut fmt::Formatter<W>, refusal: Refusal) -> fmt::Result {
    match refusal {
        Refusal::WrongGeneration(wrong) => write!(f, "error: {wrong}"),
        Refusal::Unregistered => write!(f, "error: unregistered"),
        Refusal::IndexLimit => write!(f, "error: index limit"),
        Refusal::OutOfMemory => write!(f, "error: out of memory"),
        Refusal::Untracked => write!(f, "error: untracked"),
        Refusal::UnknownReader => write!(f, "error: unknown reader"),
    }
}
