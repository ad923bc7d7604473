//! A script of commands, run over any reader and two writers.
use crate::finding::{HealthIndex, answered, before, reads_own};
use crate::parse::{Line, read};
use crate::printed::Printed;
use crate::saving::Saves;
use crate::slot_names::Named;
use crate::values::Worded;
use composed::Empty;
use script_slots::{Health, ScriptJob, Slots};
use specs::{CloneStorages, Command, Has, Parts, Refusal, Reply, World, WorldJob};
use std::alloc::Global;
use std::fmt::Display;
use std::io::{self, BufRead, BufReader, BufWriter, Read, Write};

/// Every line was read, and every reply was written.
const DONE: u8 = 0;
/// Reading or writing failed.
const FAILED: u8 = 1;
/// A line can't be read.
const UNREADABLE: u8 = 2;

/// Runs a script on a new world, and answers the status: 0 at the end of the input, 2 at a line that can't be read (it is told on
/// `faults`, after the replies before it), 1 where reading or writing failed. Replies are written before more input is waited for.
pub fn run_script<R: Read + Drop, O: Write + Drop, F: Write + Drop>(
    alloc: Global,
    input: R,
    output: O,
    mut faults: F,
) -> u8 {
    match run_lines(alloc, input, output) {
        Ok(None) => DONE,
        Ok(Some(line)) => match tell(&mut faults, line) {
            Ok(()) => UNREADABLE,
            Err(_) => FAILED,
        },
        Err(_) => FAILED,
    }
}

/// Runs a script on a new world, and answers the number of the line that can't be read, if there is one.
fn run_lines<R: Read + Drop, O: Write + Drop>(
    alloc: Global,
    input: R,
    output: O,
) -> io::Result<Option<u64>> {
    let mut reader = BufReader::new(alloc, input)?;
    let mut writer = BufWriter::new(alloc, output)?;
    let unreadable = answer_by_slots(alloc, &mut reader, &mut writer)?;
    writer.flush()?;
    Ok(unreadable)
}

/// Answers the lines by a new world of the program's slots.
fn answer_by_slots<R: Read, O: Write + Drop>(
    alloc: Global,
    reader: &mut BufReader<R>,
    writer: &mut BufWriter<O>,
) -> io::Result<Option<u64>> {
    answer_by_new_world::<R, O, Slots, _>(alloc, reader, writer)
}

/// Answers the lines by a new world. It stands for whatever storages, since the end of a world is shorter to prove where they are not known.
fn answer_by_new_world<
    R: Read,
    O: Write + Drop,
    S: Empty + CloneStorages + Saves + Has<Health, I> + Drop,
    I,
>(alloc: Global, reader: &mut BufReader<R>, writer: &mut BufWriter<O>) -> io::Result<Option<u64>>
where
    S::Slot: Named,
    S::Value: Worded<S::Slot> + Display,
{
    let mut world = World::<S, ScriptJob>::new(alloc, S::empty(alloc));
    let mut index = None;
    answer_lines(alloc, &mut world, &mut index, reader, writer)
}

/// Answers the lines up to the end of the input, or up to one that can't be read, whose number is told.
fn answer_lines<R: Read, O: Write + Drop, S: CloneStorages + Saves + Has<Health, I>, I>(
    alloc: Global,
    world: &mut World<S, ScriptJob>,
    index: &mut HealthIndex,
    reader: &mut BufReader<R>,
    writer: &mut BufWriter<O>,
) -> io::Result<Option<u64>>
where
    S::Slot: Named,
    S::Value: Worded<S::Slot> + Display,
{
    let mut line = Vec::new(alloc);
    for number in 1..u64::MAX {
        if !reader.buffer().contains(&b'\n') {
            writer.flush()?;
        }
        line.clear();
        if reader.read_until(b'\n', &mut line)? == 0 {
            break;
        }
        let text = without_line_feed(line.as_slice());
        if !answer(alloc, world, index, writer, text)? {
            return Ok(Some(number));
        }
    }
    Ok(None)
}

/// Does one line, and writes its reply; a line without characters has none. It is false of a line that can't be read.
fn answer<O: Write + Drop, S: CloneStorages + Saves + Has<Health, I>, I>(
    alloc: Global,
    world: &mut World<S, ScriptJob>,
    index: &mut HealthIndex,
    writer: &mut BufWriter<O>,
    text: &[u8],
) -> io::Result<bool>
where
    S::Slot: Named,
    S::Value: Worded<S::Slot> + Display,
{
    if text.is_empty() {
        return Ok(true);
    }
    match read(alloc, text)? {
        Some(line) => {
            respond(alloc, world, index, writer, line)?;
            Ok(true)
        }
        None => Ok(false),
    }
}

/// Does what a line asks for, and writes its reply.
fn respond<S: CloneStorages + Saves + Has<Health, I>, I, J: WorldJob<S>, O: Write + Drop>(
    alloc: Global,
    world: &mut World<S, J>,
    index: &mut HealthIndex,
    writer: &mut BufWriter<O>,
    line: Line<'_, S, J>,
) -> io::Result<()>
where
    S::Value: Display,
{
    match line {
        Line::Command(command) => {
            let reply = Printed(reply(world, index, command));
            writeln!(writer, "{reply}")
        }
        Line::Finding(finding) => {
            let found = answered(&mut world.parts().core, index, finding);
            writeln!(writer, "{found}")
        }
        Line::Saving(saving) => {
            let Parts { entities, storages } = world.parts().core.parts();
            let said = storages.said(alloc, entities, saving);
            writeln!(writer, "{said}")
        }
    }
}

/// Does a command. One that turns the events of `hp` off ends the index first, and the index's reader is no script's.
fn reply<S: CloneStorages + Has<Health, I>, I, J: WorldJob<S>>(
    world: &mut World<S, J>,
    index: &mut HealthIndex,
    command: Command<S, J>,
) -> Reply<S::Value> {
    if reads_own(index, &command) {
        return Reply::Refused(Refusal::UnknownReader);
    }
    before(&mut world.parts().core, index, &command);
    world.apply(command)
}

/// Tells of a line that can't be read.
fn tell<F: Write>(faults: &mut F, line: u64) -> io::Result<()> {
    writeln!(faults, "line {line}: cannot read")?;
    faults.flush()
}

fn without_line_feed(line: &[u8]) -> &[u8] {
    match line {
        [text @ .., b'\n'] => text,
        _ => line,
    }
}
