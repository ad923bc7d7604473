//! Saved lists as texts.
use crate::components::Position;
use crate::worlds::{
    Record, World, comes_true, entity_at, is_linked, is_marked_now, is_placed, records_of, save,
    save_text, text_of,
};
use entities::Entity;
use saveload::{LoadError, SaveError};
use std::alloc::Global;
use std::process::Abort;
use std::test::Fail;

const TWO: &str =
    "[{\"components\":[[5],[1]],\"marker\":0},{\"components\":[null,[0]],\"marker\":1}]";

const FOUR: &str =
    "[{\"components\":[[15],[3]],\"marker\":0},{\"components\":[[-7],null],\"marker\":1},{\"components\":[null,[2]],\"marker\":2},{\"components\":[null,null],\"marker\":3}]";

type Read = Result<Vec<Record>, LoadError>;

fn read(alloc: Global, text: &str) -> Read {
    records_of(alloc, text)
}

/// Whether a text is read as a list whose text is the second one.
fn is_read_as(alloc: Global, text: &str, written: &str) -> Result<bool, Fail> {
    match read(alloc, text) {
        Ok(list) => Ok(text_of(alloc, &list)?.as_str() == written),
        Err(_) => Ok(false),
    }
}

fn is_refused(alloc: Global, text: &str) -> bool {
    matches!(read(alloc, text), Err(LoadError::NotTheForm))
}

// Two that refer to each other, of which the first has a position.
fn two_saved(world: &mut World) -> Result<bool, Fail> {
    let marked = is_marked_now(world, 0) && is_marked_now(world, 1);
    let linked = is_linked(world, 0, 1) && is_linked(world, 1, 0) && is_placed(world, 0, 5);
    let list = save(world).ok().ok_or("not saved")?;
    let text = text_of(world.alloc, &list)?;
    Ok(marked && linked && text.as_str() == TWO)
}

#[test]
fn a_saved_list_is_written_compactly(rt: HostRuntime) -> Result<(), Fail> {
    assert!(rt; comes_true(rt.alloc(), 2, two_saved)?);
    Ok(())
}

// Whether no text is written since an entity has no marker.
fn is_refused_for(world: &World, entity: Entity) -> bool {
    matches!(save_text(world), Err(SaveError::Unmarked(unmarked)) if unmarked == entity)
}

// The same, written a record at a time; an entity without a marker that is referred to is refused.
fn two_written(world: &mut World) -> Result<bool, Fail> {
    let empty = save_text(world).ok().ok_or("not saved")?;
    let marked = is_marked_now(world, 0) && is_marked_now(world, 1);
    let linked = is_linked(world, 0, 1) && is_linked(world, 1, 0) && is_placed(world, 0, 5);
    let text = save_text(world).ok().ok_or("not saved")?;
    let stray = is_linked(world, 1, 2);
    let refused = is_refused_for(world, entity_at(world, 2));
    Ok(empty.as_str() == "[]" && marked && linked && text.as_str() == TWO && stray && refused)
}

#[test]
fn a_save_is_written_a_record_at_a_time(rt: HostRuntime) -> Result<(), Fail> {
    assert!(rt; comes_true(rt.alloc(), 3, two_written)?);
    Ok(())
}

#[test]
fn what_was_written_is_read_again(rt: HostRuntime) -> Result<(), Fail> {
    assert!(rt; is_read_as(rt.alloc(), TWO, TWO)?);
    assert!(rt; is_read_as(rt.alloc(), FOUR, FOUR)?);
    assert!(rt; is_read_as(rt.alloc(), "[]", "[]")?);
    Ok(())
}

#[test]
fn spaces_order_and_repeated_keys_are_read(rt: HostRuntime) -> Result<(), Fail> {
    let text = " [ {\"marker\":9, \"components\":[null,[0]], \"marker\":1} ] ";
    assert!(rt;
        is_read_as(
            rt.alloc(),
            text,
            "[{\"components\":[null,[0]],\"marker\":1}]"
        )?
    );
    Ok(())
}

/// Whether a list of one record, with nothing stored, of this marker is refused.
fn is_refused_marker(alloc: Global, marker: &str) -> Result<bool, Fail> {
    let mut text = String::new(alloc);
    text.push_str("[{\"components\":[null,null],\"marker\":")?;
    text.push_str(marker)?;
    text.push_str("}]")?;
    Ok(is_refused(alloc, text.as_str()))
}

fn are_refused_markers<R: Abort>(rt: &R, alloc: Global) -> Result<(), Fail> {
    for marker in ["-1", "1.0", "1e0", "-0", "\"0\"", "18446744073709551616"] {
        assert!(rt; is_refused_marker(alloc, marker)?);
    }
    assert!(rt; !is_refused_marker(alloc, "18446744073709551615")?);
    Ok(())
}

#[test]
fn a_marker_is_a_whole_number_below_the_limit(rt: HostRuntime) -> Result<(), Fail> {
    are_refused_markers(&rt, rt.alloc())
}

fn are_of_another_form<R: Abort>(rt: &R, alloc: Global) {
    for text in [
        "{}",
        "[0]",
        "[{\"components\":[null,null]}]",
        "[{\"components\":[null,null],\"marker\":0,\"x\":1}]",
        "[{\"components\":[null],\"marker\":0}]",
        "[{\"components\":[null,null,null],\"marker\":0}]",
        "[{\"components\":[[1,2],null],\"marker\":0}]",
        "[{\"components\":[[],null],\"marker\":0}]",
        "[{\"components\":[1,null],\"marker\":0}]",
        "[{\"components\":[[9223372036854775808],null],\"marker\":0}]",
        "[{\"components\":[[-9223372036854775809],null],\"marker\":0}]",
    ] {
        assert!(rt; is_refused(alloc, text));
    }
}

#[test]
fn texts_of_another_form_are_refused(rt: HostRuntime) {
    are_of_another_form(&rt, rt.alloc());
}

fn reads_the_ends<R: Abort>(rt: &R, alloc: Global) -> Result<(), Fail> {
    for text in [
        "[{\"components\":[[9223372036854775807],null],\"marker\":0}]",
        "[{\"components\":[[-9223372036854775808],null],\"marker\":0}]",
    ] {
        assert!(rt; is_read_as(alloc, text, text)?);
    }
    Ok(())
}

#[test]
fn numbers_of_the_whole_range_are_read(rt: HostRuntime) -> Result<(), Fail> {
    reads_the_ends(&rt, rt.alloc())
}

/// So many lists in one another.
fn nested(alloc: Global, depth: usize) -> Result<String, Fail> {
    let mut text = String::new(alloc);
    for _ in 0..depth {
        text.push_str("[")?;
    }
    for _ in 0..depth {
        text.push_str("]")?;
    }
    Ok(text)
}

#[test]
fn deep_lists_are_refused(rt: HostRuntime) -> Result<(), Fail> {
    assert!(rt; is_refused(rt.alloc(), nested(rt.alloc(), 127)?.as_str()));
    assert!(rt; is_refused(rt.alloc(), nested(rt.alloc(), 128)?.as_str()));
    Ok(())
}

/// What happens to a byte of a text.
#[derive(Clone, Copy)]
enum Change {
    /// The text ends before it.
    Cut,
    /// It is left out.
    Dropped,
    /// It stands twice.
    Doubled,
    /// Another stands in its place.
    Replaced(u8),
}

/// A text of one byte less.
fn without_spaces(alloc: Global, bytes: &[u8]) -> Result<Vec<u8>, Fail> {
    let mut kept = Vec::with_capacity(alloc, bytes.len())?;
    for byte in bytes {
        if *byte != b' ' {
            kept.push(*byte)?;
        }
    }
    Ok(kept)
}

/// Puts a byte of a text, as the change leaves it, to the end of a list.
fn put_changed(list: &mut Vec<u8>, byte: u8, change: Change) -> Result<(), Fail> {
    match change {
        Change::Cut | Change::Dropped => {}
        Change::Doubled => {
            list.push(byte)?;
            list.push(byte)?;
        }
        Change::Replaced(other) => list.push(other)?,
    }
    Ok(())
}

/// A text whose byte at a place was changed.
fn changed(alloc: Global, text: &str, place: usize, change: Change) -> Result<Vec<u8>, Fail> {
    let mut list = Vec::with_capacity(alloc, text.len())?;
    let mut at = 0usize;
    for byte in text.as_bytes() {
        if at == place {
            put_changed(&mut list, *byte, change)?;
        } else if at < place || !matches!(change, Change::Cut) {
            list.push(*byte)?;
        }
        at = at.wrapping_add(1);
    }
    Ok(list)
}

/// Whether a text is refused, or read as the list that it tells.
fn is_refused_or_told(alloc: Global, bytes: &[u8]) -> Result<bool, Fail> {
    let Ok(text) = std::str::from_utf8(bytes) else {
        return Ok(false);
    };
    match read(alloc, text) {
        Ok(list) => {
            let written = text_of(alloc, &list)?;
            Ok(written.as_str().as_bytes() == without_spaces(alloc, bytes)?.as_slice())
        }
        Err(LoadError::NotTheForm) => Ok(true),
        Err(_) => Ok(false),
    }
}

fn stand_all<R: Abort>(rt: &R, alloc: Global, change: Change) -> Result<(), Fail> {
    for place in 0..FOUR.len() {
        let bytes = changed(alloc, FOUR, place, change)?;
        assert!(rt; is_refused_or_told(alloc, &bytes)?);
    }
    Ok(())
}

#[test]
fn a_text_with_a_byte_dropped_or_doubled(rt: HostRuntime) -> Result<(), Fail> {
    stand_all(&rt, rt.alloc(), Change::Dropped)?;
    stand_all(&rt, rt.alloc(), Change::Doubled)
}

#[test]
fn a_text_with_a_byte_replaced(rt: HostRuntime) -> Result<(), Fail> {
    for byte in [
        b'0', b'9', b' ', b'-', b'"', b',', b'[', b']', b'{', b'}', b'n',
    ] {
        stand_all(&rt, rt.alloc(), Change::Replaced(byte))?;
    }
    Ok(())
}

fn are_refused_beginnings<R: Abort>(rt: &R, alloc: Global) -> Result<(), Fail> {
    for place in 0..FOUR.len() {
        let bytes = changed(alloc, FOUR, place, Change::Cut)?;
        let text = std::str::from_utf8(&bytes).ok().ok_or("no text")?;
        assert!(rt; is_refused(alloc, text));
    }
    Ok(())
}

#[test]
fn every_beginning_of_a_saved_text_is_refused(rt: HostRuntime) -> Result<(), Fail> {
    are_refused_beginnings(&rt, rt.alloc())
}
