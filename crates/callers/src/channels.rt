//! A channel of events, and its readers.
ghost use Rattle.std.specs.Prelude.{◌≡◌, ◌∷◌, [], Some, IfSome, OnOk};
ghost use Rattle.storages.specs.Unread.{unread_of};

use std::alloc::AllocError;
use storages::{EventChannel, ReaderId};

/// A new reader reads what was written since, and nothing else.
pub fn heard(channel: &mut EventChannel<u32>, event: u32) -> Option<Vec<u32>>
    ensures { IfSome result (λ v. v.items ≡ event ∷ []) }
{
    let Ok(reader) = channel.register_reader() else {
        return None;
    };
    if channel.single_write(event).is_err() {
        return None;
    }
    channel.read(&reader).ok()
}

/// What was read is not read again.
pub fn read_twice(channel: &mut EventChannel<u32>, reader: &ReaderId) -> Option<Vec<u32>>
    ensures { IfSome result (λ v. v.items ≡ []) }
{
    if channel.read(reader).is_err() {
        return None;
    }
    channel.read(reader).ok()
}

/// Nobody who is registered misses an event: who has read all has it to read.
pub fn told(
    channel: &mut EventChannel<u32>,
    reader: &ReaderId,
    event: u32,
) -> Result<(), AllocError>
    requires { unread_of reader.now channel.old.readers ≡ Some [] }
    ensures { OnOk result (unread_of reader.now channel.new.readers ≡ Some (event ∷ [])) }
{
    channel.single_write(event)
}
