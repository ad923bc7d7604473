//! Calls on the channel of a slot's events, as one.
use storages::{ComponentEvent, ReaderId};

/// A call on the channel of a slot's events.
#[derive(Debug, Drop)]
pub enum ChannelCall<'a> {
    /// Registers a reader.
    Register,
    /// Asks for what a reader has not read, which it has read then.
    Read(&'a ReaderId),
    /// Ends a reader.
    End(ReaderId),
    /// Turns the events on or off.
    Emit(bool),
}

/// The answer to a call on a channel.
#[derive(Debug, Drop)]
pub enum ChannelReply {
    /// The reader that was registered.
    Reader(ReaderId),
    /// What the reader had not read, in order.
    Events(Vec<ComponentEvent>),
    /// A reader was ended, or the events were turned on or off.
    Done,
}
