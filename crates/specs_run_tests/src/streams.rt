//! Readers and writers that fail, or that take and give less than they are asked to.
use std::io::{self, Read, Write};

/// A reader of bytes.
#[derive(Drop)]
pub struct Source<'a> {
    /// What it has still to give.
    pub left: &'a [u8],
    /// How many bytes it gives at a time, at most.
    pub most: usize,
    /// How many bytes it gives before it fails.
    pub sound: usize,
}

impl Read for Source<'_> {
    fn read(&mut self, buf: &mut [u8]) -> io::Result<usize> {
        if self.sound == 0 {
            return Err(io::Error::from(io::ErrorKind::Other));
        }
        let count = self
            .most
            .min(self.sound)
            .min(self.left.len())
            .min(buf.len());
        let (given, left) = self.left.split_at(count);
        buf[..count].copy_from_slice(given);
        self.left = left;
        self.sound -= count;
        Ok(count)
    }
}

/// A writer to a list, which fails once at most.
#[derive(Drop)]
pub struct Sink<'a> {
    /// What it has taken.
    pub taken: &'a mut Vec<u8>,
    /// How many bytes it takes at a time, at most.
    pub most: usize,
    /// How many calls go well before the one that fails.
    pub sound: usize,
}

impl Sink<'_> {
    /// Counts a call, which fails if it is the one that is to.
    fn call(&mut self) -> io::Result<()> {
        if self.sound == 0 {
            self.sound = usize::MAX;
            return Err(io::Error::from(io::ErrorKind::Other));
        }
        self.sound -= 1;
        Ok(())
    }
}

impl Write for Sink<'_> {
    fn write(&mut self, buf: &[u8]) -> io::Result<usize> {
        self.call()?;
        let count = self.most.min(buf.len());
        self.taken.extend_from_slice(&buf[..count])?;
        Ok(count)
    }

    fn flush(&mut self) -> io::Result<()> {
        self.call()
    }
}
