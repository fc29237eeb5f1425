//! A writer that fails.
use std::alloc::Global;
use std::io;
use std::io::Write;
use std::process::Abort;

/// Takes so many bytes, one at a time, and then answers an error.
#[derive(Drop)]
pub struct Full {
    taken: Vec<u8>,
    room: usize,
}

impl Full {
    /// A writer that has taken nothing.
    pub fn new(alloc: Global, room: usize) -> Full {
        Full {
            taken: Vec::new(alloc),
            room,
        }
    }

    /// Sees that it has as much of this text as it has room for.
    pub fn assert_has(&self, rt: &impl Abort, whole: &[u8]) {
        let room = self.room;
        let prefix = &whole[..room.min(whole.len())];
        assert_eq!(rt; self.taken.as_slice(), prefix, "room for {room}");
    }
}

impl Write for Full {
    fn write(&mut self, buf: &[u8]) -> io::Result<usize> {
        let Some(first) = buf.first() else {
            return Ok(0);
        };
        if self.taken.len() >= self.room {
            return Err(io::Error::from(io::ErrorKind::Other));
        }
        self.taken.push(*first)?;
        Ok(1)
    }

    fn flush(&mut self) -> io::Result<()> {
        Ok(())
    }
}
