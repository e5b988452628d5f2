//! A reader that goes on where it is interrupted.
use std::io::{self, ErrorKind, Read};

/// Tries a read again that is interrupted, as a buffered writer does with writes.
#[derive(Drop)]
pub struct Retrying<I> {
    input: I,
}

impl<I> Retrying<I> {
    ghost use Rattle.std.specs.Prelude.{◌≡◌};

    /// Over this input.
    pub fn new(input: I) -> Retrying<I>
        ensures { result.input ≡ input }
    {
        Retrying { input }
    }
}

impl<I: Read> Read for Retrying<I> {
    fn read(&mut self, buffer: &mut [u8]) -> io::Result<usize> {
        'tries: for _ in 0..u64::MAX {
            match self.input.read(buffer) {
                Ok(count) => return Ok(count),
                Err(error) if error.kind() == ErrorKind::Interrupted => {}
                Err(error) => return Err(error),
            }
        }
        Err(io::Error::from(ErrorKind::Interrupted))
    }
}
