//! What the program says on standard error.
use crate::status::Status;
use ksm_causes::BadLine;
use std::fmt::{self, Display, Formatter, Write};

/// A text with its control characters escaped, all but newlines: it names what a user typed, and may not steer the
/// terminal.
#[derive(Drop)]
pub(crate) struct Escaped<T>(pub(crate) T);

impl<T: Display> Display for Escaped<T> {
    fn fmt<W: Write>(&self, f: &mut Formatter<W>) -> fmt::Result {
        let mut escaping = Escaping { to: f };
        write!(escaping, "{}", self.0)
    }
}

/// Passes a text on, with control characters escaped.
#[derive(Drop)]
struct Escaping<'a, W> {
    to: &'a mut W,
}

impl<W: Write> Write for Escaping<'_, W> {
    fn write_str(&mut self, text: &str) -> fmt::Result {
        for c in text.chars() {
            if c.is_control() && c != '\n' {
                write!(self.to, "{}", c.escape_default())?;
            } else {
                self.to.write_char(c)?;
            }
        }
        Ok(())
    }
}

/// Says on standard error why the line of this number is bad. Where that takes no text, the reply says that it is.
pub(crate) fn say_why<R: Eprint>(rt: &R, number: u64, line: &[u8]) {
    if let Some(bad) = BadLine::of(number, line) {
        let _ = rt.eprint(bad);
    }
}

/// Says on standard error why the program ended before all lines had their reply, where nothing else says it. Where
/// that takes no text, the status says it.
pub(crate) fn say_end<R: Eprint>(rt: &R, status: Status) {
    let why = match status {
        Status::Broken => "ksmbook: a read or a write failed\n",
        Status::NoMemory => "ksmbook: memory was refused\n",
        Status::Done | Status::NotUnderstood => return,
    };
    let _ = rt.eprint(why);
}
