//! A host in memory: the program's words, its input, and what is printed and said.
ghost use Rattle.std.specs.Prelude.{◌≤◌, length, IfOk};

use ksm_host::{Status, run_on};
use std::alloc::{Alloc, Allocator, Global};
use std::cell::RefCell;
use std::env::FillError;
use std::fmt::Display;
use std::io::{self, BufRead, ErrorKind, IsTerminal, Lines, Write};
use std::rt::Env;
use std::sync::Wait;
use std::thread::Threads;

/// What the program meets. Its output takes `room` bytes, then fails once, and would take all after that; without a
/// room it takes all.
#[derive(Drop)]
pub struct Host<'a> {
    alloc: Global,
    words: &'a str,
    input: &'a str,
    room: RefCell<Option<usize>>,
    explain: Option<&'a str>,
    is_terminal: bool,
    printed: RefCell<Vec<u8>>,
    said: RefCell<String>,
}

impl<'a> Host<'a> {
    /// A host with these words, one space between them, and this input. A word `!` is a byte that is no text.
    pub fn new(alloc: Global, words: &'a str, input: &'a str, room: Option<usize>) -> Host<'a> {
        Host {
            alloc,
            words,
            input,
            room: RefCell::new(room),
            explain: None,
            is_terminal: false,
            printed: RefCell::new(Vec::new(alloc)),
            said: RefCell::new(String::new(alloc)),
        }
    }

    /// The same host with this value of the one variable that it has, and with a terminal for standard error or none.
    pub fn explaining(mut self, value: Option<&'a str>, is_terminal: bool) -> Host<'a> {
        self.explain = value;
        self.is_terminal = is_terminal;
        self
    }

    /// What was printed, and what was said on standard error.
    pub fn told(self) -> (Vec<u8>, String) {
        let Host { printed, said, .. } = self;
        (printed.into_inner(), said.into_inner())
    }
}

/// How the program ended: its status, what it printed, and what it said on standard error.
#[derive(Drop)]
pub struct Ending {
    pub status: Status,
    pub printed: Vec<u8>,
    pub said: String,
}

impl Ending {
    /// Whether it ended so.
    pub fn is(&self, status: Status, printed: &str, said: &str) -> bool {
        self.status == status
            && self.printed.as_slice() == printed.as_bytes()
            && self.said.as_str() == said
    }
}

/// How the program ends over this host.
pub fn ended<T: Threads + Wait + Sync>(threads: &T, host: Host) -> Ending {
    let outcome = run_on(&host, threads, &host);
    let (printed, said) = host.told();
    Ending {
        status: outcome.status(),
        printed,
        said,
    }
}

/// What a cell is asked for while it is in use. It never is.
fn busy() -> io::Error {
    io::Error::from(ErrorKind::ResourceBusy)
}

/// How many of so many bytes an output takes. With no room left it fails, and has room without end from then on.
pub fn taken(room: &mut Option<usize>, bytes: usize) -> io::Result<usize> {
    match *room {
        None => Ok(bytes),
        Some(0) => {
            *room = None;
            Err(io::Error::from(ErrorKind::BrokenPipe))
        }
        Some(left) => {
            let count = left.min(bytes);
            *room = Some(left - count);
            Ok(count)
        }
    }
}

/// Copies bytes to the front of a buffer, if they fit.
fn filled(bytes: &[u8], buffer: &mut [u8]) -> Result<usize, FillError>
    ensures within { IfOk result (λ count. count ≤ length buffer.new) }
{
    if bytes.len() > buffer.len() {
        return Err(FillError::TooLong);
    }
    buffer[..bytes.len()].copy_from_slice(bytes);
    Ok(bytes.len())
}

impl Alloc for Host<'_> {
    type A = Global;

    fn alloc(&self) -> Global {
        self.alloc
    }
}

impl Env for Host<'_> {
    fn arg(&self, i: usize, buffer: &mut [u8]) -> Result<usize, FillError> {
        let Some(word) = self.words.split(' ').nth(i) else {
            return Err(FillError::NotPresent);
        };
        let bytes = if word == "!" {
            [0xff].as_slice()
        } else {
            word.as_bytes()
        };
        filled(bytes, buffer)
    }

    fn var(&self, name: &str, buffer: &mut [u8]) -> Result<usize, FillError> {
        match self.explain {
            Some(value) if name == "KSMBOOK_EXPLAIN" => filled(value.as_bytes(), buffer),
            _ => Err(FillError::NotPresent),
        }
    }

    fn var_at(&self, _i: usize, _buffer: &mut [u8]) -> Result<usize, FillError> {
        Err(FillError::NotPresent)
    }
}

impl<'a> Input for Host<'a> {
    type Reader = &'a [u8];

    fn read_line<A: Allocator + Clone>(&self, _buffer: &mut String<A>) -> io::Result<usize> {
        Err(io::Error::from(ErrorKind::Unsupported))
    }

    fn lines<A: Allocator>(&self, alloc: A) -> Lines<&'a [u8], A> {
        self.reader().lines(alloc)
    }

    fn reader(&self) -> &'a [u8] {
        self.input.as_bytes()
    }
}

impl Print for Host<'_> {
    fn print<D: Display + Drop>(&self, value: D) -> io::Result<()> {
        let mut printed = self.printed.try_borrow_mut().map_err(|_| busy())?;
        write!(*printed, "{value}")?;
        Ok(())
    }

    fn println<D: Display + Drop>(&self, value: D) -> io::Result<()> {
        self.print(value)?;
        self.print("\n")
    }

    fn write_all(&self, bytes: &[u8]) -> io::Result<()> {
        let mut printed = self.printed.try_borrow_mut().map_err(|_| busy())?;
        printed.extend_from_slice(bytes)?;
        Ok(())
    }

    fn write_some(&self, bytes: &[u8]) -> io::Result<usize> {
        let mut room = self.room.try_borrow_mut().map_err(|_| busy())?;
        let mut printed = self.printed.try_borrow_mut().map_err(|_| busy())?;
        let count = taken(&mut room, bytes.len())?.min(bytes.len());
        printed.extend_from_slice(&bytes[..count])?;
        Ok(count)
    }
}

impl Eprint for Host<'_> {
    fn eprint<D: Display + Drop>(&self, value: D) -> io::Result<()> {
        let mut said = self.said.try_borrow_mut().map_err(|_| busy())?;
        write!(*said, "{value}")?;
        Ok(())
    }

    fn eprintln<D: Display + Drop>(&self, value: D) -> io::Result<()> {
        self.eprint(value)?;
        self.eprint("\n")
    }
}

impl IsTerminal for Host<'_> {
    fn is_terminal(&self) -> bool {
        self.is_terminal
    }
}
