//! Which ksmbook this is.
use crate::status::Status;

/// What `--version` prints: the name, and what the file VERSION has. `bench/statuses` compares the two.
const VERSION: &str = "ksmbook 1.2.0\n";

/// Whether the program's words, its name first, ask for the version and for nothing else.
pub(crate) fn asks_version(words: &[String]) -> bool {
    match words {
        [_, word] => word.as_str() == "--version",
        _ => false,
    }
}

/// Prints the version, and tells how the program ends then.
pub(crate) fn tell_version<R: Print>(rt: &R) -> Status {
    match rt.write_all(VERSION.as_bytes()) {
        Ok(()) => Status::Done,
        Err(_) => Status::Broken,
    }
}
