//! From the program's words to the parts of its book.
ghost use Rattle.std.specs.Prelude.{◌≡◌, List, Err, IfErr, IfOk, map, string_bytes};
ghost use Rattle.ksm_options.specs.Settings.{Given};
ghost use Rattle.ksm_host.specs.Statuses.{IsBeforeRun, told_of};
ghost use Rattle.ksm_options.specs.Told.{IsToldBy, Tells};

use crate::said::Escaped;
use crate::status::Status;
use clap::Error;
use ksm_base::Shape;
use ksm_options::options;
use ksm_shared::Parts;
use std::fmt::Display;
use std::rt::Env;

/// The program's words, its name first, all of them.
pub fn words<R: Env + Eprint + AllocGlobal>(rt: &R) -> Result<Vec<String>, Status>
    ensures { IfErr result IsBeforeRun }
{
    let words = match std::env::args(rt) {
        Ok(words) => words,
        Err(error) => {
            let status = Status::at_words(error.kind());
            say(rt, status, "error: an argument is not valid UTF-8\n");
            return Err(status);
        }
    };
    words
        .collect::<Vec<String>>(rt.alloc())
        .map_err(|_| Status::NoMemory)
}

/// What these words open: the parts of a book of one caller. They are not understood only where they tell no shape.
pub(crate) fn opened<R: Eprint + AllocGlobal>(rt: &R, words: &[String]) -> Result<Parts, Status>
    ensures told { IfOk result (λ parts. IsToldBy (map string_bytes words.now) parts.frames.shape) }
    ensures alone { IfOk result (λ parts. parts.callers ≡ 1) }
    ensures status { IfErr result IsBeforeRun }
    ensures refused { result ≡ Err Status.NotUnderstood → (given : List Given)
        → ¬ (Tells (map string_bytes words.now) given) }
{
    let shape = told(rt, options(rt.alloc(), words))?;
    let parts = Parts::open(rt.alloc(), shape, 1).map_err(|_| Status::NoMemory)?;
    Ok(parts.unread())
}

/// The shape that was told, or the status to end with. Why the words are no options is said on standard error; of a
/// want of memory nothing is said.
pub fn told<R: Eprint>(rt: &R, read: Result<Shape, Error>) -> Result<Shape, Status>
    ensures { result ≡ told_of read }
{
    match read {
        Ok(shape) => Ok(shape),
        Err(error) => {
            let status = Status::at_options(error.kind());
            say(rt, status, error);
            Err(status)
        }
    }
}

/// Says on standard error why the words are no options. Where that takes no text, the status says it all.
fn say<R: Eprint, T: Display + Drop>(rt: &R, status: Status, why: T) {
    if status == Status::NotUnderstood {
        let _ = rt.eprint(Escaped(why));
    }
}
