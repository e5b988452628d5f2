//! Texts on a writer, whole or, at a fault, a beginning.
ghost use Rattle.ksm_script.specs.Said.{WritesText};

use crate::lane::Sends;
use crate::script::{RunFault, Told};
use std::io::Write;

// It is inlined so that the compiler knows the length of a text, and writes a short one by a few stores to the writer's
// buffer.

/// Writes a text, or the beginning of it that the writer took before its fault. Mostly the writer takes all of it at
/// once.
#[inline(always)]
pub fn write_text<S: Sends<W>, W: Write>(writer: &mut W, text: &[u8]) -> Told
    ensures { WritesText W.contents S.fails writer.old writer.new text.now result }
{
    let count = S::put(writer, text)?;
    if count == text.len() {
        return Ok(());
    }
    if count == 0 {
        return Err(RunFault::Write);
    }
    write_parts::<S, W>(writer, &text[count..])
}

/// Writes a text part by part.
#[inline(never)]
fn write_parts<S: Sends<W>, W: Write>(writer: &mut W, text: &[u8]) -> Told
    ensures { WritesText W.contents S.fails writer.old writer.new text.now result }
{
    let mut at = 0;
    'parts: while at < text.len() {
        let count = S::put(writer, &text[at..])?;
        if count == 0 {
            return Err(RunFault::Write);
        }
        at += count;
    }
    Ok(())
}
