//! Refusals in words, on standard error.
use ksm_causes::Refused;
use ksm_script::{Hears, LineReply, RunFault, Sends};
use std::io::{IsTerminal, Write};
use std::rt::Env;

/// The variable that asks for refusals in words.
const EXPLAIN: &str = "KSMBOOK_EXPLAIN";

/// Whether refusals are to be told in words too: with 1 as the variable's value, and not with 0; else where standard
/// error is a terminal.
pub(crate) fn tells_refusals<R: Env, E: IsTerminal>(rt: &R, errors: &E) -> bool {
    let mut value = [0u8; 1];
    match rt.var(EXPLAIN, &mut value) {
        Ok(1) if value[0] == b'1' => true,
        Ok(1) if value[0] == b'0' => false,
        _ => errors.is_terminal(),
    }
}

/// Tells each refusal that it hears in words, if that is asked for. The replies are sent before, so that the words
/// stand behind their reply. One type serves both, so the loop of a run stands in the program once.
#[derive(Drop)]
pub(crate) struct Telling<'a, R> {
    pub(crate) rt: &'a R,
    pub(crate) is_asked: bool,
}

impl<R: Eprint, M: Sends<W>, W: Write> Hears<M, W> for Telling<'_, R> {
    fn listens(&self) -> bool {
        self.is_asked
    }

    fn hear(
        &mut self,
        writer: &mut W,
        number: u64,
        line: &[u8],
        reply: &LineReply,
    ) -> Result<(), RunFault> {
        if !self.is_asked {
            return Ok(());
        }
        let Some(refused) = Refused::of(number, line, reply) else {
            return Ok(());
        };
        if !M::send(writer) {
            return Err(RunFault::Write);
        }
        let _ = self.rt.eprint(refused);
        Ok(())
    }
}
