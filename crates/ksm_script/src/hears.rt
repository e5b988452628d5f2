//! Who hears the replies of a run, beside the writer that has them.
ghost use Rattle.std.specs.Prelude.{◌≡◌, IfErr};
ghost use Rattle.std.specs.Io.KnownBytes.{Keeps};

use crate::lane::Sends;
use crate::reply::LineReply;
use crate::script::RunFault;
use std::io::Write;

/// Hears each reply once the writer has it.
pub trait Hears<M: Sends<W>, W: Write> {
    /// Whether it hears replies. Where it does not, a reply may be kept from it.
    fn listens(&self) -> bool;

    /// Hears the reply to the line of this number, which stands in the writer. The writer may send what it has, and
    /// where that fails the run ends with a failed write.
    fn hear(
        &mut self,
        writer: &mut W,
        number: u64,
        line: &[u8],
        reply: &LineReply,
    ) -> Result<(), RunFault>
        ensures kept { Keeps (W.contents writer.old) (W.contents writer.new) }
        ensures fault { IfErr result (λ e. (e ≡ RunFault.Write) × M.fails writer.new) };
}

/// Nobody hears.
#[derive(Drop)]
pub struct Unheard;

impl<M: Sends<W>, W: Write> Hears<M, W> for Unheard {
    #[inline(always)]
    fn listens(&self) -> bool {
        false
    }

    #[inline(always)]
    fn hear(
        &mut self,
        _writer: &mut W,
        _number: u64,
        _line: &[u8],
        _reply: &LineReply,
    ) -> Result<(), RunFault> {
        Ok(())
    }
}
