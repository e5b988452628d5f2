//! What becomes of a reply where it arises.
ghost use Rattle.std.specs.Prelude.{Result};
ghost use Rattle.ksm_script.specs.Said.{ReturnsReply, WritesReply};

use crate::lane::Sends;
use crate::reply::{LineReply, put_reply, write_content};
use crate::script::{RunFault, Told};
use ksm_base::PageBytes;
use std::io::Write;
use std::marker::PhantomData;

/// What becomes of the reply to a line: it is handed over to a value of the type `S` where it arises.
pub(crate) trait Replies<S> {
    ghost use Rattle.ksm_script.specs.declared.reply.LineReply.{LineReply};
    ghost use Rattle.ksm_script.specs.declared.script.RunFault.{RunFault};

    /// How a reply was handed over: the value before and after, the reply, and what the call returned.
    ghost takes: { S → S → LineReply → Result (Unit {0}) RunFault → Type 0 };

    /// Hands a reply over.
    fn reply(to: &mut S, reply: LineReply) -> Told
        ensures { takes to.old to.new reply result };

    /// Hands the content of a page over, as the reply that it is.
    fn content(to: &mut S, content: &PageBytes) -> Told
        ensures { takes to.old to.new (LineReply.Content content.now) result };
}

/// Each reply is written at once.
pub(crate) struct Written<M>(PhantomData<M>);

impl<M: Sends<W>, W: Write> Replies<W> for Written<M> {
    ghost takes = { WritesReply W.contents M.fails };

    #[inline(always)]
    fn reply(to: &mut W, reply: LineReply) -> Told {
        put_reply::<M, W>(to, &reply)
    }

    #[inline(always)]
    fn content(to: &mut W, content: &PageBytes) -> Told {
        write_content::<M, W>(to, content)
    }
}

/// The reply is returned to the caller, in the value.
pub(crate) struct Returned;

impl Replies<Option<LineReply>> for Returned {
    ghost takes = { ReturnsReply };

    fn reply(to: &mut Option<LineReply>, reply: LineReply) -> Told {
        *to = Some(reply);
        Ok(())
    }

    fn content(to: &mut Option<LineReply>, content: &PageBytes) -> Told {
        *to = Some(LineReply::Content(*content));
        Ok(())
    }
}
