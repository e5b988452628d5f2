//! What is said of a line that was refused.
ghost use Rattle.std.specs.Prelude.{◌≡◌, IfSome, IfNone, None, Some};
ghost use Rattle.ksm_causes.specs.Refusals.{refusal_in, refused_text, why_refused};

use crate::said::Word;
use ksm_base::Fault;
use ksm_script::{LineReply, Refusal};
use std::fmt::{self, Display, Formatter, Write};

/// A line that was refused, with its number. Its text is one line:
/// `line 7, refused 4: no frame of node 0 is free: put 0 0 bb`.
#[derive(Drop)]
pub struct Refused<'a> {
    number: u64,
    line: &'a [u8],
    refusal: Refusal,
}

impl<'a> Refused<'a> {
    /// The line of this number, if its reply is a refusal or tells of one that stopped it.
    pub fn of(number: u64, line: &'a [u8], reply: &LineReply) -> Option<Refused<'a>>
        ensures refused { IfSome result
            (λ told. (told.number ≡ number) × (told.line.now ≡ line.now) × (refusal_in reply.now ≡ Some told.refusal)) }
        ensures other { IfNone result (refusal_in reply.now ≡ None) }
    {
        let refusal = refusal_in(reply)?;
        Some(Refused {
            number,
            line,
            refusal,
        })
    }
}

/// The refusal that a reply is, or tells of.
fn refusal_in(reply: &LineReply) -> Option<Refusal>
    ensures { result ≡ refusal_in reply.now }
{
    match reply {
        LineReply::Refused(refusal) => Some(*refusal),
        LineReply::Scanned { stop, .. } | LineReply::Unmerged { stop, .. } => {
            stop.map(Refusal::Book)
        }
        _ => None,
    }
}

impl Display for Refused<'_> {
    ghost output = { λ told. Some (refused_text told.number told.line.now told.refusal) };

    fn fmt<W: Write>(&self, f: &mut Formatter<W>) -> fmt::Result {
        let number = self.number;
        let refusal = self.refusal.number();
        let why = Why(self.refusal);
        let line = Word(self.line);
        write!(f, "line {number}, refused {refusal}: {why}: {line}\n")
    }
}

/// A refusal in words.
#[derive(Drop)]
struct Why(Refusal);

impl Display for Why {
    ghost output = { λ why. Some (why_refused why.0) };

    fn fmt<W: Write>(&self, f: &mut Formatter<W>) -> fmt::Result {
        f.write_str(match self.0 {
            Refusal::Book(Fault::NoFrame(node)) => {
                return write!(f, "no frame of node {node} is free");
            }
            Refusal::Book(Fault::Memory) => "memory was refused, and the line may be sent again",
            Refusal::Book(Fault::UnknownPage) => "there is no such page, or no page of the guest",
            Refusal::Book(Fault::AlreadyRegistered) => "the page is registered already",
            Refusal::Book(Fault::NotRunning) => "no scan runs while run is not 1",
            Refusal::Book(Fault::SharedPages) => "the knob stays as it is while pages are shared",
            Refusal::Book(Fault::BadValue) => "the value is out of the knob's range",
            Refusal::Book(Fault::InUse) => "a pass holds the frame",
            Refusal::Book(Fault::CrossesNodes) =>
                "the dup would cross nodes while merge_across_nodes is 0",
            Refusal::Book(Fault::UnknownPlace) =>
                "no dup with pages stands at the place, or there is no such place",
            Refusal::Book(Fault::BadNode) => "there is no such node",
            Refusal::NoPass => "there is no such pass",
            Refusal::Holding => "the pass holds a frame, or at an audit each pass does",
            Refusal::NotHolding => "the pass holds no frame",
        })
    }
}
