//! A book of one caller with its passes.
ghost use Rattle.std.specs.Prelude.{◌≡◌, ◌≤◌, ℕ, List, [], length, replicate, None, Ok, Some, IfOk, IfErr};
ghost use Rattle.std.specs.Io.KnownBytes.{Consumes, IsAtEnd, Keeps};
ghost use Rattle.ksm_base.specs.State.{opening};
ghost use Rattle.ksm_base.specs.Reading.{mappers_of};
ghost use Rattle.ksm_base.specs.declared.command.Command.TheVariants.{Scan as scan};
ghost use Rattle.ksm_lines.specs.declared.line.Line.TheVariants as lines;
ghost use Rattle.ksm_lines.specs.declared.line.RareLine.TheVariants as rares;
ghost use Rattle.ksm_lines.specs.declared.line.ShortLine.TheVariants as shorts;
ghost use Rattle.ksm_base.specs.Counting.{counters_of};
ghost use Rattle.ksm_script.specs.declared.reply.LineReply.TheVariants as told;
ghost use Rattle.frame_table.specs.Seats.{new_pass};
ghost use Rattle.ksm_shared.specs.Locked.{EndsLawfully};
ghost use Rattle.ksm_script.specs.declared.pass_state.PassState.TheVariants.{Idle as idle_state};
ghost use Rattle.ksm_script.specs.Answering.{Answers, AllGivenBack, OnPasses, Commands, IsMappers, reply_to};
ghost use Rattle.ksm_script.specs.Dialogue.{BreaksOff, Dialogue, IsWithin};
ghost use Rattle.ksm_script.specs.Input.{EndsAs, IsPlain};
ghost use Rattle.ksm_script.specs.declared.input.TheConstants.{LONGEST_LINE as longest_line};
ghost use Rattle.ksm_script.specs.Lookups.{Acts, AtPass, Audits};
ghost use Rattle.ksm_script.specs.Said.{IsSaid};

use crate::input::{LineBuffer, LineEnd, next_line};
use crate::lane::Lane;
use crate::pass_state::Act;
use crate::passes::Passes;
use crate::refusal::Refusal;
use crate::replies::Replies;
use crate::reply::LineReply;
use crate::script::{RunFault, Told};
use frame_table::ClosedTable;
use ksm_base::{Command, Fault, GuestPage, PageBytes, Reply};
use ksm_lines::{Line, PageLine, RareLine, ShortLine, Shown};
use ksm_shared::{Ksm, Naming, Parts, Share};
use std::alloc::Global;
use std::io::Write;
use std::marker::Model;
use std::sync::Wait;
use std::thread::Threads;

/// What a run works on: a book of one caller, and its passes. Contracts see the book state to which its journal leads.
/// It must be closed.
pub struct Session<N: Naming> {
    alloc: Global,
    ksm: Ksm<N>,
    share: Share<N>,
    passes: Passes,
    line: LineBuffer,
}

impl<N: Naming> Model for Session<N> {
    ghost use Rattle.std.specs.Prelude.{◌≡◌, All, length};
    ghost use Rattle.ksm_script.specs.Lookups.{table_of};
    ghost use Rattle.ksm_script.specs.Seen.{SessionView, script_of};

    ghost Value = { SessionView };

    ghost view = { λ s. record { state = script_of N.parts s.share s.passes; line = s.line } };

    ghost invariant = { λ s. (N.parts.callers ≡ 1) × (length s.passes ≡ N.parts.frames.shape.passes)
        × All (λ p. table_of p ≡ N.parts.frames) s.passes };
}

impl<N: Naming> Session<N> {
    /// A session whose book has no pages. Refused for memory alone; what was opened by then is closed. The line buffer
    /// is taken here.
    pub fn open(alloc: Global, parts: Parts) -> Result<Session<N>, Fault>
        requires name { parts ≡ N.parts }
        requires alone { parts.callers ≡ 1 }
        ensures book { IfOk result (λ s. s.state.book ≡ opening N.parts.frames.shape) }
        ensures journal { IfOk result (λ s. s.state.journal ≡ []) }
        ensures passes { IfOk result
            (λ s. s.state.passes ≡ replicate N.parts.frames.shape.passes (idle_state (new_pass N.parts.frames))) }
        ensures memory { IfErr result (λ fault. fault ≡ Fault.Memory) }
    {
        let Ok(slots) = Vec::with_capacity(alloc, parts.shape().passes as usize) else {
            drop(parts.close());
            return Err(Fault::Memory);
        };
        let (ksm, passes, mut shares, _readers) = match Ksm::open(parts) {
            Ok(opened) => opened,
            Err(fault) => {
                slots.destroy_empty();
                return Err(fault);
            }
        };
        let Some(share) = shares.pop() else {
            unreachable!()
        };
        let passes = Passes::new(ksm.table(), slots, passes);
        Ok(Session {
            alloc,
            ksm,
            share,
            passes,
            line: LineBuffer::new(),
        })
    }

    /// The table of the session, as its keeper left it. Holds are given back before.
    pub fn close<R: Wait>(self, rt: &R) -> ClosedTable
        ensures shape { result.shape ≡ N.parts.frames.shape }
        ensures ends { EndsLawfully N.parts result }
    {
        let Session {
            alloc: _,
            ksm,
            share: _,
            passes,
            line: _,
        } = self;
        let passes = passes.close(ksm.table());
        ksm.close(rt, passes)
    }

    /// Reads the next line. It takes no memory.
    pub(crate) fn read_next<M: Lane<R, W>, R, W: Write>(
        &mut self,
        reader: &mut R,
        writer: &mut W,
    ) -> Result<LineEnd, RunFault>
        ensures state { self.new.state ≡ self.old.state }
        ensures read { IfOk result (λ end. (bytes : List ℕ) × EndsAs end self.new.line bytes
            × Consumes (M.remaining reader.old) (M.remaining reader.new) bytes
            × Dialogue M.takes M.waits (IsWithin M.is_sent W.contents writer.old) reader.old reader.new bytes) }
        ensures breaks { IfErr result (BreaksOff M.takes M.waits M.fails (IsWithin M.is_sent W.contents writer.old)
            reader.old reader.new writer.new) }
        ensures plain { IsPlain self.new.line }
        ensures end { result ≡ Ok LineEnd.Input → IsAtEnd (M.remaining reader.new) }
        ensures fault { IfErr result (λ e. (e ≡ RunFault.Read) × (length self.new.line ≤ longest_line)
            × Consumes (M.remaining reader.old) (M.remaining reader.new) self.new.line) }
        ensures kept { Keeps (W.contents writer.old) (W.contents writer.new) }
        ensures waited { result ≡ Ok LineEnd.Input → M.is_sent writer.new }
    {
        next_line::<M, R, W>(reader, writer, &mut self.line)
    }

    /// The bytes of the line that was read last, without its newline: of one that is too long, one byte more than a
    /// line may have.
    pub fn line(&self) -> &[u8]
        ensures { result.now ≡ self.now.line }
    {
        self.line.as_slice()
    }

    // Each short line has a function of its own, which is not inlined: so the values of the others are not cleared
    // before it.

    /// Does what a short line says, and hands its reply over.
    #[inline(always)]
    pub(crate) fn answer_short<P: Replies<S>, R: Wait, S>(
        &mut self,
        rt: &R,
        line: ShortLine,
        to: &mut S,
    ) -> Told
        ensures answers { IsSaid P.takes (Answers (lines.Short line)) self.old self.new to.old to.new result }
    {
        match line {
            ShortLine::Get { page } => self.tell_content::<P, S>(page, to),
            ShortLine::Ticket { page } => self.tell_ticket::<P, S>(page, to),
            ShortLine::Find { pass, place } => self.tell_found::<P, S>(pass, place, to),
            ShortLine::Look { pass } => self.tell_held::<P, S>(pass, to),
            ShortLine::Leave { pass } => self.tell_left::<P, S>(pass, to),
            ShortLine::Scan { visits } => self.tell_visits::<P, R, S>(rt, visits, to),
            ShortLine::Stat => self.tell_counters::<P, S>(to),
            ShortLine::Show { shown } => self.tell_value::<P, S>(shown, to),
        }
    }

    #[inline(never)]
    fn tell_content<P: Replies<S>, S>(&mut self, page: GuestPage, to: &mut S) -> Told
        ensures answers { IsSaid P.takes (Answers (lines.Short (shorts.Get page))) self.old self.new
            to.old to.new result }
    {
        match self.ksm.read_alone(&mut self.share, page) {
            None => P::reply(to, LineReply::Refused(Refusal::Book(Fault::UnknownPage))),
            Some(content) => P::content(to, &content),
        }
    }

    #[inline(never)]
    fn tell_ticket<P: Replies<S>, S>(&mut self, page: GuestPage, to: &mut S) -> Told
        ensures answers { IsSaid P.takes (Answers (lines.Short (shorts.Ticket page))) self.old self.new
            to.old to.new result }
    {
        match self.ksm.ticket_alone(&mut self.share, page) {
            Some(place) => P::reply(to, LineReply::Place(place)),
            None if self.ksm.registered_alone(&mut self.share, page) => {
                P::reply(to, LineReply::Private)
            }
            None => P::reply(to, LineReply::Refused(Refusal::Book(Fault::UnknownPage))),
        }
    }

    #[inline(never)]
    fn tell_found<P: Replies<S>, S>(&mut self, pass: u32, place: u32, to: &mut S) -> Told
        ensures answers { IsSaid P.takes (Answers (lines.Short (shorts.Find pass place))) self.old self.new
            to.old to.new result }
    {
        P::reply(to, self.act(pass, Act::Find { place }))
    }

    #[inline(never)]
    fn tell_held<P: Replies<S>, S>(&mut self, pass: u32, to: &mut S) -> Told
        ensures answers { IsSaid P.takes (Answers (lines.Short (shorts.Look pass))) self.old self.new
            to.old to.new result }
    {
        P::reply(to, self.act(pass, Act::Look))
    }

    #[inline(never)]
    fn tell_left<P: Replies<S>, S>(&mut self, pass: u32, to: &mut S) -> Told
        ensures answers { IsSaid P.takes (Answers (lines.Short (shorts.Leave pass))) self.old self.new
            to.old to.new result }
    {
        P::reply(to, self.act(pass, Act::Leave))
    }

    #[inline(never)]
    fn tell_visits<P: Replies<S>, R: Wait, S>(&mut self, rt: &R, visits: u32, to: &mut S) -> Told
        ensures answers { IsSaid P.takes (Answers (lines.Short (shorts.Scan visits))) self.old self.new
            to.old to.new result }
    {
        self.tell_made::<P, R, S>(rt, &scan_of(visits), to)
    }

    #[inline(never)]
    fn tell_counters<P: Replies<S>, S>(&mut self, to: &mut S) -> Told
        ensures answers { IsSaid P.takes (Answers (lines.Short shorts.Stat)) self.old self.new to.old to.new result }
    {
        P::reply(to, self.counters())
    }

    #[inline(never)]
    fn tell_value<P: Replies<S>, S>(&mut self, shown: Shown, to: &mut S) -> Told
        ensures answers { IsSaid P.takes (Answers (lines.Short (shorts.Show shown))) self.old self.new
            to.old to.new result }
    {
        let value = match shown {
            Shown::Knob(knob) => u64::from(knob.value_in(&self.ksm.knobs_alone(&mut self.share))),
            Shown::ZeroPages => self.ksm.counters_alone(&mut self.share).zero,
        };
        P::reply(to, LineReply::Value(value))
    }

    /// Does what a line with this content says, and hands its reply over.
    #[inline(always)]
    pub(crate) fn answer_page<P: Replies<S>, R: Wait, S>(
        &mut self,
        rt: &R,
        line: PageLine,
        bytes: PageBytes,
        to: &mut S,
    ) -> Told
        ensures answers { IsSaid P.takes (Answers (lines.Page line bytes)) self.old self.new to.old to.new result }
    {
        match line {
            PageLine::Store { page } => {
                self.tell_made::<P, R, S>(rt, &Command::Store { page, bytes }, to)
            }
            PageLine::Register { page, node } => {
                self.tell_made::<P, R, S>(rt, &Command::Register { page, node, bytes }, to)
            }
            PageLine::Equal { pass, place } => {
                self.tell_act::<P, S>(pass, Act::Equal { place, bytes }, to)
            }
        }
    }

    // Stands apart, as an `Act` has room for a content: so the content of a store need not lie in memory first.
    #[inline(never)]
    fn tell_act<P: Replies<S>, S>(&mut self, pass: u32, act: Act, to: &mut S) -> Told
        ensures answers { IsSaid P.takes (OnPasses (AtPass pass (Acts act))) self.old self.new to.old to.new result }
    {
        P::reply(to, self.act(pass, act))
    }

    /// Does what a line that comes seldom says, and hands its reply over.
    #[inline(always)]
    pub(crate) fn answer_rare<P: Replies<S>, R: Threads + Wait + Sync, S>(
        &mut self,
        rt: &R,
        line: RareLine,
        to: &mut S,
    ) -> Told
        ensures answers { IsSaid P.takes (Answers (lines.Rare line)) self.old self.new to.old to.new result }
    {
        let command = match line {
            RareLine::Mappers { place } => return self.tell_mappers::<P, R, S>(rt, place, to),
            RareLine::ScanPages => return self.tell_scanned::<P, R, S>(rt, to),
            RareLine::Audit => return self.tell_audit::<P, R, S>(rt, to),
            RareLine::Drop { page } => Command::Drop { page },
            RareLine::Prune => Command::Prune,
            RareLine::Unmerge { guest } => Command::Unmerge { guest },
            RareLine::Mergeable { guest } => Command::Mergeable { guest },
            RareLine::MovePage { page, node } => Command::MovePage { page, node },
            RareLine::MoveDup { place, node } => Command::MoveDup { place, node },
            RareLine::Set { knob, value } => knob.setting(value),
        };
        self.tell_made::<P, R, S>(rt, &command, to)
    }

    /// Does what a line says, and hands its reply over, if it has one.
    pub(crate) fn answer<P: Replies<S>, R: Threads + Wait + Sync, S>(
        &mut self,
        rt: &R,
        line: Line,
        to: &mut S,
    ) -> Told
        ensures answers { IsSaid P.takes (Answers line) self.old self.new to.old to.new result }
    {
        match line {
            Line::Empty => Ok(()),
            Line::Short(line) => self.answer_short::<P, R, S>(rt, line, to),
            Line::Page(line, bytes) => self.answer_page::<P, R, S>(rt, line, bytes, to),
            Line::Rare(line) => self.answer_rare::<P, R, S>(rt, line, to),
        }
    }

    /// Gives all holds back.
    pub(crate) fn give_back(&mut self)
        ensures given { AllGivenBack self.old.state self.new.state }
        ensures line { self.new.line ≡ self.old.line }
    {
        self.passes.give_back(self.ksm.table());
    }

    #[inline(always)]
    fn act(&mut self, pass: u32, act: Act) -> LineReply
        ensures answers { OnPasses (AtPass pass (Acts act)) self.old.state (Some result) self.new.state }
    {
        self.passes.act(self.ksm.table(), pass, act)
    }

    fn audit<R: Threads + Sync>(&mut self, rt: &R) -> LineReply
        ensures answers { OnPasses Audits self.old.state (Some result) self.new.state }
    {
        self.passes.audit(rt, self.alloc, &self.ksm)
    }

    fn tell_scanned<P: Replies<S>, R: Wait, S>(&mut self, rt: &R, to: &mut S) -> Told
        ensures answers { IsSaid P.takes (Answers (lines.Rare rares.ScanPages)) self.old self.new to.old to.new result }
    {
        let knobs = self.ksm.knobs_alone(&mut self.share);
        self.tell_made::<P, R, S>(rt, &scan_of(knobs.pages_to_scan), to)
    }

    #[inline(never)]
    fn tell_mappers<P: Replies<S>, R: Wait, S>(&mut self, rt: &R, place: u32, to: &mut S) -> Told
        ensures answers { IsSaid P.takes (Answers (lines.Rare (rares.Mappers place))) self.old self.new
            to.old to.new result }
    {
        P::reply(to, self.mappers(rt, place))
    }

    #[inline(never)]
    fn tell_audit<P: Replies<S>, R: Threads + Sync, S>(&mut self, rt: &R, to: &mut S) -> Told
        ensures answers { IsSaid P.takes (Answers (lines.Rare rares.Audit)) self.old self.new to.old to.new result }
    {
        P::reply(to, self.audit(rt))
    }

    fn mappers<R: Wait>(&mut self, rt: &R, place: u32) -> LineReply
        ensures reply { IsMappers (mappers_of place self.old.state.book) result }
        ensures state { self.new.state ≡ self.old.state }
    {
        match self.ksm.mappers(rt, self.alloc, &mut self.share, place) {
            Ok(Some(pages)) => LineReply::Mappers(pages),
            Ok(None) => LineReply::Refused(Refusal::Book(Fault::UnknownPlace)),
            Err(fault) => LineReply::Refused(Refusal::Book(fault)),
        }
    }

    // Makes a command, and hands its reply over. Mostly that is `ok`, which is told apart: so no value with room for
    // any reply is cleared before it.
    #[inline(always)]
    fn tell_made<P: Replies<S>, R: Wait, S>(
        &mut self,
        rt: &R,
        command: &Command,
        to: &mut S,
    ) -> Told
        ensures answers { IsSaid P.takes (Commands command.now) self.old self.new to.old to.new result }
    {
        match self.apply(rt, command) {
            Ok(Reply::Done) => tell_done::<P, S>(to),
            Ok(reply) => tell_other::<P, S>(to, Ok(reply)),
            Err(fault) => tell_other::<P, S>(to, Err(fault)),
        }
    }

    // Makes a command. Nobody else has the book, so no lock is taken.
    #[inline(always)]
    fn apply<R: Wait>(&mut self, rt: &R, command: &Command) -> Result<Reply, Fault>
        ensures answers { Commands command.now self.old.state (Some (reply_to result)) self.new.state }
    {
        self.ksm.carry_out_alone(rt, &mut self.share, command)
    }

    #[inline(always)]
    fn counters(&mut self) -> LineReply
        ensures reply { result ≡ told.Counters (counters_of self.old.state.book) }
        ensures state { self.new.state ≡ self.old.state }
    {
        LineReply::Counters(self.ksm.counters_alone(&mut self.share))
    }
}

/// Hands over `ok`. It stands apart: within the reading of a line LLVM takes the writing for a rare case, and doesn't
/// inline it.
#[inline(never)]
fn tell_done<P: Replies<S>, S>(to: &mut S) -> Told
    ensures { P.takes to.old to.new told.Done result }
{
    P::reply(to, LineReply::Done)
}

/// Hands over what a command answered. It stands apart, so that `ok` is told without what the others want.
#[inline(never)]
fn tell_other<P: Replies<S>, S>(to: &mut S, answer: Result<Reply, Fault>) -> Told
    ensures { P.takes to.old to.new (reply_to answer) result }
{
    P::reply(to, reply_to(answer))
}

/// The command that makes so many visits.
fn scan_of(visits: u32) -> Command
    ensures { result ≡ scan visits }
{
    let visits = u64::from(visits);
    Command::Scan { visits }
}

/// The reply to the answer of a command.
#[inline(always)]
fn reply_to(answer: Result<Reply, Fault>) -> LineReply
    ensures { result ≡ reply_to answer }
{
    match answer {
        Ok(Reply::Done) => LineReply::Done,
        Ok(Reply::Scanned { visits, stop }) => LineReply::Scanned { visits, stop },
        Ok(Reply::Pruned(count)) => LineReply::Pruned(count),
        Ok(Reply::Unmerged { pages, stop }) => LineReply::Unmerged { pages, stop },
        Err(fault) => LineReply::Refused(Refusal::Book(fault)),
    }
}
