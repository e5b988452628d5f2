//! The replies of the language.
ghost use Rattle.std.specs.Prelude.{◌≤◌, ⊤, length};
ghost use Rattle.std.specs.List.{concat, flat_map};
ghost use Rattle.ksm_script.specs.Said.{WritesText};
ghost use Rattle.ksm_audit.specs.declared.report.Row.TheVariants.{Found as found_row, Gone as gone_row};
ghost use Rattle.ksm_script.specs.Replies.{text_of, content_line, counted_text, stopped_text, counters_text};
ghost use Rattle.ksm_script.specs.Replies.{mapper_text, mappers_text, held_text, row_text, audit_text};

use crate::lane::{Bytes, Sends};
use crate::line_text::{LineText, PAGE_DIGITS, digits_of_words};
use crate::output::write_text;
use crate::refusal::Refusal;
use crate::script::{RunFault, Told};
use frame_table::Why;
use ksm_audit::{Report, Row};
use ksm_base::{Counters, Fault, GuestPage, PageBytes};
use std::io::Write;

/// The most bytes of a reply with one or two numbers: 26 of names and the newline, and a number has 20 digits.
const SHORT_ROOM: usize = 66;

/// The most bytes of the counters: 68 of names, and seven numbers.
const COUNTERS_ROOM: usize = 208;

/// The most bytes of what an audit found at a place: 8 of names, a number, and a page.
const FOUND_ROOM: usize = 28 + PAGE_DIGITS;

/// A reply line, one variant for each form (own).
#[derive(Drop)]
pub enum LineReply {
    /// `ok`
    Done,
    /// The digits of a page, lower case.
    Content(PageBytes),
    /// `place PLACE`: where the shared page is found.
    Place(u32),
    /// `private`: the page is not merged.
    Private,
    /// `rmap G:P G:P ..`: the pages that are merged into one, in order.
    Mappers(Vec<GuestPage>),
    /// `scanned VISITS`, with the refusal that stopped it.
    Scanned { visits: u64, stop: Option<Fault> },
    /// `pruned COUNT`
    Pruned(u64),
    /// `unmerged PAGES`, with the refusal that stopped it.
    Unmerged { pages: u64, stop: Option<Fault> },
    /// The value of a knob or a counter.
    Value(u64),
    /// `stat shared=..`
    Counters(Counters),
    /// `held FRAME GENERATION`: the frame that is held, in this life.
    Held { frame: u32, generation: u64 },
    /// `differs FRAME GENERATION`: the same, and the frame's content is another.
    Differs { frame: u32, generation: u64 },
    /// `gone WHY`: there was nothing to hold.
    Gone(Why),
    /// `busy`: the lookup lost all of its exchanges.
    Busy,
    /// `audit ROW ROW ..`, a row for each place.
    Audit(Report),
    /// `refused NUMBER`
    Refused(Refusal),
    /// `bad line NUMBER`, lines being numbered from 1.
    BadLine(u64),
}

/// Writes the line of a reply, its newline included.
///
/// At a fault of the writer, or where it takes no byte, the answer is `RunFault::Write`, and a beginning of the line is
/// written.
pub fn write_reply<W: Write>(writer: &mut W, reply: &LineReply) -> Result<(), RunFault>
    ensures { WritesText W.contents (λ _. ⊤) writer.old writer.new (text_of reply.now) result }
{
    put_reply::<Bytes, W>(writer, reply)
}

// Inlined for speed: where the reply is known, nothing but its text is left.

/// Writes the line of a reply in this way.
#[inline(always)]
pub(crate) fn put_reply<S: Sends<W>, W: Write>(writer: &mut W, reply: &LineReply) -> Told
    ensures { WritesText W.contents S.fails writer.old writer.new (text_of reply.now) result }
{
    match reply {
        LineReply::Done => write_text::<S, W>(writer, b"ok\n"),
        LineReply::Content(content) => write_content::<S, W>(writer, content),
        LineReply::Place(place) => write_count::<S, _, W>(writer, b"place ", u64::from(*place)),
        LineReply::Private => write_text::<S, W>(writer, b"private\n"),
        LineReply::Mappers(pages) => write_mappers::<S, W>(writer, pages.as_slice()),
        LineReply::Scanned { visits, stop } => {
            write_stopped::<S, _, W>(writer, b"scanned ", *visits, *stop)
        }
        LineReply::Pruned(count) => write_count::<S, _, W>(writer, b"pruned ", *count),
        LineReply::Unmerged { pages, stop } => {
            write_stopped::<S, _, W>(writer, b"unmerged ", *pages, *stop)
        }
        LineReply::Value(value) => write_count::<S, _, W>(writer, b"", *value),
        LineReply::Counters(counters) => write_counters::<S, W>(writer, counters),
        LineReply::Held { frame, generation } => {
            write_held::<S, _, W>(writer, b"held ", *frame, *generation)
        }
        LineReply::Differs { frame, generation } => {
            write_held::<S, _, W>(writer, b"differs ", *frame, *generation)
        }
        LineReply::Gone(why) => write_count::<S, _, W>(writer, b"gone ", why.number()),
        LineReply::Busy => write_text::<S, W>(writer, b"busy\n"),
        LineReply::Audit(report) => write_audit::<S, W>(writer, report.rows()),
        LineReply::Refused(refusal) => {
            write_count::<S, _, W>(writer, b"refused ", u64::from(refusal.number()))
        }
        LineReply::BadLine(number) => write_count::<S, _, W>(writer, b"bad line ", *number),
    }
}

// The newline is written apart: as many bytes as a page has digits are copied without a call.

/// Writes the content of a page, its bytes in order, two digits each.
pub(crate) fn write_content<S: Sends<W>, W: Write>(writer: &mut W, content: &PageBytes) -> Told
    ensures { WritesText W.contents S.fails writer.old writer.new (content_line content.now) result }
{
    write_text::<S, W>(writer, digits_of_words(content).as_flattened())?;
    write_text::<S, W>(writer, b"\n")
}

// The length of a name is a part of the type of what writes it, so that the name is copied by a store or two.

/// Writes a name and a number.
fn write_count<S: Sends<W>, const N: usize, W: Write>(
    writer: &mut W,
    name: &[u8; N],
    count: u64,
) -> Told
    requires { length name.now ≤ 16 }
    ensures { WritesText W.contents S.fails writer.old writer.new (counted_text name.now count) result }
{
    let mut text = LineText::<SHORT_ROOM>::new();
    text.put_name("\n");
    text.put_number(count);
    text.put_bytes(name);
    write_text::<S, W>(writer, text.as_slice())
}

/// Writes a name, a number, and the refusal that stopped the command, if one did.
fn write_stopped<S: Sends<W>, const N: usize, W: Write>(
    writer: &mut W,
    name: &[u8; N],
    count: u64,
    stop: Option<Fault>,
) -> Told
    requires { length name.now ≤ 16 }
    ensures { WritesText W.contents S.fails writer.old writer.new (stopped_text name.now count stop) result }
{
    let Some(fault) = stop else {
        return write_count::<S, _, W>(writer, name, count);
    };
    let mut text = LineText::<SHORT_ROOM>::new();
    text.put_name("\n");
    text.put_named(" refused ", u64::from(fault.number()));
    text.put_number(count);
    text.put_bytes(name);
    write_text::<S, W>(writer, text.as_slice())
}

/// Writes the counters, each behind its name.
fn write_counters<S: Sends<W>, W: Write>(writer: &mut W, counters: &Counters) -> Told
    ensures { WritesText W.contents S.fails writer.old writer.new (counters_text counters.now) result }
{
    let mut text = LineText::<COUNTERS_ROOM>::new();
    text.put_name("\n");
    text.put_named(" full_scans=", counters.full_scans);
    text.put_named(" dups=", counters.dups);
    text.put_named(" chains=", counters.chains);
    text.put_named(" volatile=", counters.volatile);
    text.put_named(" unshared=", counters.unshared);
    text.put_named(" sharing=", counters.sharing);
    text.put_named("stat shared=", counters.shared);
    write_text::<S, W>(writer, text.as_slice())
}

/// Writes one page of a dup.
fn write_mapper<S: Sends<W>, W: Write>(writer: &mut W, page: GuestPage) -> Told
    ensures { WritesText W.contents S.fails writer.old writer.new (mapper_text page) result }
{
    let mut text = LineText::<SHORT_ROOM>::new();
    text.put_named(":", u64::from(page.page));
    text.put_named(" ", u64::from(page.guest));
    write_text::<S, W>(writer, text.as_slice())
}

/// Writes the pages of a dup, each behind a space.
fn write_pages<S: Sends<W>, W: Write>(writer: &mut W, pages: &[GuestPage]) -> Told
    ensures { WritesText W.contents S.fails writer.old writer.new (flat_map mapper_text pages.now) result }
{
    for page in pages {
        write_mapper::<S, W>(writer, *page)?;
    }
    Ok(())
}

/// Writes the line of the pages of a dup.
fn write_mappers<S: Sends<W>, W: Write>(writer: &mut W, pages: &[GuestPage]) -> Told
    ensures { WritesText W.contents S.fails writer.old writer.new (mappers_text pages.now) result }
{
    write_text::<S, W>(writer, b"rmap")?;
    write_pages::<S, W>(writer, pages)?;
    write_text::<S, W>(writer, b"\n")
}

/// Writes a name, and the frame that is held in a life.
fn write_held<S: Sends<W>, const N: usize, W: Write>(
    writer: &mut W,
    name: &[u8; N],
    frame: u32,
    generation: u64,
) -> Told
    requires { length name.now ≤ 16 }
    ensures { WritesText W.contents S.fails writer.old writer.new
        (held_text name.now frame generation) result }
{
    let mut text = LineText::<SHORT_ROOM>::new();
    text.put_name("\n");
    text.put_named(" ", generation);
    text.put_number(u64::from(frame));
    text.put_bytes(name);
    write_text::<S, W>(writer, text.as_slice())
}

/// Writes what a lookup of an audit held and read.
fn write_found<S: Sends<W>, W: Write>(writer: &mut W, generation: u64, bytes: &PageBytes) -> Told
    ensures { WritesText W.contents S.fails writer.old writer.new
        (row_text (found_row generation bytes.now)) result }
{
    let mut text = LineText::<FOUND_ROOM>::new();
    text.put_content(bytes);
    text.put_name(":");
    text.put_named(" found:", generation);
    write_text::<S, W>(writer, text.as_slice())
}

/// Writes why a lookup of an audit held nothing.
fn write_gone<S: Sends<W>, W: Write>(writer: &mut W, why: Why) -> Told
    ensures { WritesText W.contents S.fails writer.old writer.new (row_text (gone_row why)) result }
{
    let mut text = LineText::<SHORT_ROOM>::new();
    text.put_named(" gone:", why.number());
    write_text::<S, W>(writer, text.as_slice())
}

/// Writes how the lookup of one place ended.
fn write_row<S: Sends<W>, W: Write>(writer: &mut W, row: Row) -> Told
    ensures { WritesText W.contents S.fails writer.old writer.new (row_text row) result }
{
    match row {
        Row::Found { generation, bytes } => write_found::<S, W>(writer, generation, &bytes),
        Row::Gone(why) => write_gone::<S, W>(writer, why),
        Row::Busy => write_text::<S, W>(writer, b" busy"),
    }
}

/// Writes the rows of an audit, each behind a space.
fn write_rows<S: Sends<W>, W: Write>(writer: &mut W, rows: &[Row]) -> Told
    ensures { WritesText W.contents S.fails writer.old writer.new (flat_map row_text rows.now) result }
{
    for row in rows {
        write_row::<S, W>(writer, *row)?;
    }
    Ok(())
}

/// Writes the line of an audit.
fn write_audit<S: Sends<W>, W: Write>(writer: &mut W, rows: &[Row]) -> Told
    ensures { WritesText W.contents S.fails writer.old writer.new (audit_text rows.now) result }
{
    write_text::<S, W>(writer, b"audit")?;
    write_rows::<S, W>(writer, rows)?;
    write_text::<S, W>(writer, b"\n")
}
