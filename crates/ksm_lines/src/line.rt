//! The lines of the language.
ghost use Rattle.std.specs.Prelude.{◌≡◌, IfErr, IfOk, Ok, codes};
ghost use Rattle.ksm_lines.specs.declared.line.Line.{Line};
ghost use Rattle.ksm_lines.specs.Grammar.{IsNoLine, Writes, words_of};
ghost use Rattle.ksm_lines.specs.Reading.{Gives, line_at, named_line, parts_given, parts_in, words_left};

use self::Line::{Page, Rare, Short};
use self::PageLine::{Equal, Register, Store};
use self::RareLine::{
    Audit, Mappers, Mergeable, MoveDup, MovePage, Prune, ScanPages, Set, Unmerge,
};
use self::ShortLine::{Find, Get, Leave, Look, Scan, Show, Stat, Ticket};
use crate::field::{
    content_alone, cut, ended, guest, guest_alone, is, knob, number, number_alone, page_alone,
    shown_alone,
};
use crate::knob::Shown;
use crate::part::Part;
use ksm_base::{GuestPage, Knob, PageBytes};
use thiserror::Error;

/// A line of a script, by how it is answered and whether it has the content of a page (own).
#[derive(Clone, Copy)]
pub enum Line {
    /// No bytes: nothing is done, and there is no reply.
    Empty,
    /// One without a content that is answered by a call of its own.
    Short(ShortLine),
    /// One with a content, which stands apart.
    Page(PageLine, PageBytes),
    /// One that comes seldom, without a content.
    Rare(RareLine),
}

/// A line without a content that is answered by a call of its own.
#[derive(Clone, Copy)]
pub enum ShortLine {
    /// `get G P`
    Get { page: GuestPage },
    /// `ticket G P`
    Ticket { page: GuestPage },
    /// `find K PLACE`
    Find { pass: u32, place: u32 },
    /// `look K`
    Look { pass: u32 },
    /// `leave K`
    Leave { pass: u32 },
    /// `scan N`
    Scan { visits: u32 },
    /// `stat`
    Stat,
    /// `show KNOB`, `show ksm_zero_pages`
    Show { shown: Shown },
}

/// A line with the content of a page, without that content.
#[derive(Clone, Copy)]
pub enum PageLine {
    /// `reg G P NODE HEX`
    Register { page: GuestPage, node: u32 },
    /// `put G P HEX`
    Store { page: GuestPage },
    /// `equal K PLACE HEX`
    Equal { pass: u32, place: u32 },
}

/// A line without a content that comes seldom.
#[derive(Clone, Copy)]
pub enum RareLine {
    /// `drop G P`
    Drop { page: GuestPage },
    /// `rmap PLACE`
    Mappers { place: u32 },
    /// `scan`: as many visits as the knob `pages_to_scan` says.
    ScanPages,
    /// `prune`
    Prune,
    /// `unmerge G`
    Unmerge { guest: u16 },
    /// `mergeable G`
    Mergeable { guest: u16 },
    /// `move G P NODE`
    MovePage { page: GuestPage, node: u32 },
    /// `movedup PLACE NODE`
    MoveDup { place: u32, node: u32 },
    /// `set KNOB V`
    Set { knob: Knob, value: u32 },
    /// `audit`
    Audit,
}

/// Why bytes are no line.
#[derive(Clone, Copy, Debug, PartialEq, Eq, Error)]
pub enum LineFault {
    /// The bytes are none of the forms.
    #[error("the bytes are no line of the language")]
    Bad,
}

/// The line that the bytes are.
pub fn read_line(bytes: &[u8]) -> Result<Line, LineFault>
    ensures found { Gives result (line_at (words_of bytes.now)) }
    ensures written { IfOk result (λ line. Writes line bytes.now) }
    ensures read { (line : Line) → Writes line bytes.now → result ≡ Ok line }
    ensures none { IfErr result (λ fault. IsNoLine bytes.now) }
{
    let (name, left) = cut(bytes);
    named(name, left)
}

/// The line that begins with a name.
fn named(name: &[u8], left: Option<&[u8]>) -> Result<Line, LineFault>
    ensures { Gives result (named_line name.now (words_left left.entry)) }
{
    match name {
        _ if is(name, b"") => ended(left).map(|()| Line::Empty),
        _ if is(name, b"put") => store(left),
        _ if is(name, b"reg") => register(left),
        _ if is(name, b"equal") => equal(left),
        _ if is(name, b"get") => page_alone(left).map(|page| Short(Get { page })),
        _ if is(name, b"ticket") => page_alone(left).map(|page| Short(Ticket { page })),
        _ if is(name, b"find") => find(left),
        _ if is(name, b"look") => number_alone(left).map(|pass| Short(Look { pass })),
        _ if is(name, b"leave") => number_alone(left).map(|pass| Short(Leave { pass })),
        _ if is(name, b"scan") => scan(left),
        _ if is(name, b"stat") => ended(left).map(|()| Short(Stat)),
        _ if is(name, b"drop") => page_alone(left).map(|page| Rare(RareLine::Drop { page })),
        _ if is(name, b"rmap") => number_alone(left).map(|place| Rare(Mappers { place })),
        _ if is(name, b"prune") => ended(left).map(|()| Rare(Prune)),
        _ if is(name, b"unmerge") => guest_alone(left).map(|guest| Rare(Unmerge { guest })),
        _ if is(name, b"mergeable") => guest_alone(left).map(|guest| Rare(Mergeable { guest })),
        _ if is(name, b"move") => move_page(left),
        _ if is(name, b"movedup") => move_dup(left),
        _ if is(name, b"set") => set(left),
        _ if is(name, b"show") => shown_alone(left).map(|shown| Short(Show { shown })),
        _ if is(name, b"audit") => ended(left).map(|()| Rare(Audit)),
        _ => Err(LineFault::Bad),
    }
}

/// The parts behind a name, if a line begins with it.
pub fn parts_of(name: &[u8]) -> Option<&'static [Part]>
    ensures { parts_given result ≡ parts_in name.now }
{
    match name {
        _ if is(name, b"") => Some(&[]),
        _ if is(name, b"reg") => Some(&[Part::Guest, Part::Page, Part::Node, Part::Content]),
        _ if is(name, b"drop") => Some(&[Part::Guest, Part::Page]),
        _ if is(name, b"put") => Some(&[Part::Guest, Part::Page, Part::Content]),
        _ if is(name, b"get") => Some(&[Part::Guest, Part::Page]),
        _ if is(name, b"ticket") => Some(&[Part::Guest, Part::Page]),
        _ if is(name, b"rmap") => Some(&[Part::Place]),
        _ if is(name, b"scan") => Some(&[Part::Visits]),
        _ if is(name, b"prune") => Some(&[]),
        _ if is(name, b"unmerge") => Some(&[Part::Guest]),
        _ if is(name, b"mergeable") => Some(&[Part::Guest]),
        _ if is(name, b"move") => Some(&[Part::Guest, Part::Page, Part::Node]),
        _ if is(name, b"movedup") => Some(&[Part::Place, Part::Node]),
        _ if is(name, b"set") => Some(&[Part::Knob, Part::Value]),
        _ if is(name, b"show") => Some(&[Part::Shown]),
        _ if is(name, b"stat") => Some(&[]),
        _ if is(name, b"find") => Some(&[Part::Pass, Part::Place]),
        _ if is(name, b"equal") => Some(&[Part::Pass, Part::Place, Part::Content]),
        _ if is(name, b"look") => Some(&[Part::Pass]),
        _ if is(name, b"leave") => Some(&[Part::Pass]),
        _ if is(name, b"audit") => Some(&[]),
        _ => None,
    }
}

fn register(left: Option<&[u8]>) -> Result<Line, LineFault>
    ensures { Gives result (named_line (codes "reg") (words_left left.entry)) }
{
    let (guest, left) = guest(left)?;
    let (page, left) = number(left)?;
    let (node, left) = number(left)?;
    let bytes = content_alone(left)?;
    let page = GuestPage { guest, page };
    Ok(Page(Register { page, node }, bytes))
}

fn store(left: Option<&[u8]>) -> Result<Line, LineFault>
    ensures { Gives result (named_line (codes "put") (words_left left.entry)) }
{
    let (guest, left) = guest(left)?;
    let (page, left) = number(left)?;
    let bytes = content_alone(left)?;
    let page = GuestPage { guest, page };
    Ok(Page(Store { page }, bytes))
}

fn scan(left: Option<&[u8]>) -> Result<Line, LineFault>
    ensures { Gives result (named_line (codes "scan") (words_left left.entry)) }
{
    match ended(left) {
        Ok(()) => Ok(Rare(ScanPages)),
        Err(_) => number_alone(left).map(|visits| Short(Scan { visits })),
    }
}

fn move_page(left: Option<&[u8]>) -> Result<Line, LineFault>
    ensures { Gives result (named_line (codes "move") (words_left left.entry)) }
{
    let (guest, left) = guest(left)?;
    let (page, left) = number(left)?;
    let node = number_alone(left)?;
    let page = GuestPage { guest, page };
    Ok(Rare(MovePage { page, node }))
}

fn move_dup(left: Option<&[u8]>) -> Result<Line, LineFault>
    ensures { Gives result (named_line (codes "movedup") (words_left left.entry)) }
{
    let (place, left) = number(left)?;
    let node = number_alone(left)?;
    Ok(Rare(MoveDup { place, node }))
}

fn set(left: Option<&[u8]>) -> Result<Line, LineFault>
    ensures { Gives result (named_line (codes "set") (words_left left.entry)) }
{
    let (knob, left) = knob(left)?;
    let value = number_alone(left)?;
    Ok(Rare(Set { knob, value }))
}

fn find(left: Option<&[u8]>) -> Result<Line, LineFault>
    ensures { Gives result (named_line (codes "find") (words_left left.entry)) }
{
    let (pass, left) = number(left)?;
    let place = number_alone(left)?;
    Ok(Short(Find { pass, place }))
}

fn equal(left: Option<&[u8]>) -> Result<Line, LineFault>
    ensures { Gives result (named_line (codes "equal") (words_left left.entry)) }
{
    let (pass, left) = number(left)?;
    let (place, left) = number(left)?;
    let bytes = content_alone(left)?;
    Ok(Page(Equal { pass, place }, bytes))
}
