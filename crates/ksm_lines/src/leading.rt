//! Lines read where they lie: at the front of a text that has more behind them.
//!
//! A number ends at the byte behind it, and a line at its newline, so nobody looks for the newline first. No line is
//! laid in a value that has room for a page: one with a content gives that apart. What is not read here may still be a
//! line; `read_line` tells.
ghost use Rattle.std.specs.Prelude.{◌≡◌, ◌<◌, ◌≤◌, ◌^◌, ◌++◌, ◌∷◌, ℕ, List, IfSome, Some, bytes_eq, decimal, length};
ghost use Rattle.std.specs.Prelude.{take};
ghost use Rattle.ksm_lines.specs.Content.{content_of};
ghost use Rattle.ksm_lines.specs.Leading.{BeginsWith, names_content};
ghost use Rattle.ksm_lines.specs.declared.line.Line.TheVariants as lines;

use crate::field::{PAGE_DIGITS, behind, behind_name, content_in, first_four};
use crate::knob::{knob_at, shown_at};
use crate::line::{PageLine, RareLine, ShortLine};
use ksm_base::{GuestPage, PageBytes};

/// With a digit more, a number up to this one fits.
const MOST_BEFORE_A_DIGIT: u32 = 429_496_728;

/// The short line at the front of a text, and what is behind its newline.
#[inline(always)]
pub fn leading_short_line(text: &[u8]) -> Option<(ShortLine, &[u8])>
    ensures { IfSome result (λ r. BeginsWith (lines.Short r.0) text.now r.1.now) }
{
    if text.len() < 4 {
        return None;
    }
    // Only a hint: each form reads its own name.
    let front = first_four(text);
    if front == first_four(b"get ") {
        let (page, left) = page_to(behind_name(text, b"get ")?, b'\n')?;
        return Some((ShortLine::Get { page }, left));
    }
    if front == first_four(b"ticket ") {
        let (page, left) = page_to(behind_name(text, b"ticket ")?, b'\n')?;
        return Some((ShortLine::Ticket { page }, left));
    }
    if front == first_four(b"find ") {
        let (pass, left) = number_to(behind_name(text, b"find ")?, b' ')?;
        let (place, left) = number_to(left, b'\n')?;
        return Some((ShortLine::Find { pass, place }, left));
    }
    if front == first_four(b"look ") {
        let (pass, left) = number_to(behind_name(text, b"look ")?, b'\n')?;
        return Some((ShortLine::Look { pass }, left));
    }
    if front == first_four(b"leave ") {
        let (pass, left) = number_to(behind_name(text, b"leave ")?, b'\n')?;
        return Some((ShortLine::Leave { pass }, left));
    }
    if front == first_four(b"scan ") {
        let (visits, left) = number_to(behind_name(text, b"scan ")?, b'\n')?;
        return Some((ShortLine::Scan { visits }, left));
    }
    if front == first_four(b"stat\n") {
        let left = behind_name(text, b"stat\n")?;
        return Some((ShortLine::Stat, left));
    }
    if front == first_four(b"show ") {
        let (shown, left) = shown_at(behind_name(text, b"show ")?)?;
        let left = behind(left, b"\n")?;
        return Some((ShortLine::Show { shown }, left));
    }
    None
}

/// Whether a text begins as a line with a content does: only then `leading_page_line` may read one.
#[inline(always)]
pub fn names_content(text: &[u8]) -> bool
    ensures { result ≡ names_content text.now }
{
    text.len() >= 4
        && (begins_as(text, b"put ") || begins_as(text, b"reg ") || begins_as(text, b"equal "))
}

/// Whether the first four bytes of a text are those of a name.
#[inline(always)]
fn begins_as<const N: usize>(text: &[u8], name: &[u8; N]) -> bool
    requires { (4 ≤ length text.now) × (4 ≤ N) }
    ensures { result ≡ bytes_eq (take 4 text.now) (take 4 name.now) }
{
    first_four(text) == first_four(name)
}

/// The line with a content at the front of a text, its content, and what is behind its newline.
#[inline(always)]
pub fn leading_page_line(text: &[u8]) -> Option<(PageLine, PageBytes, &[u8])>
    ensures { IfSome result (λ r. BeginsWith (lines.Page r.0 r.1) text.now r.2.now) }
{
    if text.len() < 4 {
        return None;
    }
    let front = first_four(text);
    if front == first_four(b"put ") {
        return store(text);
    }
    if front == first_four(b"equal ") {
        return equal(text);
    }
    if front == first_four(b"reg ") {
        return register(text);
    }
    None
}

/// The line at the front of a text, of those without a content that come seldom, and what is behind its newline.
pub fn leading_rare_line(text: &[u8]) -> Option<(RareLine, &[u8])>
    ensures { IfSome result (λ r. BeginsWith (lines.Rare r.0) text.now r.1.now) }
{
    if text.len() < 4 {
        return None;
    }
    let front = first_four(text);
    if front == first_four(b"set ") {
        let (knob, left) = knob_at(behind_name(text, b"set ")?)?;
        let (value, left) = number_to(behind(left, b" ")?, b'\n')?;
        return Some((RareLine::Set { knob, value }, left));
    }
    if front == first_four(b"prune\n") {
        let left = behind_name(text, b"prune\n")?;
        return Some((RareLine::Prune, left));
    }
    if front == first_four(b"scan\n") {
        let left = behind_name(text, b"scan\n")?;
        return Some((RareLine::ScanPages, left));
    }
    if front == first_four(b"audit\n") {
        let left = behind_name(text, b"audit\n")?;
        return Some((RareLine::Audit, left));
    }
    line_of_place(text)
}

/// The same for a line that begins with a guest, a page or a place.
fn line_of_place(text: &[u8]) -> Option<(RareLine, &[u8])>
    requires { 4 ≤ length text.now }
    ensures { IfSome result (λ r. BeginsWith (lines.Rare r.0) text.now r.1.now) }
{
    let front = first_four(text);
    if front == first_four(b"mergeable ") {
        let (guest, left) = guest_to(behind_name(text, b"mergeable ")?, b'\n')?;
        return Some((RareLine::Mergeable { guest }, left));
    }
    if front == first_four(b"unmerge ") {
        let (guest, left) = guest_to(behind_name(text, b"unmerge ")?, b'\n')?;
        return Some((RareLine::Unmerge { guest }, left));
    }
    if front == first_four(b"drop ") {
        let (page, left) = page_to(behind_name(text, b"drop ")?, b'\n')?;
        return Some((RareLine::Drop { page }, left));
    }
    if front == first_four(b"rmap ") {
        let (place, left) = number_to(behind_name(text, b"rmap ")?, b'\n')?;
        return Some((RareLine::Mappers { place }, left));
    }
    if let Some(left) = behind_name(text, b"movedup ") {
        let (place, left) = number_to(left, b' ')?;
        let (node, left) = number_to(left, b'\n')?;
        return Some((RareLine::MoveDup { place, node }, left));
    }
    let (page, left) = page_to(behind_name(text, b"move ")?, b' ')?;
    let (node, left) = number_to(left, b'\n')?;
    Some((RareLine::MovePage { page, node }, left))
}

#[inline(always)]
fn store(text: &[u8]) -> Option<(PageLine, PageBytes, &[u8])>
    ensures { IfSome result (λ r. BeginsWith (lines.Page r.0 r.1) text.now r.2.now) }
{
    let left = behind_name(text, b"put ")?;
    let (page, left) = page_to(left, b' ')?;
    let (bytes, left) = content_to_newline(left)?;
    Some((PageLine::Store { page }, bytes, left))
}

#[inline(always)]
fn equal(text: &[u8]) -> Option<(PageLine, PageBytes, &[u8])>
    ensures { IfSome result (λ r. BeginsWith (lines.Page r.0 r.1) text.now r.2.now) }
{
    let left = behind_name(text, b"equal ")?;
    let (pass, left) = number_to(left, b' ')?;
    let (place, left) = number_to(left, b' ')?;
    let (bytes, left) = content_to_newline(left)?;
    Some((PageLine::Equal { pass, place }, bytes, left))
}

#[inline(always)]
fn register(text: &[u8]) -> Option<(PageLine, PageBytes, &[u8])>
    ensures { IfSome result (λ r. BeginsWith (lines.Page r.0 r.1) text.now r.2.now) }
{
    let left = behind_name(text, b"reg ")?;
    let (page, left) = page_to(left, b' ')?;
    let (node, left) = number_to(left, b' ')?;
    let (bytes, left) = content_to_newline(left)?;
    Some((PageLine::Register { page, node }, bytes, left))
}

/// The page at the front of a text, and what is behind the byte that ends it.
#[inline(always)]
fn page_to(text: &[u8], end: u8) -> Option<(GuestPage, &[u8])>
    ensures text { IfSome result (λ r. text.now ≡ decimal r.0.guest ++ 32 ∷ (decimal r.0.page ++ end ∷ r.1.now)) }
    ensures fits { IfSome result (λ r. (r.0.guest < 2 ^ 16) × (r.0.page < 2 ^ 32)) }
{
    let (guest, left) = guest_to(text, b' ')?;
    let (page, left) = number_to(left, end)?;
    Some((GuestPage { guest, page }, left))
}

/// The number of a guest at the front of a text, and what is behind the byte that ends it.
#[inline(always)]
fn guest_to(text: &[u8], end: u8) -> Option<(u16, &[u8])>
    ensures text { IfSome result (λ r. text.now ≡ decimal r.0 ++ end ∷ r.1.now) }
    ensures fits { IfSome result (λ r. r.0 < 2 ^ 16) }
{
    let (number, left) = number_to(text, end)?;
    if number > u32::from(u16::MAX) {
        return None;
    }
    Some((number as u16, left))
}

/// The number at the front of a text, and what is behind the byte that ends it. It need not be among the last few that
/// fit.
#[inline(always)]
fn number_to(text: &[u8], end: u8) -> Option<(u32, &[u8])>
    ensures text { IfSome result (λ r. text.now ≡ decimal r.0 ++ end ∷ r.1.now) }
    ensures fits { IfSome result (λ r. r.0 < 2 ^ 32) }
{
    if text.is_empty() || !text[0].is_ascii_digit() {
        return None;
    }
    let mut value = u32::from(text[0]) - u32::from(b'0');
    for at in 1..text.len() {
        let byte = text[at];
        if !byte.is_ascii_digit() {
            if byte != end {
                return None;
            }
            return Some((value, &text[at + 1..]));
        }
        // Behind a leading zero there is no digit.
        if value == 0 || value > MOST_BEFORE_A_DIGIT {
            return None;
        }
        value = value * 10 + (u32::from(byte) - u32::from(b'0'));
    }
    None
}

/// The content at the front of a text, and what is behind the newline that ends it.
#[inline(always)]
fn content_to_newline(text: &[u8]) -> Option<(PageBytes, &[u8])>
    ensures { IfSome result (λ r. (word : List ℕ) × (content_of word ≡ Some r.0) × (text.now ≡ word ++ 10 ∷ r.1.now)) }
{
    if let Some(read) = content_of_length(text, 2) {
        return Some(read);
    }
    content_of_length(text, PAGE_DIGITS)
}

/// The content of so many digits at the front of a text, and what is behind the newline that ends it.
#[inline(always)]
fn content_of_length(text: &[u8], digits: usize) -> Option<(PageBytes, &[u8])>
    ensures { IfSome result (λ r. (word : List ℕ) × (content_of word ≡ Some r.0) × (text.now ≡ word ++ 10 ∷ r.1.now)) }
{
    if digits >= text.len() || text[digits] != b'\n' {
        return None;
    }
    match content_in(&text[..digits]) {
        Ok(bytes) => Some((bytes, &text[digits + 1..])),
        Err(_) => None,
    }
}
