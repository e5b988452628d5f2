//! The fields of a line: its words, read one by one.
ghost use Rattle.std.specs.Prelude.{◌≡◌, ◌≢◌, ◌+◌, ◌*◌, ◌<◌, ◌≤◌, ◌↔◌, ◌==◌, [], ◌∷◌, ◌++◌, ◌&&◌, ℕ, List, map, not};
ghost use Rattle.std.specs.Prelude.{length, take, slice_index, None, IsSome, IfSome, IfNone, bytes_eq, position, false, true};
ghost use Rattle.std.specs.Char.{is_ascii_digit, is_ascii_hexdigit};
ghost use Rattle.std.specs.List.{list_all, range_with_len};
ghost use Rattle.std.specs.Int.{w32, w64, from_le_bytes, to_le_bytes};
ghost use Rattle.ksm_lines.specs.Content.{AreValues, digit_or_none, is_small, byte_at, pair_in, page_of_digits};
ghost use Rattle.ksm_lines.specs.Content.{content_of};
ghost use Rattle.ksm_lines.specs.Grammar.{words_of, guest as guest_kind, number as number_kind, knob as knob_kind};
ghost use Rattle.ksm_lines.specs.Reading.{Gives, GivesField, GivesLast, GivesPage, words_left, left_length};
ghost use Rattle.ksm_lines.specs.Reading.{field, values, ended, read};
ghost use Rattle.ksm_lines.specs.declared.part.Part.TheVariants as parts;

use crate::knob::{Shown, knob_named, shown_named};
use crate::line::LineFault;
use ksm_base::{GuestPage, Knob, PAGE_WORDS, PageBytes};
use std::simd::prelude::*;

/// How many digits a page is written in.
pub const PAGE_DIGITS: usize = 16 * PAGE_WORDS;

/// The value of each byte as a hexadecimal digit, 255 of any other byte.
const DIGIT_VALUES: [u8; 256] = [
    255, 255, 255, 255, 255, 255, 255, 255, 255, 255, 255, 255, 255, 255, 255, 255, 255, 255, 255,
    255, 255, 255, 255, 255, 255, 255, 255, 255, 255, 255, 255, 255, 255, 255, 255, 255, 255, 255,
    255, 255, 255, 255, 255, 255, 255, 255, 255, 255, 0, 1, 2, 3, 4, 5, 6, 7, 8, 9, 255, 255, 255,
    255, 255, 255, 255, 10, 11, 12, 13, 14, 15, 255, 255, 255, 255, 255, 255, 255, 255, 255, 255,
    255, 255, 255, 255, 255, 255, 255, 255, 255, 255, 255, 255, 255, 255, 255, 255, 10, 11, 12, 13,
    14, 15, 255, 255, 255, 255, 255, 255, 255, 255, 255, 255, 255, 255, 255, 255, 255, 255, 255,
    255, 255, 255, 255, 255, 255, 255, 255, 255, 255, 255, 255, 255, 255, 255, 255, 255, 255, 255,
    255, 255, 255, 255, 255, 255, 255, 255, 255, 255, 255, 255, 255, 255, 255, 255, 255, 255, 255,
    255, 255, 255, 255, 255, 255, 255, 255, 255, 255, 255, 255, 255, 255, 255, 255, 255, 255, 255,
    255, 255, 255, 255, 255, 255, 255, 255, 255, 255, 255, 255, 255, 255, 255, 255, 255, 255, 255,
    255, 255, 255, 255, 255, 255, 255, 255, 255, 255, 255, 255, 255, 255, 255, 255, 255, 255, 255,
    255, 255, 255, 255, 255, 255, 255, 255, 255, 255, 255, 255, 255, 255, 255, 255, 255, 255, 255,
    255, 255, 255, 255, 255, 255, 255, 255, 255, 255, 255, 255, 255, 255, 255, 255, 255, 255, 255,
    255, 255, 255,
];

/// Where the first space of a text is.
fn first_space(text: &[u8]) -> Option<usize>
    ensures { result ≡ position (λ byte. byte == 32) text.now }
{
    text.iter().position(|byte| *byte == b' ')
}

/// The first word of a text, and what follows the space behind it.
#[tactic(auto, using(crate::proofs::Words::cut_at, crate::proofs::Words::cut_none))]
pub fn cut(text: &[u8]) -> (&[u8], Option<&[u8]>)
    ensures words { words_of text.now ≡ result.0.now ∷ words_left result.1 }
    ensures fits { length result.0.now + left_length result.1 ≡ length text.now }
{
    match first_space(text) {
        Some(at) => (&text[..at], Some(&text[at + 1..])),
        None => (text, None),
    }
}

/// The first four bytes of a text as one number: a name is compared four bytes at a time.
#[inline(always)]
pub fn first_four(text: &[u8]) -> u32
    requires { 4 ≤ length text.now }
    ensures { to_le_bytes w32 result ≡ take 4 text.now }
{
    u32::from_le_bytes([text[0], text[1], text[2], text[3]])
}

/// What is left of a text behind these bytes, where it begins with them.
#[inline(always)]
pub fn behind_name<'a, const N: usize>(text: &'a [u8], name: &[u8; N]) -> Option<&'a [u8]>
    requires { 4 ≤ N }
    ensures { IfSome result (λ left. text.now ≡ name.now ++ left.now) }
{
    if text.len() < N || first_four(text) != first_four(name) {
        return None;
    }
    for i in 4..N {
        if text[i] != name[i] {
            return None;
        }
    }
    Some(&text[N..])
}

/// What is left of a text behind a name of any length, where it begins with it. The first byte that differs ends it.
#[inline(always)]
pub fn behind<'a>(text: &'a [u8], name: &[u8]) -> Option<&'a [u8]>
    ensures some { IfSome result (λ left. text.now ≡ name.now ++ left.now) }
    ensures none { IfNone result ((left : List ℕ) → text.now ≢ name.now ++ left) }
{
    if text.len() < name.len() {
        return None;
    }
    for i in 0..name.len() {
        if text[i] != name[i] {
            return None;
        }
    }
    Some(&text[name.len()..])
}

/// Whether a word is this name. The first byte that differs ends it.
#[inline(always)]
#[tactic(auto, using(crate::proofs::Front::is_name))]
pub fn is<const N: usize>(word: &[u8], name: &[u8; N]) -> bool
    ensures { result ≡ bytes_eq word.now name.now }
{
    word.len() == N && behind(word, name).is_some()
}

/// Nothing, where no word is left.
#[tactic(auto, using(crate::proofs::Words::not_ended))]
pub fn ended(left: Option<&[u8]>) -> Result<(), LineFault>
    ensures { Gives result (ended (words_left left.entry)) }
{
    match left {
        None => Ok(()),
        Some(_) => Err(LineFault::Bad),
    }
}

/// The number that a word writes.
pub fn number_in(word: &[u8]) -> Result<u32, LineFault>
    ensures { Gives result (read number_kind word.now) }
{
    if word.is_empty() || word.len() > 1 && word[0] == b'0' {
        return Err(LineFault::Bad);
    }
    let mut value: u64 = 0;
    for at in 0..word.len() {
        let byte = word[at];
        if !byte.is_ascii_digit() {
            return Err(LineFault::Bad);
        }
        value = value * 10 + u64::from(byte - b'0');
        if value > u64::from(u32::MAX) {
            return Err(LineFault::Bad);
        }
    }
    Ok(value as u32)
}

/// The number of a guest that a word writes.
pub fn guest_in(word: &[u8]) -> Result<u16, LineFault>
    ensures { Gives result (read guest_kind word.now) }
{
    match u16::try_from(number_in(word)?) {
        Ok(guest) => Ok(guest),
        Err(_) => Err(LineFault::Bad),
    }
}

/// The next word as a number.
pub fn number(left: Option<&[u8]>) -> Result<(u32, Option<&[u8]>), LineFault>
    ensures { GivesField result (field number_kind (words_left left.entry)) }
{
    let (word, left) = cut(left.ok_or(LineFault::Bad)?);
    Ok((number_in(word)?, left))
}

/// The next word as the number of a guest.
pub fn guest(left: Option<&[u8]>) -> Result<(u16, Option<&[u8]>), LineFault>
    ensures { GivesField result (field guest_kind (words_left left.entry)) }
{
    let (word, left) = cut(left.ok_or(LineFault::Bad)?);
    Ok((guest_in(word)?, left))
}

/// The last word as a number.
pub fn number_alone(left: Option<&[u8]>) -> Result<u32, LineFault>
    ensures { GivesLast result (values (parts.Page ∷ []) (words_left left.entry)) }
{
    let (number, left) = number(left)?;
    ended(left)?;
    Ok(number)
}

/// The last word as the number of a guest.
pub fn guest_alone(left: Option<&[u8]>) -> Result<u16, LineFault>
    ensures { GivesLast result (values (parts.Guest ∷ []) (words_left left.entry)) }
{
    let (guest, left) = guest(left)?;
    ended(left)?;
    Ok(guest)
}

/// The last two words as a page.
pub fn page_alone(left: Option<&[u8]>) -> Result<GuestPage, LineFault>
    ensures { GivesPage result (values (parts.Guest ∷ parts.Page ∷ []) (words_left left.entry)) }
{
    let (guest, left) = guest(left)?;
    let page = number_alone(left)?;
    Ok(GuestPage { guest, page })
}

/// The next word as a knob.
pub fn knob(left: Option<&[u8]>) -> Result<(Knob, Option<&[u8]>), LineFault>
    ensures { GivesField result (field knob_kind (words_left left.entry)) }
{
    let (word, left) = cut(left.ok_or(LineFault::Bad)?);
    Ok((knob_named(word)?, left))
}

/// The last word as what is shown.
pub fn shown_alone(left: Option<&[u8]>) -> Result<Shown, LineFault>
    ensures { GivesLast result (values (parts.Shown ∷ []) (words_left left.entry)) }
{
    shown_named(left.ok_or(LineFault::Bad)?)
}

/// The byte that two digits write, where they are digits.
#[inline(always)]
#[tactic(auto, using(crate::proofs::Hex::small_value))]
fn byte_in(word: &[u8]) -> Option<u8>
    requires { length word.now ≡ 2 }
    ensures digits { IsSome result ↔ (list_all is_ascii_hexdigit word.now ≡ true) }
    ensures byte { IfSome result (λ byte. byte ≡ byte_at word.now 0) }
{
    let high = digit_value(word[0]);
    let low = digit_value(word[1]);
    if high > 15 || low > 15 {
        return None;
    }
    Some(high * 16 + low)
}

/// The value of a hexadecimal digit, 255 of any other byte.
#[tactic(auto, using(crate::proofs::Hex::value_of))]
fn digit_value(byte: u8) -> u8
    ensures { result ≡ digit_or_none byte }
{
    DIGIT_VALUES[byte as usize]
}

// Sums wrap. A decimal digit comes to 240 to 249, any other byte to less; a letter to 0 to 5, any other byte to more.

/// The value of each hexadecimal digit, 16 or more of any other byte.
#[inline(always)]
fn digit_values(digits: u8x16) -> u8x16
    requires { length digits ≡ 16 }
    ensures { AreValues digits result }
{
    let numbers = (digits + u8x16::splat(198)).saturating_sub(u8x16::splat(6));
    let letters = (digits & u8x16::splat(0xdf)) - u8x16::splat(b'A');
    let letters = letters.simd_min(u8x16::splat(245));
    (numbers + u8x16::splat(16)).simd_min(letters + u8x16::splat(10))
}

/// The larger of two values in each lane.
#[inline(always)]
#[tactic(auto, using(crate::proofs::Lanes::larger_small))]
fn larger(a: u8x16, b: u8x16) -> u8x16
    ensures { list_all is_small result ≡ (list_all is_small a && list_all is_small b) }
{
    a.simd_max(b)
}

/// Whether a value is that of no digit.
#[inline(always)]
#[tactic(auto, using(crate::proofs::Lanes::none_above))]
fn has_other(values: u8x16) -> bool
    ensures { result ≡ not (list_all is_small values) }
{
    values.simd_gt(u8x16::splat(15)).to_bitmask() != 0
}

/// The word of a page whose digits have these values.
#[inline(always)]
#[tactic(auto, using(crate::proofs::Lanes::pairs_told))]
fn word_of(values: u8x16) -> u64
    ensures { list_all is_small values ≡ true → result ≡ from_le_bytes w64 (map (pair_in values) (range_with_len 0 8)) }
{
    let high = values.swizzle::<8>([0, 2, 4, 6, 8, 10, 12, 14]);
    let low = values.swizzle::<8>([1, 3, 5, 7, 9, 11, 13, 15]);
    u64::from_le_bytes((high * u8x8::splat(16) + low).to_array())
}

/// The page that the digits write, where each byte is a digit. Whether one is none is asked once, at the end.
fn page_in(digits: &[u8]) -> Result<PageBytes, LineFault>
    requires { length digits.now ≡ 16 * PAGE_WORDS }
    ensures { Gives result (page_of_digits digits.now) }
{
    let mut page = [0; PAGE_WORDS];
    let mut most = u8x16::splat(0);
    for i in 0..PAGE_WORDS {
        let values = digit_values(u8x16::from_slice(&digits[16 * i..]));
        most = larger(most, values);
        page[i] = word_of(values);
    }
    if has_other(most) {
        return Err(LineFault::Bad);
    }
    Ok(page)
}

/// The page that a word of two digits fills, or that one of as many digits as a page has writes.
#[inline(always)]
pub fn content_in(word: &[u8]) -> Result<PageBytes, LineFault>
    ensures { Gives result (content_of word.now) }
{
    if word.len() == PAGE_DIGITS {
        return page_in(word);
    }
    if word.len() != 2 {
        return Err(LineFault::Bad);
    }
    match byte_in(word) {
        Some(byte) => Ok([u64::from_le_bytes([byte; 8]); PAGE_WORDS]),
        None => Err(LineFault::Bad),
    }
}

/// The last word as the content of a page.
pub fn content_alone(left: Option<&[u8]>) -> Result<PageBytes, LineFault>
    ensures { GivesLast result (values (parts.Content ∷ []) (words_left left.entry)) }
{
    content_in(left.ok_or(LineFault::Bad)?)
}
