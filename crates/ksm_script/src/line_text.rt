//! Texts that are put together from their ends.
ghost use Rattle.std.specs.Prelude.{◌≡◌, ◌+◌, ◌*◌, ◌<◌, ◌≤◌, ◌∷◌, ◌++◌, [], All, false, length, map, decimal};
ghost use Rattle.std.specs.Fmt.{digit_glyph};
ghost use Rattle.ksm_script.specs.Texts.{word_digits, content_text};

use itoa::write_digits;
use ksm_base::{PAGE_WORDS, PageBytes};
use std::marker::Model;
use std::simd::prelude::*;

/// How many digits a page is written in.
pub const PAGE_DIGITS: usize = 16 * PAGE_WORDS;

/// A text of at most so many bytes that is put together from its end. Contracts see its bytes.
#[derive(Drop)]
pub struct LineText<const ROOM: usize> {
    bytes: [u8; ROOM],
    start: usize,
}

impl<const ROOM: usize> Model for LineText<ROOM> {
    ghost use Rattle.std.specs.Prelude.{◌≤◌, List, ℕ, drop};

    ghost Value = { List ℕ };

    ghost view = { λ t. drop t.start t.bytes };

    ghost invariant = { λ t. t.start ≤ ROOM };
}

/// The hexadecimal digit of each of these values.
#[inline(always)]
fn digits_of_values(values: u8x16) -> u8x16
    requires long { length values ≡ 16 }
    requires small { All (λ value. value < 16) values }
    ensures { result ≡ map (digit_glyph false) values }
{
    u8x16::from_array(*b"0123456789abcdef").swizzle_dyn(values)
}

/// The digits of a word of a page, from its lowest byte on.
#[inline(always)]
fn digits_of(word: u64) -> [u8; 16]
    ensures { result ≡ word_digits word }
{
    let bytes = u8x8::from_array(word.to_le_bytes());
    let high = bytes >> u8x8::splat(4);
    let low = bytes & u8x8::splat(15);
    let values = high.shuffle(low, [0, 8, 1, 9, 2, 10, 3, 11, 4, 12, 5, 13, 6, 14, 7, 15]);
    digits_of_values(values).to_array()
}

/// The digits of the words of a page.
#[inline(always)]
pub fn digits_of_words(content: &PageBytes) -> [[u8; 16]; PAGE_WORDS]
    ensures { result ≡ map word_digits content.now }
{
    let mut digits = [[0; 16]; PAGE_WORDS];
    for i in 0..PAGE_WORDS {
        digits[i] = digits_of(content[i]);
    }
    digits
}

impl<const ROOM: usize> LineText<ROOM> {
    /// The text of no bytes.
    #[inline(always)]
    pub fn new() -> LineText<ROOM>
        ensures { result ≡ [] }
    {
        LineText {
            bytes: [0; ROOM],
            start: ROOM,
        }
    }

    /// Puts bytes before the text.
    #[inline(always)]
    pub fn put_bytes(&mut self, bytes: &[u8])
        requires { length bytes.now + length self.old ≤ ROOM }
        ensures { self.new ≡ bytes.now ++ self.old }
    {
        let end = self.start;
        let start = end - bytes.len();
        let whole = &mut self.bytes[..];
        whole[start..end].copy_from_slice(bytes);
        self.start = start;
    }

    /// Puts a name before the text.
    #[inline(always)]
    pub fn put_name(&mut self, name: &str)
        requires { length name.now + length self.old ≤ ROOM }
        ensures { self.new ≡ name.now ++ self.old }
    {
        self.put_bytes(name.as_bytes());
    }

    /// Puts the decimal digits of a number before the text.
    #[inline(always)]
    pub fn put_number(&mut self, number: u64)
        requires { 20 + length self.old ≤ ROOM }
        ensures text { self.new ≡ decimal number ++ self.old }
        ensures room { length self.new ≤ 20 + length self.old }
    {
        self.start = write_digits(number, &mut self.bytes, self.start);
    }

    /// Puts a name and a number behind it before the text.
    #[inline(always)]
    pub fn put_named(&mut self, name: &str, number: u64)
        requires { length name.now + 20 + length self.old ≤ ROOM }
        ensures text { self.new ≡ name.now ++ (decimal number ++ self.old) }
        ensures room { length self.new ≤ length name.now + 20 + length self.old }
    {
        self.put_number(number);
        self.put_name(name);
    }

    /// Puts the digits of a page's content before the text.
    pub fn put_content(&mut self, content: &PageBytes)
        requires { 16 * PAGE_WORDS + length self.old ≤ ROOM }
        ensures text { self.new ≡ content_text content.now ++ self.old }
        ensures room { length self.new ≡ 16 * PAGE_WORDS + length self.old }
    {
        let digits = digits_of_words(content);
        self.put_bytes(digits.as_flattened());
    }

    /// The bytes.
    #[inline(always)]
    pub fn as_slice(&self) -> &[u8]
        ensures { result.now ≡ self.now }
    {
        let whole = &self.bytes[..];
        &whole[self.start..]
    }
}
