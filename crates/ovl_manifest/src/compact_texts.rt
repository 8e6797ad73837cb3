//! The text of a manifest as it is written, taken from its front piece by piece.
ghost use Rattle.std.specs.Prelude.{◌≡◌, ◌≤◌, [], ◌++◌, IsTrue, IfSome, MatchOption, decimal, length, string_bytes, take};
ghost use Rattle.std.specs.Fmt.{signed_decimal};
ghost use Rattle.std.specs.Cow.{cow_str_bytes};
ghost use Rattle.std.specs.Str.Parse.{AllDigits, digits_value};
ghost use Rattle.hex.specs.Hex.{encode_lower};
ghost use Rattle.json.specs.Print.{quoted};

use crate::plain_runs::plain_length;
use ovl_inode::Digest;
use serde_json::Value;
use std::alloc::Global;
use std::borrow::CowStr;
use std::marker::Model;

const DIGEST_DIGITS: usize = 64;

// The most digits of a number that surely fits 64 bits.
const DIGIT_LIMIT: usize = 19;

/// What is left of a text, seen as its bytes.
#[derive(Drop)]
pub(crate) struct Rest<'a> {
    text: &'a str,
}

impl<'a> Model for Rest<'a> {
    ghost use Rattle.std.specs.Prelude.{ℕ, List};

    ghost Value = { List ℕ };

    ghost view = { λ a. a.text.now };
}

impl<'a> Rest<'a> {
    /// The whole text.
    pub(crate) fn of(text: &'a str) -> Rest<'a>
        ensures { result ≡ text.now }
    {
        Rest { text }
    }

    /// The number of bytes.
    pub(crate) fn len(&self) -> usize
        ensures { result ≡ length self.now }
    {
        self.text.len()
    }

    /// Whether nothing is left.
    pub(crate) fn is_empty(&self) -> bool
        ensures { IsTrue result → self.now ≡ [] }
    {
        self.text.is_empty()
    }

    /// Takes these bytes, and nothing where others come next.
    #[inline(always)]
    pub(crate) fn take(&mut self, own: &str) -> Option<()>
        ensures { MatchOption result (self.new ≡ self.old) (λ _. self.old ≡ own.now ++ self.new) }
    {
        let (front, back) = self.text.split_at_checked(own.len())?;
        if !is_same(front.as_bytes(), own.as_bytes()) {
            return None;
        }
        self.text = back;
        Some(())
    }

    // Takes this many bytes.
    fn take_front(&mut self, count: usize) -> Option<&'a str>
        ensures count { IfSome result (λ front. front.now ≡ take count self.old) }
        ensures text { IfSome result (λ front. self.old ≡ front.now ++ self.new) }
    {
        let (front, back) = self.text.split_at_checked(count)?;
        self.text = back;
        Some(front)
    }

    /// Takes a string with its quotation marks. It is copied where some of its bytes are escaped.
    pub(crate) fn take_text(&mut self, alloc: Global) -> Option<CowStr<'a, Global>>
        ensures { IfSome result (λ text. self.old ≡ quoted (cow_str_bytes text) ++ self.new) }
    {
        let text = self.text;
        if let Some(plain) = self.take_string() {
            return Some(CowStr::Borrowed(plain));
        }
        let (own, back) = text.split_at_checked(string_length(text.as_bytes()))?;
        self.text = back;
        let string = string_written(alloc, own)?;
        Some(CowStr::Owned(string))
    }

    /// Takes a string of which no byte is escaped, with its quotation marks.
    pub(crate) fn take_string(&mut self) -> Option<&'a str>
        ensures { IfSome result (λ text. self.old ≡ quoted text.now ++ self.new) }
    {
        self.take("\"")?;
        let text = self.take_front(plain_length(self.text.as_bytes()))?;
        self.take("\"")?;
        Some(text)
    }

    /// Takes a string that is a digest, with its quotation marks.
    pub(crate) fn take_digest(&mut self) -> Option<Digest>
        ensures { IfSome result (λ digest. self.old ≡ quoted (encode_lower digest) ++ self.new) }
    {
        self.take("\"")?;
        let digits = self.take_front(DIGEST_DIGITS)?;
        self.take("\"")?;
        match Digest::parse(digits) {
            Ok(digest) => Some(digest),
            Err(_) => None,
        }
    }

    /// Takes a whole number from 0 to a limit.
    pub(crate) fn take_natural(&mut self, limit: u64) -> Option<u64>
        ensures text { IfSome result (λ number. self.old ≡ decimal number ++ self.new) }
        ensures bound { IfSome result (λ number. number ≤ limit) }
    {
        let read = leading_number(self.text.as_bytes())?;
        let (number, count) = read;
        let (_, back) = self.text.split_at_checked(count)?;
        self.text = back;
        if number <= limit { Some(number) } else { None }
    }

    /// Takes a whole number of an `i64` but the least.
    pub(crate) fn take_integer(&mut self) -> Option<i64>
        ensures { IfSome result (λ number. self.old ≡ signed_decimal number ++ self.new) }
    {
        let is_negative = self.take("-").is_some();
        let size = self.take_natural(i64::MAX as u64)?;
        if !is_negative {
            return Some(size as i64);
        }
        if size == 0 {
            None
        } else {
            Some(-(size as i64))
        }
    }
}

// Whether the bytes are the same. No byte is a way out, so that at a literal text it becomes a
// comparison of words.
#[inline(always)]
fn is_same(own: &[u8], other: &[u8]) -> bool
    ensures { IsTrue result → own.now ≡ other.now }
{
    if own.len() != other.len() {
        return false;
    }
    let mut same = true;
    let mut i = other.len();
    while i > 0 {
        i -= 1;
        same = (own[i] == other[i]) & same;
    }
    same
}

// How long the string is that begins here, up to the first quotation mark after its own that no
// backslash escapes.
fn string_length(bytes: &[u8]) -> usize
    ensures { result ≤ length bytes.now }
{
    let mut is_escaped = true;
    for (place, byte) in bytes.iter().enumerate() {
        if is_escaped {
            is_escaped = false;
        } else if *byte == b'"' {
            return place + 1;
        } else {
            is_escaped = *byte == b'\\';
        }
    }
    bytes.len()
}

// The text of the string that is written by these bytes.
fn string_written(alloc: Global, own: &str) -> Option<String>
    ensures { IfSome result (λ text. own.now ≡ quoted (string_bytes text)) }
{
    let Ok(value) = Value::from_str(alloc, own) else {
        return None;
    };
    let text = value.as_str()?;
    let Ok(written) = value.to_vec(alloc) else {
        return None;
    };
    if written.as_slice() != own.as_bytes() {
        return None;
    }
    match String::from_str(alloc, text) {
        Ok(text) => Some(text),
        Err(_) => None,
    }
}

// The number that the digits at the front write, and how many they are; of those after a zero at
// the very front none counts.
fn leading_number(bytes: &[u8]) -> Option<(u64, usize)>
    ensures { IfSome result (λ read. decimal read.0 ≡ take read.1 bytes.now) }
{
    if bytes.is_empty() {
        return None;
    }
    if bytes[0] == b'0' {
        return Some((0, 1));
    }
    // If that many bytes are left, no digit waits for the text's end.
    let (number, count) = if bytes.len() >= DIGIT_LIMIT {
        digits_within(bytes, DIGIT_LIMIT)
    } else {
        digits_within(bytes, bytes.len())
    };
    if count == 0 {
        return None;
    }
    Some((number, count))
}

// The number of the digits at the front, at most this many, and how many they are.
#[inline(always)]
fn digits_within(bytes: &[u8], limit: usize) -> (u64, usize)
    requires inside { limit ≤ length bytes.now }
    requires short { limit ≤ 19 }
    ensures digits { AllDigits 10 (take result.1 bytes.now) }
    ensures number { result.0 ≡ digits_value 10 (take result.1 bytes.now) }
    ensures count { result.1 ≤ limit }
{
    let mut number = 0;
    let mut count = 0;
    while count < limit && bytes[count].is_ascii_digit() {
        number = number * 10 + u64::from(bytes[count] - b'0');
        count += 1;
    }
    (number, count)
}
