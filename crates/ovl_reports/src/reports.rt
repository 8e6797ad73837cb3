//! Parts of lines that several reports have.
ghost use Rattle.std.specs.Prelude.{◌≡◌, ◌+◌, ◌%◌, ◌++◌, IfOk, OnOk, OnErr, codes, decimal, replicate, string_bytes};
ghost use Rattle.std.specs.List.{flat_map};
ghost use Rattle.hex.specs.Hex.{encode_lower};
ghost use Rattle.ovl_names.specs.Escapes.{shown_path, escaped};
ghost use Rattle.ovl_inode.specs.Kinds.{kind_word};
ghost use Rattle.ovl_reports.specs.Reports.{octal, size_word, blob_word, device_word, what_word, attribute_word, time_word, spaced};
ghost use Rattle.ovl_reports.specs.Reports as reports;

use ovl_inode::{Attrs, Digest, Inode, Kind};
use ovl_names::{Path, push_escaped};
use std::alloc::{AllocError, Global};

/// Appends the last line, by the number of paths.
pub(crate) fn push_count(report: &mut String, entries: u64) -> Result<(), AllocError>
    ensures { OnOk result
        (string_bytes report.new
        ≡ string_bytes report.old ++ codes "entries " ++ decimal entries ++ codes "\n") }
{
    report.push_str("entries ")?;
    push_number(report, entries)?;
    report.push_str("\n")
}

/// The kind, the mode, the owner, the group and the time, with a space after each.
pub(crate) fn push_status(report: &mut String, inode: &Inode) -> Result<(), AllocError>
    ensures { OnOk result (string_bytes report.new ≡ string_bytes report.old
        ++ (spaced (kind_word inode.now.kind) ++ spaced (octal inode.now.mode)
        ++ spaced (decimal inode.now.uid) ++ spaced (decimal inode.now.gid)
        ++ spaced (time_word inode.now.mtime inode.now.nsec))) }
{
    push_word(report, inode.kind.word())?;
    push_mode(report, inode.mode)?;
    push_number_word(report, u64::from(inode.uid))?;
    push_number_word(report, u64::from(inode.gid))?;
    push_time(report, inode.mtime, inode.nsec)
}

/// Appends a word, and a space after it; fails, with nothing changed, only when out of memory.
pub fn push_word(report: &mut String, word: &str) -> Result<(), AllocError>
    ensures appended { OnOk result
        (string_bytes report.new ≡ string_bytes report.old ++ spaced word.now) }
    ensures same { OnErr result (string_bytes report.new ≡ string_bytes report.old) }
{
    report.reserve(word.len() + 1)?;
    report.push_str(word)?;
    report.push_str(" ")
}

// The seconds of a time, its nanoseconds where it has any, and a space after them.
fn push_time(report: &mut String, seconds: i64, nsec: u32) -> Result<(), AllocError>
    ensures { OnOk result
        (string_bytes report.new ≡ string_bytes report.old ++ spaced (time_word seconds nsec)) }
{
    report.push_str(itoa::Buffer::new().format(seconds))?;
    if nsec != 0 {
        report.push_str("+")?;
        push_nine_digits(report, nsec)?;
    }
    report.push_str(" ")
}

// Nine digits of a number, the first ones zeros where it has fewer.
fn push_nine_digits(report: &mut String, number: u32) -> Result<(), AllocError>
    ensures { OnOk result
        (string_bytes report.new ≡ string_bytes report.old ++ reports.nine_digits number) }
{
    let mut buffer = itoa::Buffer::new();
    let digits = buffer.format(number);
    push_zeros(report, 9_usize.saturating_sub(digits.len()))?;
    report.push_str(digits)
}

fn push_zeros(report: &mut String, count: usize) -> Result<(), AllocError>
    ensures { OnOk result
        (string_bytes report.new ≡ string_bytes report.old ++ replicate count 48) }
{
    for _ in 0..count {
        report.push_str("0")?;
    }
    Ok(())
}

// The mode, and a space after it.
fn push_mode(report: &mut String, mode: u16) -> Result<(), AllocError>
    ensures { OnOk result
        (string_bytes report.new ≡ string_bytes report.old ++ spaced (octal mode)) }
{
    report.push(octal_digit(mode / 512))?;
    report.push(octal_digit(mode / 64))?;
    report.push(octal_digit(mode / 8))?;
    report.push(octal_digit(mode))?;
    report.push_str(" ")
}

fn octal_digit(number: u16) -> char
    ensures { result ≡ reports.octal_digit number }
{
    (b'0' + (number % 8) as u8) as char
}

/// Appends a number in decimal digits; fails, with nothing changed, only when out of memory.
pub fn push_number(report: &mut String, number: u64) -> Result<(), AllocError>
    ensures appended { OnOk result
        (string_bytes report.new ≡ string_bytes report.old ++ decimal number) }
    ensures same { OnErr result (string_bytes report.new ≡ string_bytes report.old) }
{
    report.push_str(itoa::Buffer::new().format(number))
}

/// Appends a number, and a space after it; fails, with nothing changed, only when out of memory.
#[tactic(auto, using(std::proofs::lemmas::Fmt::decimal_digit, std::proofs::lemmas::Grind::common_steps))]
pub fn push_number_word(report: &mut String, number: u64) -> Result<(), AllocError>
    ensures appended { OnOk result
        (string_bytes report.new ≡ string_bytes report.old ++ spaced (decimal number)) }
    ensures same { OnErr result (string_bytes report.new ≡ string_bytes report.old) }
{
    // Many owners have one digit, as root: it needs no buffer.
    if number < 10 {
        report.reserve(2)?;
        report.push((b'0' + number as u8) as char)?;
        return report.push_str(" ");
    }
    push_word(report, itoa::Buffer::new().format(number))
}

/// The size and what else the kind has, with a space after each.
pub(crate) fn push_contents(
    alloc: Global,
    report: &mut String,
    kind: &Kind,
    broken: bool,
) -> Result<(), AllocError>
    ensures { OnOk result (string_bytes report.new ≡ string_bytes report.old
        ++ (spaced (size_word kind.now) ++ spaced (what_word broken kind.now))) }
{
    push_size(report, kind)?;
    push_what(alloc, report, kind, broken)?;
    report.push_str(" ")
}

// The size, and a space after it.
fn push_size(report: &mut String, kind: &Kind) -> Result<(), AllocError>
    ensures { OnOk result
        (string_bytes report.new ≡ string_bytes report.old ++ spaced (size_word kind.now)) }
{
    match kind {
        Kind::File { size, .. } => push_number_word(report, *size),
        _ => push_word(report, "-"),
    }
}

fn push_what(
    alloc: Global,
    report: &mut String,
    kind: &Kind,
    broken: bool,
) -> Result<(), AllocError>
    ensures { OnOk result
        (string_bytes report.new ≡ string_bytes report.old ++ what_word broken kind.now) }
{
    match kind {
        Kind::File { blob, .. } => push_blob(report, *blob, broken),
        Kind::Symlink { target } => push_escaped(alloc, report, target.as_str()),
        Kind::Char { major, minor } | Kind::Block { major, minor } => {
            push_device(report, *major, *minor)
        }
        Kind::Dir | Kind::Fifo | Kind::Socket => report.push_str("-"),
    }
}

fn push_blob(report: &mut String, blob: Option<Digest>, broken: bool) -> Result<(), AllocError>
    ensures { OnOk result
        (string_bytes report.new ≡ string_bytes report.old ++ blob_word broken blob) }
{
    match blob {
        _ if broken => report.push_str("missing"),
        Some(digest) => report.push_str(digest.digits().as_str()),
        None => report.push_str("-"),
    }
}

fn push_device(report: &mut String, major: u32, minor: u32) -> Result<(), AllocError>
    ensures { OnOk result
        (string_bytes report.new ≡ string_bytes report.old ++ device_word major minor) }
{
    push_number(report, u64::from(major))?;
    report.push_str(":")?;
    push_number(report, u64::from(minor))
}

/// Appends a path, escaped as reports have it.
pub(crate) fn push_path(alloc: Global, report: &mut String, path: &Path) -> Result<(), AllocError>
    ensures { OnOk result
        (string_bytes report.new ≡ string_bytes report.old ++ shown_path path.now) }
{
    if path.is_empty() {
        return report.push_str("/");
    }
    for name in path.names() {
        push_name(alloc, report, name)?;
    }
    Ok(())
}

/// Appends a name of a path, and `/` before it; fails, with nothing changed, only when out of
/// memory.
pub fn push_name(alloc: Global, report: &mut String, name: &str) -> Result<(), AllocError>
    ensures appended { OnOk result
        (string_bytes report.new
        ≡ string_bytes report.old ++ (codes "/" ++ escaped name.now)) }
    ensures same { OnErr result (string_bytes report.new ≡ string_bytes report.old) }
{
    report.push_str("/")?;
    let pushed = push_escaped(alloc, report, name);
    if pushed.is_err() {
        report.pop();
    }
    pushed
}

/// Appends the visible attributes, one after another, or `-` where there is none.
pub(crate) fn push_attributes(
    alloc: Global,
    report: &mut String,
    attrs: &Attrs,
) -> Result<(), AllocError>
    ensures { OnOk result
        (string_bytes report.new ≡ string_bytes report.old ++ flat_map attribute_word attrs.now) }
{
    for (name, value) in attrs.pairs() {
        push_attribute(alloc, report, name, value)?;
    }
    Ok(())
}

fn push_attribute(
    alloc: Global,
    report: &mut String,
    name: &str,
    value: &[u8],
) -> Result<(), AllocError>
    ensures { OnOk result
        (string_bytes report.new
        ≡ string_bytes report.old ++ attribute_word (name.now, value.now)) }
{
    report.push_str(" ")?;
    push_escaped(alloc, report, name)?;
    report.push_str("=")?;
    push_hex(alloc, report, value)
}

// Appends bytes in hexadecimal digits.
fn push_hex(alloc: Global, report: &mut String, value: &[u8]) -> Result<(), AllocError>
    ensures { OnOk result
        (string_bytes report.new ≡ string_bytes report.old ++ encode_lower value.now) }
{
    report.push_str(hex::encode(alloc, value)?.as_str())
}
