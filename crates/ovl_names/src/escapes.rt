//! Texts as reports write them.
ghost use Rattle.std.specs.Prelude.{◌≡◌, IfOk, OnOk, OnErr, string_bytes, ◌++◌};
ghost use Rattle.ovl_names.specs.Escapes.{escaped as escaped_text, escaped_byte, is_plain as the_plain};

use std::alloc::{AllocError, Global};

/// A text as reports write it: each byte outside 0x21 to 0x7E, and each backslash, as `\xHH` in
/// lower case. Fails only when out of memory.
pub fn escaped(alloc: Global, text: &str) -> Result<String, AllocError>
    ensures { IfOk result (λ written. string_bytes written ≡ escaped_text text.now) }
{
    let bytes = text.as_bytes();
    let mut written = String::new(alloc);
    for byte in bytes {
        push_byte(alloc, &mut written, *byte)?;
    }
    Ok(written)
}

/// Appends a text as [`escaped`] gives it; fails, with nothing changed, only when out of memory.
pub fn push_escaped(alloc: Global, written: &mut String, text: &str) -> Result<(), AllocError>
    ensures appended { OnOk result
        (string_bytes written.new ≡ string_bytes written.old ++ escaped_text text.now) }
    ensures same { OnErr result (string_bytes written.new ≡ string_bytes written.old) }
{
    let bytes = text.as_bytes();
    if bytes.iter().all(|byte| is_plain(*byte)) {
        return written.push_str(text);
    }
    let escapes = escaped(alloc, text)?;
    written.push_str(escapes.as_str())
}

fn is_plain(byte: u8) -> bool
    ensures { result ≡ the_plain byte }
{
    0x20 < byte && byte < 0x7f && byte != b'\\'
}

fn push_byte(alloc: Global, written: &mut String, byte: u8) -> Result<(), AllocError>
    ensures { OnOk result
        (string_bytes written.new ≡ string_bytes written.old ++ escaped_byte byte) }
{
    if is_plain(byte) {
        return written.push(byte as char);
    }
    written.push_str("\\x")?;
    let digits = hex::encode(alloc, [byte].as_slice())?;
    written.push_str(digits.as_str())
}
