//! Bytes written out, and how many where a write fails.
ghost use Rattle.std.specs.Prelude.{◌<◌, length, take, MatchResult};
ghost use Rattle.std.specs.Io.KnownBytes.{Appends};

use std::io::{ErrorKind, Write};
use thiserror::Error;

/// Why not all bytes went out: a write failed, or took none.
#[derive(Clone, Copy, Debug, PartialEq, Eq, Error)]
#[error("only {written} bytes were written")]
pub struct EmitFault {
    /// How many bytes had gone out, from the first on; fewer than all.
    pub written: usize,
}

/// Writes the bytes, all of them at Ok and those that the fault counts otherwise. A write that was
/// interrupted is tried again. Nothing is flushed, and no memory is taken.
pub fn emit<W: Write>(writer: &mut W, bytes: &[u8]) -> Result<(), EmitFault>
    ensures { MatchResult result
        (λ _. Appends (W.contents writer.old) (W.contents writer.new) bytes.now)
        (λ fault. (fault.written < length bytes.now)
        × Appends (W.contents writer.old) (W.contents writer.new) (take fault.written bytes.now)) }
{
    let mut written = 0;
    for _ in 0..u64::MAX {
        if written == bytes.len() {
            break;
        }
        match writer.write(&bytes[written..]) {
            Ok(0) => break,
            Ok(count) => written += count,
            Err(error) => {
                if error.kind() != ErrorKind::Interrupted {
                    break;
                }
            }
        }
    }
    if written == bytes.len() {
        Ok(())
    } else {
        Err(EmitFault { written })
    }
}
