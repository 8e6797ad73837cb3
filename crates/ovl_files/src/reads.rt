//! A reader read up to a limit. It must not know files.
ghost use Rattle.std.specs.Prelude.{◌≡◌, ◌≢◌, ◌↔◌, ◌<◌, ◌≤◌, ◌+◌, ◌++◌, ℕ, List, [], None, IfOk, IfSome, OnOk, length, vec_len};
ghost use Rattle.std.specs.Io.KnownBytes.{Consumes, IsAtEnd};
ghost use Rattle.std.specs.IoError.{error_kind, raw_os_error};
ghost use Rattle.std.specs.declared.io.ErrorKind.TheVariants.{OutOfMemory};
ghost use Rattle.ovl_files.specs.declared.reads.ReadFault.TheVariants.{TooLong, Memory};

use ovl_blobs::{BLOB_LIMIT, PartFault};
use std::alloc::{AllocError, AllocFailed, Global};
use std::io::{self, ErrorKind, Read};
use thiserror::Error;

/// The most bytes that are held of one input, be it a manifest or a blob. A command takes no blob
/// of more, since all its blobs together have at most this many; blobs that are read in parts
/// aren't held.
pub const INPUT_LIMIT: usize = BLOB_LIMIT;

// How many bytes one read may give, and where so few are expected that a small room does. Each room
// is cleared first.
const ROOM: usize = 16384;

const SMALL_ROOM: usize = 1024;

/// Why not all of an input, a file or a folder is had.
#[derive(Clone, Copy, Debug, PartialEq, Eq, Error)]
pub enum ReadFault {
    /// It can't be opened, or a read answered an error.
    #[error("a read failed")]
    Device,
    /// More bytes than the limit came, or than a length can count.
    #[error("too many bytes")]
    TooLong,
    /// Out of memory.
    #[error("out of memory")]
    Memory,
}

/// All that a reader gives up to its end, where that is no more than `limit` bytes. No read is
/// tried again, not even one that was interrupted, so there are at most `limit + 1` of them. The
/// first fault that is met is given.
pub fn read_all<R: Read>(alloc: Global, reader: &mut R, limit: usize) -> Result<Vec<u8>, ReadFault>
    ensures within { IfOk result (λ bytes. vec_len bytes ≤ limit) }
    ensures whole { IfOk result
        (λ bytes. Consumes (R.remaining reader.old) (R.remaining reader.new) bytes.items) }
    ensures end { OnOk result (IsAtEnd (R.remaining reader.new)) }
    ensures too_long { result ≡ Err TooLong
        → IfSome (R.remaining reader.old) (λ left. limit < length left) }
{
    read_through(reader, &mut [0; ROOM], Vec::new(alloc), limit)
}

/// All that a reader gives up to its end, as by [`read_all`]. Room is made at once for the bytes
/// that are expected, so that they aren't copied as more come; there may be fewer or more.
pub fn read_expected<R: Read>(
    alloc: Global,
    reader: &mut R,
    limit: usize,
    expected: u64,
) -> Result<Vec<u8>, ReadFault>
    ensures within { IfOk result (λ bytes. vec_len bytes ≤ limit) }
    ensures whole { IfOk result
        (λ bytes. Consumes (R.remaining reader.old) (R.remaining reader.new) bytes.items) }
    ensures end { OnOk result (IsAtEnd (R.remaining reader.new)) }
    ensures too_long { result ≡ Err TooLong
        → IfSome (R.remaining reader.old) (λ left. limit < length left) }
{
    let bytes = room_for(alloc, expected.min(limit as u64) as usize);
    if expected <= SMALL_ROOM as u64 {
        return read_through(reader, &mut [0; SMALL_ROOM], bytes, limit);
    }
    read_through(reader, &mut [0; ROOM], bytes, limit)
}

// All that a reader gives up to its end, through this room, into a vector without bytes.
fn read_through<R: Read>(
    reader: &mut R,
    room: &mut [u8],
    bytes: Vec<u8>,
    limit: usize,
) -> Result<Vec<u8>, ReadFault>
    requires room { 0 < length room.old }
    requires none { bytes.items ≡ [] }
    ensures within { IfOk result (λ bytes. vec_len bytes ≤ limit) }
    ensures whole { IfOk result
        (λ bytes. Consumes (R.remaining reader.old) (R.remaining reader.new) bytes.items) }
    ensures end { OnOk result (IsAtEnd (R.remaining reader.new)) }
    ensures too_long { result ≡ Err TooLong
        → IfSome (R.remaining reader.old) (λ left. limit < length left) }
{
    let mut bytes = bytes;
    // Each read but the last gives a byte at least.
    loop {
        if read_more(reader, room, &mut bytes, limit)? == 0 {
            return Ok(bytes);
        }
    }
}

// One read, whose bytes go after the others; how many they are, none only at the end.
fn read_more<R: Read>(
    reader: &mut R,
    room: &mut [u8],
    bytes: &mut Vec<u8>,
    limit: usize,
) -> Result<usize, ReadFault>
    requires room { 0 < length room.old }
    requires within { vec_len bytes.old ≤ limit }
    ensures room { length room.new ≡ length room.old }
    ensures within { OnOk result (vec_len bytes.new ≤ limit) }
    ensures grown { IfOk result (λ count. vec_len bytes.new ≡ vec_len bytes.old + count) }
    ensures taken { OnOk result ((more : List ℕ) × ((bytes.new.items ≡ bytes.old.items ++ more)
        × Consumes (R.remaining reader.old) (R.remaining reader.new) more)) }
    ensures end { IfOk result (λ count. count ≡ 0 → IsAtEnd (R.remaining reader.new)) }
    ensures too_long { result ≡ Err TooLong
        → IfSome (R.remaining reader.old) (λ left. limit < vec_len bytes.old + length left) }
{
    // Made by hand (2): a read answered an error; more bytes came than the limit.
    let Ok(count) = reader.read(room) else {
        return Err(ReadFault::Device);
    };
    if count > limit - bytes.len() {
        return Err(ReadFault::TooLong);
    }
    bytes.extend_from_slice(&room[..count])?;
    Ok(count)
}

// No bytes yet, with room for this many. When out of memory for it, room comes as they do.
fn room_for(alloc: Global, expected: usize) -> Vec<u8>
    ensures { result.items ≡ [] }
{
    match Vec::with_capacity(alloc, expected) {
        Ok(room) => room,
        Err(_) => Vec::new(alloc),
    }
}

impl From<io::Error> for ReadFault {
    ghost from_gives = { λ error fault. (fault ≢ TooLong)
        × ((fault ≡ Memory) ↔ ((raw_os_error error ≡ None) × (error_kind error ≡ OutOfMemory))) };

    // If the system itself is out of memory, that is the device's fault.
    fn from(error: io::Error) -> ReadFault {
        if error.raw_os_error().is_none() && error.kind() == ErrorKind::OutOfMemory {
            ReadFault::Memory
        } else {
            ReadFault::Device
        }
    }
}

impl From<PartFault> for ReadFault {
    ghost from_gives = { λ _ fault. fault ≢ Memory };

    fn from(fault: PartFault) -> ReadFault {
        match fault {
            PartFault::Device => ReadFault::Device,
            PartFault::TooLong => ReadFault::TooLong,
        }
    }
}

impl From<AllocError> for ReadFault {
    ghost from_gives = { λ _ fault. fault ≡ Memory };

    fn from(_: AllocError) -> ReadFault {
        ReadFault::Memory
    }
}

impl<T: Drop> From<AllocFailed<T>> for ReadFault {
    ghost from_gives = { λ _ fault. fault ≡ Memory };

    fn from(_: AllocFailed<T>) -> ReadFault {
        ReadFault::Memory
    }
}
