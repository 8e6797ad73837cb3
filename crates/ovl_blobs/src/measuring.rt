//! A blob read to its end in parts: its length, and whether it is intact.
ghost use Rattle.std.specs.Prelude.{◌≡◌, ◌<◌, ◌+◌, ◌-◌, ◌^◌, ◌++◌, [], List, ℕ, Err, IfOk, IfSome, OnOk, length};
ghost use Rattle.std.specs.Io.KnownBytes.{Consumes, IsAtEnd};
ghost use Rattle.ovl_blobs.specs.declared.measuring.PartFault.TheVariants.{TooLong};
ghost use Rattle.ovl_blobs.specs.Measuring.{IsMeasured, HasRead, IsContentOf};

use crate::contents::BlobInfo;
use ovl_inode::Digest;
use sha2::Sha256;
use std::io::Read;
use thiserror::Error;

/// How many bytes a room has that serves [`measure`].
pub const PART: usize = 65536;

/// Why the content of a reader isn't given.
#[derive(Clone, Copy, Debug, PartialEq, Eq, Error)]
pub enum PartFault {
    /// A read answered an error.
    #[error("a read failed")]
    Device,
    /// More bytes came than a length can count.
    #[error("too many bytes")]
    TooLong,
}

// What is known of bytes that aren't held: how many they are, and their SHA-256 digest.
#[derive(Clone, Copy, Debug)]
struct Measured {
    length: u64,
    digest: [u8; 32],
}

/// The content of the blob of a name whose bytes are all that a reader gives up to its end, read in
/// parts that fill this room at most; rooms of [`PART`] bytes serve. No read is tried again, and
/// the first fault that is met is given. If more than 2^64 - 1 bytes come, that is a fault.
/// Takes no memory. FIPS 180-4.
pub fn measure<R: Read>(
    name: Digest,
    reader: &mut R,
    room: &mut [u8],
) -> Result<BlobInfo, PartFault>
    requires { 0 < length room.old }
    ensures room { length room.new ≡ length room.old }
    ensures taken { IfOk result (λ content. (bytes : List ℕ)
        × (Consumes (R.remaining reader.old) (R.remaining reader.new) bytes
        × IsContentOf name bytes content)) }
    ensures whole { IfOk result
        (λ content. IfSome (R.remaining reader.old) (λ left. IsContentOf name left content)) }
    ensures end { OnOk result (IsAtEnd (R.remaining reader.new)) }
    ensures lost { (bytes : List ℕ)
        × Consumes (R.remaining reader.old) (R.remaining reader.new) bytes }
    ensures too_long { result ≡ Err TooLong
        → IfSome (R.remaining reader.old) (λ left. 2 ^ 64 - 1 < length left) }
{
    let told = digest_in(reader, room)?;
    Ok(BlobInfo {
        name,
        size: told.length,
        is_right: told.digest.as_slice() == name.as_bytes().as_slice(),
    })
}

// The length and the digest of all that a reader gives up to its end.
fn digest_in<R: Read>(reader: &mut R, room: &mut [u8]) -> Result<Measured, PartFault>
    requires { 0 < length room.old }
    ensures room { length room.new ≡ length room.old }
    ensures taken { IfOk result (λ told. (bytes : List ℕ)
        × (Consumes (R.remaining reader.old) (R.remaining reader.new) bytes
        × IsMeasured bytes told)) }
    ensures whole { IfOk result
        (λ told. IfSome (R.remaining reader.old) (λ left. IsMeasured left told)) }
    ensures end { OnOk result (IsAtEnd (R.remaining reader.new)) }
    ensures lost { (bytes : List ℕ)
        × Consumes (R.remaining reader.old) (R.remaining reader.new) bytes }
    ensures too_long { result ≡ Err TooLong
        → IfSome (R.remaining reader.old) (λ left. 2 ^ 64 - 1 < length left) }
{
    let mut reading = Reading::new();
    // Each read but the last gives a byte at least.
    loop {
        if reading.read_part(reader, room)? == 0 {
            return Ok(reading.told());
        }
    }
}

// What was read so far: how many bytes, and a hasher that holds them.
#[derive(Drop)]
struct Reading {
    length: u64,
    hasher: Sha256,
}

impl Reading {
    fn new() -> Reading
        ensures { HasRead [] result }
    {
        Reading {
            length: 0,
            hasher: <Sha256 as sha2::Digest>::new(),
        }
    }

    // One read; how many bytes it gave, none only at the end.
    fn read_part<R: Read>(&mut self, reader: &mut R, room: &mut [u8]) -> Result<usize, PartFault>
        requires { 0 < length room.old }
        ensures room { length room.new ≡ length room.old }
        ensures grown { IfOk result (λ count. self.new.length ≡ self.old.length + count) }
        ensures within { OnOk result (self.new.length < 2 ^ 64) }
        ensures taken { OnOk result
            ((more : List ℕ) × (Consumes (R.remaining reader.old) (R.remaining reader.new) more
            × ((bytes : List ℕ) → HasRead bytes self.old → HasRead (bytes ++ more) self.new))) }
        ensures end { IfOk result (λ count. count ≡ 0 → IsAtEnd (R.remaining reader.new)) }
        ensures lost { (bytes : List ℕ)
            × Consumes (R.remaining reader.old) (R.remaining reader.new) bytes }
        ensures too_long { result ≡ Err TooLong
            → IfSome (R.remaining reader.old) (λ left. 2 ^ 64 - 1 < self.old.length + length left) }
    {
        // Made by hand (2): a read answered an error; more bytes than a length can count.
        let Ok(count) = reader.read(room) else {
            return Err(PartFault::Device);
        };
        let Some(length) = self.length.checked_add(count as u64) else {
            return Err(PartFault::TooLong);
        };
        self.length = length;
        sha2::Digest::update(&mut self.hasher, &room[..count]);
        Ok(count)
    }

    fn told(self) -> Measured
        ensures { (bytes : List ℕ) → HasRead bytes self → IsMeasured bytes result }
    {
        Measured {
            length: self.length,
            digest: sha2::Digest::finalize(self.hasher),
        }
    }
}
