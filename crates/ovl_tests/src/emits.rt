//! Bytes that go out whole, or those that a fault counts
//! where a write fails; and blobs that are named.

use ovl_engine::{Blob, EmitFault, emit, named_blobs};
use ovl_test_rows::{parts_of, same};
use std::alloc::{AllocError, Global};
use std::io::{self, Error, Write};
use std::test::Fail;

// The blobs of `abc` and of `a`.
const NAMED: &str =
    "ba7816bf8f01cfea414140de5dae2223b00361a396177a9cb410ff61f20015ad [97, 98, 99]; \
    ca978112ca1bbdcafac231b39a23dc4da786eff8147c4e72b9807785afee48bb [97]; ";

// Takes a few bytes in all, one or two at a time, is interrupted before each, and then fails, or
// takes none.
#[derive(Drop)]
struct Narrow {
    room: usize,
    taken: Vec<u8>,
    interrupts: bool,
    fails: bool,
}

impl Write for Narrow {
    fn write(&mut self, buf: &[u8]) -> io::Result<usize> {
        self.interrupts = !self.interrupts;
        if self.interrupts {
            return Err(Error::from_raw_os_error(4));
        }
        if self.room == 0 && self.fails {
            return Err(Error::from_raw_os_error(28));
        }
        let count = buf.len().min(self.room).min(2);
        let Ok(()) = self.taken.extend_from_slice(&buf[..count]) else {
            return Err(Error::from_raw_os_error(12));
        };
        self.room -= count;
        Ok(count)
    }

    fn flush(&mut self) -> io::Result<()> {
        Ok(())
    }
}

// How much is written by a writer of this room, or where it fails, and what that took.
fn told(alloc: Global, room: usize, fails: bool) -> Result<String, AllocError> {
    let taken = Vec::new(alloc);
    let interrupts = false;
    let mut narrow = Narrow {
        room,
        taken,
        interrupts,
        fails,
    };
    match emit(&mut narrow, b"abcde".as_slice()) {
        Ok(()) => format!(in alloc; "all {:?}", narrow.taken),
        Err(EmitFault { written }) => format!(in alloc; "{written} {:?}", narrow.taken),
    }
}

// The room of a writer, and what it does where it has none: it fails, or takes nothing.
const ROOMS: &str = "\
5 fails -> all [97, 98, 99, 100, 101]
3 fails -> 3 [97, 98, 99]
3 takes nothing -> 3 [97, 98, 99]
0 takes nothing -> 0 []
";

fn row_told(alloc: Global, row: &str) -> Result<(), Fail> {
    let (given, wanted) = parts_of(row);
    let (room, end) = given.split_once(' ').unwrap_or((given, ""));
    let found = told(alloc, room.parse()?, end == "fails")?;
    same(row, found.as_str(), wanted)
}

#[test]
fn all_bytes_go_out_or_those_that_the_fault_counts(rt: HostRuntime) -> Result<(), Fail> {
    for row in ROOMS.lines() {
        row_told(rt.alloc(), row)?;
    }
    Ok(())
}

// The names of the blobs of these words, and their bytes.
fn named(alloc: Global, words: &str) -> Result<String, Fail> {
    let mut contents = Vec::new(alloc);
    for word in words.split_whitespace() {
        contents.push(String::from_str(alloc, word)?.into_bytes())?;
    }
    told_of(alloc, &named_blobs(alloc, &contents)?)
}

fn told_of(alloc: Global, blobs: &[Blob]) -> Result<String, Fail> {
    let mut text = String::new(alloc);
    for Blob { name, bytes } in blobs {
        let name = hex::encode(alloc, name.as_bytes())?;
        text.push_str(format!(in alloc; "{name} {bytes:?}; ")?.as_str())?;
    }
    Ok(text)
}

#[test]
fn blobs_are_named_by_their_digests_and_each_once(rt: HostRuntime) -> Result<(), Fail> {
    let found = named(rt.alloc(), "abc a abc")?;
    same("abc a abc", found.as_str(), NAMED)
}
