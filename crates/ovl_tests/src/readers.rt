//! How an input is read: to its end, or until it fails or has more than the limit. No read is tried
//! again.

use ovl_program::{INPUT_LIMIT, read_all, read_expected};
use ovl_test_rows::{parts_of, same};
use std::alloc::Global;
use std::io::{self, Cursor, Error, Read};
use std::test::Fail;

// A text, how many of its bytes a read gives, the number of the error after them (0: its end), and
// the limit; after ` -> ` what is read, by how many reads. Error 4 is that of an interrupted read,
// 12 that the system is out of memory.
const ROWS: &str = "\
abcd 1 0 4 -> Ok([97, 98, 99, 100]) by 5
abcd 9 0 4 -> Ok([97, 98, 99, 100]) by 2
abcde 1 0 4 -> Err(TooLong) by 5
abcde 3 0 4 -> Err(TooLong) by 2
abc 1 5 4 -> Err(Device) by 4
abc 3 4 4 -> Err(Device) by 2
abc 3 12 9 -> Err(Device) by 2
 9 0 0 -> Ok([]) by 1
";

// Gives these bytes, this many at a time, and then an error of this number, if it has one. Counts
// its reads.
#[derive(Drop)]
struct Slow<'a> {
    left: &'a [u8],
    at_a_time: usize,
    error: i32,
    reads: usize,
}

impl Read for Slow<'_> {
    fn read(&mut self, buf: &mut [u8]) -> io::Result<usize> {
        self.reads = self.reads.saturating_add(1);
        let count = self.left.len().min(buf.len()).min(self.at_a_time);
        if count == 0 && self.error != 0 {
            return Err(Error::from_raw_os_error(self.error));
        }
        let (now, later) = self.left.split_at(count);
        buf[..count].copy_from_slice(now);
        self.left = later;
        Ok(count)
    }
}

fn number(word: Option<&str>) -> usize {
    word.unwrap_or("").parse().unwrap_or(0)
}

fn told(alloc: Global, words: &str) -> Result<String, Fail> {
    let mut words = words.split(' ');
    let mut input = Slow {
        left: words.next().unwrap_or("").as_bytes(),
        at_a_time: number(words.next()),
        error: i32::try_from(number(words.next())).unwrap_or(0),
        reads: 0,
    };
    let read = read_all(alloc, &mut input, number(words.next()));
    Ok(format!(in alloc; "{read:?} by {}", input.reads)?)
}

fn row_told(alloc: Global, row: &str) -> Result<(), Fail> {
    let (words, wanted) = parts_of(row);
    let found = told(alloc, words)?;
    same(words, found.as_str(), wanted)
}

#[test]
fn an_input_is_read_up_to_its_limit(rt: HostRuntime) -> Result<(), Fail> {
    for row in ROWS.lines() {
        row_told(rt.alloc(), row)?;
    }
    Ok(())
}

#[test]
fn an_input_is_read_whole_whatever_is_expected(rt: HostRuntime) -> Result<(), Fail> {
    let mut input = Cursor::new(b"abc".as_slice());
    let read = read_expected(rt.alloc(), &mut input, INPUT_LIMIT, u64::MAX)?;
    let found = format!(in rt.alloc(); "{read:?}")?;
    same("abc", found.as_str(), "[97, 98, 99]")
}
