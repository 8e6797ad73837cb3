//! Files read whole, several at a time. It must not know what they hold.
ghost use Rattle.std.specs.Prelude.{◌≡◌, ◌<◌, ◌≤◌, ◌*◌, max, IfOk, IfErr, IfSome, string_bytes, vec_len, length, map, All, Contains};
ghost use Rattle.std.specs.Thread.{IsSync};
ghost use Rattle.ovl_files.specs.Faults.{IsUnread};

use crate::faults::FileFault;
use crate::reads::{INPUT_LIMIT, ReadFault, read_all, read_expected};
use crate::shared_files::SharedFiles;
use std::alloc::Global;
use std::fs::{self, OpenFile};
use std::rt::Files;
use std::thread::{Threads, map_chunks};

/// The bytes of a file, all that it has, at most [`INPUT_LIMIT`]. Links are followed. A folder
/// can't be read. Room is made for the length that is expected, and where none is, for the one that
/// the open file states; there may be fewer bytes or more. No clause ties a file to its path: of
/// the bytes one says that they are all that some file had left.
pub fn read_file<R: Files + AllocGlobal>(
    rt: &R,
    path: &str,
    expected: Option<u64>,
) -> Result<Vec<u8>, FileFault>
    ensures within { IfOk result (λ bytes. vec_len bytes ≤ INPUT_LIMIT) }
    ensures fault { IfErr result (λ fault. IsUnread (λ told. told ≡ path.now) fault) }
    ensures of_some_file { IfOk result
        (λ bytes. (file : R.File) × IfSome (R.File.remaining file) (λ left. bytes.items ≡ left)) }
{
    match read_bytes(rt, path, expected) {
        Ok(bytes) => Ok(bytes),
        Err(fault) => Err(FileFault::unread(rt.alloc(), path, fault)),
    }
}

// The bytes of a file, as `read_file` gives them, with a fault that doesn't name the file.
fn read_bytes<R: Files + AllocGlobal>(
    rt: &R,
    path: &str,
    expected: Option<u64>,
) -> Result<Vec<u8>, ReadFault>
    ensures within { IfOk result (λ bytes. vec_len bytes ≤ INPUT_LIMIT) }
    ensures of_some_file { IfOk result
        (λ bytes. (file : R.File) × IfSome (R.File.remaining file) (λ left. bytes.items ≡ left)) }
{
    let mut file = fs::open(rt, path)?;
    // A length that isn't stated, or is wrong, as 0 is of a pipe and in /proc, changes only how room
    // is made.
    if let Some(length) = expected {
        return read_expected(rt.alloc(), &mut file, INPUT_LIMIT, length);
    }
    match file.metadata().map_or(0, |metadata| metadata.len()) {
        0 => read_all(rt.alloc(), &mut file, INPUT_LIMIT),
        length => read_expected(rt.alloc(), &mut file, INPUT_LIMIT, length),
    }
}

/// How many of this many files each thread reads, if at most this many threads read them.
pub fn share_of(files: usize, threads: usize) -> usize
    ensures some { 0 < result }
    ensures all { files ≤ result * max 1 threads }
{
    files.div_ceil(threads.max(1)).max(1)
}

/// The bytes of each of these files, in their order, read by at most as many threads as there are
/// workers. If one is no regular file they are read one after another, since what a pipe gives
/// goes to whoever reads it first. The first that can't be read is reported.
pub fn read_files<R: Files + SharedFiles + AllocGlobal + Threads + Sync>(
    rt: &R,
    paths: &[String],
    workers: usize,
) -> Result<Vec<Vec<u8>>, FileFault>
    ensures each { IfOk result (λ files. vec_len files ≡ length paths.now) }
    ensures within { IfOk result (λ files. All (λ bytes. vec_len bytes ≤ INPUT_LIMIT) files.items) }
    ensures fault { IfErr result (λ fault. IsUnread (Contains (map string_bytes paths.now)) fault) }
{
    let threads = if are_regular(rt, paths) { workers } else { 1 };
    read_by(rt, rt.alloc(), paths, threads)
}

// Whether each of these paths leads to a regular file.
fn are_regular<R: Files>(rt: &R, paths: &[String]) -> bool {
    paths.iter().all(|path| {
        fs::metadata(rt, path.as_str()).is_ok_and(|metadata| metadata.is_file())
    })
}

// The bytes of each of these files, read by at most this many threads, each a share of them.
fn read_by<R: SharedFiles + Threads + Sync>(
    rt: &R,
    alloc: Global,
    paths: &[String],
    threads: usize,
) -> Result<Vec<Vec<u8>>, FileFault>
    ensures each { IfOk result (λ files. vec_len files ≡ length paths.now) }
    ensures within { IfOk result (λ files. All (λ bytes. vec_len bytes ≤ INPUT_LIMIT) files.items) }
    ensures fault { IfErr result (λ fault. IsUnread (Contains (map string_bytes paths.now)) fault) }
{
    let size = share_of(paths.len(), threads);
    let read = |_first: usize, share: &[String]| -> Result<Vec<Vec<u8>>, FileFault>
        requires { IsSync R.row }
        ensures each { IfOk result (λ files. vec_len files ≡ length share.entry.now) }
        ensures within { IfOk result
            (λ files. All (λ bytes. vec_len bytes ≤ INPUT_LIMIT) files.items) }
        ensures fault { IfErr result
            (λ fault. IsUnread (Contains (map string_bytes share.entry.now)) fault) }
    { read_share(rt, alloc, share) };
    let mut files = Vec::new(alloc);
    for read in map_chunks(rt, alloc, paths, size, &read)? {
        files.append(&mut read?)?;
    }
    Ok(files)
}

// The bytes of each of these files, read by this thread. Nothing is read after the first file that
// can't be read.
fn read_share<R: SharedFiles>(
    rt: &R,
    alloc: Global,
    paths: &[String],
) -> Result<Vec<Vec<u8>>, FileFault>
    ensures each { IfOk result (λ files. vec_len files ≡ length paths.now) }
    ensures within { IfOk result (λ files. All (λ bytes. vec_len bytes ≤ INPUT_LIMIT) files.items) }
    ensures fault { IfErr result (λ fault. IsUnread (Contains (map string_bytes paths.now)) fault) }
{
    let mut files = Vec::new(alloc);
    for path in paths {
        files.push(rt.read_shared(path.as_str(), None)?)?;
    }
    Ok(files)
}
