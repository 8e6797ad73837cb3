//! The blobs of a folder. It must not know layers.
ghost use Rattle.std.specs.Prelude.{◌≡◌, ◌≢◌, ◌≤◌, ◌+◌, ◌-◌, ◌^◌, ℕ, true, List, Ok, None, IfOk, IfErr, IfSome, string_bytes, vec_len, map, min, sum_by, All};
ghost use Rattle.std.specs.BTreeMap.{IsOrdered, get, keys};
ghost use Rattle.std.specs.Fs.{dir_entry_name};
ghost use Rattle.std.specs.Thread.{IsSync};
ghost use Rattle.ovl_inode.specs.Hexadecimal.{digest_of_text};
ghost use Rattle.ovl_blobs.specs.Blobs.{blob_views, digest_cmp, are_in_order, blob_limit, blob_bytes};
ghost use Rattle.ovl_files.specs.declared.reads.ReadFault.TheVariants.{TooLong};
ghost use Rattle.ovl_files.specs.Faults.{IsUnread};
ghost use Rattle.ovl_files.specs.BlobFolders.{IsInFolder, IsNamedBy, IsSpelt};
ghost use Rattle.ovl_files.specs.Listings.{length_of};
ghost use Rattle.ovl_files.specs.BlobFolders as blob_folders;

use crate::faults::FileFault;
use crate::held_blobs::HeldBlobs;
use crate::reads::{INPUT_LIMIT, ReadFault};
use crate::regular_files::regular_length;
use crate::shared_files::SharedFiles;
use crate::whole_files::share_of;
use ovl_blobs::{BLOB_LIMIT, Blob};
use ovl_inode::Digest;
use std::alloc::{AllocError, Global};
use std::collections::BTreeMap;
use std::fs;
use std::fs::DirEntry;
use std::rt::Files;
use std::thread::{Threads, map_chunks};

/// The blobs of a folder, ascending by name, each name once: its regular files whose names are
/// digests. Other names are passed over, and so is what isn't a regular file itself, a link too. A
/// folder whose listing fails can't be read, nor one with a name that isn't UTF-8. A blob has at
/// most [`INPUT_LIMIT`] bytes. If all have more than [`BLOB_LIMIT`], so that no command takes
/// them, each is read, but those after the first that goes over it are given without bytes. At most
/// as many threads read them as there are workers, a single one where all are said to have more
/// than the limit.
pub fn read_blobs<R: Files + SharedFiles + AllocGlobal + Clone + Drop + Threads + Sync>(
    rt: &R,
    folder: &str,
    workers: usize,
) -> Result<Vec<Blob>, FileFault>
    ensures ordered { IfOk result (λ blobs. are_in_order (blob_views blobs.items) ≡ true) }
    ensures within { IfOk result
        (λ blobs. All (λ blob. vec_len blob.bytes ≤ INPUT_LIMIT) blobs.items) }
    ensures spelt { IfOk result (λ blobs. All (λ blob. IsSpelt blob.name) blobs.items) }
    ensures held { IfOk result
        (λ blobs. blob_bytes (blob_views blobs.items) ≤ blob_limit + INPUT_LIMIT) }
    ensures fault { IfErr result (λ fault. IsUnread (IsInFolder folder.now) fault) }
{
    let alloc = rt.alloc();
    let listing = match list_blobs(rt, folder) {
        Ok(listing) => listing,
        Err(fault) => return Err(FileFault::unread(alloc, folder, fault)),
    };
    let threads = if listing.bytes > BLOB_LIMIT as u64 {
        1
    } else {
        workers
    };
    let files = in_order(alloc, listing.lengths)?;
    let held = blobs_of(rt, alloc, folder, &files, threads)?;
    Ok(held.into_blobs())
}

// The blobs of these files of a folder, in their order, read by at most this many threads, each a
// share of them.
fn blobs_of<R: SharedFiles + Threads + Sync>(
    rt: &R,
    alloc: Global,
    folder: &str,
    files: &[BlobFile],
    threads: usize,
) -> Result<HeldBlobs, FileFault>
    ensures same { IfOk result
        (λ held. map (λ blob. blob.name) held.blobs.items ≡ map (λ file. file.name) files.now) }
    ensures fault { IfErr result (λ fault. IsUnread (IsInFolder folder.now) fault) }
{
    let size = share_of(files.len(), threads);
    let read = |_first: usize, share: &[BlobFile]| -> Result<HeldBlobs, FileFault>
        requires { IsSync R.row }
        ensures same { IfOk result (λ held.
            map (λ blob. blob.name) held.blobs.items ≡ map (λ file. file.name) share.entry.now) }
        ensures fault { IfErr result (λ fault. IsUnread (IsInFolder folder.entry.now) fault) }
    { read_share(rt, alloc, folder, share) };
    let mut held = HeldBlobs::new(alloc);
    for read in map_chunks(rt, alloc, files, size, &read)? {
        held.append(read?)?;
    }
    Ok(held)
}

// The blobs of these files of a folder, in their order, read by this thread.
fn read_share<R: SharedFiles>(
    rt: &R,
    alloc: Global,
    folder: &str,
    files: &[BlobFile],
) -> Result<HeldBlobs, FileFault>
    ensures same { IfOk result
        (λ held. map (λ blob. blob.name) held.blobs.items ≡ map (λ file. file.name) files.now) }
    ensures fault { IfErr result (λ fault. IsUnread (IsInFolder folder.now) fault) }
{
    let mut held = HeldBlobs::new(alloc);
    for file in files {
        let path = blob_path(alloc, folder, &file.name)?;
        held.push(file.name, rt.read_shared(path.as_str(), Some(file.length))?)?;
    }
    Ok(held)
}

// The files of blobs, ascending by name, each with its length.
fn in_order(alloc: Global, lengths: BTreeMap<Digest, u64>) -> Result<Vec<BlobFile>, AllocError>
    ensures same { IfOk result
        (λ files. map (λ file. (file.name, file.length)) files.items ≡ lengths.entries) }
    ensures ordered { IsOrdered digest_cmp lengths }
{
    let mut files = Vec::with_capacity(alloc, lengths.len())?;
    for (name, length) in lengths {
        files.push(BlobFile { name, length })?;
    }
    Ok(files)
}

// The length of each blob of a folder, under its name, and how many bytes they come to.
#[derive(Drop)]
struct Listing {
    lengths: BTreeMap<Digest, u64>,
    bytes: u64,
}

// The blobs of a folder. Its listing has no limit.
fn list_blobs<R: Files + AllocGlobal + Clone + Drop>(
    rt: &R,
    folder: &str,
) -> Result<Listing, ReadFault>
    ensures each { IfOk result (λ listing. All IsNamedBy (keys listing.lengths)) }
    ensures fault { IfErr result (λ fault. fault ≢ TooLong) }
{
    let files = blob_files(rt, folder)?;
    Ok(listing_of(rt.alloc(), &files)?)
}

// The listing of these files: each name once, with its length, and what all come to, as far as 64
// bits count.
fn listing_of(alloc: Global, listed: &[BlobFile]) -> Result<Listing, AllocError>
    ensures lengths { IfOk result (λ listing. (name : List ℕ)
        → get digest_cmp listing.lengths name ≡ length_of listed.now name) }
    ensures ordered { IfOk result (λ listing. IsOrdered digest_cmp listing.lengths) }
    ensures bytes { IfOk result (λ listing.
        listing.bytes ≡ min (sum_by (λ file. file.length) listed.now) (2 ^ 64 - 1)) }
{
    let mut lengths = BTreeMap::new(alloc);
    let mut bytes: u64 = 0;
    for file in listed {
        lengths.insert(file.name, file.length)?;
        bytes = bytes.saturating_add(file.length);
    }
    Ok(Listing { lengths, bytes })
}

// The files of the blobs of a folder, in the order in which the system lists them.
fn blob_files<R: Files + AllocGlobal + Clone + Drop>(
    rt: &R,
    folder: &str,
) -> Result<Vec<BlobFile>, ReadFault>
    ensures each { IfOk result (λ files. All (λ file. IsNamedBy file.name) files.items) }
    ensures fault { IfErr result (λ fault. fault ≢ TooLong) }
{
    let mut files = Vec::new(rt.alloc());
    for entry in fs::read_dir(rt, folder)? {
        if let Some(file) = blob_file(&entry?)? {
            files.push(file)?;
        }
    }
    Ok(files)
}

// A regular file whose name is a digest, and its length.
#[derive(Drop)]
struct BlobFile {
    name: Digest,
    length: u64,
}

// An entry as such a file, where it is one. Only where its name is a digest is it asked what it is.
fn blob_file<R: Files>(entry: &DirEntry<R>) -> Result<Option<BlobFile>, ReadFault>
    ensures named { IfOk result
        (λ file. IfSome file (λ blob. digest_of_text (dir_entry_name entry.now) ≡ Some blob.name)) }
    ensures passed_over { digest_of_text (dir_entry_name entry.now) ≡ None → result ≡ Ok None }
    ensures fault { IfErr result (λ fault. fault ≢ TooLong) }
{
    match Digest::parse(entry.file_name()) {
        Ok(name) => {
            let Some(length) = regular_length(&entry.metadata()?) else {
                return Ok(None);
            };
            Ok(Some(BlobFile { name, length }))
        }
        Err(_) => Ok(None),
    }
}

/// A blob's path: the folder as it is given, a slash, and the 64 digits of the blob's name.
pub fn blob_path(alloc: Global, folder: &str, name: &Digest) -> Result<String, AllocError>
    ensures path { IfOk result
        (λ path. string_bytes path ≡ blob_folders.blob_path folder.now name.now) }
    ensures spelt { IfOk result (λ _. IsSpelt name.now) }
{
    let mut path = String::from_str(alloc, folder)?;
    path.push('/')?;
    path.push_str(name.digits().as_str())?;
    Ok(path)
}
