//! A folder of blobs of any size, which are read in parts.
ghost use Rattle.std.specs.Prelude.{◌≡◌, ◌∷◌, ◌++◌, [], Option, Ok, true, min, length, vec_len, IfOk, IfErr, IfSome, OnOk, All};
ghost use Rattle.std.specs.Thread.{IsSync};
ghost use Rattle.ovl_names.specs.Order.{ascends};
ghost use Rattle.ovl_blobs.specs.Blobs.{digest_cmp};
ghost use Rattle.ovl_blobs.specs.Contents.{AreTold};
ghost use Rattle.ovl_files.specs.Faults.{IsUnread};
ghost use Rattle.ovl_blobs.specs.declared.contents.BlobInfo.{BlobInfo};
ghost use Rattle.ovl_files.specs.BlobFolders.{anything, IsInFolder, IsToldOf};
ghost use Rattle.ovl_files.specs.Slots.{AreSlotsOf, IsAsSaid, IsShareOf};

use crate::blob_folder::blob_path;
use crate::faults::FileFault;
use crate::reads::ReadFault;
use crate::shared_files::SharedFiles;
use crate::slots::{Slots, Stop, Told, joined};
use ovl_blobs::BlobInfo;
use ovl_inode::Digest;
use std::alloc::{AllocError, Global};
use std::fs;
use std::rt::Files;
use std::sync::atomic::{AtomicUsize, Ordering};
use std::thread::{Threads, map_indices};

/// The contents of the blobs of these names in a folder, in their order. What a name leads to there
/// is its blob where it is a regular file itself, and is read in parts to its end; where it isn't,
/// a link too, or nothing is there, the name has none. Other names of the folder aren't looked at.
/// At most as many threads read as there are workers, each the file of the next name that none has
/// taken. The first blob, in the order of names, that can't be read is given.
pub fn measure_blobs<R: Files + SharedFiles + AllocGlobal + Threads + Sync>(
    rt: &R,
    folder: &str,
    names: &[Digest],
    workers: usize,
) -> Result<Vec<BlobInfo>, FileFault>
    requires ascend { ascends digest_cmp names.now ≡ true }
    ensures told { IfOk result (λ told. AreTold anything names.now told.items) }
    ensures fault { IfErr result (λ fault. IsUnread (IsInFolder folder.now) fault) }
{
    let alloc = rt.alloc();
    if let Err(fault) = find_folder(rt, folder) {
        return Err(FileFault::unread(alloc, folder, fault));
    }
    let shares = shares_of(rt, alloc, folder, names, workers)?;
    let slots = joined(alloc, folder, names, shares)?;
    contents_of(rt, alloc, folder, names, &slots)
}

// Fails if the path doesn't lead to a folder.
fn find_folder(files: &impl Files, path: &str) -> Result<(), ReadFault> {
    // Made by hand (1): what leads to no folder isn't one.
    if fs::metadata(files, path)?.is_dir() {
        Ok(())
    } else {
        Err(ReadFault::Device)
    }
}

// Starts the workers, at most one for each name, and gives the share of each: a `Told` for each
// name that it takes, with the content of its blob, or only a `Stop`, with the number of the name
// whose blob it can't read, and the fault. Each but the last has a thread of its own.
fn shares_of<R: SharedFiles + Threads + Sync>(
    rt: &R,
    alloc: Global,
    folder: &str,
    names: &[Digest],
    workers: usize,
) -> Result<Vec<Result<Vec<Told>, Stop>>, AllocError>
    ensures each { IfOk result (λ shares. All (IsShareOf folder.now names.now) shares.items) }
    ensures few { IfOk result (λ shares. vec_len shares ≡ min workers (length names.now)) }
{
    let next = AtomicUsize::new(0);
    let share = |_: usize| -> Result<Vec<Told>, Stop>
        requires { IsSync R.row }
        ensures { IsShareOf folder.entry.now names.entry.now result }
    { measure_share(rt, alloc, folder, names, &next) };
    map_indices(rt, alloc, workers.min(names.len()), &share)
}

// What one worker gives: again and again of the next name that none has taken. If it stops, no
// further name is taken; all before that one are by then.
fn measure_share<R: SharedFiles>(
    rt: &R,
    alloc: Global,
    folder: &str,
    names: &[Digest],
    next: &AtomicUsize,
) -> Result<Vec<Told>, Stop>
    ensures { IsShareOf folder.now names.now result }
{
    let mut told = Vec::new(alloc);
    for _ in 0..names.len() {
        let number = next.fetch_add(1, Ordering::Relaxed);
        let Some(name) = names.get(number) else {
            break;
        };
        if let Err(fault) = measure_next(rt, alloc, folder, *name, number, &mut told) {
            next.store(names.len(), Ordering::Relaxed);
            return Err(Stop { number, fault });
        }
    }
    Ok(told)
}

// Gives the content of the name of this number, after the others.
fn measure_next<R: SharedFiles>(
    rt: &R,
    alloc: Global,
    folder: &str,
    name: Digest,
    number: usize,
    told: &mut Vec<Told>,
) -> Result<(), FileFault>
    ensures told { OnOk result ((content : Option BlobInfo)
        × ((told.new.items ≡ told.old.items ++ record { number = number; content = content } ∷ [])
        × IsToldOf name content)) }
    ensures fault { IfErr result (λ fault. IsUnread (IsInFolder folder.now) fault) }
{
    let content = measure_blob(rt, alloc, folder, name)?;
    told.push(Told { number, content })?;
    Ok(())
}

// The contents of these names: what is given of a name is its content, or that it has none.
fn contents_of<R: SharedFiles>(
    rt: &R,
    alloc: Global,
    folder: &str,
    names: &[Digest],
    slots: &Slots,
) -> Result<Vec<BlobInfo>, FileFault>
    requires ascend { ascends digest_cmp names.now ≡ true }
    requires slots { AreSlotsOf names.now slots.now }
    ensures told { IfOk result
        (λ told. AreTold (IsAsSaid names.now slots.now) names.now told.items) }
    ensures fault { IfErr result (λ fault. IsUnread (IsInFolder folder.now) fault) }
{
    let mut contents = Vec::with_capacity(alloc, names.len())?;
    for (number, name) in names.iter().enumerate() {
        if let Some(content) = told_or_now(rt, alloc, folder, *name, slots.get(number))? {
            contents.push(content)?;
        }
    }
    Ok(contents)
}

// What is given of a name: by a worker, or where none did, now.
fn told_or_now<R: SharedFiles>(
    rt: &R,
    alloc: Global,
    folder: &str,
    name: Digest,
    told: Option<Option<BlobInfo>>,
) -> Result<Option<BlobInfo>, FileFault>
    requires { IfSome told (IsToldOf name) }
    ensures told { IfOk result (IsToldOf name) }
    ensures same { IfSome told (λ content. result ≡ Ok content) }
    ensures fault { IfErr result (λ fault. IsUnread (IsInFolder folder.now) fault) }
{
    match told {
        Some(content) => Ok(content),
        None => measure_blob(rt, alloc, folder, name),
    }
}

// The content of the blob of a name in a folder, if it has a file.
fn measure_blob<R: SharedFiles>(
    rt: &R,
    alloc: Global,
    folder: &str,
    name: Digest,
) -> Result<Option<BlobInfo>, FileFault>
    ensures told { IfOk result (IsToldOf name) }
    ensures fault { IfErr result (λ fault. IsUnread (IsInFolder folder.now) fault) }
{
    let path = blob_path(alloc, folder, &name)?;
    match rt.measure_shared(path.as_str(), name) {
        Ok(content) => Ok(content),
        Err(fault) => Err(FileFault::unread(alloc, path.as_str(), fault)),
    }
}
