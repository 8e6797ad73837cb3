//! A blob of any size, which is read in parts.
ghost use Rattle.std.specs.Prelude.{◌<◌, IfOk, vec_len};
ghost use Rattle.ovl_files.specs.BlobFolders.{IsToldOf};

use crate::reads::ReadFault;
use crate::regular_files::regular_length;
use ovl_blobs::{BlobInfo, PART, measure};
use ovl_inode::Digest;
use std::alloc::{AllocError, Global};
use std::fs;
use std::io::ErrorKind;
use std::rt::Files;

// The least room that a part is read into. A file may have more bytes than are said to be in it.
const LEAST_PART: usize = 4096;

/// The content of the blob of a name by the regular file of this path, if there is one: its length,
/// and whether its bytes are those that the name says. It is read to its end whatever its length,
/// in parts of at most [`PART`] bytes; no read is tried again. Nothing is given if there is nothing
/// at the path, or something else, a link too. While a file changes it is what the reads give.
pub fn measure_file<R: Files + AllocGlobal>(
    rt: &R,
    path: &str,
    name: Digest,
) -> Result<Option<BlobInfo>, ReadFault>
    ensures { IfOk result (IsToldOf name) }
{
    let Some(length) = file_length(rt, path)? else {
        return Ok(None);
    };
    let mut file = fs::open(rt, path)?;
    let mut room = room_for_part(rt.alloc(), length)?;
    Ok(Some(measure(name, &mut file, &mut room)?))
}

// The length of the regular file of a path, if there is one. It is asked before the file is opened,
// since a pipe that is opened waits for whoever writes to it.
fn file_length(files: &impl Files, path: &str) -> Result<Option<u64>, ReadFault> {
    match fs::symlink_metadata(files, path) {
        Ok(metadata) => Ok(regular_length(&metadata)),
        Err(error) if error.kind() == ErrorKind::NotFound => Ok(None),
        Err(error) => Err(error.into()),
    }
}

// Room for a part of a file that is said to have this many bytes: for all of a short one and its
// end.
fn room_for_part(alloc: Global, length: u64) -> Result<Vec<u8>, AllocError>
    ensures { IfOk result (λ room. 0 < vec_len room) }
{
    let wanted = length.saturating_add(1).min(PART as u64) as usize;
    vec![in alloc; 0; wanted.max(LEAST_PART)]
}
