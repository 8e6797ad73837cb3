//! Files that several threads may read.
ghost use Rattle.std.specs.Prelude.{◌≡◌, ◌≤◌, IfOk, MatchResult, vec_len};
ghost use Rattle.ovl_files.specs.BlobFolders.{IsToldOf};
ghost use Rattle.ovl_files.specs.Faults.{IsUnread};

use crate::blob_parts::measure_file;
use crate::faults::FileFault;
use crate::reads::{INPUT_LIMIT, ReadFault};
use crate::whole_files::read_file;
use ovl_blobs::BlobInfo;
use ovl_inode::Digest;

/// A runtime whose files several threads may read: a bound by `Files` holds of only one thread.
pub trait SharedFiles {
    /// What [`read_file`] gives.
    fn read_shared(&self, path: &str, expected: Option<u64>) -> Result<Vec<u8>, FileFault>
        ensures { MatchResult result
            (λ bytes. vec_len bytes ≤ INPUT_LIMIT)
            (λ fault. IsUnread (λ told. told ≡ path.now) fault) };

    /// What [`measure_file`] gives.
    fn measure_shared(&self, path: &str, name: Digest) -> Result<Option<BlobInfo>, ReadFault>
        ensures { IfOk result (IsToldOf name) };
}

impl SharedFiles for HostRuntime {
    fn read_shared(&self, path: &str, expected: Option<u64>) -> Result<Vec<u8>, FileFault> {
        read_file(self, path, expected)
    }

    fn measure_shared(&self, path: &str, name: Digest) -> Result<Option<BlobInfo>, ReadFault> {
        measure_file(self, path, name)
    }
}
