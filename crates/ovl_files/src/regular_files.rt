//! What a name leads to, where it is a regular file itself.
ghost use Rattle.std.specs.Prelude.{◌≡◌, Some, None};
ghost use Rattle.std.specs.Fs.{IsFile, file_type, metadata_len};

use std::fs::Metadata;

/// The length of a regular file, also of one without bytes; nothing of anything else, a link too.
pub fn regular_length(metadata: &Metadata) -> Option<u64>
    ensures file { IsFile (file_type metadata.now) → result ≡ Some (metadata_len metadata.now) }
    ensures other { (IsFile (file_type metadata.now) → ⊥) → result ≡ None }
{
    if metadata.is_file() {
        return Some(metadata.len());
    }
    None
}
