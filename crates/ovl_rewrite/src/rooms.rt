//! Which names in a directory a manifest can hold.
ghost use Rattle.std.specs.Prelude.{◌≡◌};
ghost use Rattle.ovl_names.specs.Paths.{PathNames, child_path};
ghost use Rattle.ovl_layer.specs.Layers.{is_within_limits};
ghost use Rattle.ovl_rewrite.specs.Directories.{IsNameRoom};

use ovl_layer::slashed_len;
use ovl_names::{DEPTH_LIMIT, Name, Path, TEXT_LIMIT};

/// The room that a directory has for the names in it, if a manifest is to hold their paths.
#[derive(Drop)]
pub(crate) struct NameRoom {
    /// How many bytes are too many for a name.
    bytes: usize,
}

impl NameRoom {
    /// The bytes that a path's limit leaves for a name in this directory; none in one as deep as a
    /// path may be.
    pub(crate) fn under(directory: &Path) -> NameRoom
        ensures { IsNameRoom directory.now result }
    {
        if directory.len() >= DEPTH_LIMIT {
            return NameRoom { bytes: 0 };
        }
        NameRoom {
            bytes: TEXT_LIMIT.saturating_sub(slashed_len(directory)),
        }
    }

    /// Whether a manifest can hold the path of this name in a directory with this room.
    pub(crate) fn fits(&self, name: &Name) -> bool
        ensures { (directory : PathNames) → IsNameRoom directory self.now
            → result ≡ is_within_limits (child_path directory name.now) }
    {
        name.as_str().len() < self.bytes
    }
}
