//! The directories among entries, as kids, but for what no manifest can hold.
ghost use Rattle.std.specs.Prelude.{◌≡◌, ◌&&◌, IfOk, filter};
ghost use Rattle.ovl_names.specs.Paths.{PathNames, child_path};
ghost use Rattle.ovl_inode.specs.Marks as marks;
ghost use Rattle.ovl_layer.specs.Layers.{is_within_limits};
ghost use Rattle.ovl_rewrite.specs.Directories.{IsNameRoom, directories_among};
ghost use Rattle.ovl_rewrite.specs.Directories as directories;

use crate::rooms::NameRoom;
use ovl_board::Piece;
use ovl_inode::{Inode, is_directory};
use ovl_names::Name;
use std::alloc::{AllocError, Global};

/// The pieces of those entries of a piece's directory that are directories themselves, but for
/// those that no manifest can hold; fails only when out of memory.
pub fn directories(
    alloc: Global,
    piece: &Piece,
    inodes: &[(Name, Inode)],
) -> Result<Vec<Piece>, AllocError>
    ensures { IfOk result
        (λ kids. kids.items ≡ filter directories.is_kept (directories_among piece.now inodes.now)) }
{
    let room = NameRoom::under(&piece.dir);
    let kept = inodes.iter().filter(|entry| is_kept(entry, &room));
    piece.children(alloc, kept.map(|entry| &entry.0))
}

// Whether an entry of a directory with this room is itself one, which a manifest can hold.
fn is_kept(entry: &(Name, Inode), room: &NameRoom) -> bool
    ensures { (directory : PathNames) → IsNameRoom directory room.now
        → result ≡ (marks.is_directory entry.now.1
        && is_within_limits (child_path directory entry.now.0)) }
{
    is_directory(&entry.1) && room.fits(&entry.0)
}
