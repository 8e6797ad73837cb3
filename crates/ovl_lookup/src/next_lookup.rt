//! Where one mark sends a walk in the layer below.
ghost use Rattle.ovl_lookup.specs.NextLookups.{IsNextLookup};

use ovl_inode::{Mark, Redirect};
use ovl_names::{Name, Path};

/// Where the walk of a path goes on in the layer below one that has an entry. overlayfs.rst:
/// "whiteouts and opaque directories", "renaming directories", "Metadata only copy up".
#[derive(Drop)]
pub enum NextLookup<'a> {
    /// By this name, in the directory as which that layer knows the one above.
    Beside(&'a Name),
    /// At this path from the root.
    At(&'a Path),
    /// No further.
    Nowhere,
}

impl<'a> NextLookup<'a> {
    /// Where the walk of a path goes on in the layer below an entry of this mark and name.
    pub fn of(mark: &'a Mark, name: &'a Name) -> NextLookup<'a>
        ensures { IsNextLookup mark.now name.now result }
    {
        match mark {
            Mark::DirMoved(Redirect::To(origin)) | Mark::Meta(Some(Redirect::To(origin))) => {
                NextLookup::At(origin)
            }
            Mark::DirMoved(Redirect::Beside(own)) | Mark::Meta(Some(Redirect::Beside(own))) => {
                NextLookup::Beside(own)
            }
            Mark::DirPlain | Mark::Meta(None) => NextLookup::Beside(name),
            Mark::Whiteout | Mark::DirOpaque | Mark::DirBad | Mark::MetaBad | Mark::Leaf => {
                NextLookup::Nowhere
            }
        }
    }
}
