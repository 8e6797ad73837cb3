//! Going down a layer name by name, be it a tree or a table.
ghost use Rattle.std.specs.Prelude.{◌≡◌, ◌≢◌, [], IfOk, MatchOption};
ghost use Rattle.ovl_layer.specs.Layers.{Entries, names_below};
ghost use Rattle.ovl_layer.specs.LayerTrees.{entries_in, entries_under};

use ovl_names::{Name, Path};
use std::alloc::{AllocError, Global};

/// A place in a layer, as a tree or as a table, from which it is gone down name by name.
pub trait LayerPlace: Drop + Sized {
    /// The entries at and under it, their paths counted from it.
    ghost entries: { Self → Entries };

    /// The place of the entry `name`, and `None` where there is none; takes no memory.
    fn child(&self, name: &str) -> Option<Self>
        ensures { MatchOption result
            (entries_in name.now (entries self.now) ≡ [])
            (λ child. (entries child ≡ entries_in name.now (entries self.now))
            × (entries child ≢ [])) };

    /// The names directly below the place, in order; fails only when out of memory.
    fn names(&self, alloc: Global) -> Result<Vec<Name>, AllocError>
        ensures { IfOk result (λ names. names.items ≡ names_below (entries self.now) []) };
}

/// The place of a path that is counted from `root`, and `None` where there is no entry.
pub(crate) fn place_at<P: LayerPlace>(root: P, path: &Path) -> Option<P>
    requires { P.entries root ≢ [] }
    ensures { MatchOption result
        (entries_under path.now (P.entries root) ≡ [])
        (λ place. (P.entries place ≡ entries_under path.now (P.entries root))
        × (P.entries place ≢ [])) }
{
    let mut place = root;
    for name in path.names() {
        let Some(child) = place.child(name) else {
            return None;
        };
        place = child;
    }
    Some(place)
}

/// The names in the directory at `path`, in order; none if there is no directory. The path is
/// counted from the place `root`, which may be any place of a layer. Fails only when out of memory.
pub(crate) fn names_at<P: LayerPlace>(
    alloc: Global,
    root: P,
    path: &Path,
) -> Result<Vec<Name>, AllocError>
    requires { P.entries root ≢ [] }
    ensures { IfOk result (λ names. names.items ≡ names_below (P.entries root) path.now) }
{
    match place_at(root, path) {
        Some(place) => place.names(alloc),
        None => Ok(Vec::new(alloc)),
    }
}
