//! Paths as their texts, each beside the path that comes before it.
ghost use Rattle.std.specs.Prelude.{◌≡◌, ◌+◌, ◌<◌, ◌≤◌, ◌^◌, IfSome, OnOk, length, take};
ghost use Rattle.ovl_names.specs.Names.{PathName};
ghost use Rattle.ovl_names.specs.Paths.{PathNames, child_path};
ghost use Rattle.ovl_layer.specs.TextPaths.{slashed, AreEnds};

use std::alloc::AllocError;

/// Where the path of a text is beside the last path, whose text is given, and where in it those
/// of the paths on the way there end: how many names lead to the directory of the path, and what is
/// after that directory. The text of the root is empty here. Gives none where no directory is on
/// the way to the last path.
pub(crate) fn place_beside<'a>(
    last: &str,
    ends: &[usize],
    text: &'a str,
) -> Option<(usize, &'a str)>
    ensures { (path : PathNames) → slashed path ≡ last.now → AreEnds path ends.now
        → IfSome result (λ place. (place.0 ≤ length path)
        × (text.now ≡ slashed (child_path (take place.0 path) place.1.now))) }
{
    let bytes = text.as_bytes();
    // A name has no separator, so of the ends with one after them the deepest is the directory's.
    let depth = ends.iter().rposition(|end| bytes.get(*end) == Some(&b'/'))?;
    let end = ends[depth];
    let (directory, rest) = text.split_at_checked(end)?;
    let _below = last.as_bytes().strip_prefix(directory.as_bytes())?;
    let name = rest.strip_prefix('/')?;
    Some((depth, name))
}

/// Goes from the last path to an entry of the directory of its first `depth` names, whose text is
/// so long.
pub(crate) fn go_on(ends: &mut Vec<usize>, depth: usize, len: usize) -> Result<(), AllocError>
    requires { depth < 2 ^ 32 }
    ensures { (path : PathNames) → (name : PathName) → AreEnds path ends.old.items
        → depth ≤ length path
        → len ≡ length (slashed (child_path (take depth path) name))
        → OnOk result (AreEnds (child_path (take depth path) name) ends.new.items) }
{
    ends.truncate(depth + 1);
    ends.push(len)?;
    Ok(())
}
