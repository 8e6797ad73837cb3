//! What the new layer has at a name.
ghost use Rattle.std.specs.Prelude.{◌≡◌, ◌<◌, Option, Some, None, true, IfOk, IfSome, string_bytes, length};
ghost use Rattle.std.specs.Option.{option_map};
ghost use Rattle.ovl_names.specs.Paths.{PathNames, child_path};
ghost use Rattle.ovl_names.specs.Paths as paths;
ghost use Rattle.ovl_inode.specs.Inodes as inodes;
ghost use Rattle.ovl_inode.specs.Marks as marks;
ghost use Rattle.ovl_lookup.specs.DirViews.{IsViewOf};
ghost use Rattle.ovl_merge.specs.Places.{merge_of};
ghost use Rattle.ovl_merge.specs.Places as places;
ghost use Rattle.ovl_merge.specs.MergeDown.{redirected_from, merged_entry};
ghost use Rattle.ovl_merge.specs.MergeDown as merge_down;
ghost use Rattle.ovl_merge.specs.Reckoned.{IsVisited, name_directly_in, next_lookup_at, reached_in};
ghost use Rattle.ovl_merge.specs.Candidates.{IsCandidate};
ghost use Rattle.ovl_merge.specs.NamesInBoth.{IsFirstFound, IsNameInBoth, first_in, place_from};

use crate::bases::Base;
use crate::candidates::Candidate;
use crate::directories::Directory;
use crate::names_in_both::{NameInBoth, Place};
use ovl_inode::{Attrs, Inode, Kind, is_directory, overlay, visible};
use ovl_lookup::{DirView, Found, Look, PathRope, Stack, is_well_formed_metacopy};
use ovl_names::{Name, Path};
use std::alloc::{AllocError, Global};

/// What the new lower layer has at a name in a directory.
pub(crate) fn inode_in<'d>(
    alloc: Global,
    stack: &'d Stack,
    whole: &mut Option<DirView<'d>>,
    above: &'d Directory<'_>,
    candidate: &Candidate<'_>,
) -> Result<Option<Inode>, AllocError>
    requires several { 1 < length stack.now.layers }
    requires whole { IfSome whole.old (IsViewOf stack.now 0 above.now.path) }
    requires above { IsVisited stack.now above.now.path above.now }
    requires candidate { IsCandidate (merge_of stack.now) above.now candidate.now }
    ensures inode { IfOk result
        (λ found. found
        ≡ merged_entry (merge_of stack.now) (child_path above.now.path candidate.now.name.now)) }
    ensures whole { IfSome whole.new (IsViewOf stack.now 0 above.now.path) }
{
    let name_in_both = NameInBoth::of(alloc, stack, above, candidate)?;
    let Some(found) = name_in_both.first() else {
        return Ok(unfound(alloc, stack, above, &name_in_both));
    };
    if is_directory(found.inode) {
        let directory = merged_directory(alloc, stack, above, &name_in_both, found)?;
        return Ok(Some(directory));
    }
    if is_well_formed_metacopy(found.mark) {
        let metacopy = merged_metacopy(alloc, stack, whole, above, &name_in_both, found)?;
        return Ok(Some(metacopy));
    }
    let shown = shown_inode(alloc, found.inode)?;
    Ok(Some(shown))
}

// What the new lower layer has at a name where the two layers show nothing: a whiteout, if they
// hide what the rest shows there.
fn unfound(
    alloc: Global,
    stack: &Stack,
    above: &Directory<'_>,
    name_in_both: &NameInBoth<'_>,
) -> Option<Inode>
    requires several { 1 < length stack.now.layers }
    requires above { IsVisited stack.now above.now.path above.now }
    requires name_in_both { IsNameInBoth (merge_of stack.now)
        (child_path above.now.path name_in_both.now.name.now) (next_lookup_at above.now.lower) name_in_both.now }
    requires none { first_in name_in_both.now ≡ None }
    ensures { result
        ≡ merged_entry (merge_of stack.now) (child_path above.now.path name_in_both.now.name.now) }
{
    if name_in_both.lower.rest.is_some() {
        return None;
    }
    if !above.shows(stack, name_in_both.name) {
        return None;
    }
    Some(new_whiteout(alloc))
}

// A whiteout as a merge writes it. overlayfs.rst: "whiteouts and opaque directories".
fn new_whiteout(alloc: Global) -> Inode
    ensures { result ≡ merge_down.new_whiteout }
{
    Inode::plain(Kind::Char { major: 0, minor: 0 }, 0, Attrs::new(alloc))
}

// The inode as the merged tree shows it: one without attributes as it is.
fn shown_inode(alloc: Global, inode: &Inode) -> Result<Inode, AllocError>
    ensures { IfOk result (λ shown. shown ≡ inodes.visible inode.now) }
{
    if inode.attrs.pairs().is_empty() {
        return inode.copy(alloc);
    }
    visible(alloc, inode)
}

// The new inode of a directory: it goes on at its reach, or hides what the rest has. overlayfs.rst:
// "renaming directories", "whiteouts and opaque directories".
fn merged_directory(
    alloc: Global,
    stack: &Stack,
    above: &Directory<'_>,
    name_in_both: &NameInBoth<'_>,
    found: &Found<'_>,
) -> Result<Inode, AllocError>
    requires several { 1 < length stack.now.layers }
    requires first { IsFirstFound stack.now above.now name_in_both.now found.now }
    requires directory { marks.is_directory found.now.inode.now ≡ true }
    ensures { IfOk result
        (λ new. new
        ≡ merge_down.merged_directory (merge_of stack.now)
        (child_path above.now.path name_in_both.now.name.now) found.now.inode.now
        (places.reach (merge_of stack.now) (child_path above.now.path name_in_both.now.name.now))) }
{
    let shown = shown_inode(alloc, found.inode)?;
    if let Some(place) = name_in_both.reach(alloc, stack, above, found)? {
        return redirected(alloc, stack, above, name_in_both.name, shown, place);
    }
    let hidden = above.shown_kind(stack, name_in_both.name);
    if hidden.is_directory() {
        return with_value(shown, overlay::OPAQUE, b"y");
    }
    Ok(shown)
}

// The new inode of a metacopy file: it stays one where it goes on at its reach, and has its
// contents else. overlayfs.rst: "Metadata only copy up".
fn merged_metacopy<'d>(
    alloc: Global,
    stack: &'d Stack,
    whole: &mut Option<DirView<'d>>,
    above: &'d Directory<'_>,
    name_in_both: &NameInBoth<'_>,
    found: &Found<'_>,
) -> Result<Inode, AllocError>
    requires whole { IfSome whole.old (IsViewOf stack.now 0 above.now.path) }
    requires several { 1 < length stack.now.layers }
    requires first { IsFirstFound stack.now above.now name_in_both.now found.now }
    ensures inode { IfOk result
        (λ new. new
        ≡ merge_down.merged_metacopy (merge_of stack.now)
        (child_path above.now.path name_in_both.now.name.now) found.now.inode.now
        (places.reach (merge_of stack.now) (child_path above.now.path name_in_both.now.name.now))) }
    ensures whole { IfSome whole.new (IsViewOf stack.now 0 above.now.path) }
{
    let shown = visible(alloc, found.inode)?;
    if let Some(place) = name_in_both.reach(alloc, stack, above, found)? {
        let copied = with_value(shown, overlay::METACOPY, b"")?;
        return redirected(alloc, stack, above, name_in_both.name, copied, place);
    }
    let path = above.path.child(alloc, name_in_both.name)?;
    if let Some(kept) = kept_place(alloc, stack, &path)? {
        let copied = with_value(shown, overlay::METACOPY, b"")?;
        let text = path_text(alloc, &kept)?;
        return with_value(copied, overlay::REDIRECT, text.as_bytes());
    }
    let contents = DirView::look_cached(alloc, stack, whole, &above.path, name_in_both.name)?;
    with_contents(alloc, shown, &contents)
}

// Where data-only layers have the data of a path, as the last of the metacopy files found there
// says, if the rest shows nothing at that place. overlayfs.rst: "Data-only lower layers".
fn kept_place(alloc: Global, stack: &Stack, path: &Path) -> Result<Option<Path>, AllocError>
    requires { 1 < length stack.now.layers }
    ensures { IfOk result (λ kept. kept ≡ merge_down.kept_place (merge_of stack.now) path.now) }
{
    let Some(place) = stack.data_place(alloc, path)? else {
        return Ok(None);
    };
    if has_data_alone(alloc, stack, &place)? {
        Ok(Some(place))
    } else {
        Ok(None)
    }
}

// Whether data-only layers have a full file at a place, and the rest shows nothing there.
fn has_data_alone(alloc: Global, stack: &Stack, place: &Path) -> Result<bool, AllocError>
    requires { 1 < length stack.now.layers }
    ensures { IfOk result
        (λ alone. alone ≡ merge_down.has_data_alone (merge_of stack.now) place.now) }
{
    if stack.full_file(place).is_none() {
        return Ok(false);
    }
    let rope = PathRope::of(alloc, &place.names())?;
    Ok(stack.shown_kind(alloc, 2, rope)?.is_nothing())
}

// An entry `name` of a directory that goes on at a place: with no redirect where the reach of the
// directory has it by this name, with one name where it has it by another, else with the whole
// path.
fn redirected(
    alloc: Global,
    stack: &Stack,
    above: &Directory<'_>,
    name: &Name,
    inode: Inode,
    place: &Place<'_>,
) -> Result<Inode, AllocError>
    requires several { 1 < length stack.now.layers }
    requires above { IsVisited stack.now above.now.path above.now }
    requires place { place_from (next_lookup_at above.now.lower) place.now
        ≡ places.reach (merge_of stack.now) (child_path above.now.path name.now) }
    ensures { IfOk result
        (λ new. (path : PathNames)
        → places.reach (merge_of stack.now) (child_path above.now.path name.now) ≡ Some path
        → new
        ≡ redirected_from (places.reach (merge_of stack.now) above.now.path) name.now inode path) }
{
    // Each layer of a stack is one.
    let _layers = stack.ordinary();
    match place {
        Place::Beside(own) => renamed(inode, name, own.as_str()),
        Place::At(rope) => redirected_at(alloc, &above.base, name, inode, &rope.path(alloc)?),
    }
}

// An entry `name` that goes on at a path of the rest: with no redirect if the base of its directory
// has the path by this name, with one name if by another, else with the whole path.
fn redirected_at(
    alloc: Global,
    base: &Base<'_>,
    name: &Name,
    inode: Inode,
    path: &Path,
) -> Result<Inode, AllocError>
    ensures { IfOk result
        (λ new. new ≡ redirected_from (reached_in base.now) name.now inode path.now) }
{
    if let Some(own) = name_in(alloc, base, path)? {
        return renamed(inode, name, own);
    }
    let text = path_text(alloc, path)?;
    with_value(inode, overlay::REDIRECT, text.as_bytes())
}

// The name by which a path lies directly in the directory of the rest in which one goes on, if it
// does.
fn name_in<'p>(
    alloc: Global,
    base: &Base<'_>,
    path: &'p Path,
) -> Result<Option<&'p str>, AllocError>
    ensures { IfOk result
        (λ name. option_map (λ name. name.now) name
        ≡ name_directly_in (reached_in base.now) path.now) }
{
    let Base::Reached(view) = base else {
        return Ok(None);
    };
    let Some((last, above)) = path.names().split_last() else {
        return Ok(None);
    };
    if PathRope::of(alloc, &above)? == *view.path() {
        Ok(Some(last))
    } else {
        Ok(None)
    }
}

// The inode that goes on by the name `own` in the directory in which that above goes on.
fn renamed(inode: Inode, name: &Name, own: &str) -> Result<Inode, AllocError>
    ensures { IfOk result
        (λ new. (above : Option PathNames) (path : PathNames)
        → Some own.now ≡ name_directly_in above path
        → new ≡ redirected_from above name.now inode path) }
{
    if own == name.as_str() {
        return Ok(inode);
    }
    with_value(inode, overlay::REDIRECT, own.as_bytes())
}

// The inode with this value of an attribute of the overlay's own.
fn with_value(inode: Inode, name: &str, value: &[u8]) -> Result<Inode, AllocError>
    ensures { IfOk result (λ new. new ≡ merge_down.with_value inode name.now value.now) }
{
    // Made by hand (1): an attribute of the overlay's own has a name, so no other fault of
    // `Attrs::put` comes.
    let mut inode = inode;
    match inode.attrs.put(name, value) {
        Ok(()) => Ok(inode),
        Err(_) => Err(AllocError),
    }
}

// A file with the contents that are shown.
fn with_contents(alloc: Global, inode: Inode, look: &Look) -> Result<Inode, AllocError>
    ensures { IfOk result (λ full. full ≡ merge_down.with_contents inode look.now) }
{
    let mut inode = inode;
    match look {
        Look::Shown(shown) | Look::Broken(shown) => {
            inode.kind = shown.kind.copy(alloc)?;
            Ok(inode)
        }
        Look::Nothing => Ok(inode),
    }
}

// The text of a path: a separator before each name, and one for the root.
fn path_text(alloc: Global, path: &Path) -> Result<String, AllocError>
    ensures { IfOk result (λ text. string_bytes text ≡ paths.path_text path.now) }
{
    if path.is_empty() {
        return String::from_str(alloc, "/");
    }
    let mut text = String::new(alloc);
    for name in path.names() {
        text.push_str("/")?;
        text.push_str(name)?;
    }
    Ok(text)
}
