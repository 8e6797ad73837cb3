//! The facts of an entry, from its layer and those below. It must not know codes.
ghost use Rattle.std.specs.Prelude.{◌≡◌, ◌<◌, ℕ, not, true, false, Some, length, unwrap_or, IfOk, IfSome};
ghost use Rattle.std.specs.List.{list_any};
ghost use Rattle.ovl_lookup.specs.Stacks.{all_layers};
ghost use Rattle.ovl_names.specs.Paths.{child_path};
ghost use Rattle.ovl_inode.specs.Attributes.{origin_name};
ghost use Rattle.ovl_inode.specs.declared.inodes.Inode.{Inode};
ghost use Rattle.ovl_inode.specs.Marks.{has_attribute, is_directory};
ghost use Rattle.ovl_inode.specs.declared.marks.Mark.TheVariants.{Meta};
ghost use Rattle.ovl_layer.specs.Layers.{entry_at};
ghost use Rattle.ovl_lookup.specs.declared.looks.Look.{Look};
ghost use Rattle.ovl_lookup.specs.DirViews.{IsViewOver};
ghost use Rattle.ovl_lookup.specs.Walk.{walk_to_file};
ghost use Rattle.ovl_lookup.specs.ShownKinds.{shown_kind_of};
ghost use Rattle.ovl_lookup.specs.PathRopes.{rope_eq};
ghost use Rattle.ovl_lookup.specs.Merged.{place_of_data};
ghost use Rattle.ovl_lookup.specs.Sound.{is_seen_there};
ghost use Rattle.ovl_check.specs.Checks.{layer_at, layers_below};
ghost use Rattle.ovl_check.specs.CheckViews.{check_view};
ghost use Rattle.ovl_check.specs.Facts.{IsGathered, IsViewBelow, IsChildMarked, AreFacts, asks, data_size_on, next_of};
ghost use Rattle.ovl_check.specs.Facts as facts;

use crate::below::{data_size_in, show_in};
use crate::directories::{CheckedDirectory, Child};
use crate::facts::{Facts, KindFacts, NamedBlob, OldPlace, ThingShown};
use crate::marks::is_plain;
use crate::places::{data_size_below, shown_kind_below, step_of};
use crate::work::CheckWork;
use ovl_inode::{Mark, Redirect};
use ovl_lookup::{OwnStep, PathRope, ShownKind, Stack};
use ovl_names::{Name, Path};
use std::alloc::{AllocError, Global};

/// The facts of a directory of layer `i`, with whether it directly holds an entry with `origin`.
pub(crate) fn facts_of_directory<'a>(
    alloc: Global,
    work: &CheckWork<'_>,
    i: usize,
    directory: &'a CheckedDirectory<'_, '_>,
    holds_origin: bool,
) -> Result<Facts<'a>, AllocError>
    requires inside { i < length (all_layers work.now.stack.now) }
    requires gathered { IsGathered (layer_at work.now.stack.now i) directory.now }
    requires origin { holds_origin
        ≡ list_any
        (λ child. has_attribute child.inode.now origin_name) directory.now.children.items }
    ensures { IfOk result
        (λ facts. (facts.inode.now ≡ directory.now.inode.now)
        × AreFacts (check_view work.now) i directory.now.path.now facts) }
{
    let kind = match directory.mark {
        Mark::DirMoved(_) => KindFacts::Moved(old_place(alloc, work.stack, i, directory)?),
        _ => KindFacts::Other,
    };
    Ok(Facts {
        is_root: directory.path.is_empty(),
        inode: directory.inode,
        mark: directory.mark,
        kind,
        blob: NamedBlob::Unnamed,
        holds_origin,
    })
}

/// The facts of an entry that lies in a directory of layer `i` and is none itself, with the blob
/// that it names.
pub(crate) fn facts_of_child<'a>(
    alloc: Global,
    work: &CheckWork<'_>,
    i: usize,
    directory: &CheckedDirectory<'_, '_>,
    child: &'a Child<'_>,
    blob: NamedBlob,
) -> Result<Facts<'a>, AllocError>
    requires inside { i < length (all_layers work.now.stack.now) }
    requires gathered { IsGathered (layer_at work.now.stack.now i) directory.now }
    requires entry { entry_at (layer_at work.now.stack.now i)
        (child_path directory.now.path.now child.now.name.now) ≡ Some child.now.inode.now }
    requires none { is_directory child.now.inode.now ≡ false }
    requires marked { IsChildMarked child.now }
    requires below { directory.now.closed ≡ false → asks child.now.mark.now ≡ true
        → IsViewBelow work.now.stack.now i (next_of directory.now) directory.now.below }
    requires blob { blob ≡ facts.blob_named (check_view work.now).contents child.now.inode.now }
    ensures { IfOk result
        (λ facts. (facts.inode.now ≡ child.now.inode.now)
        × AreFacts (check_view work.now) i
        (child_path directory.now.path.now child.now.name.now) facts) }
{
    let kind = match child.mark {
        Mark::Whiteout => whiteout_in(work.stack, directory, child.name),
        Mark::Meta(redirect) => KindFacts::Metacopy(data_size(
            alloc, work.stack, i, directory, child.name, redirect,
        )?),
        _ => KindFacts::Other,
    };
    Ok(Facts {
        is_root: false,
        inode: child.inode,
        mark: child.mark,
        kind,
        blob,
        holds_origin: false,
    })
}

// The old place of a moved directory of layer `i`, by where its walk goes on.
fn old_place(
    alloc: Global,
    stack: &Stack,
    i: usize,
    directory: &CheckedDirectory<'_, '_>,
) -> Result<OldPlace, AllocError>
    requires { i < length (all_layers stack.now) }
    ensures { IfOk result
        (λ place. place
        ≡ facts.old_place (layer_at stack.now i) (layers_below stack.now i)
        (next_of directory.now) directory.now.closed) }
{
    if directory.closed {
        return Ok(OldPlace::Hidden);
    }
    match &directory.turned {
        Some(next) => {
            let place = next.copy(alloc)?;
            open_place(alloc, stack, i, place)
        }
        None => {
            let place = rope_of(alloc, directory.path)?;
            open_place(alloc, stack, i, place)
        }
    }
}

// The rope of a path.
fn rope_of<'a>(alloc: Global, path: &'a Path) -> Result<PathRope<'a>, AllocError>
    ensures { IfOk result (λ rope. rope ≡ path.now) }
{
    PathRope::of(alloc, &path.names())
}

// The old place of a moved directory of layer `i`, by its path, at which the layers below aren't
// hidden.
fn open_place<'a>(
    alloc: Global,
    stack: &'a Stack,
    i: usize,
    place: PathRope<'a>,
) -> Result<OldPlace, AllocError>
    requires { i < length (all_layers stack.now) }
    ensures { IfOk result
        (λ old. old
        ≡ facts.old_place (layer_at stack.now i) (layers_below stack.now i) place.entry false) }
{
    let thing = thing_shown(shown_kind_below(alloc, stack, i, place.copy(alloc)?)?);
    let is_seen = is_seen(alloc, stack, i, &place)?;
    Ok(OldPlace::Open { thing, is_seen })
}

fn thing_shown(shown_kind: ShownKind) -> ThingShown
    ensures { (look : Look) → shown_kind ≡ shown_kind_of look → result ≡ facts.thing_shown look }
{
    match shown_kind {
        ShownKind::Nothing => ThingShown::Nothing,
        ShownKind::Directory => ThingShown::Directory,
        ShownKind::File | ShownKind::Other => ThingShown::Other,
    }
}

// Whether the layer doesn't hide a place from itself.
fn is_seen<'a>(
    alloc: Global,
    stack: &'a Stack,
    i: usize,
    place: &PathRope<'a>,
) -> Result<bool, AllocError>
    requires { i < length (all_layers stack.now) }
    ensures { IfOk result (λ answer. answer ≡ is_seen_there (layer_at stack.now i) place.now) }
{
    // Each of them is a layer.
    let _layers = stack.layers();
    let OwnStep {
        found,
        turned,
        closed,
    } = step_of(alloc, stack, i, place)?;
    if closed {
        return Ok(false);
    }
    if is_elsewhere(&turned, place) {
        return Ok(false);
    }
    match found {
        Some(found) => Ok(place.is_root() || is_plain(found.mark)),
        None => Ok(true),
    }
}

// Whether a walk that marks may turn goes on at another path than a place.
fn is_elsewhere(turned: &Option<PathRope<'_>>, place: &PathRope<'_>) -> bool
    ensures { result ≡ not (rope_eq (unwrap_or turned.now place.now) place.now) }
{
    match turned {
        Some(next) => *next != *place,
        // A redirect of any length isn't compared with itself.
        None => false,
    }
}

// A whiteout in a directory.
fn whiteout_in(stack: &Stack, directory: &CheckedDirectory<'_, '_>, name: &Name) -> KindFacts
    requires { directory.now.closed ≡ false → IfSome directory.now.below (IsViewOver stack.now) }
    ensures { (i : ℕ)
        → (directory.now.closed ≡ false
        → IsViewBelow stack.now i (next_of directory.now) directory.now.below)
        → result ≡ facts.whiteout_in (layers_below stack.now i) directory.now name.now }
{
    if matches!(directory.mark, Mark::DirOpaque) {
        return KindFacts::WhiteoutInOpaque;
    }
    let is_marked = directory.is_marked;
    if directory.closed {
        return KindFacts::Whiteout {
            is_marked,
            hides: false,
        };
    }
    KindFacts::Whiteout {
        is_marked,
        hides: show_in(stack, directory, name),
    }
}

// The size of the data of a metacopy file with this redirect in a directory of layer `i`, where it
// has any.
fn data_size(
    alloc: Global,
    stack: &Stack,
    i: usize,
    directory: &CheckedDirectory<'_, '_>,
    name: &Name,
    redirect: &Option<Redirect>,
) -> Result<Option<u64>, AllocError>
    requires inside { i < length (all_layers stack.now) }
    requires below { directory.now.closed ≡ false
        → IsViewBelow stack.now i (next_of directory.now) directory.now.below }
    ensures { IfOk result (λ size. (inode : Inode) → size
        ≡ data_size_on (layers_below stack.now i) (place_of_data (Meta redirect.now))
        (walk_to_file inode (Meta redirect.now)
        (next_of directory.now) directory.now.closed name.now)) }
{
    let own = match redirect {
        Some(Redirect::To(origin)) => return data_size_below(alloc, stack, i, origin),
        Some(Redirect::Beside(own)) => own,
        None => name,
    };
    if directory.closed {
        return Ok(None);
    }
    data_size_in(alloc, stack, directory, own)
}
