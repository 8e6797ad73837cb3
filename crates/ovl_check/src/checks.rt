//! The visit of a directory that is checked: the findings of what is in it.
ghost use Rattle.std.specs.Prelude.{◌≡◌, ◌<◌, ◌&&◌, ◌||◌, not, ◌++◌, ◌∷◌, [], if◌then◌else◌, false, true, Some, None, IfOk, OnOk, length, map, filter, unwrap_or};
ghost use Rattle.std.specs.List.{flat_map};
ghost use Rattle.ovl_lookup.specs.Stacks.{all_layers};
ghost use Rattle.ovl_names.specs.Paths.{child_path};
ghost use Rattle.ovl_layer.specs.Layers.{entry_at};
ghost use Rattle.ovl_lookup.specs.Sound as sound;
ghost use Rattle.ovl_board.specs.Pieces.{piece_at};
ghost use Rattle.ovl_check.specs.Codes.{all_codes, is_blob_fault};
ghost use Rattle.ovl_check.specs.Findings.{finding, any_code};
ghost use Rattle.ovl_check.specs.Checks.{check_seen, sought_in, layer_at, findings_at_path, check_out};
ghost use Rattle.ovl_check.specs.Checks as checks;
ghost use Rattle.ovl_check.specs.CheckViews.{check_view};
ghost use Rattle.ovl_check.specs.Facts.{IsGathered, IsViewBelow, IsBelowOf, IsChildMarked, asks, child_seen, entry_path, found_at_child, next_of, tells};

use crate::directories::{CheckedDirectory, Child, hold_origin};
use crate::facts::{BLOB_CODES, CODES, Facts, NamedBlob, is_silent};
use crate::findings::{Code, Finding};
use crate::gathering::{facts_of_child, facts_of_directory};
use crate::lower_paths::LowerPath;
use crate::work::{CheckOut, CheckWork};
use ovl_inode::{Mark, is_directory};
use ovl_lookup::{PathRope, Stack, is_moved};
use ovl_names::{Name, Path};
use std::alloc::{AllocError, Global};

/// What comes of a directory of a layer.
pub(crate) fn directory_out<'a>(
    alloc: Global,
    work: &CheckWork<'_>,
    layer: u16,
    directory: CheckedDirectory<'_, 'a>,
) -> Result<CheckOut<'a>, AllocError>
    requires inside { layer < length (all_layers work.now.stack.now) }
    requires gathered { IsGathered (layer_at work.now.stack.now layer) directory }
    requires below { IsBelowOf work.now.stack.now layer directory }
    ensures { IfOk result
        (λ out. check_seen out
        ≡ check_out (check_view work.now) (piece_at layer directory.entry.path.now)) }
{
    let mut findings = Vec::new(alloc);
    push_directory(alloc, work, layer, &directory, &mut findings)?;
    push_files(alloc, work, layer, &directory, &mut findings)?;
    let ordinary = is_ordinary(work.stack, layer);
    let moved = is_moved_in(ordinary, directory.mark);
    let CheckedDirectory {
        path,
        turned,
        closed,
        ..
    } = directory;
    let place = place_of(alloc, path, turned, is_hidden(ordinary, closed))?;
    Ok(CheckOut {
        findings,
        place,
        moved,
    })
}

// Whether a directory of this mark is moved, and where its walk doesn't go on: in a data-only layer
// nothing is followed.
fn is_moved_in(ordinary: bool, mark: &Mark) -> bool
    ensures { result ≡ (ordinary && sound.is_moved (Some mark.now)) }
{
    ordinary && is_moved(mark)
}

fn is_hidden(ordinary: bool, closed: bool) -> bool
    ensures { result ≡ (not ordinary || closed) }
{
    !ordinary || closed
}

// Whether a layer isn't data-only.
fn is_ordinary(stack: &Stack, layer: u16) -> bool
    ensures { result ≡ checks.is_ordinary stack.now layer }
{
    usize::from(layer) < stack.ordinary()
}

// Where the walk of a directory of this path goes on, if that is open.
fn place_of<'a>(
    alloc: Global,
    path: &Path,
    turned: Option<PathRope<'a>>,
    closed: bool,
) -> Result<Option<LowerPath<'a>>, AllocError>
    ensures { IfOk result
        (λ place. place ≡ (if closed then None else Some (unwrap_or turned.entry path.now))) }
{
    if closed {
        return Ok(None);
    }
    Ok(Some(LowerPath::of(alloc, path, turned)?))
}

// Where an entry is: at a path, or under a name in the directory of a path. Its own path is made
// where it is given.
#[derive(Clone, Copy)]
enum EntryPlace<'a> {
    At(&'a Path),
    In(&'a Path, &'a Name),
}

impl<'a> EntryPlace<'a> {
    fn path(self, alloc: Global) -> Result<Path, AllocError>
        ensures { IfOk result (λ path. path ≡ entry_path self.entry) }
    {
        match self {
            EntryPlace::At(path) => path.copy(alloc),
            EntryPlace::In(directory, name) => directory.child(alloc, name),
        }
    }
}

// Adds what is found at a directory itself, redirect-double apart.
fn push_directory(
    alloc: Global,
    work: &CheckWork<'_>,
    layer: u16,
    directory: &CheckedDirectory<'_, '_>,
    findings: &mut Vec<Finding>,
) -> Result<(), AllocError>
    requires inside { layer < length (all_layers work.now.stack.now) }
    requires gathered { IsGathered (layer_at work.now.stack.now layer) directory.now }
    ensures { OnOk result
        (findings.new.items
        ≡ findings.old.items
        ++ findings_at_path (check_view work.now) layer directory.now.path.now) }
{
    let holds_origin = hold_origin(&directory.children);
    if !holds_origin && is_silent(directory.inode, directory.mark, &NamedBlob::Unnamed) {
        return Ok(());
    }
    let facts = facts_of_directory(alloc, work, usize::from(layer), directory, holds_origin)?;
    let place = EntryPlace::At(directory.path);
    push_codes(alloc, work.stack, layer, place, &facts, findings)
}

// Adds what is found at those entries of a directory that are none themselves.
fn push_files(
    alloc: Global,
    work: &CheckWork<'_>,
    layer: u16,
    directory: &CheckedDirectory<'_, '_>,
    findings: &mut Vec<Finding>,
) -> Result<(), AllocError>
    requires inside { layer < length (all_layers work.now.stack.now) }
    requires gathered { IsGathered (layer_at work.now.stack.now layer) directory.now }
    requires below { IsBelowOf work.now.stack.now layer directory.now }
    ensures { OnOk result (findings.new.items ≡ findings.old.items
        ++ flat_map
        (λ child. found_at_child (check_view work.now) layer directory.now.path.now
        (child_seen child)) directory.now.children.items) }
{
    for child in &directory.children {
        push_file(alloc, work, layer, directory, child, findings)?;
    }
    Ok(())
}

// Adds what is found at an entry of a directory, where that is none itself.
fn push_file(
    alloc: Global,
    work: &CheckWork<'_>,
    layer: u16,
    directory: &CheckedDirectory<'_, '_>,
    child: &Child<'_>,
    findings: &mut Vec<Finding>,
) -> Result<(), AllocError>
    requires inside { layer < length (all_layers work.now.stack.now) }
    requires gathered { IsGathered (layer_at work.now.stack.now layer) directory.now }
    requires entry { entry_at (layer_at work.now.stack.now layer)
        (child_path directory.now.path.now child.now.name.now) ≡ Some child.now.inode.now }
    requires marked { IsChildMarked child.now }
    requires below { directory.now.closed ≡ false → asks child.now.mark.now ≡ true
        → IsViewBelow work.now.stack.now layer (next_of directory.now) directory.now.below }
    ensures { OnOk result (findings.new.items ≡ findings.old.items
        ++ found_at_child (check_view work.now) layer directory.now.path.now
        (child_seen child.now)) }
{
    if is_directory(child.inode) {
        return Ok(());
    }
    let blob = NamedBlob::of(&work.blobs, child.inode);
    if is_silent(child.inode, child.mark, &blob) {
        return Ok(());
    }
    let facts = facts_of_child(alloc, work, usize::from(layer), directory, child, blob)?;
    let place = EntryPlace::In(directory.path, child.name);
    push_codes(alloc, work.stack, layer, place, &facts, findings)
}

// Adds a finding of each code that the facts of an entry give.
fn push_codes(
    alloc: Global,
    stack: &Stack,
    layer: u16,
    place: EntryPlace<'_>,
    facts: &Facts<'_>,
    findings: &mut Vec<Finding>,
) -> Result<(), AllocError>
    ensures { OnOk result
        (findings.new.items
        ≡ findings.old.items
        ++ map (finding layer (entry_path place.entry))
        (filter (λ code. sought_in stack.now layer code && tells facts.now code) all_codes)) }
{
    if facts.is_bare() {
        return push_told(alloc, stack, layer, place, facts, &BLOB_CODES, findings);
    }
    push_told(alloc, stack, layer, place, facts, &CODES, findings)
}

// Adds a finding of each of these codes that the facts of an entry give.
fn push_told(
    alloc: Global,
    stack: &Stack,
    layer: u16,
    place: EntryPlace<'_>,
    facts: &Facts<'_>,
    codes: &[Code],
    findings: &mut Vec<Finding>,
) -> Result<(), AllocError>
    ensures { OnOk result
        (findings.new.items
        ≡ findings.old.items
        ++ map (finding layer (entry_path place.entry))
        (filter (λ code. sought_in stack.now layer code && tells facts.now code) codes.now)) }
{
    for code in codes {
        let told = is_told(stack, layer, facts, *code);
        push_if(alloc, layer, place, *code, told, findings)?;
    }
    Ok(())
}

// Whether a code is sought in a layer, and the facts of an entry give it.
fn is_told(stack: &Stack, layer: u16, facts: &Facts<'_>, code: Code) -> bool
    ensures { result ≡ (sought_in stack.now layer code && tells facts.now code) }
{
    is_sought(is_ordinary(stack, layer), code) && facts.tells(code)
}

// Whether a code is sought where all are, or only those of blobs.
fn is_sought(all: bool, code: Code) -> bool
    ensures { result ≡ (if all then any_code else is_blob_fault) code }
{
    if all {
        return true;
    }
    is_of_blob(code)
}

fn is_of_blob(code: Code) -> bool
    ensures { result ≡ is_blob_fault code }
{
    matches!(code, Code::BlobMissing | Code::BlobSize | Code::BlobDigest)
}

fn push_if(
    alloc: Global,
    layer: u16,
    place: EntryPlace<'_>,
    code: Code,
    told: bool,
    findings: &mut Vec<Finding>,
) -> Result<(), AllocError>
    ensures { OnOk result
        (findings.new.items
        ≡ findings.old.items
        ++ (if told then finding layer (entry_path place.entry) code ∷ [] else [])) }
{
    if told {
        let path = place.path(alloc)?;
        findings.push(Finding { layer, path, code })?;
    }
    Ok(())
}
