//! The works of commands, walked by one thread.

use crate::samples::{blobs_of, manifest_of, stack_of};
use ovl_board::{Parcel, Piece, plain_walk};
use ovl_check::{BLOB_SPACE, Blob, BlobWork, blobs_in_order, finish_blobs};
use ovl_deref::{DerefWork, finish_deref};
use ovl_engine::ShowWork;
use ovl_flatten::{FlattenWork, finish_flatten};
use ovl_inode::Digest;
use ovl_layer::Layer;
use ovl_lookup::Stack;
use ovl_manifest::write_layer;
use ovl_merge::{MergeDone, MergeFault, MergeWork, finish_merge};
use ovl_names::Name;
use ovl_test_rows::{expect_so, parts_of, same};
use ovl_vacuum::{VacuumDone, VacuumWork, finish_vacuum};
use std::alloc::{AllocError, Global};
use std::test::Fail;

fn push_piece(alloc: Global, text: &mut String, piece: &Piece) -> Result<(), AllocError> {
    let dir = piece.dir.shown(alloc)?;
    text.push_str(format!(in alloc; "{}{dir}:", piece.space)?.as_str())
}

fn push_names<T>(text: &mut String, named: &[(Name, T)]) -> Result<(), AllocError> {
    for (name, _) in named {
        text.push_str(" ")?;
        text.push_str(name.as_str())?;
    }
    text.push_str("; ")
}

/// The pieces of parcels, each a space and a directory, with the names of what they put out.
pub(crate) fn told<T: Drop>(
    alloc: Global,
    parcels: &[Parcel<Vec<(Name, T)>>],
) -> Result<String, Fail> {
    let mut text = String::new(alloc);
    for Parcel { piece, out, .. } in parcels {
        push_piece(alloc, &mut text, piece)?;
        push_names(&mut text, out)?;
    }
    Ok(text)
}

#[test]
fn one_worker_walks_the_merged_tree(rt: HostRuntime) -> Result<(), Fail> {
    let stack = stack_of(rt.alloc(), "dir /a, dir /b")?;
    let work = ShowWork::new(&stack);
    let walk = plain_walk(rt.alloc(), &work, Piece::root(rt.alloc(), 0))?;
    same(
        "one worker",
        told(rt.alloc(), &walk)?.as_str(),
        "0/: a b; 0/a:; 0/b:; ",
    )
}

// A malformed metacopy file is shown as one without data, so it isn't what is shown below.
const VACUUMED: &str = "\
dir /d, file /d/k | dir /d, file /d/k -> /d true; /d/k true; removed 2 kept 1
bare /f metacopy= redirect=a/b | file /f -> /f false; removed 0 kept 2
dir /d, file-b /d/k | dir /d, file /d/k -> /d true; /d/k false; removed 0 kept 3
dir /d, file /d/k -> /d false; /d/k false; removed 0 kept 3
bare /f metacopy= | root -> /f false; removed 0 kept 2
";

fn row_vacuumed(alloc: Global, row: &str) -> Result<(), Fail> {
    let (stack, wanted) = parts_of(row);
    let stack = stack_of(alloc, stack)?;
    same(row, vacuumed(alloc, &stack)?.as_str(), wanted)
}

#[test]
fn a_vacuum_walks_the_topmost_layer(rt: HostRuntime) -> Result<(), Fail> {
    for row in VACUUMED.lines() {
        row_vacuumed(rt.alloc(), row)?;
    }
    Ok(())
}

// Whether each entry is idle.
fn idle_told(alloc: Global, parcels: &[Parcel<Vec<(Name, bool)>>]) -> Result<String, Fail> {
    let mut text = String::new(alloc);
    for Parcel { piece, out, .. } in parcels {
        for (name, idle) in out {
            let path = piece.dir.child(alloc, name)?.shown(alloc)?;
            text.push_str(format!(in alloc; "{path} {idle}; ")?.as_str())?;
        }
    }
    Ok(text)
}

fn vacuum_walk(alloc: Global, stack: &Stack) -> Result<String, Fail> {
    let work = VacuumWork::new(stack);
    idle_told(alloc, &plain_walk(alloc, &work, Piece::root(alloc, 0))?)
}

fn vacuum_done(alloc: Global, stack: &Stack) -> Result<VacuumDone, Fail> {
    let work = VacuumWork::new(stack);
    let parcels = plain_walk(alloc, &work, Piece::root(alloc, 0))?;
    Ok(finish_vacuum(alloc, &work, parcels)?)
}

fn counts_told(alloc: Global, done: &VacuumDone) -> Result<String, AllocError> {
    let kept = done.layer.entries(alloc)?.len();
    format!(in alloc; "removed {} kept {kept}", done.removed.len())
}

// Whether each entry is idle, and how many are removed and left.
fn vacuumed(alloc: Global, stack: &Stack) -> Result<String, Fail> {
    let mut text = vacuum_walk(alloc, stack)?;
    let counts = counts_told(alloc, &vacuum_done(alloc, stack)?)?;
    text.push_str(counts.as_str())?;
    Ok(text)
}

// A failure where a layer isn't that of these entries.
fn expect_layer(alloc: Global, layer: &Layer, entries: &str) -> Result<(), Fail> {
    let written = write_layer(alloc, layer)?;
    expect_so(written == manifest_of(alloc, entries)?)
}

const MOVED: &str =
    "dir /p redirect=/x, dir /p/q redirect=r, whiteout /p/r, whiteout /x | dir /x, dir /x/r, file /x/r/k";

fn deref_walk(alloc: Global, stack: &Stack) -> Result<String, Fail> {
    let work = DerefWork::new(stack);
    told(alloc, &plain_walk(alloc, &work, Piece::root(alloc, 0))?)
}

fn dereferenced(alloc: Global, stack: &Stack) -> Result<Layer, Fail> {
    let work = DerefWork::new(stack);
    let parcels = plain_walk(alloc, &work, Piece::root(alloc, 0))?;
    Ok(finish_deref(alloc, &work, parcels)?)
}

#[test]
fn a_moved_directory_is_filled_with_what_it_shows(rt: HostRuntime) -> Result<(), Fail> {
    let stack = stack_of(rt.alloc(), MOVED)?;
    let walk = deref_walk(rt.alloc(), &stack)?;
    same(MOVED, walk.as_str(), "0/: p x; 0/p: q; 0/p/q: k; ")
}

#[test]
fn a_filled_layer_has_no_redirect(rt: HostRuntime) -> Result<(), Fail> {
    let stack = stack_of(rt.alloc(), MOVED)?;
    let layer = dereferenced(rt.alloc(), &stack)?;
    expect_layer(
        rt.alloc(),
        &layer,
        "dir /p opaque=y, dir /p/q, file /p/q/k, whiteout /x",
    )
}

fn flatten_walk(alloc: Global, stack: &Stack) -> Result<String, Fail> {
    let work = FlattenWork::new(stack);
    told(alloc, &plain_walk(alloc, &work, Piece::root(alloc, 0))?)
}

#[test]
fn a_flatten_walks_the_merged_tree(rt: HostRuntime) -> Result<(), Fail> {
    let stack = stack_of(rt.alloc(), MOVED)?;
    let walk = flatten_walk(rt.alloc(), &stack)?;
    same(MOVED, walk.as_str(), "0/: p; 0/p: q; 0/p/q: k; ")
}

fn flattened(alloc: Global, stack: &Stack) -> Result<Layer, Fail> {
    let work = FlattenWork::new(stack);
    let parcels = plain_walk(alloc, &work, Piece::root(alloc, 0))?;
    Ok(finish_flatten(alloc, &work, parcels)?)
}

#[test]
fn a_flattened_layer_has_no_mark(rt: HostRuntime) -> Result<(), Fail> {
    let stack = stack_of(rt.alloc(), MOVED)?;
    let layer = flattened(rt.alloc(), &stack)?;
    expect_layer(rt.alloc(), &layer, "dir /p, dir /p/q, file /p/q/k")
}

const PULLED: &str = "whiteout /a, dir /b redirect=/a | dir /a, file /a/k | dir /b, file /b/z";

fn merge_walk(alloc: Global, stack: &Stack) -> Result<String, Fail> {
    let work = MergeWork::new(stack)?;
    told(alloc, &plain_walk(alloc, &work, Piece::root(alloc, 0))?)
}

#[test]
fn a_merge_walks_the_directories_of_the_new_layer(rt: HostRuntime) -> Result<(), Fail> {
    let stack = stack_of(rt.alloc(), PULLED)?;
    let walk = merge_walk(rt.alloc(), &stack)?;
    same(PULLED, walk.as_str(), "0/: b; 0/b: k; ")
}

fn merged(alloc: Global, stack: &Stack) -> Result<MergeDone, Fail> {
    let work = MergeWork::new(stack)?;
    let parcels = plain_walk(alloc, &work, Piece::root(alloc, 0))?;
    Ok(finish_merge(alloc, &work, parcels)?)
}

#[test]
fn a_merge_leaves_a_root_alone_over_the_new_layer(rt: HostRuntime) -> Result<(), Fail> {
    let stack = stack_of(rt.alloc(), PULLED)?;
    let MergeDone { top, lower } = merged(rt.alloc(), &stack)?;
    expect_layer(rt.alloc(), &top, "root")?;
    expect_layer(rt.alloc(), &lower, "dir /b opaque=y, file /b/k")
}

#[test]
fn a_layer_alone_is_not_merged(rt: HostRuntime) -> Result<(), Fail> {
    let alone = stack_of(rt.alloc(), "root")?;
    expect_so(MergeWork::new(&alone).err() == Some(MergeFault::NoLower))
}

fn is_over_the_limits(alloc: Global, stack: &Stack) -> Result<bool, Fail> {
    let work = MergeWork::new(stack)?;
    let parcels = plain_walk(alloc, &work, Piece::root(alloc, 0))?;
    Ok(finish_merge(alloc, &work, parcels).err() == Some(MergeFault::LimitOut))
}

fn row_without_data(alloc: Global, row: &str) -> Result<(), Fail> {
    let stack = stack_of(alloc, row)?;
    expect_so(is_over_the_limits(alloc, &stack)?)?;
    let (top, _) = row.split_once(" | ").unwrap_or((row, ""));
    expect_layer(alloc, &dereferenced(alloc, &stack)?, top)
}

// A metacopy file without data, and one with a malformed redirect: the check finds a fault in each.
const WITHOUT_DATA: &str = "\
bare /f metacopy= | root
bare /f metacopy= redirect=a/b | file /f
";

#[test]
fn a_metacopy_file_without_data_is_not_merged_and_stays_where_it_is_dereferenced(
    rt: HostRuntime,
) -> Result<(), Fail> {
    for row in WITHOUT_DATA.lines() {
        row_without_data(rt.alloc(), row)?;
    }
    Ok(())
}

fn counts_of<T: Drop>(alloc: Global, parcels: &[Parcel<Vec<T>>]) -> Result<String, Fail> {
    let mut text = String::new(alloc);
    for Parcel { piece, out, .. } in parcels {
        let dir = piece.dir.shown(alloc)?;
        text.push_str(format!(in alloc; "{dir} {}; ", out.len())?.as_str())?;
    }
    Ok(text)
}

// How many wrong blobs there are at each piece.
fn blob_walk(alloc: Global, blobs: &[Blob]) -> Result<String, Fail> {
    let work = BlobWork::new(blobs);
    let root = Piece::root(alloc, BLOB_SPACE);
    counts_of(alloc, &plain_walk(alloc, &work, root)?)
}

fn wrong_names(alloc: Global, blobs: &[Blob]) -> Result<Vec<Digest>, Fail> {
    if !blobs_in_order(blobs) {
        return Err(Fail::new("the names do not ascend"));
    }
    let work = BlobWork::new(blobs);
    let root = Piece::root(alloc, BLOB_SPACE);
    let parcels = plain_walk(alloc, &work, root)?;
    Ok(finish_blobs(alloc, &work, parcels)?)
}

#[test]
fn blobs_are_digested_by_their_first_two_digits(rt: HostRuntime) -> Result<(), Fail> {
    let blobs = blobs_of(rt.alloc(), "abc=abd ab")?;
    let walk = blob_walk(rt.alloc(), &blobs)?;
    same("abc=abd ab", walk.as_str(), "/ 0; /ba 1; /fb 0; ")?;
    let wrong = wrong_names(rt.alloc(), &blobs)?;
    expect_so(wrong.len() == 1 && wrong.first() == blobs.first().map(|blob| &blob.name))
}
