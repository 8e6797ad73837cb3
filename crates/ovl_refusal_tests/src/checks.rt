//! The works of the check, walked by one thread.
ghost use Rattle.std.specs.Prelude.{◌≡◌, IfOk, length, map};
ghost use Rattle.ovl_board.specs.Parcels.{parcel_views};
ghost use Rattle.ovl_check.specs.Checks.{check_seen};
ghost use Rattle.ovl_check.specs.CheckViews.{check_view};
ghost use Rattle.ovl_check.specs.Walks.{AreLayerWalks};

use crate::samples::{DOUBLE, moved_stack, stack_of};
use ovl_board::{Parcel, Piece, plain_walk};
use ovl_check::{
    BLOB_SPACE, Blob, BlobWork, CheckOut, CheckWork, Finding, blobs_in_order, finish_blobs,
    finish_check, stated_names,
};
use ovl_inode::Digest;
use ovl_lookup::Stack;
use ovl_test_rows::expect_so;
use std::alloc::{AllocError, Global};
use std::test::Fail;

// The plain walks of the first `count` layers, each from its root.
fn walks_of<'a>(
    alloc: Global,
    work: &CheckWork<'a>,
    count: u16,
) -> Result<Vec<Vec<Parcel<CheckOut<'a>>>>, AllocError>
    ensures count { IfOk result (λ layers. length layers.items ≡ count) }
    ensures walks { IfOk result
        (λ layers. AreLayerWalks (check_view work.now) 0
        (map (λ parcels. parcel_views check_seen parcels.items) layers.items)) }
{
    let mut layers = Vec::new(alloc);
    for i in 0..count {
        layers.push(plain_walk(alloc, work, Piece::root(alloc, i))?)?;
    }
    Ok(layers)
}

// Findings, each with its layer and its path.
fn told(alloc: Global, findings: &[Finding]) -> Result<String, AllocError> {
    let mut text = String::new(alloc);
    for Finding { layer, path, code } in findings {
        let path = path.shown(alloc)?;
        let line = format!(in alloc; "{code:?} {layer} {path}; ")?;
        text.push_str(line.as_str())?;
    }
    Ok(text)
}

// What is found in a stack of two layers, of which no blob is there.
fn found(alloc: Global, stack: &Stack) -> Result<String, AllocError> {
    if stack.layers() != 2 {
        return String::from_str(alloc, "not two layers");
    }
    let work = CheckWork::new(stack, &[], &[]);
    let layers = walks_of(alloc, &work, 2)?;
    told(alloc, &finish_check(alloc, &work, layers)?)
}

fn is_found(alloc: Global, stack: &Stack, wanted: &str) -> Result<bool, AllocError> {
    Ok(found(alloc, stack)?.as_str() == wanted)
}

fn is_named(alloc: Global, stack: &Stack) -> Result<bool, AllocError> {
    Ok(stated_names(alloc, stack)?.len() == 1)
}

// Of two blobs that have other bytes than their names say.
fn are_digested(alloc: Global, blobs: &[Blob]) -> Result<bool, AllocError> {
    if !blobs_in_order(blobs) {
        return Ok(false);
    }
    let work = BlobWork::new(blobs);
    let parcels = plain_walk(alloc, &work, Piece::root(alloc, BLOB_SPACE))?;
    let wrong = finish_blobs(alloc, &work, parcels)?;
    Ok(wrong.len() == 2)
}

fn blobs_of(alloc: Global) -> Result<Vec<Blob>, AllocError> {
    let mut blobs = Vec::new(alloc);
    for digits in [
        "ca978112ca1bbdcafac231b39a23dc4da786eff8147c4e72b9807785afee48bb",
        "fb8e20fc2e4c3f248c60c39bd652f3c1347298bb977b8b4d5903b85055620603",
    ] {
        if let Ok(name) = Digest::parse(digits) {
            let bytes = Vec::new(alloc);
            blobs.push(Blob { name, bytes })?;
        }
    }
    Ok(blobs)
}

#[test]
fn a_stack_is_checked(rt: HostRuntime) -> Result<(), Fail> {
    let stack = moved_stack(rt.alloc())?;
    let wanted = "BlobMissing 1 /m; BlobMissing 1 /n/z; BlobMissing 1 /x/k; ";
    expect_so(again!(is_found(rt.alloc(), &stack, wanted), AllocError)?)
}

#[test]
fn the_blob_of_three_files_is_named_once(rt: HostRuntime) -> Result<(), Fail> {
    let stack = moved_stack(rt.alloc())?;
    expect_so(again!(is_named(rt.alloc(), &stack), AllocError)?)
}

#[test]
fn the_second_of_two_moves_from_one_place_is_a_double(rt: HostRuntime) -> Result<(), Fail> {
    let stack = stack_of(rt.alloc(), DOUBLE)?;
    let wanted = "RedirectOpen 0 /a; RedirectDouble 0 /b; RedirectOpen 0 /b; ";
    expect_so(again!(is_found(rt.alloc(), &stack, wanted), AllocError)?)
}

#[test]
fn blobs_are_digested(rt: HostRuntime) -> Result<(), Fail> {
    let blobs = again!(blobs_of(rt.alloc()), AllocError)?;
    expect_so(again!(are_digested(rt.alloc(), &blobs), AllocError)?)
}
