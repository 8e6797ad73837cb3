//! All findings in the order of the report, from the walks of all layers.
ghost use Rattle.std.specs.Prelude.{◌≡◌, ◌++◌, [], if◌then◌else◌, length, map, IfOk, OnOk};
ghost use Rattle.std.specs.List.{flat_map, list_any};
ghost use Rattle.std.specs.List.Sorted.{IsPermutation};
ghost use Rattle.ovl_lookup.specs.Stacks.{all_layers};
ghost use Rattle.ovl_board.specs.Parcels.{parcel_view, parcel_views};
ghost use Rattle.ovl_check.specs.Contents.{findings_of_contents};
ghost use Rattle.ovl_check.specs.Checks.{check_seen};
ghost use Rattle.ovl_check.specs.CheckViews.{check_view};
ghost use Rattle.ovl_check.specs.Walks.{AreLayerWalks, double_at, places_with, moved_places, if_sought, doubles_after, found_along};

use crate::findings::{Code, Finding};
use crate::lower_paths::LowerPathRef;
use crate::work::{CheckOut, CheckWork};
use ovl_board::Parcel;
use ovl_names::Path;
use std::alloc::{AllocError, Global};
use std::collections::BTreeSet;

/// All that is found in a stack and its blobs, by layer, then by path, then by code, each once. The
/// lists of parcels are the plain walks of the work from the root of each layer, in order. Fails
/// only when out of memory.
///
/// What is found in a stack of two layers without contents, where `walks_of` gives the plain walks
/// as at [`CheckWork`]:
///
/// ```
/// let work = CheckWork::new(stack, &[], &[]);
/// let layers = walks_of(alloc, &work, 2)?;
/// told(alloc, &finish_check(alloc, &work, layers)?)
/// ```
pub fn finish_check(
    alloc: Global,
    _work: &CheckWork<'_>,
    layers: Vec<Vec<Parcel<CheckOut<'_>>>>,
) -> Result<Vec<Finding>, AllocError>
    requires count { length layers.items ≡ length (all_layers _work.now.stack.now) }
    requires walks { AreLayerWalks (check_view _work.now) 0
        (map (λ parcels. parcel_views check_seen parcels.items) layers.items) }
    ensures { IfOk result
        (λ found. found.items
        ≡ findings_of_contents (check_view _work.now).contents _work.now.stack.now) }
{
    // The stack keeps its layers.
    let _layers = _work.stack.layers();
    let mut found = found_in(alloc, layers)?;
    found.sort()?;
    found.dedup();
    Ok(found)
}

// What is found along the walks of all layers.
fn found_in(
    alloc: Global,
    layers: Vec<Vec<Parcel<CheckOut<'_>>>>,
) -> Result<Vec<Finding>, AllocError>
    ensures { IfOk result
        (λ found. IsPermutation
        (flat_map
        (λ parcels. found_along
        (parcel_views check_seen parcels.items)) layers.entry.items) found.items) }
{
    let mut found = Vec::new(alloc);
    for parcels in layers {
        push_doubles(alloc, &parcels, &mut found)?;
        push_outputs(alloc, parcels, &mut found)?;
    }
    Ok(found)
}

// Adds the outputs of all directories. If these are in the order of a walk, what is found in a
// directory is among what is found below it, in path order: it waits, the next one last.
fn push_outputs(
    alloc: Global,
    parcels: Vec<Parcel<CheckOut<'_>>>,
    findings: &mut Vec<Finding>,
) -> Result<(), AllocError>
    ensures { OnOk result
        (IsPermutation
        (findings.old.items
        ++ flat_map (λ parcel. parcel.out.findings.items) parcels.entry.items) findings.new.items) }
{
    let mut waiting = Vec::new(alloc);
    for parcel in parcels {
        let Parcel { piece, kids, out } = parcel;
        let mut found = out.findings;
        push_before(&mut waiting, &piece.dir, findings)?;
        if kids.is_empty() {
            findings.append(&mut found)?;
        } else {
            found.reverse();
            waiting.append(&mut found)?;
        }
    }
    waiting.reverse();
    findings.append(&mut waiting)
}

// Moves findings from the end of a list while they come before a directory.
fn push_before(
    waiting: &mut Vec<Finding>,
    directory: &Path,
    findings: &mut Vec<Finding>,
) -> Result<(), AllocError>
    ensures { OnOk result
        (IsPermutation (findings.old.items ++ waiting.old.items)
        (findings.new.items ++ waiting.new.items)) }
{
    while let Some(finding) = waiting.pop() {
        if finding.path > *directory {
            waiting.push(finding)?;
            return Ok(());
        }
        findings.push(finding)?;
    }
    Ok(())
}

// Adds a finding for each moved directory that goes on where an earlier one does.
fn push_doubles<'p, 'a>(
    alloc: Global,
    parcels: &'p [Parcel<CheckOut<'a>>],
    findings: &mut Vec<Finding>,
) -> Result<(), AllocError>
    ensures { OnOk result
        (findings.new.items
        ≡ findings.old.items ++ doubles_after [] (parcel_views check_seen parcels.now)) }
{
    if !has_moved(parcels) {
        return Ok(());
    }
    let moved = places_of_moved(alloc, parcels)?;
    let mut places = BTreeSet::new(alloc);
    for parcel in parcels {
        note_place(alloc, parcel, &moved, &mut places, findings)?;
    }
    Ok(())
}

// Whether one of these directories is a moved one; without one there are no doubles.
fn has_moved(parcels: &[Parcel<CheckOut<'_>>]) -> bool
    ensures { result ≡ list_any (λ parcel. parcel.out.moved) parcels.now }
{
    parcels.iter().any(|parcel| parcel.out.moved)
}

// Where the moved ones of these directories go on. No other place can be that of a double.
fn places_of_moved<'p, 'a>(
    alloc: Global,
    parcels: &'p [Parcel<CheckOut<'a>>],
) -> Result<BTreeSet<LowerPathRef<'p, 'a>>, AllocError>
    ensures { IfOk result
        (λ places. places.keys ≡ moved_places [] (parcel_views check_seen parcels.now)) }
{
    let mut places = BTreeSet::new(alloc);
    for parcel in parcels {
        add_moved(parcel, &mut places)?;
    }
    Ok(places)
}

// Adds where a directory goes on, if it is a moved one.
fn add_moved<'p, 'a>(
    parcel: &'p Parcel<CheckOut<'a>>,
    places: &mut BTreeSet<LowerPathRef<'p, 'a>>,
) -> Result<(), AllocError>
    ensures { OnOk result
        (places.new.keys
        ≡ (if parcel.now.out.moved
        then places_with places.old.keys (check_seen parcel.now.out).place else places.old.keys)) }
{
    if !parcel.out.moved {
        return Ok(());
    }
    let Some(place) = &parcel.out.place else {
        return Ok(());
    };
    places.insert(LowerPathRef { place })?;
    Ok(())
}

// Notes where a directory goes on, if a moved one does too, and adds a finding where it is moved
// and an earlier one goes on there.
fn note_place<'p, 'a>(
    alloc: Global,
    parcel: &'p Parcel<CheckOut<'a>>,
    moved: &BTreeSet<LowerPathRef<'p, 'a>>,
    places: &mut BTreeSet<LowerPathRef<'p, 'a>>,
    findings: &mut Vec<Finding>,
) -> Result<(), AllocError>
    ensures found { OnOk result (findings.new.items ≡ findings.old.items
        ++ double_at places.old.keys (parcel_view check_seen parcel.now)
        (if_sought moved.now.keys parcel.now.out.moved (check_seen parcel.now.out).place)) }
    ensures noted { OnOk result
        (places.new.keys
        ≡ places_with places.old.keys
        (if_sought moved.now.keys parcel.now.out.moved (check_seen parcel.now.out).place)) }
{
    let Some(place) = place_among(parcel, moved) else {
        return Ok(());
    };
    let first = places.insert(place)?;
    if parcel.out.moved && !first {
        findings.push(Finding {
            layer: parcel.piece.space,
            path: parcel.piece.dir.copy(alloc)?,
            code: Code::RedirectDouble,
        })?;
    }
    Ok(())
}

// Where a directory goes on, if it is itself moved, or if that is one of these places.
fn place_among<'p, 'a>(
    parcel: &'p Parcel<CheckOut<'a>>,
    places: &BTreeSet<LowerPathRef<'p, 'a>>,
) -> Option<LowerPathRef<'p, 'a>>
    ensures { result
        ≡ if_sought places.now.keys parcel.now.out.moved (check_seen parcel.now.out).place }
{
    let Some(place) = &parcel.out.place else {
        return None;
    };
    let place = LowerPathRef { place };
    // Sought among its own, the place of a moved one is compared with itself.
    if !parcel.out.moved && !places.contains(&place) {
        return None;
    }
    Some(place)
}
