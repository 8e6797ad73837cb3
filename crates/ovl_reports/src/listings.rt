//! The report of show, from the walk of its work.
ghost use Rattle.std.specs.Prelude.{◌≡◌, ℕ, ◌+◌, ◌-◌, ◌*◌, ◌<◌, ◌≤◌, ◌++◌, ◌∷◌, [], List, IfOk, OnOk, codes, decimal, drop, if◌then◌else◌, length, string_bytes, take};
ghost use Rattle.std.specs.Fork.{slice_chunk};
ghost use Rattle.std.specs.List.{flat_map, sum_by};
ghost use Rattle.ovl_names.specs.Escapes.{escaped};
ghost use Rattle.ovl_lookup.specs.Stacks.{StackView};
ghost use Rattle.ovl_board.specs.Parcels.{parcel_views};
ghost use Rattle.ovl_reports.specs.declared.listings.Open.{Open};
ghost use Rattle.ovl_reports.specs.Directories.{ShowParcel};
ghost use Rattle.ovl_reports.specs.Listings.{IsShowReport, IsTreeOf, StartsAtDirectory, TellsLeaves, merged_tree, name_line, one_told};
ghost use Rattle.ovl_reports.specs.Reports.{line_of, look_line, show_line};
ghost use Rattle.ovl_reports.specs.Shares.{AreJoined};

use crate::reports::{push_attributes, push_contents, push_count, push_name, push_status};
use crate::shares::{joined, share_of, side_by_side};
use ovl_board::Parcel;
use ovl_inode::Inode;
use ovl_lookup::Look;
use ovl_names::Name;
use std::alloc::{AllocError, Global};
use std::thread::{Threads, map_indices};

// The room that is made for each line: most take less. A text that has to grow may lie in memory
// twice.
const LINE_ROOM: usize = 160;

// The report by what is shown at `/` and the parcels.
fn report_of_tree(
    alloc: Global,
    root: &Look,
    parcels: &[Parcel<Vec<(Name, Look)>>],
) -> Result<Vec<u8>, AllocError>
    ensures { IfOk result
        (λ report. (stack : StackView)
        → IsTreeOf stack root.now (parcel_views (λ looks. looks.items) parcels.now)
        → IsShowReport stack report.items) }
{
    let entries = entries_of(parcels)?;
    let lines = lines_from(alloc, root, parcels, 0, entries)?;
    with_count(lines, entries)
}

/// The report of `show` by what is shown at `/` and the parcels of the walk, written by at most as
/// many threads as there are workers: each writes a share of the lines. The parcels are let go
/// while these are put together.
pub fn report_by<R: Threads + Sync>(
    rt: &R,
    alloc: Global,
    root: &Look,
    parcels: Vec<Parcel<Vec<(Name, Look)>>>,
    workers: usize,
) -> Result<Vec<u8>, AllocError>
    requires { 0 < workers }
    ensures { IfOk result
        (λ report. (stack : StackView)
        → IsTreeOf stack root.now (parcel_views (λ looks. looks.items) parcels.items)
        → IsShowReport stack report.items) }
{
    let walk = parcels.as_slice();
    let entries = entries_of(walk)?;
    let share = share_of(entries, workers);
    if entries <= share {
        return report_of_tree(alloc, root, walk);
    }
    let parts = parts_by(rt, alloc, root, walk, share, entries.div_ceil(share))?;
    let lines = joined_beside(rt, alloc, workers, parts, parcels)?;
    with_count(lines, entries)
}

// The texts of all shares one after another; the parcels are let go beside that.
fn joined_beside<R: Threads>(
    rt: &R,
    alloc: Global,
    workers: usize,
    parts: Vec<Result<String, AllocError>>,
    parcels: Vec<Parcel<Vec<(Name, Look)>>>,
) -> Result<String, AllocError>
    ensures { IfOk result (λ whole. AreJoined string_bytes parts.items (string_bytes whole)) }
{
    let join = || -> Result<String, AllocError>
        ensures { IfOk result (λ whole. AreJoined string_bytes parts.items (string_bytes whole)) }
    { joined(alloc, parts) };
    let (lines, ()) = side_by_side(rt, workers, join, || drop(parcels));
    lines
}

// The report of these lines, with the number of all paths after them.
fn with_count(mut lines: String, entries: usize) -> Result<Vec<u8>, AllocError>
    ensures { IfOk result
        (λ report. report.items
        ≡ string_bytes lines ++ codes "entries " ++ decimal entries ++ codes "\n") }
{
    push_count(&mut lines, entries as u64)?;
    Ok(lines.into_bytes())
}

// The number of all paths: `/`, and what is in the directories. Memory can't hold as many as
// have none.
fn entries_of(parcels: &[Parcel<Vec<(Name, Look)>>]) -> Result<usize, AllocError>
    ensures { IfOk result
        (λ entries. entries ≡ 1 + sum_by (λ parcel. length parcel.out.items) parcels.now) }
{
    // Made by hand (1): a sum of lengths of lists in memory, which has fewer bytes than that.
    let mut entries: usize = 1;
    for parcel in parcels {
        entries = entries.checked_add(parcel.out.len()).ok_or(AllocError)?;
    }
    Ok(entries)
}

// The lines of the first paths, in this many shares of `share` lines at most; each is written by a
// thread of its own.
fn parts_by<R: Threads + Sync>(
    rt: &R,
    alloc: Global,
    root: &Look,
    parcels: &[Parcel<Vec<(Name, Look)>>],
    share: usize,
    shares: usize,
) -> Result<Vec<Result<String, AllocError>>, AllocError>
    requires { 0 < share }
    ensures { IfOk result
        (λ parts. (stack : StackView)
        → IsTreeOf stack root.now (parcel_views (λ looks. looks.items) parcels.now)
        → (whole : List ℕ) → AreJoined string_bytes parts.items whole
        → whole ≡ flat_map show_line (take (shares * share) (merged_tree stack))) }
{
    // Made by hand (1): the number of a line, of lines that are in memory.
    let write = |index: usize| -> Result<String, AllocError>
        requires { 0 < share }
        ensures { IfOk result
            (λ lines. (stack : StackView)
            → IsTreeOf stack root.entry.now (parcel_views (λ looks. looks.items) parcels.entry.now)
            → string_bytes lines
            ≡ flat_map show_line (slice_chunk (merged_tree stack) share index)) }
    {
        let first = index.checked_mul(share).ok_or(AllocError)?;
        lines_from(alloc, root, parcels, first, share)
    };
    let parts = map_indices(rt, alloc, shares, &write)?;
    Ok(parts)
}

// The lines of the paths of the merged tree from number `first` on, `share` at most; `/` has number
// 0.
fn lines_from(
    alloc: Global,
    root: &Look,
    parcels: &[Parcel<Vec<(Name, Look)>>],
    first: usize,
    share: usize,
) -> Result<String, AllocError>
    requires { 0 < share }
    ensures { IfOk result
        (λ lines. (stack : StackView)
        → IsTreeOf stack root.now (parcel_views (λ looks. looks.items) parcels.now)
        → string_bytes lines ≡ flat_map show_line (take share (drop first (merged_tree stack)))) }
{
    // Made by hand (1): the number of a line, of lines that are in memory.
    let end = first.checked_add(share).ok_or(AllocError)?;
    let mut lines = String::with_capacity(alloc, share.saturating_mul(LINE_ROOM))?;
    push_lines(alloc, &mut lines, root, parcels, first, end)?;
    Ok(lines)
}

// Writes the lines of the paths from number `first` up to `end` into an empty text.
fn push_lines(
    alloc: Global,
    lines: &mut String,
    root: &Look,
    parcels: &[Parcel<Vec<(Name, Look)>>],
    first: usize,
    end: usize,
) -> Result<(), AllocError>
    requires empty { string_bytes lines.old ≡ [] }
    requires some { first < end }
    ensures { OnOk result ((stack : StackView)
        → IsTreeOf stack root.now (parcel_views (λ looks. looks.items) parcels.now)
        → string_bytes lines.new
        ≡ flat_map show_line (take (end - first) (drop first (merged_tree stack)))) }
{
    push_wanted(alloc, lines, first == 0, "", "", root)?;
    let mut told = 1;
    let mut open = Vec::new(alloc);
    let mut rest = enter(&mut open, parcels, String::new(alloc))?;
    while let Some(mut directory) = open.pop() {
        told = push_leaves(alloc, lines, first, end, told, &mut directory)?;
        if told == end {
            break;
        }
        let Some(entry) = directory.parcel.out.get(directory.told) else {
            continue;
        };
        rest = push_entered(
            alloc,
            lines,
            first <= told,
            &mut open,
            directory,
            entry,
            rest,
        )?;
        told += 1;
    }
    Ok(())
}

// Tells the next entry of an open directory, which is one itself: appends its line, where it is
// wanted, and opens it, inside the other. Gives the parcels after its own.
fn push_entered<'a>(
    alloc: Global,
    lines: &mut String,
    wanted: bool,
    opened: &mut Vec<Open<'a>>,
    mut directory: Open<'a>,
    entry: &(Name, Look),
    parcels: &'a [Parcel<Vec<(Name, Look)>>],
) -> Result<&'a [Parcel<Vec<(Name, Look)>>], AllocError>
    requires { directory.told < length directory.parcel.now.out.items }
    ensures line { OnOk result (string_bytes lines.new ≡ string_bytes lines.old
        ++ (if wanted then name_line (string_bytes directory.entry.text) entry.now else [])) }
    ensures next { IfOk result
        (λ rest. (parcel : ShowParcel) (others : List ShowParcel) → parcels.now ≡ parcel ∷ others
        → (rest.now ≡ others) × ((last : Open)
        × ((opened.new.items ≡ (opened.old.items ++ one_told directory.entry ∷ []) ++ last ∷ [])
        × (last.parcel.now ≡ parcel) × (last.told ≡ 0)
        × (string_bytes last.text
        ≡ string_bytes directory.entry.text ++ (codes "/" ++ escaped entry.now.0))))) }
    ensures few { IfOk result (λ _. length opened.new.items ≤ length opened.old.items + 2) }
{
    let (name, look) = entry;
    let above = directory.text.as_str();
    push_wanted(alloc, lines, wanted, above, name.as_str(), look)?;
    let text = text_of(alloc, above, name.as_str())?;
    directory.told += 1;
    opened.push(directory)?;
    enter(opened, parcels, text)
}

// A directory whose entries are being written: its parcel, how many of them are written, and what
// comes before each of their names in a report.
#[derive(Drop)]
struct Open<'a> {
    parcel: &'a Parcel<Vec<(Name, Look)>>,
    told: usize,
    text: String,
}

// Opens the directory of the first parcel, if there is one: pushes it to `opened`, with no entry
// written yet; `text` is what comes before the names in it. Gives the other parcels.
fn enter<'a>(
    opened: &mut Vec<Open<'a>>,
    parcels: &'a [Parcel<Vec<(Name, Look)>>],
    text: String,
) -> Result<&'a [Parcel<Vec<(Name, Look)>>], AllocError>
    ensures next { IfOk result
        (λ rest. (parcel : ShowParcel) (others : List ShowParcel) → parcels.now ≡ parcel ∷ others
        → (rest.now ≡ others) × ((last : Open) × ((opened.new.items ≡ opened.old.items ++ last ∷ [])
        × (last.parcel.now ≡ parcel) × (last.told ≡ 0)
        × (string_bytes last.text ≡ string_bytes text)))) }
    ensures few { IfOk result (λ _. length opened.new.items ≤ length opened.old.items + 1) }
{
    let Some((parcel, rest)) = parcels.split_first() else {
        return Ok(parcels);
    };
    opened.push(Open {
        parcel,
        told: 0,
        text,
    })?;
    Ok(rest)
}

// Tells what isn't a directory in an open directory, up to what is one: appends the lines from
// number `first` on. This many paths are written before; gives how many are written then, `end` at
// most.
fn push_leaves(
    alloc: Global,
    lines: &mut String,
    first: usize,
    end: usize,
    told: usize,
    directory: &mut Open<'_>,
) -> Result<usize, AllocError>
    requires { told ≤ end }
    ensures leaves { IfOk result (λ number. TellsLeaves first (string_bytes directory.old.text)
        (drop directory.old.told directory.old.parcel.now.out.items)
        (drop directory.new.told directory.old.parcel.now.out.items)
        told number (string_bytes lines.old) (string_bytes lines.new)) }
    ensures within { IfOk result (λ number. number ≤ end) }
    ensures next { IfOk result
        (λ number. number < end
        → StartsAtDirectory (drop directory.new.told directory.old.parcel.now.out.items)) }
    ensures same { OnOk result
        ((directory.new.parcel ≡ directory.old.parcel)
        × (directory.new.text ≡ directory.old.text)) }
{
    let mut number = told;
    while let Some((name, look)) = directory.parcel.out.get(directory.told) {
        if number == end || look.is_shown_directory() {
            break;
        }
        push_wanted(
            alloc,
            lines,
            first <= number,
            directory.text.as_str(),
            name.as_str(),
            look,
        )?;
        number += 1;
        directory.told += 1;
    }
    Ok(number)
}

/// The next number: memory can't hold as many paths as have none.
pub(crate) fn one_more(entries: u64) -> Result<u64, AllocError>
    ensures { IfOk result (λ more. more ≡ entries + 1) }
{
    // Made by hand (1): a number of paths that are in memory.
    entries.checked_add(1).ok_or(AllocError)
}

/// What is before the names in a directory, by what is before its own name.
pub(crate) fn text_of(alloc: Global, above: &str, name: &str) -> Result<String, AllocError>
    ensures { IfOk result
        (λ text. string_bytes text ≡ above.now ++ (codes "/" ++ escaped name.now)) }
{
    // Few names have characters that are escaped.
    let room = above.len().saturating_add(1).saturating_add(name.len());
    let mut text = String::with_capacity(alloc, room)?;
    push_place(alloc, &mut text, above, name)?;
    Ok(text)
}

// Appends the line of what is shown at a path, where it is wanted.
fn push_wanted(
    alloc: Global,
    report: &mut String,
    wanted: bool,
    above: &str,
    name: &str,
    look: &Look,
) -> Result<(), AllocError>
    ensures { OnOk result (string_bytes report.new ≡ string_bytes report.old
        ++ (if wanted then look_line (above.now ++ (codes "/" ++ escaped name.now)) look.now
        else [])) }
{
    if !wanted {
        return Ok(());
    }
    push_look(alloc, report, above, name, look)
}

// Appends the line of what is shown at a path; `above` is the text of the path up to its last name.
fn push_look(
    alloc: Global,
    report: &mut String,
    above: &str,
    name: &str,
    look: &Look,
) -> Result<(), AllocError>
    ensures { OnOk result
        (string_bytes report.new
        ≡ string_bytes report.old
        ++ look_line (above.now ++ (codes "/" ++ escaped name.now)) look.now) }
{
    match look {
        Look::Shown(inode) => push_entry(alloc, report, above, name, inode, false),
        Look::Broken(inode) => push_entry(alloc, report, above, name, inode, true),
        Look::Nothing => Ok(()),
    }
}

fn push_entry(
    alloc: Global,
    report: &mut String,
    above: &str,
    name: &str,
    inode: &Inode,
    broken: bool,
) -> Result<(), AllocError>
    ensures { OnOk result
        (string_bytes report.new
        ≡ string_bytes report.old
        ++ line_of broken (above.now ++ (codes "/" ++ escaped name.now)) inode.now) }
{
    push_status(report, inode)?;
    push_contents(alloc, report, &inode.kind, broken)?;
    push_place(alloc, report, above, name)?;
    push_attributes(alloc, report, &inode.attrs)?;
    report.push_str("\n")
}

/// Appends the text of a path, of which `above` is the text up to its last name.
pub(crate) fn push_place(
    alloc: Global,
    report: &mut String,
    above: &str,
    name: &str,
) -> Result<(), AllocError>
    ensures { OnOk result
        (string_bytes report.new
        ≡ string_bytes report.old ++ (above.now ++ (codes "/" ++ escaped name.now))) }
{
    report.push_str(above)?;
    push_name(alloc, report, name)
}
