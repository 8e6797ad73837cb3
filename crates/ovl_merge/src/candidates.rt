//! The names that may have an entry in a directory of the new layer.
ghost use Rattle.std.specs.Prelude.{◌≡◌, ◌<◌, [], Option, length, IfOk, IfSome};
ghost use Rattle.ovl_names.specs.Paths.{PathNames};
ghost use Rattle.ovl_layer.specs.Sheets.{path_at};
ghost use Rattle.ovl_lookup.specs.NamedLists.{AreInOrder, both_joined};
ghost use Rattle.ovl_lookup.specs.Passes.{own_names_along};
ghost use Rattle.ovl_names.specs.NameSets.{put_names};
ghost use Rattle.ovl_merge.specs.Places.{merge_of, two_layers};
ghost use Rattle.ovl_merge.specs.Stands.{StandsAt};
ghost use Rattle.ovl_merge.specs.Reckoned.{IsVisited};
ghost use Rattle.ovl_merge.specs.Candidates.{AreCandidates, AreRowsOf, HaveEntries, candidate_told, candidates_told, unrowed, rows_on};
ghost use Rattle.ovl_merge.specs.Candidates as candidates;

use crate::directories::Directory;
use ovl_layer::Sheet;
use ovl_lookup::{HasName, Stack, join_lists};
use ovl_names::Name;
use std::alloc::{AllocError, Global};

/// A name in a directory, with the numbers of the rows that the two layers have by it there.
#[derive(Clone, Copy)]
pub(crate) struct Candidate<'a> {
    pub(crate) name: &'a Name,
    pub(crate) upper: Option<u32>,
    pub(crate) lower: Option<u32>,
}

/// One of the two layers.
#[derive(Clone, Copy)]
pub(crate) enum Side {
    Upper,
    Lower,
}

impl<'a> Candidate<'a> {
    // A name that the layer of `side` has in this row, with no row of the other layer.
    fn in_row(name: &'a Name, row: u32, side: Side) -> Candidate<'a>
        ensures { candidate_told result ≡ (name.now, rows_on side row) }
    {
        match side {
            Side::Upper => Candidate {
                name,
                upper: Some(row),
                lower: None,
            },
            Side::Lower => Candidate {
                name,
                upper: None,
                lower: Some(row),
            },
        }
    }
}

impl<'a> HasName for Candidate<'a> {
    ghost use Rattle.ovl_merge.specs.Candidates.{Rows, candidate_told, joined};

    ghost Own = { Rows };

    ghost told = { candidate_told };

    ghost joined_of = { joined };

    fn name(&self) -> &Name {
        self.name
    }

    // The rows of both.
    fn joined(&self, other: &Candidate<'a>) -> Candidate<'a> {
        Candidate {
            name: self.name,
            upper: self.upper.or(other.upper),
            lower: self.lower.or(other.lower),
        }
    }
}

/// The names of a directory's base at which the two layers may hide what is shown.
pub(crate) fn hidden_names(
    alloc: Global,
    stack: &Stack,
    directory: &Directory<'_>,
) -> Result<Vec<Name>, AllocError>
    requires several { 1 < length stack.now.layers }
    requires visited { IsVisited stack.now directory.now.path directory.now }
    ensures { IfOk result
        (λ names. names.items ≡ candidates.hidden_names (merge_of stack.now) directory.now) }
{
    if directory.is_open() {
        return Ok(Vec::new(alloc));
    }
    directory.rest_names(alloc, stack)
}

/// Names in a directory, in order, with all that have an entry: those of the two layers, and those
/// of its base where the two may hide these.
pub(crate) fn candidates_in<'a>(
    alloc: Global,
    stack: &'a Stack,
    directory: &Directory<'_>,
    hidden: &'a [Name],
) -> Result<Vec<Candidate<'a>>, AllocError>
    requires several { 1 < length stack.now.layers }
    requires visited { IsVisited stack.now directory.now.path directory.now }
    requires hidden { hidden.now ≡ candidates.hidden_names (merge_of stack.now) directory.now }
    ensures { IfOk result
        (λ candidates. HaveEntries (merge_of stack.now) directory.now candidates.items) }
{
    // Each layer of a stack is one.
    let _layers = stack.ordinary();
    let own = own_candidates(alloc, stack, directory)?;
    let hidden = without_rows(alloc, hidden)?;
    merged(alloc, own, hidden)
}

// The names that the two layers have in a directory.
fn own_candidates<'a>(
    alloc: Global,
    stack: &'a Stack,
    directory: &Directory<'_>,
) -> Result<Vec<Candidate<'a>>, AllocError>
    requires several { 1 < length stack.now.layers }
    requires visited { IsVisited stack.now directory.now.path directory.now }
    ensures { IfOk result (λ own. AreCandidates (merge_of stack.now) directory.now
        (put_names [] (own_names_along (two_layers (merge_of stack.now)).layers directory.now.path))
        (candidates_told own.items)) }
{
    // Each layer of a stack is one.
    let _layers = stack.ordinary();
    let upper = rows_of(alloc, stack.sheet(0), directory.upper, Side::Upper)?;
    let Some(below) = &directory.lower else {
        return Ok(upper);
    };
    let lower = rows_of(alloc, stack.sheet(1), below.row, Side::Lower)?;
    merged(alloc, upper, lower)
}

// The names that one layer has in the directory of a row, if it has that.
fn rows_of<'a>(
    alloc: Global,
    sheet: &'a Sheet,
    directory: Option<u32>,
    side: Side,
) -> Result<Vec<Candidate<'a>>, AllocError>
    requires { IfSome directory (λ row. row < length sheet.now) }
    ensures { IfOk result
        (λ rows. (path : PathNames) (next : Option PathNames)
        → StandsAt sheet.now path directory next
        → AreRowsOf side sheet.now path (candidates_told rows.items)) }
{
    match directory {
        Some(row) => rows_in(alloc, sheet, row, side),
        None => Ok(Vec::new(alloc)),
    }
}

// The names that the layer of `side` has in the directory of a row, in the order of the rows.
fn rows_in<'a>(
    alloc: Global,
    sheet: &'a Sheet,
    directory: u32,
    side: Side,
) -> Result<Vec<Candidate<'a>>, AllocError>
    requires { directory < length sheet.now }
    ensures { IfOk result
        (λ rows. AreRowsOf side sheet.now (path_at sheet.now directory)
        (candidates_told rows.items)) }
{
    // Each sheet is a layer.
    let _root = sheet.root_number();
    let below = sheet.below(directory);
    let mut rows = Vec::with_capacity(alloc, below.len())?;
    for (row, name) in below {
        rows.push(Candidate::in_row(name, row, side))?;
    }
    Ok(rows)
}

// Names of which no row is known.
fn without_rows<'a>(alloc: Global, names: &'a [Name]) -> Result<Vec<Candidate<'a>>, AllocError>
    ensures { IfOk result (λ candidates. candidates_told candidates.items ≡ unrowed names.now) }
{
    let mut candidates = Vec::with_capacity(alloc, names.len())?;
    for name in names {
        candidates.push(Candidate {
            name,
            upper: None,
            lower: None,
        })?;
    }
    Ok(candidates)
}

// Both lists as one, in the order of names, in which each of them is; a name that both have comes
// once, with the rows of both.
fn merged<'a>(
    alloc: Global,
    upper: Vec<Candidate<'a>>,
    lower: Vec<Candidate<'a>>,
) -> Result<Vec<Candidate<'a>>, AllocError>
    requires { AreInOrder (candidates_told lower.items) }
    ensures { IfOk result
        (λ both. candidates_told both.items
        ≡ both_joined candidates.joined (candidates_told upper.entry.items)
        (candidates_told lower.entry.items)) }
{
    if upper.is_empty() {
        return Ok(lower);
    }
    if lower.is_empty() {
        return Ok(upper);
    }
    join_lists(alloc, &upper, &lower)
}
