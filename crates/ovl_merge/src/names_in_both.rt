//! The walks of a name through both layers, and what its place in the rest shows.
ghost use Rattle.std.specs.Prelude.{◌≡◌, ◌≢◌, ◌<◌, Option, None, Some, length, IfOk, IfSome};
ghost use Rattle.std.specs.Option.{option_map, option_and_then};
ghost use Rattle.ovl_names.specs.Paths.{PathNames, child_path};
ghost use Rattle.ovl_inode.specs.Marks as marks;
ghost use Rattle.ovl_lookup.specs.declared.looks.Look.{Look};
ghost use Rattle.ovl_lookup.specs.Merged.{look};
ghost use Rattle.ovl_lookup.specs.ShownKinds.{shown_kind_of};
ghost use Rattle.ovl_merge.specs.Places.{merge_of, is_nothing_or, goes_on_at};
ghost use Rattle.ovl_merge.specs.Places as places;
ghost use Rattle.ovl_merge.specs.Reckoned.{IsVisited, next_lookup_at, upper_next_lookup};
ghost use Rattle.ovl_merge.specs.Stands.{IsOver, IsStand, IsNameWalk, IsRowAt, name_on, next_lookup_on, next_lookup_to};
ghost use Rattle.ovl_merge.specs.Candidates.{IsCandidate};
ghost use Rattle.ovl_merge.specs.NamesInBoth.{IsFirstFound, IsNameInBoth, IsLowerWalk, IsFoundMarked, IsPlaced, first_in, told_in, place_from, rest_from};

use crate::candidates::Candidate;
use crate::directories::Directory;
use crate::stands::{NameWalk, Stand, name_walk_at, name_walk_in};
use ovl_inode::is_directory;
use ovl_layer::Sheet;
use ovl_lookup::{
    Found, NextLookup, PathRope, RopeStep, ShownKind, Stack, follow, is_well_formed_metacopy,
};
use ovl_names::{Name, Path};
use std::alloc::{AllocError, Global};

/// The walks of a name in a directory.
#[derive(Drop)]
pub(crate) struct NameInBoth<'a> {
    pub(crate) name: &'a Name,
    // What the walk in the upper layer finds.
    pub(crate) upper: Option<Found<'a>>,
    // How the walk in the lower layer ends, if it goes on there.
    pub(crate) lower: LowerWalk<'a>,
}

/// How a walk in the lower layer ends.
#[derive(Drop)]
pub(crate) struct LowerWalk<'a> {
    pub(crate) found: Option<Found<'a>>,
    // Where the walk goes on in the rest, which is what lies below the two layers.
    pub(crate) rest: Option<Place<'a>>,
}

/// A place in the rest.
#[derive(Drop)]
pub(crate) enum Place<'a> {
    // By this name in the directory as which the rest knows the one above.
    Beside(&'a Name),
    // By its path from the root.
    At(PathRope<'a>),
}

impl<'a> NameInBoth<'a> {
    /// The walks of a name in the directory.
    pub(crate) fn of(
        alloc: Global,
        stack: &'a Stack,
        above: &Directory<'_>,
        candidate: &Candidate<'a>,
    ) -> Result<NameInBoth<'a>, AllocError>
        requires several { 1 < length stack.now.layers }
        requires above { IsVisited stack.now above.now.path above.now }
        requires candidate { IsCandidate (merge_of stack.now) above.now candidate.now }
        ensures name { IfOk result (λ name_in_both. name_in_both.name.now ≡ candidate.now.name.now) }
        ensures walks { IfOk result
            (λ name_in_both. IsNameInBoth (merge_of stack.now) (child_path above.now.path name_in_both.name.now)
            (next_lookup_at above.now.lower) name_in_both) }
    {
        let name = candidate.name;
        let NameWalk {
            found,
            next_lookup,
            ..
        } = name_walk_at(stack.sheet(0), name, candidate.upper);
        let lower = LowerWalk::of(alloc, stack, above, candidate, next_lookup)?;
        Ok(NameInBoth {
            name,
            upper: found,
            lower,
        })
    }

    /// The first thing that the two layers have at the name.
    pub(crate) fn first(&self) -> Option<&Found<'a>>
        ensures first { option_map (λ found. found.now.inode.now) result ≡ first_in self.now }
        ensures marked { IsFoundMarked self.now.upper → IsFoundMarked self.now.lower.found
            → IfSome result (λ found. found.now.mark.now ≡ marks.mark_of found.now.inode.now) }
    {
        match &self.upper {
            Some(found) => Some(found),
            None => self.lower.found.as_ref(),
        }
    }

    /// Where the first thing at the name goes on in the rest, if it is a directory or a metacopy
    /// file that does.
    pub(crate) fn reach(
        &self,
        alloc: Global,
        stack: &Stack,
        above: &Directory<'_>,
        found: &Found<'_>,
    ) -> Result<Option<&Place<'a>>, AllocError>
        requires several { 1 < length stack.now.layers }
        requires first { IsFirstFound stack.now above.now self.now found.now }
        ensures reach { IfOk result
            (λ reach. option_and_then
            (λ place. place_from (next_lookup_at above.now.lower) place.now) reach
            ≡ places.reach (merge_of stack.now) (child_path above.now.path self.now.name.now)) }
        ensures goes { IfOk result
            (λ reach. IfSome reach
            (λ _. places.reach (merge_of stack.now)
            (child_path above.now.path self.now.name.now) ≢ None)) }
    {
        let Some(place) = &self.lower.rest else {
            return Ok(None);
        };
        if goes_on(alloc, stack, above, found, &self.lower.found, place)? {
            return Ok(Some(place));
        }
        Ok(None)
    }
}

impl<'a> LowerWalk<'a> {
    // How the walk of a name in the directory ends, of which that in the upper layer goes on like
    // this.
    fn of(
        alloc: Global,
        stack: &'a Stack,
        above: &Directory<'_>,
        candidate: &Candidate<'a>,
        next_lookup: NextLookup<'a>,
    ) -> Result<LowerWalk<'a>, AllocError>
        requires several { 1 < length stack.now.layers }
        requires above { IsVisited stack.now above.now.path above.now }
        requires candidate { IsCandidate (merge_of stack.now) above.now candidate.now }
        ensures { IfOk result
            (IsLowerWalk (merge_of stack.now).lower
            (next_lookup_to (upper_next_lookup (merge_of stack.now) above.now.path) next_lookup.entry)
            (next_lookup_at above.now.lower)) }
    {
        match next_lookup {
            NextLookup::Beside(own) => LowerWalk::beside(alloc, stack, above, candidate, own),
            NextLookup::At(origin) => LowerWalk::at(alloc, stack.sheet(1), origin),
            NextLookup::Nowhere => Ok(LowerWalk::nothing()),
        }
    }

    // How the walk of a name in the directory ends in the lower layer.
    fn beside(
        alloc: Global,
        stack: &'a Stack,
        above: &Directory<'_>,
        candidate: &Candidate<'a>,
        name: &'a Name,
    ) -> Result<LowerWalk<'a>, AllocError>
        requires several { 1 < length stack.now.layers }
        requires above { IsVisited stack.now above.now.path above.now }
        requires candidate { IsCandidate (merge_of stack.now) above.now candidate.now }
        ensures { IfOk result
            (IsLowerWalk (merge_of stack.now).lower
            (name_on (upper_next_lookup (merge_of stack.now) above.now.path) name.now)
            (next_lookup_at above.now.lower)) }
    {
        let Some(lower) = &above.lower else {
            return Ok(LowerWalk::nothing());
        };
        let NameWalk {
            found,
            next_lookup,
            ..
        } = name_walk_by(lower, stack.sheet(1), candidate, name);
        let rest = place_of(alloc, lower, next_lookup)?;
        Ok(LowerWalk { found, rest })
    }

    // How the walk of a path from the root ends in the lower layer.
    fn at(alloc: Global, sheet: &'a Sheet, path: &'a Path) -> Result<LowerWalk<'a>, AllocError>
        ensures { (above : Option PathNames)
            → IfOk result (IsLowerWalk sheet.now (Some path.now) above) }
    {
        let rope = PathRope::of(alloc, &path.names())?;
        let RopeStep {
            found,
            next,
            closed,
        } = follow(alloc, sheet, rope)?;
        let rest = rest_at(next, closed);
        Ok(LowerWalk { found, rest })
    }

    // No walk: nothing is found, and nothing goes on in the rest.
    fn nothing() -> LowerWalk<'a>
        ensures found { result.found ≡ None }
        ensures rest { result.rest ≡ None }
    {
        LowerWalk {
            found: None,
            rest: None,
        }
    }
}

// How the walk of a name in the directory in the lower layer ends: the row of the candidate's own
// name is known.
fn name_walk_by<'a>(
    lower: &Stand<'_>,
    sheet: &'a Sheet,
    candidate: &Candidate<'a>,
    name: &'a Name,
) -> NameWalk<'a>
    requires over { IsOver sheet.now lower.now }
    requires inside { IfSome candidate.now.lower (λ row. row < length sheet.now) }
    ensures { (path : PathNames) → IsStand sheet.now path lower.now
        → IsRowAt sheet.now (child_path path candidate.now.name.now) candidate.now.lower
        → IsNameWalk sheet.now (child_path path name.now) lower.now.next result }
{
    if *name == *candidate.name {
        name_walk_at(sheet, name, candidate.lower)
    } else {
        name_walk_in(sheet, lower.row, name)
    }
}

// The place at which a walk goes on from the root, unless it is closed.
fn rest_at<'a>(next: PathRope<'a>, closed: bool) -> Option<Place<'a>>
    ensures rest { (above : Option PathNames)
        → rest_from above result ≡ next_lookup_on next.entry closed }
    ensures placed { (above : Option PathNames) → IsPlaced above result }
{
    if closed {
        return None;
    }
    Some(Place::At(next))
}

// The place at which the walk of a name goes on, where that of its directory stands so, if it does.
fn place_of<'a>(
    alloc: Global,
    stand: &Stand<'_>,
    next_lookup: NextLookup<'a>,
) -> Result<Option<Place<'a>>, AllocError>
    ensures rest { IfOk result
        (λ place. rest_from stand.now.next place ≡ next_lookup_to stand.now.next next_lookup.entry) }
    ensures placed { IfOk result (IsPlaced stand.now.next) }
{
    match next_lookup {
        NextLookup::Beside(name) => match stand.next_lookup() {
            Some(_path) => Ok(Some(Place::Beside(name))),
            None => Ok(None),
        },
        NextLookup::At(path) => Ok(Some(Place::At(PathRope::of(alloc, &path.names())?))),
        NextLookup::Nowhere => Ok(None),
    }
}

impl<'a> Place<'a> {
    // The kind of what the rest shows at the place.
    fn shown_kind(
        &self,
        alloc: Global,
        stack: &Stack,
        above: &Directory<'_>,
    ) -> Result<ShownKind, AllocError>
        requires several { 1 < length stack.now.layers }
        requires above { IsVisited stack.now above.now.path above.now }
        ensures { IfOk result
            (λ shown_kind. (path : PathNames)
            → place_from (next_lookup_at above.now.lower) self.now ≡ Some path
            → shown_kind ≡ shown_kind_of (look (merge_of stack.now).rest path)) }
    {
        // Each layer of a stack is one.
        let _layers = stack.ordinary();
        match self {
            Place::Beside(name) => Ok(above.shown_kind(stack, name)),
            Place::At(path) => stack.shown_kind(alloc, 2, path.copy(alloc)?),
        }
    }
}

// Whether a thing goes on at a place of the rest, where the lower layer has this on the way.
fn goes_on(
    alloc: Global,
    stack: &Stack,
    above: &Directory<'_>,
    found: &Found<'_>,
    lower_walk: &Option<Found<'_>>,
    place: &Place<'_>,
) -> Result<bool, AllocError>
    requires several { 1 < length stack.now.layers }
    requires above { IsVisited stack.now above.now.path above.now }
    requires marked { found.now.mark.now ≡ marks.mark_of found.now.inode.now }
    requires lower_walk { IfSome lower_walk.now (λ found. found.mark.now ≡ marks.mark_of found.inode.now) }
    ensures { IfOk result
        (λ answer. (path : PathNames) → place_from (next_lookup_at above.now.lower) place.now ≡ Some path
        → answer ≡ goes_on_at (merge_of stack.now) found.now.inode.now (told_in lower_walk.now) path) }
{
    if is_directory(found.inode) {
        if !is_nothing_or_directory(lower_walk) {
            return Ok(false);
        }
        return Ok(place.shown_kind(alloc, stack, above)?.is_directory());
    }
    if !is_well_formed_metacopy(found.mark) {
        return Ok(false);
    }
    if !is_nothing_or_metacopy(lower_walk) {
        return Ok(false);
    }
    Ok(is_shown_regular(place.shown_kind(alloc, stack, above)?))
}

fn is_nothing_or_directory(found: &Option<Found<'_>>) -> bool
    ensures { result ≡ is_nothing_or marks.is_directory (told_in found.now) }
{
    match found {
        Some(found) => is_directory(found.inode),
        None => true,
    }
}

fn is_nothing_or_metacopy(found: &Option<Found<'_>>) -> bool
    requires { IfSome found.now (λ found. found.mark.now ≡ marks.mark_of found.inode.now) }
    ensures { result ≡ is_nothing_or marks.is_metacopy (told_in found.now) }
{
    match found {
        Some(found) => is_well_formed_metacopy(found.mark),
        None => true,
    }
}

// Whether a regular file is shown, whole or broken.
fn is_shown_regular(shown_kind: ShownKind) -> bool
    ensures { (look : Look) → shown_kind ≡ shown_kind_of look → result ≡ places.is_shown_regular look }
{
    matches!(shown_kind, ShownKind::File)
}
