//! The things found at a path, the topmost first, each sought only when it is asked for.
ghost use Rattle.std.specs.Prelude.{◌≡◌, drop, IfOk};
ghost use Rattle.std.specs.Option.{option_map};
ghost use Rattle.std.specs.List.{All};
ghost use Rattle.ovl_lookup.specs.Stacks.{StackView};
ghost use Rattle.ovl_lookup.specs.Trace.{things_found};
ghost use Rattle.ovl_lookup.specs.Merged as merged;
ghost use Rattle.ovl_lookup.specs.Passes.{data_below};
ghost use Rattle.ovl_lookup.specs.Views.{below_entry, found_below};
ghost use Rattle.ovl_lookup.specs.DirViews.{IsPlaceOver, places_in};
ghost use Rattle.ovl_lookup.specs.Hits.{IsHitOver, IsSearchOver, found_by, found_of, found_on, past_metacopies};
ghost use Rattle.ovl_lookup.specs.Hits as hits;

use crate::steps::{Found, RopeStep, follow};
use crate::views::DirPlace;
use crate::{NextLookup, PathRope, Stack, is_well_formed_metacopy};
use ovl_inode::{Inode, Mark, Redirect, is_data, is_whiteout};
use ovl_names::{Name, Path};
use std::alloc::{AllocError, Global};

/// A thing found, and where those below it are sought.
#[derive(Drop)]
pub(crate) struct Hit<'v, 'a> {
    pub(crate) found: Found<'a>,
    below: Search<'v, 'a>,
}

/// Where things are sought.
#[derive(Drop)]
pub(crate) enum Search<'v, 'a> {
    /// In the layers from one on, by the walks of a path.
    Walks(usize, PathRope<'a>),
    /// In the layers from one on, by the walks of an absolute redirect's path.
    Origin(usize, &'a Path),
    /// At a name in the directories of these places of a view.
    Rows(&'v [DirPlace], &'a Name),
    /// Nowhere: what the layers below have there is hidden.
    Nowhere,
}

impl<'v, 'a> Search<'v, 'a> {
    // Below what a walk finds.
    fn past_walk(closed: bool, from: usize, next: PathRope<'a>) -> Search<'v, 'a>
        ensures found { (stack : StackView)
            → found_by stack result ≡ found_on stack from next.entry closed }
        ensures over { (stack : StackView) → IsSearchOver stack result }
    {
        if closed {
            return Search::Nowhere;
        }
        Search::Walks(from, next)
    }

    // Below an entry of this mark and name: in these places, or in the layers from one on.
    fn past_entry(
        mark: &'a Mark,
        name: &'a Name,
        from: usize,
        places: &'v [DirPlace],
    ) -> Search<'v, 'a>
        ensures found { (stack : StackView) → found_by stack result
            ≡ below_entry mark.now name.now (things_found (drop from stack.layers))
            (λ other. found_below stack.layers other (places_in stack places.now)) }
        ensures over { (stack : StackView)
            → All (IsPlaceOver stack) places.now → IsSearchOver stack result }
    {
        match NextLookup::of(mark, name) {
            NextLookup::At(origin) => Search::Origin(from, origin),
            NextLookup::Beside(other) => Search::Rows(places, other),
            NextLookup::Nowhere => Search::Nowhere,
        }
    }

    // The first thing there. Fails only when out of memory.
    fn first(self, alloc: Global, stack: &'a Stack) -> Result<Option<Hit<'v, 'a>>, AllocError>
        requires { IsSearchOver stack.now self }
        ensures found { IfOk result
            (λ first. found_of stack.now first ≡ found_by stack.now self.entry) }
        ensures over { IfOk result (IsHitOver stack.now) }
    {
        let (from, path) = match self {
            Search::Walks(from, path) => (from, path),
            Search::Origin(from, path) => (from, PathRope::of(alloc, &path.names())?),
            Search::Rows(places, name) => return Ok(first_in(stack, places, name)),
            Search::Nowhere => return Ok(None),
        };
        first_on(alloc, stack, from, path)
    }
}

/// The first thing that the walks of a path find in the layers from one on. Fails only when out of
/// memory.
pub(crate) fn first_on<'v, 'a>(
    alloc: Global,
    stack: &'a Stack,
    from: usize,
    path: PathRope<'a>,
) -> Result<Option<Hit<'v, 'a>>, AllocError>
    ensures found { IfOk result
        (λ first. found_of stack.now first
        ≡ things_found (drop from stack.now.layers) path.entry) }
    ensures over { IfOk result (IsHitOver stack.now) }
{
    let mut path = path;
    for i in from..stack.ordinary() {
        let RopeStep {
            found,
            next,
            closed,
        } = follow(alloc, stack.sheet(i), path)?;
        if let Some(found) = found {
            let below = Search::past_walk(closed, i + 1, next);
            return Ok(Some(Hit { found, below }));
        }
        if closed {
            return Ok(None);
        }
        path = next;
    }
    Ok(None)
}

/// The first thing at a name in the directories of these places of a view.
pub(crate) fn first_in<'v, 'a>(
    stack: &'a Stack,
    places: &'v [DirPlace],
    name: &'a Name,
) -> Option<Hit<'v, 'a>>
    requires { All (IsPlaceOver stack.now) places.now }
    ensures found { found_of stack.now result
        ≡ found_below stack.now.layers name.now (places_in stack.now places.now) }
    ensures over { IsHitOver stack.now result }
{
    let _ = &stack.layers;
    for i in 0..places.len() {
        if let Some(entry) = places[i].entry(stack, name) {
            if is_whiteout(entry.inode) {
                return None;
            }
            let from = places[i].layer + 1;
            return Some(Hit {
                found: Found {
                    inode: entry.inode,
                    mark: entry.mark,
                },
                below: Search::past_entry(entry.mark, name, from, &places[i + 1..]),
            });
        }
    }
    None
}

/// The first of the things found that is no metacopy file, and where the last metacopy file above it
/// says that data-only layers have the data; before the first, that is `place_told`. Fails only when
/// out of memory.
pub(crate) fn past_metacopies<'a>(
    alloc: Global,
    stack: &'a Stack,
    first: Option<Hit<'_, 'a>>,
    place_told: Option<&'a Path>,
) -> Result<(Option<&'a Inode>, Option<&'a Path>), AllocError>
    requires { IsHitOver stack.now first }
    ensures { IfOk result
        (λ past. (option_map (λ inode. inode.now) past.0, option_map (λ told. told.now) past.1)
        ≡ hits.past_metacopies (option_map (λ told. told.now) place_told.entry)
        (found_of stack.now first.entry)) }
{
    let mut next = first;
    let mut told = place_told;
    while let Some(Hit { found, below }) = next {
        if !is_well_formed_metacopy(found.mark) {
            return Ok((Some(found.inode), told));
        }
        told = place_of_data(found.mark);
        next = below.first(alloc, stack)?;
    }
    Ok((None, told))
}

/// The data of the things found, below metacopy files, of which the last says where data-only layers
/// have it; before the first, that is `place_told`. Fails only when out of memory.
pub(crate) fn data_of<'a>(
    alloc: Global,
    stack: &'a Stack,
    first: Option<Hit<'_, 'a>>,
    place_told: Option<&'a Path>,
) -> Result<Option<&'a Inode>, AllocError>
    requires { IsHitOver stack.now first }
    ensures { IfOk result (λ found. option_map (λ inode. inode.now) found
        ≡ data_below stack.now.data_only (option_map (λ told. told.now) place_told.entry)
        (found_of stack.now first.entry)) }
{
    let (found, told) = past_metacopies(alloc, stack, first, place_told)?;
    let Some(inode) = found else {
        return Ok(stack.data_at(told));
    };
    if !is_data(inode) {
        return Ok(None);
    }
    Ok(Some(inode))
}

// Where data-only layers have the data of a metacopy file of this mark.
fn place_of_data(mark: &Mark) -> Option<&Path>
    ensures { option_map (λ path. path.now) result ≡ merged.place_of_data mark.now }
{
    match mark {
        Mark::Meta(Some(Redirect::To(place))) => Some(place),
        _ => None,
    }
}
