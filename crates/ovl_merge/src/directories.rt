//! A directory that the two layers show, found once for all names in it.
ghost use Rattle.std.specs.Prelude.{◌≡◌, ◌<◌, ◌||◌, false, length, is_some, IfOk, MatchOption};
ghost use Rattle.std.specs.Option.{option_map};
ghost use Rattle.ovl_merge.specs.Places.{merge_of, shows_own_directory};
ghost use Rattle.ovl_merge.specs.Reckoned.{AreStands, IsVisited, is_inside_at, next_lookup_at};

use crate::bases::Base;
use crate::stands::Stand;
use ovl_lookup::{Arrival, PathRope, Stack};
use ovl_names::Path;
use std::alloc::{AllocError, Global};

/// A directory that the two topmost layers show, and what is kept of it for the names in it.
#[derive(Drop)]
pub(crate) struct Directory<'a> {
    pub(crate) path: Path,
    // The number of its row in the upper layer, if that has it, and where its walk in the lower one
    // stands, if it goes on there.
    pub(crate) upper: Option<u32>,
    pub(crate) lower: Option<Stand<'a>>,
    pub(crate) base: Base<'a>,
}

/// The number of any path's row in the upper layer, if that has it, and where its walk in the lower
/// one stands, if it goes on there.
#[derive(Drop)]
pub(crate) struct Stands<'a> {
    upper: Option<u32>,
    lower: Option<Stand<'a>>,
}

impl<'a> Directory<'a> {
    /// The directory at a path, and `None` where the two layers show none.
    pub(crate) fn at(
        alloc: Global,
        stack: &'a Stack,
        dir: &'a Path,
    ) -> Result<Option<Directory<'a>>, AllocError>
        requires { 1 < length stack.now.layers }
        ensures { IfOk result (λ found. MatchOption found
            (shows_own_directory (merge_of stack.now) dir.now ≡ false)
            (IsVisited stack.now dir.now)) }
    {
        // Each layer of a stack is one.
        let _layers = stack.ordinary();
        let Stands { upper, lower } = Stands::at(alloc, stack, dir)?;
        if !is_shown(upper, &lower) {
            return Ok(None);
        }
        let base = Base::of(alloc, stack, &lower)?;
        let path = dir.copy(alloc)?;
        Ok(Some(Directory {
            path,
            upper,
            lower,
            base,
        }))
    }

    /// Whether the walks of a name that neither layer has in the directory go on in the rest.
    pub(crate) fn is_open(&self) -> bool
        ensures { result ≡ is_some (next_lookup_at self.now.lower) }
    {
        next_lookup_of(&self.lower).is_some()
    }
}

impl<'a> Stands<'a> {
    // The row and the stand of a path.
    fn at(alloc: Global, stack: &'a Stack, path: &'a Path) -> Result<Stands<'a>, AllocError>
        requires { 1 < length stack.now.layers }
        ensures { IfOk result (AreStands (merge_of stack.now) path.now) }
    {
        // Each layer of a stack is one.
        let _layers = stack.ordinary();
        let rope = PathRope::of(alloc, &path.names())?;
        let Arrival { row, next, closed } = Arrival::at(alloc, stack.sheet(0), rope)?;
        if closed {
            return Ok(Stands {
                upper: row,
                lower: None,
            });
        }
        let lower = Stand::at(alloc, stack.sheet(1), next)?;
        Ok(Stands {
            upper: row,
            lower: Some(lower),
        })
    }
}

/// The path by which the rest knows a directory whose walk in the lower layer stands so, unless it
/// is hidden there.
pub(crate) fn next_lookup_of<'l, 'a>(lower: &'l Option<Stand<'a>>) -> Option<&'l PathRope<'a>>
    ensures { option_map (λ path. path.now) result ≡ next_lookup_at lower.now }
{
    match lower {
        Some(lower) => lower.next_lookup(),
        None => None,
    }
}

// Whether the two layers show a directory where the walks of its path stand.
fn is_shown(upper: Option<u32>, lower: &Option<Stand<'_>>) -> bool
    ensures { result ≡ (is_some upper || is_inside_at lower.now) }
{
    if upper.is_some() {
        return true;
    }
    match lower {
        Some(lower) => lower.is_inside(),
        None => false,
    }
}
