//! The names in a view, each with its topmost place.
ghost use Rattle.std.specs.Prelude.{[], ◌∷◌, ◌+◌, ◌<◌, ◌^◌, length, IfOk};
ghost use Rattle.std.specs.List.{All};
ghost use Rattle.ovl_lookup.specs.ViewPasses.{AreTops, tops_told};
ghost use Rattle.ovl_lookup.specs.DirViews.{IsPlaceOver, place_in, places_in};

use crate::Stack;
use crate::named_lists::{HasName, join_lists};
use crate::views::DirPlace;
use ovl_inode::Inode;
use ovl_names::Name;
use std::alloc::{AllocError, Global};

/// A name in the directories of a view, with its inode in the first place that has it, and the
/// number of that place.
#[derive(Clone, Copy)]
pub(crate) struct Top<'a> {
    pub(crate) name: &'a Name,
    pub(crate) inode: &'a Inode,
    pub(crate) place: usize,
}

impl<'a> HasName for Top<'a> {
    ghost use Rattle.ovl_lookup.specs.ViewPasses.{First, top_told, upper_place};

    ghost Own = { First };

    ghost told = { top_told };

    ghost joined_of = { upper_place };

    fn name(&self) -> &Name {
        self.name
    }

    // The upper one stays.
    fn joined(&self, _: &Top<'a>) -> Top<'a> {
        *self
    }
}

/// The names in the directories of these places, in order, each once; `first` is the number of the
/// first place.
pub(crate) fn tops_of<'a>(
    alloc: Global,
    stack: &'a Stack,
    places: &[DirPlace],
    first: usize,
) -> Result<Vec<Top<'a>>, AllocError>
    requires over { All (IsPlaceOver stack.now) places.now }
    requires numbers { first + length places.now < 2 ^ 64 }
    ensures { IfOk result
        (λ tops. AreTops stack.now.layers first (places_in stack.now places.now)
        (tops_told tops.items)) }
{
    let _ = &stack.layers;
    match places {
        [] => Ok(Vec::new(alloc)),
        [place] => tops_in(alloc, stack, place, first),
        _ => {
            let (above, below) = places.split_at(places.len() / 2);
            let upper = tops_of(alloc, stack, above, first)?;
            let lower = tops_of(alloc, stack, below, first + above.len())?;
            join_lists(alloc, &upper, &lower)
        }
    }
}

// The names in the directory of one place, in the order of its rows.
fn tops_in<'a>(
    alloc: Global,
    stack: &'a Stack,
    place: &DirPlace,
    number: usize,
) -> Result<Vec<Top<'a>>, AllocError>
    requires { IsPlaceOver stack.now place.now }
    ensures { IfOk result
        (λ tops. AreTops stack.now.layers number (place_in stack.now place.now ∷ [])
        (tops_told tops.items)) }
{
    let _ = &stack.layers;
    let sheet = stack.sheet(place.layer);
    let rows = sheet.below(place.row);
    let mut tops = Vec::with_capacity(alloc, rows.len())?;
    for (row, name) in rows {
        tops.push(Top {
            name,
            inode: sheet.inode(row),
            place: number,
        })?;
    }
    Ok(tops)
}
