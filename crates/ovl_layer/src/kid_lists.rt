//! The rows directly below each row of a sheet.
ghost use Rattle.std.specs.Prelude.{◌≡◌, ℕ, ◌<◌, ◌^◌, length, drop, slice_get, Some, IfOk, IsTrue};
ghost use Rattle.ovl_layer.specs.Sheets.{kid_numbers, are_earlier};
ghost use Rattle.ovl_layer.specs.KidLists.{AreCounts, AreKidEnds};

use std::alloc::{AllocError, Global};
use std::marker::Model;

/// The numbers of the rows directly below each row, seen as a list for each row. All lie in one
/// list, row after row; beside it stands where those of each row begin, and last where those of the
/// last row end.
#[derive(Drop)]
pub(crate) struct KidLists {
    kids: Vec<u32>,
    starts: Vec<u32>,
}

impl Model for KidLists {
    ghost use Rattle.std.specs.Prelude.{ℕ, List, length};
    ghost use Rattle.ovl_layer.specs.KidLists.{parts_of, AreKidStarts};

    ghost Value = { List (List ℕ) };

    ghost view = { λ a. parts_of a.starts.items a.kids.items };

    ghost invariant = { λ a. AreKidStarts a.starts.items (length a.kids.items) };
}

impl KidLists {
    /// The lists for all rows, by the number of each row's parent, the root's first.
    pub(crate) fn of(alloc: Global, parents: &[u32]) -> Result<KidLists, AllocError>
        requires rooted { 0 < length parents.now }
        requires earlier { IsTrue (are_earlier 1 (drop 1 parents.now)) }
        requires limit { length parents.now < 2 ^ 32 }
        ensures { IfOk result (λ lists. (number : ℕ) → number < length parents.now
            → slice_get lists number ≡ Some (kid_numbers 1 (drop 1 parents.now) number)) }
    {
        let mut starts = ends_of(alloc, parents)?;
        let mut kids = vec![in alloc; 0_u32; starts[parents.len()] as usize]?;
        // From the last row on, each takes the last place that is left among its parent's kids.
        let mut number = parents.len();
        while number > 1 {
            number -= 1;
            let parent = parents[number] as usize;
            let place = starts[parent] - 1;
            starts[parent] = place;
            kids[place as usize] = number as u32;
        }
        Ok(KidLists { kids, starts })
    }

    /// The numbers of the rows directly below the row with this number.
    pub(crate) fn below(&self, number: u32) -> &[u32]
        requires { number < length self.now }
        ensures { slice_get self.now number ≡ Some result.now }
    {
        let start = self.starts[number as usize] as usize;
        let end = self.starts[number as usize + 1] as usize;
        &self.kids[start..end]
    }
}

// How many kids each row has, and 0 past the last row.
fn counts_of(alloc: Global, parents: &[u32]) -> Result<Vec<u32>, AllocError>
    requires earlier { IsTrue (are_earlier 1 (drop 1 parents.now)) }
    requires limit { length parents.now < 2 ^ 32 }
    ensures { IfOk result (λ counts. AreCounts parents.now counts.items) }
{
    let mut counts = vec![in alloc; 0_u32; parents.len() + 1]?;
    for number in 1..parents.len() {
        counts[parents[number] as usize] += 1;
    }
    Ok(counts)
}

// Where the kids of each row end, and past the last row where all end.
fn ends_of(alloc: Global, parents: &[u32]) -> Result<Vec<u32>, AllocError>
    requires earlier { IsTrue (are_earlier 1 (drop 1 parents.now)) }
    requires limit { length parents.now < 2 ^ 32 }
    ensures { IfOk result (λ ends. AreKidEnds parents.now ends.items) }
{
    let mut ends = counts_of(alloc, parents)?;
    for number in 1..ends.len() {
        ends[number] += ends[number - 1];
    }
    Ok(ends)
}
