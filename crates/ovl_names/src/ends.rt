//! Two paths compared from their ends.
ghost use Rattle.std.specs.Prelude.{◌≡◌, ◌+◌, ◌==◌, MatchBool, IsTrue, position};
ghost use Rattle.ovl_names.specs.Names.{slash};
ghost use Rattle.ovl_names.specs.Paths.{text_names, has_names};
ghost use Rattle.ovl_names.specs.Ends.{IsEnds, HasCommonEnd, IsCommonNames};

use crate::names::NAME_LIMIT;
use crate::path_names::cut_last;
use std::cmp::Ordering;

// How many bytes of two texts are compared first.
const FIRST_RUN: usize = 16;

/// What comes of the names of two texts that are compared from the last ones on.
#[derive(Drop)]
pub(crate) enum Ends<'a, 'b> {
    /// The first two that differ are so to each other.
    Apart(Ordering),
    /// One text ends with all names of the other; this is before them in each.
    Left(&'a str, &'b str),
}

/// Compares the names of two texts from the last ones on until two differ.
pub(crate) fn compare_from_ends<'a, 'b>(text: &'a str, other: &'b str) -> Ends<'a, 'b>
    requires own { IsTrue (has_names (text_names text.now)) }
    requires other { IsTrue (has_names (text_names other.now)) }
    ensures { IsEnds (text_names text.now) (text_names other.now) result }
{
    // Texts of one name are known at once if they are equal.
    if text.len() <= NAME_LIMIT && text.as_bytes() == other.as_bytes() {
        return Ends::Left("", "");
    }
    let (mut own, mut their) = (text, other);
    while let Some((above, name)) = cut_last(own) {
        let Some((their_above, their_name)) = cut_last(their) else {
            return Ends::Left(own, their);
        };
        let order = name.as_bytes().cmp(their_name.as_bytes());
        if order.is_ne() {
            return Ends::Apart(order);
        }
        // More names are often the same: those are passed over by their bytes.
        let count = common_names(above.as_bytes(), their_above.as_bytes());
        own = &above[..above.len() - count];
        their = &their_above[..their_above.len() - count];
    }
    Ends::Left(own, their)
}

// The most bytes at the ends of two texts that are the same in both and begin with a separator, and
// 0 where none do.
fn common_names(own: &[u8], other: &[u8]) -> usize
    ensures { IsCommonNames own.now other.now result }
{
    let common = common_end(own, other);
    match first_separator(&own[own.len() - common..]) {
        Some(place) => common - place,
        None => 0,
    }
}

fn first_separator(text: &[u8]) -> Option<usize>
    ensures { result ≡ position (λ byte. byte == slash) text.now }
{
    text.iter().position(|byte| *byte == b'/')
}

// The most bytes at the ends of two texts that are the same in both. Runs of bytes are compared at
// once: longer ones each time while they are the same, then half of the one that isn't, so that the
// time is in proportion to the result.
fn common_end(own: &[u8], other: &[u8]) -> usize
    ensures common { HasCommonEnd result own.now other.now }
    ensures longest { HasCommonEnd (result + 1) own.now other.now → ⊥ }
{
    let mut common = 0;
    let mut run = FIRST_RUN;
    while are_common(own, other, common, run) {
        common += run;
        run = common + FIRST_RUN;
    }
    while 1 < run {
        let half = run / 2;
        if are_common(own, other, common, half) {
            common += half;
            run -= half;
        } else {
            run = half;
        }
    }
    common
}

// Whether two texts have `run` more bytes before the last `common`, and these are the same in both.
fn are_common(own: &[u8], other: &[u8], common: usize, run: usize) -> bool
    requires { HasCommonEnd common own.now other.now }
    ensures { MatchBool result
        (HasCommonEnd (common + run) own.now other.now)
        (HasCommonEnd (common + run) own.now other.now → ⊥) }
{
    let own = &own[..own.len() - common];
    let other = &other[..other.len() - common];
    if other.len() < run {
        return false;
    }
    own.ends_with(&other[other.len() - run..])
}
