//! The names of a rope from its end.
ghost use Rattle.std.specs.Prelude.{◌≡◌, [], ◌++◌};
ghost use Rattle.std.specs.Slice.Iter.{iter_rest};
ghost use Rattle.ovl_lookup.specs.PathRopes.{names_of_parts};

use ovl_names::Names;
use std::slice;

/// The names of a rope that are left of it from its end: those of whole parts, and after them of
/// one that has begun.
#[derive(Drop)]
pub(crate) struct RopeEnd<'t, 'a> {
    parts: slice::Iter<'t, Names<'a>>,
    pub(crate) last: Names<'a>,
}

impl<'t, 'a> RopeEnd<'t, 'a> {
    /// All names of these parts, and of a last one; where what has begun has none, there are none.
    pub(crate) fn of(parts: &'t [Names<'a>], last: Names<'a>) -> RopeEnd<'t, 'a>
        ensures names { names_of_parts (iter_rest result.parts) ++ result.last
            ≡ names_of_parts parts.now ++ last.entry }
        ensures all { result.last ≡ [] → names_of_parts (iter_rest result.parts) ≡ [] }
    {
        let mut end = RopeEnd {
            parts: parts.iter(),
            last,
        };
        end.refill();
        end
    }

    /// If the last part has no names left, goes on to one that has some, if there is one.
    pub(crate) fn refill(&mut self)
        ensures names { names_of_parts (iter_rest self.new.parts) ++ self.new.last
            ≡ names_of_parts (iter_rest self.old.parts) ++ self.old.last }
        ensures all { self.new.last ≡ [] → names_of_parts (iter_rest self.new.parts) ≡ [] }
    {
        while self.last.is_empty() {
            let Some(part) = self.parts.next_back() else {
                return;
            };
            self.last = part.rest();
        }
    }
}
