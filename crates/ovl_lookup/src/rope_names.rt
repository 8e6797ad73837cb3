//! The names of a rope from its front.
ghost use Rattle.std.specs.Prelude.{◌≡◌};
ghost use Rattle.std.specs.Iterator.{YieldsFirstRef, item_count};
ghost use Rattle.ovl_lookup.specs.PathRopes.{names_of_parts};

use ovl_names::Names;
use std::marker::Model;
use std::slice;

/// The names of a rope that are left: those of a part that has begun, and of whole parts.
#[derive(Drop)]
pub(crate) struct RopeNames<'t, 'a> {
    first: Names<'a>,
    parts: slice::Iter<'t, Names<'a>>,
}

impl<'t, 'a> Model for RopeNames<'t, 'a> {
    ghost use Rattle.std.specs.Prelude.{◌++◌};
    ghost use Rattle.std.specs.Slice.Iter.{iter_rest};
    ghost use Rattle.ovl_names.specs.Paths.{PathNames};
    ghost use Rattle.ovl_lookup.specs.PathRopes.{names_of_parts};

    ghost Value = { PathNames };

    ghost view = { λ a. a.first ++ names_of_parts (iter_rest a.parts) };
}

impl<'t, 'a> RopeNames<'t, 'a> {
    /// All names of these parts.
    pub(crate) fn of(parts: &'t [Names<'a>]) -> RopeNames<'t, 'a>
        ensures { result ≡ names_of_parts parts.now }
    {
        RopeNames {
            first: Names::none(),
            parts: parts.iter(),
        }
    }
}

impl<'t, 'a> Iterator for RopeNames<'t, 'a> {
    type Item = &'a str;

    ghost next_gives = { YieldsFirstRef (λ names. names) };

    ghost remaining = { item_count (λ names. names) };

    fn next(&mut self) -> Option<&'a str> {
        while self.first.is_empty() {
            let Some(part) = self.parts.next() else {
                return None;
            };
            self.first = part.rest();
        }
        self.first.next()
    }
}
