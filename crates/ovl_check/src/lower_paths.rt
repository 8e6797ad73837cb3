//! Where a directory's path goes on below, lent, and the order of such places.
ghost use Rattle.std.specs.Prelude.{◌≡◌, Some, reverse, unwrap_or, IfOk};
ghost use Rattle.std.specs.Cmp.{partial_equiv_from_equiv, po};
ghost use Rattle.std.specs.Cmp.Lexicographic.{nat_list_cmp_total, nat_list_eq_equiv, texts_ties, lists_total, lists_equiv, lists_ties};
ghost use Rattle.std.proofs.Common.{refl};
ghost use Rattle.std.proofs.lemmas.Cmp.{on_total, on_equiv};
ghost use Rattle.ovl_names.specs.Names.{name_cmp};
ghost use Rattle.ovl_lookup.specs.PathRopes.{rope_cmp, rope_eq};

use ovl_lookup::PathRope;
use ovl_names::Path;
use std::alloc::{AllocError, Global};
use std::cmp::Ordering;
use std::marker::Model;

/// The path by which the layers below know a directory: its own, or where marks turn that, another
/// one.
#[derive(Debug, Drop)]
pub struct LowerPath<'a> {
    // Names that the layer holds, where in a text of their own they would take more bytes.
    held: PathRope<'a>,
    // The names below these.
    below: Path,
}

impl<'a> Model for LowerPath<'a> {
    ghost use Rattle.std.specs.Prelude.{◌++◌};
    ghost use Rattle.ovl_names.specs.Paths.{PathNames};

    ghost Value = { PathNames };

    ghost view = { λ a. a.held ++ a.below };
}

impl<'a> LowerPath<'a> {
    /// The path by which the layers below know the directory at `path`: `turned`, if there is one,
    /// else `path`.
    pub(crate) fn of(
        alloc: Global,
        path: &Path,
        turned: Option<PathRope<'a>>,
    ) -> Result<LowerPath<'a>, AllocError>
        ensures { IfOk result (λ place. place ≡ unwrap_or turned.entry path.now) }
    {
        let Some(held) = turned else {
            return Ok(LowerPath {
                held: PathRope::root(alloc),
                below: path.copy(alloc)?,
            });
        };
        match held.short_path(alloc)? {
            Some(below) => Ok(LowerPath {
                held: PathRope::root(alloc),
                below,
            }),
            None => Ok(LowerPath {
                held,
                below: Path::root(alloc),
            }),
        }
    }

    /// The path, in a text of its own; fails only when out of memory.
    pub fn path(&self, alloc: Global) -> Result<Path, AllocError>
        ensures { IfOk result (λ path. path ≡ self.now) }
    {
        let mut path = self.held.path(alloc)?;
        path.extend(&self.below.names())?;
        Ok(path)
    }
}

/// A place that is lent. They are ordered name by name from the last one on, as those below one
/// redirect begin with all its names.
#[derive(Debug, Drop)]
pub(crate) struct LowerPathRef<'p, 'a> {
    pub(crate) place: &'p LowerPath<'a>,
}

impl<'p, 'a> Model for LowerPathRef<'p, 'a> {
    ghost use Rattle.ovl_names.specs.Paths.{PathNames};

    ghost Value = { PathNames };

    ghost view = { λ a. a.place.now };
}

impl<'p, 'a> LowerPathRef<'p, 'a> {
    fn compared(&self, other: &LowerPathRef<'p, 'a>) -> Ordering
        ensures { result ≡ rope_cmp self.now other.now }
    {
        let (ours, theirs) = (self.place, other.place);
        ours.held
            .compare_with(&ours.below.names(), &theirs.held, &theirs.below.names())
    }
}

impl<'p, 'a> PartialEq for LowerPathRef<'p, 'a> {
    ghost eq = { rope_eq };

    ghost laws = { partial_equiv_from_equiv (on_equiv reverse (lists_equiv nat_list_eq_equiv)) };

    fn eq(&self, other: &LowerPathRef<'p, 'a>) -> bool {
        self.compared(other).is_eq()
    }
}

impl<'p, 'a> Eq for LowerPathRef<'p, 'a> {
    ghost laws = { on_equiv reverse (lists_equiv nat_list_eq_equiv) };
}

impl<'p, 'a> PartialOrd for LowerPathRef<'p, 'a> {
    ghost partial_cmp = { λ a b. Some (rope_cmp a b) };

    ghost laws = { po (on_total reverse (lists_total nat_list_cmp_total))
        (λ a b. lists_ties name_cmp texts_ties (reverse a) (reverse b)) };

    fn partial_cmp(&self, other: &LowerPathRef<'p, 'a>) -> Option<Ordering> {
        Some(self.compared(other))
    }
}

impl<'p, 'a> Ord for LowerPathRef<'p, 'a> {
    ghost cmp = { rope_cmp };

    ghost total = { on_total reverse (lists_total nat_list_cmp_total) };

    ghost matches_partial_cmp = { λ a b. refl };

    ghost matches_eq = { λ a b. lists_ties name_cmp texts_ties (reverse a) (reverse b) };

    fn cmp(&self, other: &LowerPathRef<'p, 'a>) -> Ordering {
        self.compared(other)
    }
}
