//! A path in parts that others hold, so that a walk copies no name.
ghost use Rattle.std.specs.Prelude.{◌≡◌, ◌<◌, ◌^◌, ◌++◌, ◌↔◌, [], Some, length, drop, reverse, IsTrue, IfOk, IfSome};
ghost use Rattle.std.specs.Cmp.{partial_equiv_from_equiv};
ghost use Rattle.std.specs.Cmp.Lexicographic.{nat_list_eq_equiv, lists_equiv};
ghost use Rattle.std.proofs.lemmas.Cmp.{on_equiv};
ghost use Rattle.ovl_names.specs.Names.{is_name};
ghost use Rattle.ovl_names.specs.Paths.{child_path, has_names};
ghost use Rattle.ovl_lookup.specs.PathRopes.{rope_cmp, rope_eq};

use crate::rope_ends::RopeEnd;
use crate::rope_names::RopeNames;
use ovl_names::{Names, Path};
use std::alloc::{AllocError, Global};
use std::cmp::Ordering;
use std::marker::Model;

/// A path from the root in parts that others hold, so that no name of it is copied.
#[derive(Debug, Drop)]
pub struct PathRope<'a> {
    parts: Vec<Names<'a>>,
    len: usize,
}

impl<'a> Model for PathRope<'a> {
    ghost use Rattle.std.specs.Prelude.{◌≡◌, length, true};
    ghost use Rattle.ovl_names.specs.Paths.{PathNames, has_names};
    ghost use Rattle.ovl_lookup.specs.PathRopes.{names_of_parts};

    ghost Value = { PathNames };

    ghost view = { λ a. names_of_parts a.parts.items };

    ghost invariant = { λ a. (a.len ≡ length (names_of_parts a.parts.items))
        × (has_names (names_of_parts a.parts.items) ≡ true) };
}

// The bytes that a part takes.
const PART_BYTES: usize = 24;

impl<'a> PathRope<'a> {
    /// The rope of the root.
    pub fn root(alloc: Global) -> PathRope<'a>
        ensures { result ≡ [] }
    {
        PathRope {
            parts: Vec::new(alloc),
            len: 0,
        }
    }

    /// The rope of these names, in one part; fails only when out of memory.
    pub fn of(alloc: Global, names: &Names<'a>) -> Result<PathRope<'a>, AllocError>
        ensures { IfOk result (λ rope. rope ≡ names.now) }
    {
        PathRope::root(alloc).with(names)
    }

    /// The rope that goes down these names from this one.
    pub(crate) fn with(self, names: &Names<'a>) -> Result<PathRope<'a>, AllocError>
        ensures { IfOk result (λ rope. rope ≡ self.entry ++ names.now) }
    {
        // Made by hand (1): a number of names that are in memory.
        let PathRope { parts, len } = self;
        let Some(len) = len.checked_add(names.len()) else {
            // More names than memory has room for.
            return Err(AllocError);
        };
        let mut parts = parts;
        parts.push(names.rest())?;
        Ok(PathRope { parts, len })
    }

    /// The rope of the entry `name` in this directory.
    pub(crate) fn child(self, name: &'a str) -> Result<PathRope<'a>, AllocError>
        requires { IsTrue (is_name name.now) }
        ensures { IfOk result (λ rope. rope ≡ child_path self.entry name.now) }
    {
        self.with(&Names::one(name))
    }

    /// Whether the rope is that of the root.
    pub fn is_root(&self) -> bool
        ensures { IsTrue result ↔ (self.now ≡ []) }
    {
        self.len == 0
    }

    /// The number of names.
    pub(crate) fn len(&self) -> usize
        ensures { result ≡ length self.now }
    {
        self.len
    }

    /// The names from the root down.
    pub(crate) fn names(&self) -> RopeNames<'_, 'a>
        ensures value { result ≡ self.now }
        ensures names { IsTrue (has_names self.now) }
        ensures few { length self.now < 2 ^ 64 }
    {
        // Its number fits a `usize`.
        let _count = self.len;
        RopeNames::of(&self.parts)
    }

    /// The rope that goes on at `next` in place of this many names.
    pub(crate) fn redirected(
        &self,
        next: PathRope<'a>,
        walked: usize,
    ) -> Result<PathRope<'a>, AllocError>
        ensures { IfOk result (λ rope. rope ≡ next.entry ++ drop walked self.now) }
    {
        let mut rope = next;
        let mut left = walked;
        for part in &self.parts {
            let count = part.len();
            if left >= count {
                left -= count;
                continue;
            }
            rope = rope.with(&part.after(left))?;
            left = 0;
        }
        Ok(rope)
    }

    /// A rope equal to this one; fails only when out of memory.
    pub fn copy(&self, alloc: Global) -> Result<PathRope<'a>, AllocError>
        ensures { IfOk result (λ rope. rope ≡ self.now) }
    {
        self.redirected(PathRope::root(alloc), 0)
    }

    /// The path, in a text of its own; fails only when out of memory.
    pub fn path(&self, alloc: Global) -> Result<Path, AllocError>
        ensures { IfOk result (λ path. path ≡ self.now) }
    {
        let mut path = Path::root(alloc);
        for part in &self.parts {
            path.extend(part)?;
        }
        Ok(path)
    }

    /// The path in a text of its own, if that takes no more bytes than the parts; fails only when
    /// out of memory.
    pub fn short_path(&self, alloc: Global) -> Result<Option<Path>, AllocError>
        ensures { IfOk result (λ short. IfSome short (λ path. path ≡ self.now)) }
    {
        if !self.is_short() {
            return Ok(None);
        }
        Ok(Some(self.path(alloc)?))
    }

    // Whether its names take no more bytes than its parts.
    fn is_short(&self) -> bool {
        let mut room = self.parts.len().saturating_mul(PART_BYTES);
        for name in self.names() {
            let Some(left) = room.checked_sub(name.len()) else {
                return false;
            };
            room = left;
        }
        true
    }

    // How this rope is to another.
    fn compared(&self, other: &PathRope<'_>) -> Ordering
        ensures { result ≡ rope_cmp self.now other.now }
    {
        self.compare_with(&Names::none(), other, &Names::none())
    }

    /// How this rope with these names below it is to another with others below that, name by name
    /// from the last one on.
    pub fn compare_with(
        &self,
        below: &Names<'_>,
        other: &PathRope<'_>,
        other_below: &Names<'_>,
    ) -> Ordering
        ensures { result ≡ rope_cmp (self.now ++ below.now) (other.now ++ other_below.now) }
    {
        let mut ours = RopeEnd::of(&self.parts, below.rest());
        let mut theirs = RopeEnd::of(&other.parts, other_below.rest());
        while !ours.last.is_empty() && !theirs.last.is_empty() {
            let order = ours.last.compare_ends(&mut theirs.last);
            if order.is_ne() {
                return order;
            }
            ours.refill();
            theirs.refill();
        }
        // No name is left of the shorter rope.
        ours.last.len().cmp(&theirs.last.len())
    }
}

impl<'a> PartialEq for PathRope<'a> {
    ghost eq = { rope_eq };

    ghost laws = { partial_equiv_from_equiv (on_equiv reverse (lists_equiv nat_list_eq_equiv)) };

    fn eq(&self, other: &PathRope<'a>) -> bool {
        self.compared(other).is_eq()
    }
}

impl<'a> Eq for PathRope<'a> {
    ghost laws = { on_equiv reverse (lists_equiv nat_list_eq_equiv) };
}
