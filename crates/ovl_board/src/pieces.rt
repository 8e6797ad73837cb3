//! A piece of work. It must not know what a piece means to a work.
ghost use Rattle.std.specs.Prelude.{◌≡◌, IfOk, IsTrue, ◌↔◌, map};
ghost use Rattle.std.specs.Iterator.{Drains, IsFinite};
ghost use Rattle.ovl_board.specs.Trees.{is_child};

use ovl_names::{Name, Path};
use std::alloc::{AllocError, Global};

/// A piece of work: the directory `dir` in one of several spaces, each with paths of its own.
/// Pieces are ordered by space, and then by path.
#[derive(Debug, PartialEq, Eq, PartialOrd, Ord, Drop)]
pub struct Piece {
    /// Whose paths are meant.
    pub space: u16,
    /// The directory's path in that space.
    pub dir: Path,
}

impl Piece {
    ghost use Rattle.ovl_board.specs.Pieces.{IsOneBelow, piece_in, space_root};

    /// The root of a space.
    pub fn root(alloc: Global, space: u16) -> Piece
        ensures { result ≡ space_root space }
    {
        Piece {
            space,
            dir: Path::root(alloc),
        }
    }

    /// A piece equal to this one; fails only when out of memory.
    pub fn copy(&self, alloc: Global) -> Result<Piece, AllocError>
        ensures { IfOk result (λ piece. piece ≡ self.now) }
    {
        Ok(Piece {
            space: self.space,
            dir: self.dir.copy(alloc)?,
        })
    }

    /// The piece of the entry of this name in its directory; fails only when out of memory.
    pub fn child(&self, alloc: Global, name: &Name) -> Result<Piece, AllocError>
        ensures { IfOk result (λ child. child ≡ piece_in self.now name.now) }
    {
        Ok(Piece {
            space: self.space,
            dir: self.dir.child(alloc, name)?,
        })
    }

    /// The pieces of the entries of these names in its directory, in their order; fails only when
    /// out of memory.
    pub fn children<'n, N: Iterator<Item = &'n Name> + Drop>(
        &self,
        alloc: Global,
        names: N,
    ) -> Result<Vec<Piece>, AllocError>
        requires can { N.can_next names }
        requires finite { IsFinite (N.remaining names) }
        ensures { IfOk result
            (λ kids. (given : _) × Drains N.next_gives names given
            × (kids.items ≡ map (λ name. piece_in self.now name.now) given)) }
    {
        let mut kids = Vec::new(alloc);
        for name in names {
            kids.push(self.child(alloc, name)?)?;
        }
        Ok(kids)
    }

    /// Whether `kid` lies one name below this piece, in its space.
    pub fn is_parent_of(&self, kid: &Piece) -> bool
        ensures { IsTrue result ↔ IsOneBelow self.now kid.now }
    {
        self.space == kid.space && lies_below(&self.dir, &kid.dir)
    }
}

/// Whether the path lies one name below the directory.
pub(crate) fn lies_below(dir: &Path, path: &Path) -> bool
    ensures { result ≡ is_child dir.now path.now }
{
    match path.names().split_last() {
        None => false,
        Some((_, above)) => above == dir.names(),
    }
}

/// Pieces equal to these, in their order; fails only when out of memory.
pub fn copies(alloc: Global, pieces: &[Piece]) -> Result<Vec<Piece>, AllocError>
    ensures { IfOk result (λ copied. copied.items ≡ pieces.now) }
{
    let mut copied = Vec::with_capacity(alloc, pieces.len())?;
    for piece in pieces {
        copied.push(piece.copy(alloc)?)?;
    }
    Ok(copied)
}
