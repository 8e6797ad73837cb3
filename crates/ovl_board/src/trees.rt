//! Listed paths as work, for tests.
ghost use Rattle.std.specs.Prelude.{◌≡◌, ◌↔◌, ◌<◌, ◌^◌, IfOk, IsOk, IsTrue, AllPairs};
ghost use Rattle.std.specs.declared.cmp.Ordering.TheVariants.{Less};
ghost use Rattle.ovl_names.specs.Paths.{path_cmp};
ghost use Rattle.ovl_board.specs.declared.trees.TreeFault.TheVariants.{Shape};
ghost use Rattle.ovl_board.specs.Trees.{HasTreeShape, EachFollows, is_next, children, deepest_path};

use crate::pieces::{Piece, lies_below};
use crate::works::Work;
use ovl_names::Path;
use std::alloc::{AllocError, Global};
use std::marker::Model;
use thiserror::Error;

/// Why listed paths are no tree; where both hold, the first is given.
#[derive(Clone, Copy, Debug, PartialEq, Eq, Error)]
pub enum TreeFault {
    /// The first path isn't `/`, or one doesn't come after the one before it, or has no parent
    /// among them.
    #[error("the paths do not begin with `/`, do not ascend, or lack a parent")]
    Shape,
    /// A path has 2^32 names or more.
    #[error("out of memory")]
    Memory,
}

/// A tree of listed paths, as work that puts out nothing: its pieces are the paths in space 0, and
/// the kids of a piece are the listed paths one name below it. A piece of another space has no
/// kids. For tests.
#[derive(Drop)]
pub struct Tree {
    paths: Vec<Path>,
    deepest: u32,
}

impl Model for Tree {
    ghost use Rattle.std.specs.Prelude.{◌≡◌, List};
    ghost use Rattle.ovl_names.specs.Paths.{PathNames};

    ghost Value = { List PathNames };

    ghost use Rattle.ovl_board.specs.Trees.{HasTreeShape, deepest_path};

    ghost view = { λ t. t.paths.items };

    ghost invariant = { λ t. HasTreeShape t.paths.items
        × (t.deepest ≡ deepest_path t.paths.items) };
}

impl Tree {
    /// The tree of these paths, of which the first is `/`; they ascend strictly, and the parent of
    /// each is listed. `Memory` is given only for a path of 2^32 names or more, whose tree has as
    /// many paths.
    pub fn of(paths: Vec<Path>) -> Result<Tree, TreeFault>
        ensures tree { IfOk result (λ tree. (tree ≡ paths.items) × HasTreeShape paths.items) }
        ensures refused { (result ≡ Err Shape) ↔ (HasTreeShape paths.items → ⊥) }
        ensures taken { IsOk result
            ↔ (HasTreeShape paths.items × (deepest_path paths.items < 2 ^ 32)) }
    {
        // Made by hand (1): a path of 2^32 names, whose tree has as many paths: no memory holds it.
        if !has_tree_shape(&paths) {
            return Err(TreeFault::Shape);
        }
        let Ok(deepest) = u32::try_from(most_names(&paths)) else {
            return Err(TreeFault::Memory);
        };
        Ok(Tree { paths, deepest })
    }
}

impl Work for Tree {
    type Out = ();

    ghost Seen = { Unit {0} };

    ghost seen_set = { Prim.hlevel };

    ghost seen = { λ _. tt };

    ghost use Rattle.ovl_board.specs.Trees.{tree_kids, deepest_path};

    ghost kids_of = { tree_kids };

    ghost out_of = { λ _ _. tt };

    ghost deepest_of = { deepest_path };

    fn visit(&self, alloc: Global, piece: &Piece) -> Result<(Vec<Piece>, ()), AllocError> {
        let mut kids = Vec::new(alloc);
        if piece.space != 0 {
            return Ok((kids, ()));
        }
        for path in paths_under(&self.paths, &piece.dir) {
            if lies_below(&piece.dir, path) {
                kids.push(Piece {
                    space: 0,
                    dir: path.copy(alloc)?,
                })?;
            }
        }
        Ok((kids, ()))
    }

    fn deepest(&self) -> u32 {
        self.deepest
    }
}

// The part of ascending paths that lies under a directory.
fn paths_under<'a>(paths: &'a [Path], dir: &Path) -> &'a [Path]
    requires { AllPairs (λ d e. path_cmp d e ≡ Less) paths.now }
    ensures { children result.now dir.now ≡ children paths.now dir.now }
{
    let start = paths.partition_point(|path| path <= dir);
    let later = &paths[start..];
    let end = later.partition_point(|path| path.names().starts_with(&dir.names()));
    &later[..end]
}

fn most_names(paths: &[Path]) -> usize
    ensures { result ≡ deepest_path paths.now }
{
    let mut most = 0;
    for path in paths {
        most = most.max(path.len());
    }
    most
}

fn has_tree_shape(paths: &[Path]) -> bool
    ensures { IsTrue result ↔ HasTreeShape paths.now }
{
    match paths.first() {
        None => false,
        Some(first) => first.is_empty() && each_follows(paths),
    }
}

fn each_follows(paths: &[Path]) -> bool
    ensures { IsTrue result ↔ EachFollows paths.now }
{
    for i in 1..paths.len() {
        if !follows(&paths[i - 1], &paths[i]) {
            return false;
        }
    }
    true
}

// Whether a path comes after the one before it, and its parent is that one or lies above it.
fn follows(before: &Path, path: &Path) -> bool
    ensures { result ≡ is_next before.now path.now }
{
    match path.names().split_last() {
        None => false,
        Some((_, above)) => before < path && before.names().starts_with(&above),
    }
}
