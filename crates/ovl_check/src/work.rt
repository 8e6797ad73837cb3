//! The check of a stack as work: what it is of, and what its visits put out.
ghost use Rattle.std.specs.Prelude.{◌≡◌, true};
ghost use Rattle.ovl_blobs.specs.Blobs.{blob_views, are_in_order, wrong_names};
ghost use Rattle.ovl_blobs.specs.Contents.{contents_of, contents_ascend};
ghost use Rattle.ovl_check.specs.Checks.{check_seen, no_seen};
ghost use Rattle.ovl_check.specs.CheckViews.{check_view};

use crate::checks::directory_out;
use crate::directories::{directory_at, kids_of};
use crate::findings::Finding;
use crate::lower_paths::LowerPath;
use ovl_blobs::{Blob, BlobInfo, KnownBlobs};
use ovl_board::{Piece, Work};
use ovl_inode::{Digest, Mark};
use ovl_lookup::Stack;
use ovl_names::DEPTH_LIMIT;
use std::alloc::{AllocError, Global};

/// What comes of checking a directory of a layer.
#[derive(Debug, Drop)]
pub struct CheckOut<'a> {
    /// What is found at the directory and at each entry in it that is no directory, redirect-double
    /// apart.
    pub findings: Vec<Finding>,
    /// The path by which the layers below know the directory, where they aren't hidden; none in a
    /// data-only layer.
    pub place: Option<LowerPath<'a>>,
    /// Whether the directory is a moved one; none is in a data-only layer.
    pub moved: bool,
}

/// A stack and its blobs to be checked, as work: the pieces of space `i` are the directories of
/// layer `i`, from its root down. See [`CheckOut`] for what comes of each.
///
/// The plain walks of the first `count` layers, by one thread:
///
/// ```
/// let mut layers = Vec::new(alloc);
/// for i in 0..count {
///     layers.push(plain_walk(alloc, work, Piece::root(alloc, i))?)?;
/// }
/// Ok(layers)
/// ```
#[derive(Drop)]
pub struct CheckWork<'a> {
    pub(crate) stack: &'a Stack,
    pub(crate) blobs: KnownBlobs<'a>,
}

impl<'a> CheckWork<'a> {
    /// The work of checking a stack with these blobs, of which the names ascend strictly, see
    /// [`crate::blobs_in_order`]. `wrong` has the names of those with wrong bytes, as
    /// [`crate::finish_blobs`] gives them.
    pub fn new(stack: &'a Stack, blobs: &'a [Blob], wrong: &'a [Digest]) -> CheckWork<'a>
        requires ascend { are_in_order (blob_views blobs.now) ≡ true }
        requires all_wrong { wrong.now ≡ wrong_names (blob_views blobs.now) }
        ensures { check_view result
            ≡ record { stack = stack.now; contents = contents_of (blob_views blobs.now) } }
    {
        CheckWork {
            stack,
            blobs: KnownBlobs::held(blobs, wrong),
        }
    }

    /// The work of checking a stack with blobs that have these contents, whose names ascend
    /// strictly.
    pub fn of_contents(stack: &'a Stack, contents: &'a [BlobInfo]) -> CheckWork<'a>
        requires { contents_ascend contents.now ≡ true }
        ensures { check_view result ≡ record { stack = stack.now; contents = contents.now } }
    {
        CheckWork {
            stack,
            blobs: KnownBlobs::measured(contents),
        }
    }
}

impl<'a> Work for CheckWork<'a> {
    type Out = CheckOut<'a>;

    ghost use Rattle.ovl_names.specs.Paths.{depth_limit};
    ghost use Rattle.ovl_check.specs.Checks.{CheckSeen, check_seen, check_kids, check_out};
    ghost use Rattle.ovl_check.specs.Checks as checks;
    ghost use Rattle.ovl_check.specs.CheckViews.{check_view};

    ghost Seen = { CheckSeen };

    ghost seen_set = { checks.seen_set };

    ghost seen = { check_seen };

    ghost kids_of = { λ work. check_kids (check_view work) };

    ghost out_of = { λ work. check_out (check_view work) };

    ghost deepest_of = { λ _. depth_limit };

    fn visit(
        &self,
        alloc: Global,
        piece: &Piece,
    ) -> Result<(Vec<Piece>, CheckOut<'a>), AllocError> {
        let i = usize::from(piece.space);
        if i >= self.stack.layers() {
            return Ok((Vec::new(alloc), nothing(alloc)));
        }
        let plain = Mark::DirPlain;
        let Some(directory) = directory_at(alloc, self.stack, i, &piece.dir, &plain)? else {
            return Ok((Vec::new(alloc), nothing(alloc)));
        };
        let kids = kids_of(alloc, piece, &directory.children)?;
        let out = directory_out(alloc, self, piece.space, directory)?;
        Ok((kids, out))
    }

    fn deepest(&self) -> u32 {
        // Each layer of a stack is within the limits of a manifest.
        let _layers = self.stack.layers();
        DEPTH_LIMIT as u32
    }
}

fn nothing<'a>(alloc: Global) -> CheckOut<'a>
    ensures { check_seen result ≡ no_seen }
{
    CheckOut {
        findings: Vec::new(alloc),
        place: None,
        moved: false,
    }
}
