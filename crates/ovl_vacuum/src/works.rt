//! A stack as the work of vacuum.
ghost use Rattle.std.specs.Prelude.{◌≡◌};
ghost use Rattle.ovl_vacuum.specs.Directories.{TellsIdle};

use crate::directories::TopDirectory;
use ovl_board::{Piece, Work};
use ovl_lookup::Stack;
use ovl_names::{DEPTH_LIMIT, Name};
use std::alloc::{AllocError, Global};
use std::marker::Model;

/// A stack as work of vacuum, whose pieces are the directories of its topmost layer, from `/` of
/// space 0. The output of a directory is each name in it, in order, with whether its entry is idle:
/// whether it changes nothing in the merged tree. Its kids are those that are directories. A kid
/// has the space of its piece.
#[derive(Drop)]
pub struct VacuumWork<'a> {
    pub(crate) stack: &'a Stack,
}

impl<'a> Model for VacuumWork<'a> {
    ghost use Rattle.ovl_lookup.specs.Stacks.{StackView};

    ghost Value = { StackView };

    ghost view = { λ a. a.stack.now };
}

impl<'a> VacuumWork<'a> {
    /// The work of this stack; its visits give what is idle in the topmost layer.
    pub fn new(stack: &'a Stack) -> VacuumWork<'a>
        ensures value { result ≡ stack.now }
        ensures tells { TellsIdle stack.now }
    {
        // Each layer of a stack is one.
        let _layers = stack.ordinary();
        VacuumWork { stack }
    }
}

impl<'a> Work for VacuumWork<'a> {
    type Out = Vec<(Name, bool)>;

    ghost use Rattle.std.specs.Prelude.{List};
    ghost use Rattle.ovl_names.specs.Paths.{depth_limit};
    ghost use Rattle.ovl_vacuum.specs.Directories.{IdleName, names_set, names_seen, vacuum_kids, vacuum_out};

    ghost Seen = { List IdleName };

    ghost seen_set = { names_set };

    ghost seen = { names_seen };

    ghost kids_of = { vacuum_kids };

    ghost out_of = { vacuum_out };

    ghost deepest_of = { λ _. depth_limit };

    fn visit(
        &self,
        alloc: Global,
        piece: &Piece,
    ) -> Result<(Vec<Piece>, Vec<(Name, bool)>), AllocError> {
        let Some(directory) = TopDirectory::of(alloc, self.stack, piece)? else {
            return Ok((Vec::new(alloc), Vec::new(alloc)));
        };
        directory.told(alloc)
    }

    fn deepest(&self) -> u32 {
        // Each layer of a stack is within the limits of a manifest.
        let _layers = self.stack.ordinary();
        DEPTH_LIMIT as u32
    }
}
