//! The mark of each row of a sheet.
ghost use Rattle.std.specs.Prelude.{◌≡◌, ◌<◌, ◌++◌, [], ◌∷◌, length, slice_get, Some, IfOk, IfSome, OnOk};
ghost use Rattle.ovl_inode.specs.Marks.{mark_of};
ghost use Rattle.ovl_layer.specs.Layers.{entry_limit};
ghost use Rattle.ovl_layer.specs.MarkLists.{plain_marks};

use ovl_inode::{Inode, Kind, Mark, mark_of};
use std::alloc::{AllocError, Global};
use std::marker::Model;

/// The marks of rows, seen as their list. Of each row the number of its mark is kept: the marks
/// without a redirect are shared, and are at the head of the list of different ones.
#[derive(Drop)]
pub(crate) struct MarkList {
    numbers: Vec<u32>,
    different: Vec<Mark>,
}

impl Model for MarkList {
    ghost use Rattle.std.specs.Prelude.{List};
    ghost use Rattle.ovl_inode.specs.declared.marks.Mark.{Mark};
    ghost use Rattle.ovl_layer.specs.MarkLists.{marks_at, AreMarks};

    ghost Value = { List Mark };

    ghost view = { λ a. marks_at a.different.items a.numbers.items };

    ghost invariant = { λ a. AreMarks a.different.items a.numbers.items };
}

impl MarkList {
    /// The empty one, with room for the numbers of this many rows.
    pub(crate) fn with_capacity(alloc: Global, count: usize) -> Result<MarkList, AllocError>
        ensures { IfOk result (λ marks. marks ≡ []) }
    {
        let numbers = Vec::with_capacity(alloc, count)?;
        let different = vec![in alloc;
            Mark::Whiteout,
            Mark::DirOpaque,
            Mark::DirBad,
            Mark::DirPlain,
            Mark::Meta(None),
            Mark::MetaBad,
            Mark::Leaf,
        ]?;
        Ok(MarkList { numbers, different })
    }

    /// Adds the mark of the next row, by its inode.
    pub(crate) fn push_of(&mut self, alloc: Global, inode: &Inode) -> Result<(), AllocError>
        requires { length self.old < entry_limit }
        ensures { OnOk result (self.new ≡ self.old ++ mark_of inode.now ∷ []) }
    {
        if let Some(number) = bare_number(inode) {
            self.numbers.push(number)?;
            return Ok(());
        }
        self.push(mark_of(alloc, inode)?)
    }

    // Adds the mark of the next row.
    fn push(&mut self, mark: Mark) -> Result<(), AllocError>
        requires { length self.old < entry_limit }
        ensures { OnOk result (self.new ≡ self.old ++ mark ∷ []) }
    {
        if let Some(number) = plain_number(&mark) {
            self.numbers.push(number)?;
            return Ok(());
        }
        self.numbers.reserve(1)?;
        let number = self.different.len() as u32;
        self.different.push(mark)?;
        self.numbers.push_reserved(number);
        Ok(())
    }

    /// The mark of the row with this number.
    pub(crate) fn at(&self, number: u32) -> &Mark
        requires { number < length self.now }
        ensures { slice_get self.now number ≡ Some result.now }
    {
        &self.different[self.numbers[number as usize] as usize]
    }
}

// The number of the mark of an inode without attributes. A device may be a whiteout, and is left to
// `mark_of`.
fn bare_number(inode: &Inode) -> Option<u32>
    ensures { IfSome result (λ number. slice_get plain_marks number ≡ Some (mark_of inode.now)) }
{
    if !inode.attrs.pairs().is_empty() {
        return None;
    }
    match &inode.kind {
        Kind::Dir => Some(3),
        Kind::Char { .. } => None,
        _ => Some(6),
    }
}

// The number of a mark without a redirect.
fn plain_number(mark: &Mark) -> Option<u32>
    ensures { IfSome result (λ number. slice_get plain_marks number ≡ Some mark.now) }
{
    match mark {
        Mark::Whiteout => Some(0),
        Mark::DirOpaque => Some(1),
        Mark::DirBad => Some(2),
        Mark::DirPlain => Some(3),
        Mark::Meta(None) => Some(4),
        Mark::MetaBad => Some(5),
        Mark::Leaf => Some(6),
        Mark::DirMoved(_) | Mark::Meta(Some(_)) => None,
    }
}
