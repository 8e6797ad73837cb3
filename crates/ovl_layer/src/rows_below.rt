//! The rows directly below a row of a sheet, lent one after the other.
ghost use Rattle.std.specs.Prelude.{◌≡◌, ◌↔◌, [], length, map, IsTrue};
ghost use Rattle.std.specs.List.{AllByRecursion};
ghost use Rattle.std.specs.Iterator.{YieldsFirstBy, item_count};
ghost use Rattle.ovl_layer.specs.RowsBelow.{IsNamedRow, named_row};

use crate::sheets::Sheet;
use ovl_names::Name;
use std::marker::Model;

/// Rows of a sheet that have a name, one after the other, seen as their numbers and names. As an
/// iterator it gives the first one's, and leaves the others.
#[derive(Drop)]
pub struct RowsBelow<'a> {
    sheet: &'a Sheet,
    numbers: &'a [u32],
}

impl<'a> Model for RowsBelow<'a> {
    ghost use Rattle.std.specs.Prelude.{List, map};
    ghost use Rattle.std.specs.List.{AllByRecursion};
    ghost use Rattle.ovl_layer.specs.RowsBelow.{NamedRow, IsNamedRow, named_row};

    ghost Value = { List NamedRow };

    ghost view = { λ a. map (named_row a.sheet.now) a.numbers.now };

    ghost invariant = { λ a. AllByRecursion (IsNamedRow a.sheet.now) a.numbers.now };
}

impl<'a> RowsBelow<'a> {
    /// The rows of these numbers.
    pub(crate) fn of(sheet: &'a Sheet, numbers: &'a [u32]) -> RowsBelow<'a>
        requires { AllByRecursion (IsNamedRow sheet.now) numbers.now }
        ensures { result ≡ map (named_row sheet.now) numbers.now }
    {
        RowsBelow { sheet, numbers }
    }

    /// How many rows are left.
    pub fn len(&self) -> usize
        ensures { result ≡ length self.now }
    {
        self.numbers.len()
    }

    /// Whether no row is left.
    pub fn is_empty(&self) -> bool
        ensures { IsTrue result ↔ (self.now ≡ []) }
    {
        self.numbers.is_empty()
    }
}

impl<'a> Iterator for RowsBelow<'a> {
    type Item = (u32, &'a Name);

    ghost next_gives = { YieldsFirstBy (λ row. (row.0, row.1.now)) (λ rows. rows) };

    ghost remaining = { item_count (λ rows. rows) };

    fn next(&mut self) -> Option<(u32, &'a Name)> {
        let sheet = self.sheet;
        let (number, others) = self.numbers.split_first()?;
        let name = sheet.name(*number)?;
        self.numbers = others;
        Some((*number, name))
    }
}
