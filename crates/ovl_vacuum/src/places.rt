//! The paths of rows, each made from that of the row before.
ghost use Rattle.std.specs.Prelude.{◌≡◌, ◌<◌, [], length, IfOk};
ghost use Rattle.ovl_layer.specs.Sheets.{path_at};
ghost use Rattle.ovl_names.specs.Paths.{parent_path};
ghost use Rattle.ovl_vacuum.specs.Passes.{IsDirectoryAbove};

use ovl_layer::Sheet;
use ovl_names::Path;
use std::alloc::{AllocError, Global};

/// The number of the row of the directory that holds the entry of a row; the root's is its own.
pub(crate) fn directory_of(sheet: &Sheet, number: u32) -> u32
    requires { number < length sheet.now }
    ensures inside { result < length sheet.now }
    ensures path { path_at sheet.now result ≡ parent_path (path_at sheet.now number) }
{
    sheet.row(number).unwrap().parent
}

/// The path of the entry of a row, by the path of its directory.
pub(crate) fn path_in(
    alloc: Global,
    sheet: &Sheet,
    number: u32,
    directory: &Path,
) -> Result<Path, AllocError>
    requires inside { number < length sheet.now }
    requires directory { directory.now ≡ parent_path (path_at sheet.now number) }
    ensures { IfOk result (λ path. path ≡ path_at sheet.now number) }
{
    match sheet.name(number) {
        Some(name) => directory.child(alloc, name),
        None => Ok(Path::root(alloc)),
    }
}

/// The path of the entry of a row, by the names of the rows above it.
pub(crate) fn path_of(alloc: Global, sheet: &Sheet, number: u32) -> Result<Path, AllocError>
    requires { number < length sheet.now }
    ensures { IfOk result (λ path. path ≡ path_at sheet.now number) }
{
    let Some(name) = sheet.name(number) else {
        return Ok(Path::root(alloc));
    };
    let mut path = path_of(alloc, sheet, directory_of(sheet, number))?;
    path.push(name)?;
    Ok(path)
}

/// The directory of the last row that was asked for, which mostly is that of the next one too.
#[derive(Drop)]
pub(crate) struct DirectoryAbove {
    // The number of its row.
    row: u32,
    /// The path of the directory.
    pub(crate) path: Path,
}

impl DirectoryAbove {
    /// The root.
    pub(crate) fn root(alloc: Global) -> DirectoryAbove
        ensures row { result.row ≡ 0 }
        ensures path { result.path ≡ [] }
    {
        DirectoryAbove {
            row: 0,
            path: Path::root(alloc),
        }
    }

    /// Goes to the directory of a row.
    pub(crate) fn go_to(
        &mut self,
        alloc: Global,
        sheet: &Sheet,
        number: u32,
    ) -> Result<(), AllocError>
        requires inside { number < length sheet.now }
        requires path { IsDirectoryAbove sheet.now self.old }
        ensures path { IfOk result (λ _. IsDirectoryAbove sheet.now self.new) }
        ensures directory { IfOk result
            (λ _. self.new.path ≡ parent_path (path_at sheet.now number)) }
    {
        let directory = directory_of(sheet, number);
        if directory != self.row {
            self.path = path_of(alloc, sheet, directory)?;
            self.row = directory;
        }
        Ok(())
    }
}
