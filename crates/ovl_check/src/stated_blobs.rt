//! The names of blobs that layers state. It must not know contents.
ghost use Rattle.std.specs.Prelude.{◌≡◌, ◌++◌, IfOk, OnOk};
ghost use Rattle.ovl_check.specs.Stated.{AreStated, name_in, names_in};

use ovl_inode::{Digest, Inode, blob_of};
use ovl_layer::Sheet;
use ovl_lookup::Stack;
use std::alloc::{AllocError, Global};

/// The names of the blobs that the layers of a stack state, the data-only ones too: ascending, each
/// once. Fails only when out of memory.
pub fn stated_names(alloc: Global, stack: &Stack) -> Result<Vec<Digest>, AllocError>
    ensures { IfOk result (λ names. AreStated stack.now names.items) }
{
    let mut names = Vec::new(alloc);
    for i in 0..stack.layers() {
        push_names(stack.any_sheet(i), &mut names)?;
    }
    names.sort()?;
    names.dedup();
    Ok(names)
}

// Adds the names that a layer states, in the order of its entries.
fn push_names(sheet: &Sheet, names: &mut Vec<Digest>) -> Result<(), AllocError>
    ensures { OnOk result (names.new.items ≡ names.old.items ++ names_in sheet.now) }
{
    for number in 0..sheet.len() {
        if let Some(row) = sheet.row(number) {
            push_name(&row.inode, names)?;
        }
    }
    Ok(())
}

fn push_name(inode: &Inode, names: &mut Vec<Digest>) -> Result<(), AllocError>
    ensures { OnOk result (names.new.items ≡ names.old.items ++ name_in inode.now) }
{
    if let Some(name) = blob_of(inode) {
        names.push(name)?;
    }
    Ok(())
}
