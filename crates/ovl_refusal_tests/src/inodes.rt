//! Attributes, inodes, redirects and marks.

use crate::names::LONG;
use ovl_inode::{
    AttrFault, Attrs, Inode, Kind, Mark, Redirect, RedirectFault, Target, mark_of, overlay,
    read_redirect, visible,
};
use ovl_test_rows::expect_so;
use std::alloc::{AllocError, Global};
use std::test::Fail;

fn is_put(alloc: Global, attrs: &mut Attrs, name: &str, value: &[u8]) -> Result<bool, AttrFault> {
    let before = attrs.copy(alloc)?;
    if attrs.put(name, value).is_err() {
        if *attrs != before {
            return Ok(false);
        }
        attrs.put(name, value)?;
    }
    Ok(attrs.get(name) == Some(value))
}

fn is_copied(alloc: Global, inode: &Inode) -> Result<bool, AllocError> {
    Ok(inode.copy(alloc)? == *inode)
}

fn are_attrs_copied(alloc: Global, attrs: &Attrs) -> Result<bool, AllocError> {
    Ok(attrs.copy(alloc)? == *attrs)
}

fn is_visible(alloc: Global, inode: &Inode) -> Result<bool, AllocError> {
    let shown = visible(alloc, inode)?;
    Ok(shown.attrs.pairs().count() == 1 && shown.kind.copy(alloc)? == inode.kind)
}

// Of an inode with two attributes, one of them the overlay's.
fn is_inode_told(alloc: Global, inode: &Inode) -> Result<bool, AllocError> {
    Ok(
        is_copied(alloc, inode)?
            && are_attrs_copied(alloc, &inode.attrs)?
            && is_visible(alloc, inode)?,
    )
}

fn is_path_read(alloc: Global) -> Result<bool, RedirectFault> {
    let to = read_redirect(alloc, b"/x/y")?;
    Ok(matches!(&to, Redirect::To(path) if path.len() == 2))
}

fn is_name_read(alloc: Global) -> Result<bool, RedirectFault> {
    let beside = read_redirect(alloc, LONG.as_bytes())?;
    Ok(matches!(&beside, Redirect::Beside(name) if name.as_str() == LONG))
}

fn is_mark_read(alloc: Global, moved: &Inode) -> Result<bool, AllocError> {
    let mark = mark_of(alloc, moved)?;
    Ok(matches!(&mark, Mark::DirMoved(Redirect::To(path)) if path.len() == 2))
}

fn is_read(alloc: Global, moved: &Inode) -> Result<bool, RedirectFault> {
    Ok(is_path_read(alloc)? && is_name_read(alloc)? && is_mark_read(alloc, moved)?)
}

fn put(alloc: Global, attrs: &mut Attrs, name: &str, value: &[u8]) -> Result<(), Fail> {
    expect_so(again!(is_put(alloc, attrs, name, value), AttrFault::Memory)?)
}

// A redirect and another attribute, which is put twice.
fn put_all(alloc: Global, attrs: &mut Attrs) -> Result<(), Fail> {
    put(alloc, attrs, "user.k", b"v")?;
    put(alloc, attrs, overlay::REDIRECT, b"/x/y")?;
    put(alloc, attrs, "user.k", b"w")
}

#[test]
fn an_inode_is_told(rt: HostRuntime) -> Result<(), Fail> {
    let mut attrs = Attrs::new(rt.alloc());
    put_all(rt.alloc(), &mut attrs)?;
    let target = Target::from(again!(String::from_str(rt.alloc(), LONG), AllocError)?);
    let inode = Inode::plain(Kind::Symlink { target }, 0o755, attrs);
    expect_so(again!(is_inode_told(rt.alloc(), &inode), AllocError)?)
}

#[test]
fn a_redirect_is_read(rt: HostRuntime) -> Result<(), Fail> {
    let mut attrs = Attrs::new(rt.alloc());
    put_all(rt.alloc(), &mut attrs)?;
    let inode = Inode::plain(Kind::Dir, 0o755, attrs);
    expect_so(again!(is_read(rt.alloc(), &inode), RedirectFault::Memory)?)
}
