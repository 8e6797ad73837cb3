//! Names, paths, and texts as reports show them.

use ovl_names::{Name, NameFault, Path, PathFault, escaped, push_escaped};
use ovl_test_rows::expect_so;
use std::alloc::{AllocError, Global};
use std::test::Fail;

/// A name that takes memory of its own.
pub(crate) const LONG: &str = "name-of-more-than-24-bytes";

fn is_name_copied(alloc: Global, name: &Name) -> Result<bool, AllocError> {
    let copy = name.copy(alloc)?;
    Ok(Name::copy_of(alloc, name.as_str())? == copy && copy == *name)
}

fn is_name_told(alloc: Global, name: &Name) -> Result<bool, AllocError> {
    Ok(is_name_copied(alloc, name)? && name.shown(alloc)?.as_str() == LONG)
}

fn is_path_shown(alloc: Global, path: &Path) -> Result<bool, AllocError> {
    let copy = path.copy(alloc)?;
    Ok(copy == *path && copy.shown(alloc)?.as_str() == NINE)
}

fn has_child(alloc: Global, path: &Path, name: &Name) -> Result<bool, AllocError> {
    let child = path.child(alloc, name)?;
    match child.parent(alloc)? {
        Some(parent) => Ok(child.len() == 10 && parent == *path),
        None => Ok(false),
    }
}

fn is_joined(alloc: Global, path: &Path) -> Result<bool, AllocError> {
    Ok(path.joined(alloc, &path.names())?.len() == 18)
}

// Of a path of nine names.
fn is_path_told(alloc: Global, path: &Path, name: &Name) -> Result<bool, AllocError> {
    Ok(is_path_shown(alloc, path)? && has_child(alloc, path, name)? && is_joined(alloc, path)?)
}

fn has_pushed(alloc: Global, path: &mut Path, name: &Name) -> Result<bool, AllocError> {
    let before = path.copy(alloc)?;
    if path.push(name).is_err() {
        if *path != before {
            return Ok(false);
        }
        path.push(name)?;
    }
    Ok(true)
}

fn is_pushed(alloc: Global, path: &mut Path, name: &Name) -> Result<bool, AllocError> {
    let wanted = path.child(alloc, name)?;
    Ok(has_pushed(alloc, path, name)? && *path == wanted)
}

fn has_gone(alloc: Global, path: &mut Path, name: &Name) -> Result<bool, AllocError> {
    let before = path.copy(alloc)?;
    if path.go_to(8, name).is_err() {
        if *path != before {
            return Ok(false);
        }
        path.go_to(8, name)?;
    }
    Ok(true)
}

// In place of the last of nine names.
fn is_gone_to(alloc: Global, path: &mut Path, name: &Name) -> Result<bool, AllocError> {
    let above = path.parent(alloc)?;
    Ok(has_gone(alloc, path, name)? && path.len() == 9 && path.parent(alloc)? == above)
}

fn has_appended(alloc: Global, written: &mut String, text: &str) -> Result<bool, AllocError> {
    let before = String::from_str(alloc, written.as_str())?;
    if push_escaped(alloc, written, text).is_err() {
        if *written != before {
            return Ok(false);
        }
        push_escaped(alloc, written, text)?;
    }
    Ok(true)
}

fn is_appended(alloc: Global, written: &mut String, text: &str) -> Result<bool, AllocError> {
    let escapes = escaped(alloc, text)?;
    Ok(has_appended(alloc, written, text)? && written.as_str().ends_with(escapes.as_str()))
}

const NINE: &str = "/a/b/c/d/e/f/g/h/i";

#[test]
fn a_name_is_told(rt: HostRuntime) -> Result<(), Fail> {
    let name = again!(Name::of(rt.alloc(), LONG), NameFault::Memory)?;
    expect_so(again!(is_name_told(rt.alloc(), &name), AllocError)?)
}

#[test]
fn a_path_is_told(rt: HostRuntime) -> Result<(), Fail> {
    let name = again!(Name::of(rt.alloc(), LONG), NameFault::Memory)?;
    let path = again!(Path::parse(rt.alloc(), NINE), PathFault::Memory)?;
    expect_so(again!(is_path_told(rt.alloc(), &path, &name), AllocError)?)
}

#[test]
fn a_path_goes_to_a_name(rt: HostRuntime) -> Result<(), Fail> {
    let name = again!(Name::of(rt.alloc(), LONG), NameFault::Memory)?;
    let mut path = again!(Path::parse(rt.alloc(), NINE), PathFault::Memory)?;
    expect_so(again!(is_gone_to(rt.alloc(), &mut path, &name), AllocError)?)
}

#[test]
fn a_name_is_pushed_to_a_path(rt: HostRuntime) -> Result<(), Fail> {
    let name = again!(Name::of(rt.alloc(), LONG), NameFault::Memory)?;
    let mut path = again!(Path::parse(rt.alloc(), NINE), PathFault::Memory)?;
    for _ in 0..9 {
        expect_so(again!(is_pushed(rt.alloc(), &mut path, &name), AllocError)?)?;
    }
    Ok(())
}

#[test]
fn escapes_are_appended(rt: HostRuntime) -> Result<(), Fail> {
    let mut written = String::new(rt.alloc());
    expect_so(again!(is_appended(rt.alloc(), &mut written, "-plain-"), AllocError)?)?;
    expect_so(again!(is_appended(rt.alloc(), &mut written, " \u{e9}"), AllocError)?)?;
    expect_so(written.as_str() == "-plain-\\x20\\xc3\\xa9")
}
