//! Layers and sheets of manifests, and manifests of layers.

use crate::samples::{earlier, layer_of, manifest_of};
use ovl_layer::{Layer, LayerFault, Sheet, SheetRow, from_entries};
use ovl_manifest::{read_layer, read_sheet, write_layer};
use ovl_names::{Name, Path};
use ovl_test_rows::{expect_at, expect_so, parts_of, repeated, same};
use std::alloc::{AllocError, Global};
use std::test::Fail;

#[test]
fn entries_in_another_order_are_no_layer(rt: HostRuntime) -> Result<(), Fail> {
    let mut entries = layer_of(rt.alloc(), "dir /a, dir /b")?.entries(rt.alloc())?;
    entries.reverse();
    let fault = from_entries(rt.alloc(), entries).err();
    expect_so(fault == Some(LayerFault::Root))
}

// A failure where a layer is written as another manifest.
fn expect_written(alloc: Global, layer: &Layer, manifest: &[u8]) -> Result<(), Fail> {
    expect_so(write_layer(alloc, layer)?.as_slice() == manifest)
}

// How many entries a layer has, whose manifest is also that of its entries.
fn entries_told(alloc: Global, layer: &Layer, manifest: &[u8]) -> Result<String, Fail> {
    let entries = layer.entries(alloc)?;
    let told = format!(in alloc; "{} entries", entries.len())?;
    expect_written(alloc, &from_entries(alloc, entries)?, manifest)?;
    Ok(told)
}

// The same of a layer that is written as it was read.
fn written_told(alloc: Global, entries: &str) -> Result<String, Fail> {
    let manifest = manifest_of(alloc, entries)?;
    let layer = read_layer(alloc, &manifest)?;
    expect_written(alloc, &layer, &manifest)?;
    entries_told(alloc, &layer, &manifest)
}

// How a manifest is written again, without the newline at the end.
fn rewritten_told(alloc: Global, manifest: &str) -> Result<String, Fail> {
    let layer = read_layer(alloc, manifest.as_bytes())?;
    let written = String::from_utf8(write_layer(alloc, &layer)?)?;
    Ok(String::from_str(alloc, written.as_str().trim_end())?)
}

// What refuses bytes where a layer is read of them, or a sheet.
fn fault_of(alloc: Global, bytes: &[u8], by_layer: bool) -> Option<LayerFault> {
    if by_layer {
        return read_layer(alloc, bytes).err();
    }
    read_sheet(alloc, bytes).err()
}

fn fault_told(alloc: Global, text: &str, by_layer: bool) -> Result<String, AllocError> {
    match fault_of(alloc, text.as_bytes(), by_layer) {
        Some(fault) => fault.to_string(alloc),
        None => String::from_str(alloc, "none"),
    }
}

// Names, each with `;` after it.
fn listed(alloc: Global, names: &[Name]) -> Result<String, AllocError> {
    let mut text = String::new(alloc);
    for name in names {
        text.push_str(name.as_str())?;
        text.push_str(";")?;
    }
    Ok(text)
}

// The names in a directory, in order.
fn children_told(alloc: Global, path: &str) -> Result<String, Fail> {
    let path = Path::parse(alloc, path)?;
    let layer = layer_of(alloc, "dir /n opaque=y, dir /n/d redirect=/x, whiteout /x")?;
    Ok(listed(alloc, &layer.children(alloc, &path)?)?)
}

// A sheet of five rows, from its manifest, and by way of a layer where that is asked for.
fn sheet_of(alloc: Global, by_layer: bool) -> Result<Sheet, Fail> {
    let manifest = manifest_of(alloc, "dir /n, file /n/z, dir /x, file /x/k")?;
    if !by_layer {
        return Ok(read_sheet(alloc, &manifest)?);
    }
    match Sheet::of(alloc, read_layer(alloc, &manifest)?) {
        Ok(sheet) => Ok(sheet),
        Err(_) => Err(Fail::new("out of memory")),
    }
}

// The name, the parent and the number after of a row.
fn shown_row(alloc: Global, row: &SheetRow) -> Result<String, AllocError> {
    let name = match &row.name {
        Some(name) => name.as_str(),
        None => "/",
    };
    format!(in alloc; "{name} {} {}", row.parent, row.after)
}

fn row_of(alloc: Global, sheet: &Sheet, number: &str) -> Result<String, AllocError> {
    match sheet.row(number.parse().unwrap_or(u32::MAX)) {
        Some(row) => shown_row(alloc, row),
        None => String::from_str(alloc, "none"),
    }
}

fn row_told(alloc: Global, number: &str, by_layer: bool) -> Result<String, Fail> {
    Ok(row_of(alloc, &sheet_of(alloc, by_layer)?, number)?)
}

fn mode_at(alloc: Global, sheet: &Sheet, path: &Path) -> Result<String, AllocError> {
    match sheet.at(path) {
        Some(inode) => format!(in alloc; "{}", inode.mode),
        None => String::from_str(alloc, "none"),
    }
}

fn mode_told(alloc: Global, path: &str) -> Result<String, Fail> {
    let path = Path::parse(alloc, path)?;
    Ok(mode_at(alloc, &sheet_of(alloc, true)?, &path)?)
}

const ROWS: &str = "\
written root -> 1 entries
written console /c, dir /d opaque=y, file-late /d/k, disk /e, link /l user.k=v, fifo /p, socket /s -> 8 entries
children / -> n;x;
children /n -> d;
children /x ->\x20
children /z ->\x20
entry 0 -> / 0 5
entry 1 -> n 0 3
entry 2 -> z 1 3
entry 3 -> x 0 5
entry 4 -> k 3 5
entry 5 -> none
mode /x/k -> 420
mode /x/z -> none
";

// How a manifest of the earlier version is written.
const REWRITTEN: &str =
    r#"rewritten {"entries":[{"gid":0,"kind":"dir","mode":493,"mtime":0,"path":"/","uid":0,"xattrs":{}}],"overlay-layer":1} -> {"entries":[{"gid":0,"kind":"dir","mode":493,"mtime":0,"mtime-nsec":0,"path":"/","uid":0,"xattrs":{}}],"overlay-layer":2}"#;

// A version and entries, with a text in the manifest by another one, and what refuses it.
const STATED: &str = r#"1 of root -> none
1 of root with 493 by 4096 -> entry 0: wrong entry
1 of root with 493 by "493" -> entry 0: wrong entry
1 of root with "mtime":0 by "mtime":9223372036854775808 -> entry 0: wrong entry
1 of root with "mtime":0 by "mtime":-9223372036854775808 -> none
1 of root with "path" by "mtime-nsec":0,"path" -> entry 0: wrong entry
1 of root with "path" by "nlink":1,"path" -> entry 0: wrong entry
1 of root with "uid":0, by  -> entry 0: wrong entry
1 of root with {} by {"user.k":"7"} -> entry 0: wrong entry
1 of root with {} by {"user.k":"7F"} -> entry 0: wrong entry
1 of root with "/" by "/a" -> no root directory first
1 of root with "entries" by "more":0,"entries" -> wrong shape
1 of root with :1} by :"1"} -> wrong shape
1 of root with :1} by :3} -> unknown version
1 of [] -> wrong shape
1 of [] with [] by null -> wrong shape
1 of {"entries":[],"overlay-layer":1} -> entry count
1 of file /, dir /a -> no root directory first
1 of dir /b, dir /a -> entry 2: out of order
1 of dir /a, dir /a -> entry 2: out of order
1 of dir /a/b -> entry 1: no parent directory
1 of dir /a/ -> entry 1: wrong entry
1 of dir /NAME with NAME by 255*n -> none
1 of dir /NAME with NAME by 256*n -> entry 1: wrong entry
1 of 64*dir /a -> none
1 of 65*dir /a -> entry 65: wrong entry
1 of file /a with "size":1 by "size":0 -> entry 1: wrong entry
1 of bare /a -> entry 1: wrong entry
1 of link /a with "a b" by "" -> entry 1: wrong entry
1 of dir /a overlay.opaque=y -> entry 1: escaped attribute
1 of dir /b, dir /a overlay.opaque=y -> entry 2: escaped attribute
2 of root -> none
2 of root with :0,"path" by :1000000000,"path" -> entry 0: wrong entry
2 of root with "mtime-nsec":0, by  -> entry 0: wrong entry
2 of root with :2} by :3} -> unknown version
2 of 128*dir /a -> none
2 of 129*dir /a -> entry 129: wrong entry
"#;

// The manifest of entries in a version.
fn stated(alloc: Global, version: &str, entries: &str) -> Result<String, Fail> {
    let manifest = manifest_of(alloc, entries)?;
    if version == "2" {
        return Ok(String::from_utf8(manifest)?);
    }
    Ok(String::from_utf8(earlier(alloc, &manifest)?)?)
}

// What refuses such a manifest, with a text in place of another.
fn stated_fault(alloc: Global, version: &str, words: &str, by_layer: bool) -> Result<String, Fail> {
    let words = words.strip_prefix("of ").unwrap_or("");
    let (entries, change) = words.split_once(" with ").unwrap_or((words, ""));
    let manifest = stated(alloc, version, entries)?;
    let Some((old, new)) = change.split_once(" by ") else {
        return Ok(fault_told(alloc, manifest.as_str(), by_layer)?);
    };
    let new = repeated(alloc, new)?;
    let changed = manifest.as_str().replace(alloc, old, new.as_str())?;
    Ok(fault_told(alloc, changed.as_str(), by_layer)?)
}

fn told(alloc: Global, call: &str, by_layer: bool) -> Result<String, Fail> {
    let (word, words) = call.split_once(' ').unwrap_or((call, ""));
    match word {
        "written" => written_told(alloc, words),
        "rewritten" => rewritten_told(alloc, words),
        "1" | "2" => stated_fault(alloc, word, words, by_layer),
        "children" => children_told(alloc, words),
        "entry" => row_told(alloc, words, by_layer),
        "mode" => mode_told(alloc, words),
        _ => Err(Fail::new("no call has this word")),
    }
}

fn told_alike(alloc: Global, row: &str) -> Result<(), Fail> {
    let (call, wanted) = parts_of(row);
    same(row, told(alloc, call, false)?.as_str(), wanted)?;
    same(row, told(alloc, call, true)?.as_str(), wanted)
}

#[test]
fn layers_and_sheets_have_what_their_manifests_state(rt: HostRuntime) -> Result<(), Fail> {
    for row in ROWS.lines() {
        told_alike(rt.alloc(), row)?;
    }
    Ok(())
}

#[test]
fn a_manifest_of_the_earlier_version_is_written_in_the_later_one(
    rt: HostRuntime,
) -> Result<(), Fail> {
    told_alike(rt.alloc(), REWRITTEN)
}

#[test]
fn manifests_are_refused_by_their_first_fault(rt: HostRuntime) -> Result<(), Fail> {
    for row in STATED.lines() {
        told_alike(rt.alloc(), row)?;
    }
    Ok(())
}

// A failure where bytes haven't this fault, or none.
fn expect_fault(alloc: Global, bytes: &[u8], fault: Option<LayerFault>) -> Result<(), Fail> {
    expect_at(bytes.len(), fault_of(alloc, bytes, true) == fault)?;
    expect_at(bytes.len(), fault_of(alloc, bytes, false) == fault)
}

// A failure where a manifest of this many bytes is read with fewer than all but its newline.
fn expect_whole(alloc: Global, manifest: &[u8], length: usize) -> Result<(), Fail> {
    expect_at(manifest.len(), manifest.len() == length)?;
    let whole = manifest.len().saturating_sub(1);
    for count in 0..whole {
        expect_fault(alloc, &manifest[..count], Some(LayerFault::NotJson))?;
    }
    expect_fault(alloc, &manifest[..whole], None)?;
    expect_fault(alloc, manifest, None)
}

#[test]
fn a_manifest_that_is_cut_is_no_text_of_json(rt: HostRuntime) -> Result<(), Fail> {
    let manifest = manifest_of(rt.alloc(), "root")?;
    expect_whole(rt.alloc(), &manifest, 122)?;
    expect_whole(rt.alloc(), &earlier(rt.alloc(), &manifest)?, 107)
}

#[test]
fn bytes_and_depths_that_no_text_of_json_has_are_refused(rt: HostRuntime) -> Result<(), Fail> {
    let not_text = b"{\"entries\":[\"\xff\"],\"overlay-layer\":1}";
    expect_fault(rt.alloc(), not_text, Some(LayerFault::NotJson))?;
    let mut deep = "[".repeat(rt.alloc(), 200)?;
    deep.push_str("]".repeat(rt.alloc(), 200)?.as_str())?;
    expect_fault(rt.alloc(), deep.as_bytes(), Some(LayerFault::NotJson))
}

#[test]
fn an_entry_too_many_is_refused_before_the_first_is_read(rt: HostRuntime) -> Result<(), Fail> {
    let mut many = String::from_str(rt.alloc(), "{\"entries\":[")?;
    many.push_str("0,".repeat(rt.alloc(), 1_048_576)?.as_str())?;
    many.push_str("0],\"overlay-layer\":1}")?;
    expect_fault(rt.alloc(), many.as_bytes(), Some(LayerFault::Count))
}
