//! Layers and sheets of manifests, and manifests of layers.

use crate::samples::MOVED;
use ovl_layer::{Layer, LayerFault, Sheet, from_entries};
use ovl_manifest::{read_layer, read_sheet, write_layer};
use ovl_names::Path;
use ovl_test_rows::expect_so;
use std::alloc::{AllocError, Global};
use std::test::Fail;

fn is_written(alloc: Global, layer: &Layer, manifest: &str) -> Result<bool, AllocError> {
    let written = write_layer(alloc, layer)?;
    Ok(written.strip_suffix(b"\n") == Some(manifest.as_bytes()))
}

fn has_names(alloc: Global, layer: &Layer) -> Result<bool, AllocError> {
    Ok(layer.children(alloc, &Path::root(alloc))?.len() == 3)
}

fn are_entries_written(alloc: Global, layer: &Layer, manifest: &str) -> Result<bool, LayerFault> {
    let same = from_entries(alloc, layer.entries(alloc)?)?;
    Ok(is_written(alloc, &same, manifest)?)
}

fn is_layer_told(alloc: Global, manifest: &str) -> Result<bool, LayerFault> {
    let layer = read_layer(alloc, manifest.as_bytes())?;
    Ok(
        has_names(alloc, &layer)?
            && is_written(alloc, &layer, manifest)?
            && are_entries_written(alloc, &layer, manifest)?,
    )
}

fn is_sheet(alloc: Global, manifest: &str) -> Result<bool, LayerFault> {
    let sheet = read_sheet(alloc, manifest.as_bytes())?;
    Ok(sheet.len() == 6 && sheet.children(alloc, &Path::root(alloc))?.len() == 3)
}

// The same with one text in place of another.
fn is_sheet_with(
    alloc: Global,
    manifest: &str,
    one: &str,
    other: &str,
) -> Result<bool, LayerFault> {
    let changed = manifest.replace(alloc, one, other)?;
    is_sheet(alloc, changed.as_str())
}

// A manifest is read at once as it is written, and by its value with a space before it, with members
// in another order and with an escape that needn't be.
fn is_sheet_told(alloc: Global, manifest: &str) -> Result<bool, LayerFault> {
    let (written, turned) = ("\"mode\":493,\"mtime\":0", "\"mtime\":0,\"mode\":493");
    Ok(
        is_sheet(alloc, manifest)?
            && is_sheet_with(alloc, manifest, "{\"entries", " {\"entries")?
            && is_sheet_with(alloc, manifest, written, turned)?
            && is_sheet_with(alloc, manifest, "\"/\"", "\"\\/\"")?,
    )
}

// A layer that can't be made a sheet comes back as it was.
fn is_made(alloc: Global, manifest: &str) -> Result<bool, LayerFault> {
    let layer = read_layer(alloc, manifest.as_bytes())?;
    match Sheet::of(alloc, layer) {
        Ok(sheet) => Ok(sheet.len() == 6),
        Err(back) => Ok(is_written(alloc, &back, manifest)? && Sheet::of(alloc, back).is_ok()),
    }
}

#[test]
fn layers_are_told(rt: HostRuntime) -> Result<(), Fail> {
    let alloc = rt.alloc();
    for manifest in MOVED.manifests.lines() {
        expect_so(again!(is_layer_told(alloc, manifest), LayerFault::Memory)?)?;
    }
    Ok(())
}

#[test]
fn sheets_are_told(rt: HostRuntime) -> Result<(), Fail> {
    let alloc = rt.alloc();
    for manifest in MOVED.manifests.lines() {
        expect_so(again!(is_sheet_told(alloc, manifest), LayerFault::Memory)?)?;
        expect_so(again!(is_made(alloc, manifest), LayerFault::Memory)?)?;
    }
    Ok(())
}

// A failure where a text hasn't this fault.
fn expect_fault(alloc: Global, text: &str, fault: LayerFault) -> Result<(), Fail> {
    let refused = again!(read_layer(alloc, text.as_bytes()), LayerFault::Memory);
    expect_so(refused.err() == Some(fault))
}

#[test]
fn what_is_no_manifest_is_refused(rt: HostRuntime) -> Result<(), Fail> {
    let alloc = rt.alloc();
    expect_fault(alloc, r#"{"entries":["#, LayerFault::NotJson)?;
    expect_fault(alloc, r#"[{"a":[1,"b"]}]"#, LayerFault::Shape)?;
    let later = r#"{"entries":[],"overlay-layer":1000}"#;
    expect_fault(alloc, later, LayerFault::Version)?;
    let empty = r#"{"entries":[],"overlay-layer":2}"#;
    expect_fault(alloc, empty, LayerFault::Count)?;
    let bare = r#"{"entries":[{}],"overlay-layer":2}"#;
    expect_fault(alloc, bare, LayerFault::Entry(0))
}
