//! From bytes to a layer or a sheet, or the first fault. It must not know other layers.
ghost use Rattle.std.specs.Prelude.{◌≡◌, Ok, MatchResult};
ghost use Rattle.ovl_manifest.specs.Manifest as manifest;
ghost use Rattle.ovl_layer.specs.Entries.{IsFaultOf};

use crate::compact_layers::read_compact;
use crate::values::layer_of;
use ovl_layer::{Layer, LayerFault, Sheet};
use serde_json::Value;
use simdutf8::compat::from_utf8;
use std::alloc::Global;

/// The layer that the bytes of a manifest state. It is refused with the first fault in the order of
/// tests that `docs/FORMATS.md` has, each entry tested before the next; `Memory` can come at any
/// time. The text is JSON (RFC 8259) in UTF-8, nested at most 127 deep; of members with the same
/// name the last counts. Memory is taken in proportion to the bytes: for their value, as
/// `serde_json` reads it, and for the layer.
///
/// Each entry of a manifest, by its path and its inode:
///
/// ```
/// let layer = read_layer(alloc, manifest)?;
/// for (path, inode) in &layer.entries(alloc)? {
///     let path = path.shown(alloc)?;
///     let place = old_place(alloc, inode)?;
///     text.push_str(format!(in alloc; "{path}: {place}; ")?.as_str())?;
/// }
/// ```
pub fn read_layer(alloc: Global, bytes: &[u8]) -> Result<Layer, LayerFault>
    ensures { MatchResult result
        (λ layer. manifest.read_layer bytes.now ≡ Ok layer)
        (λ fault. IsFaultOf (manifest.read_layer bytes.now) fault) }
{
    match from_utf8(bytes) {
        Ok(text) => read_text(alloc, text),
        Err(_) => Err(LayerFault::NotJson),
    }
}

// The layer that a text states.
fn read_text(alloc: Global, text: &str) -> Result<Layer, LayerFault>
    ensures { MatchResult result
        (λ layer. manifest.read_layer text.now ≡ Ok layer)
        (λ fault. IsFaultOf (manifest.read_layer text.now) fault) }
{
    // Made by hand (1): out of memory while the value is read, as `serde_json` says.
    match Value::from_str(alloc, text) {
        Ok(value) => layer_of(alloc, &value),
        Err(error) if error.is_memory() => Err(LayerFault::Memory),
        Err(_) => Err(LayerFault::NotJson),
    }
}

/// The sheet of the layer that the bytes of a manifest state, refused as [`read_layer`] refuses it.
/// A manifest as [`write_layer`](crate::write_layer) writes it is read at once, with no value in
/// between; any other, and one of a fault, by way of its layer.
///
/// The stack of these manifests, the topmost layer first, none of them data-only:
///
/// ```
/// let mut sheets = Vec::new(alloc);
/// for manifest in manifests {
///     sheets.push(read_sheet(alloc, manifest)?)?;
/// }
/// Ok(Stack::of_sheets(sheets, Vec::new(alloc))?)
/// ```
pub fn read_sheet(alloc: Global, bytes: &[u8]) -> Result<Sheet, LayerFault>
    ensures { MatchResult result
        (λ sheet. manifest.read_layer bytes.now ≡ Ok sheet)
        (λ fault. IsFaultOf (manifest.read_layer bytes.now) fault) }
{
    // Made by hand (1): `Sheet::of` gives a layer back only when out of memory.
    let Ok(text) = from_utf8(bytes) else {
        return Err(LayerFault::NotJson);
    };
    if let Some(sheet) = read_compact(alloc, text) {
        return Ok(sheet);
    }
    let layer = read_text(alloc, text)?;
    match Sheet::of(alloc, layer) {
        Ok(sheet) => Ok(sheet),
        Err(_) => Err(LayerFault::Memory),
    }
}
