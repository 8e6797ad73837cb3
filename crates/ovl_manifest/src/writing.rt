//! The one text of a layer.
ghost use Rattle.std.specs.Prelude.{◌≡◌, true, false, ◌++◌, Ok, IfOk, OnOk, string_bytes};
ghost use Rattle.serde_json.specs.Written.{compact_text};
ghost use Rattle.ovl_names.specs.Paths.{PathNames, child_path};
ghost use Rattle.ovl_manifest.specs.Compact.{entries_text};
ghost use Rattle.ovl_layer.specs.LayerTrees.{entries_from, placed};
ghost use Rattle.ovl_manifest.specs.Manifest.{read_layer};
ghost use Rattle.ovl_manifest.specs.Text.{manifest_text, layer_value};
ghost use Rattle.ovl_layer.specs.TextPaths.{slashed};

use crate::short_texts::ShortText;
use crate::versions::WRITTEN;
use crate::written_entries::push_entry;
use ovl_inode::Kind;
use ovl_layer::{Layer, Node};
use std::alloc::{AllocError, Global};

/// The manifest of a layer: compact JSON whose objects have their members in the byte order of
/// their names, and a newline. Reading it gives the layer back. Fails only when out of memory. The
/// format is that of `docs/FORMATS.md`.
///
/// A manifest of any version as one of the last version:
///
/// ```
/// let layer = read_layer(alloc, manifest.as_bytes())?;
/// let written = String::from_utf8(write_layer(alloc, &layer)?)?;
/// ```
pub fn write_layer(alloc: Global, layer: &Layer) -> Result<Vec<u8>, AllocError>
    ensures text { IfOk result (λ bytes. bytes.items ≡ manifest_text layer.now) }
    ensures back { IfOk result (λ bytes. read_layer bytes.items ≡ Ok layer.now) }
{
    // The type keeps that it is a layer.
    let _root = layer.root();
    let mut text = Vec::with_capacity(alloc, room_for(layer))?;
    push_layer(alloc, &mut text, layer)?;
    text.push(b'\n')?;
    Ok(text)
}

// What the text of most entries takes at most, but for its path and its blob's name, and what such
// a name takes.
const ENTRY_ROOM: usize = 136;

const BLOB_ROOM: usize = 74;

// As many bytes as the manifest of a layer of common entries takes, and a few more, so that its
// text needn't grow.
fn room_for(layer: &Layer) -> usize {
    let mut room = ENTRY_ROOM;
    for child in layer.root().children() {
        room = room.saturating_add(room_under(child, 0));
    }
    room
}

// The room for the entries at and under a node, by how long the text of its directory's path is.
fn room_under(node: &Node, above: usize) -> usize {
    let path = above.saturating_add(node.name().as_str().len() + 1);
    let mut room = path.saturating_add(ENTRY_ROOM);
    if matches!(&node.inode().kind, Kind::File { blob: Some(_), .. }) {
        room = room.saturating_add(BLOB_ROOM);
    }
    for child in node.children() {
        room = room.saturating_add(room_under(child, path));
    }
    room
}

fn push_layer(alloc: Global, text: &mut Vec<u8>, layer: &Layer) -> Result<(), AllocError>
    ensures { OnOk result
        (text.new.items
        ≡ text.old.items ++ compact_text (layer_value layer.now)) }
{
    text.extend_from_slice("{\"entries\":[".as_bytes())?;
    push_entries(alloc, text, layer)?;
    let mut short = ShortText::new();
    short.put("}");
    short.put_number(WRITTEN.number());
    short.put("],\"overlay-layer\":");
    text.extend_from_slice(short.as_slice())
}

// All entries, in path order.
fn push_entries(alloc: Global, text: &mut Vec<u8>, layer: &Layer) -> Result<(), AllocError>
    ensures { OnOk result
        (text.new.items ≡ text.old.items ++ entries_text false layer.now) }
{
    let root = layer.root();
    push_entry(alloc, text, "/", root.inode())?;
    let mut path = String::new(alloc);
    for child in root.children() {
        push_under(alloc, text, &mut path, child)?;
    }
    Ok(())
}

// The entries at and under a node, each after a comma. The path is the text of its directory's,
// where that of the root is empty, and is left so.
fn push_under(
    alloc: Global,
    text: &mut Vec<u8>,
    path: &mut String,
    node: &Node,
) -> Result<(), AllocError>
    ensures text { OnOk result
        ((directory : PathNames) → string_bytes path.old ≡ slashed directory
        → text.new.items ≡ text.old.items
        ++ entries_text true
        (placed (child_path directory node.now.name)
        (entries_from node.now.inode node.now.below))) }
    ensures path { OnOk result (string_bytes path.new ≡ string_bytes path.old) }
{
    let length = path.len();
    path.push_str("/")?;
    path.push_str(node.name().as_str())?;
    text.push(b',')?;
    push_entry(alloc, text, path.as_str(), node.inode())?;
    for child in node.children() {
        push_under(alloc, text, path, child)?;
    }
    path.truncate(length);
    Ok(())
}
