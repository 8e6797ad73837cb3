//! Manifests as they are written, read by their texts without a value in between.
ghost use Rattle.std.specs.Prelude.{◌≡◌, ◌<◌, ◌≤◌, Ok, IfSome, true, false, [], ◌∷◌, ◌++◌, length, take};
ghost use Rattle.std.specs.Str.{IsUtf8};
ghost use Rattle.serde_json.specs.Written.{compact_text, items_text};
ghost use Rattle.ovl_names.specs.Paths.{child_path, depth_limit, path_text};
ghost use Rattle.ovl_inode.specs.Sound.{is_sound_inode};
ghost use Rattle.ovl_layer.specs.Layers.{IsLayer, entry_limit};
ghost use Rattle.ovl_layer.specs.TextPaths.{slashed, AreEnds};
ghost use Rattle.ovl_layer.specs.SheetBuilders.{built_entries, last_path, CanEnter, IsSheetBuilder};
ghost use Rattle.ovl_manifest.specs.Manifest.{read_layer as layer_stated};
ghost use Rattle.ovl_manifest.specs.Text.{entry_items, layer_value};

use crate::compact_entries::read_entry;
use crate::compact_texts::Rest;
use crate::text_paths::{go_on, place_beside};
use crate::versions::WRITTEN;
use ovl_inode::{Inode, is_directory};
use ovl_layer::{ENTRY_LIMIT, Sheet, SheetBuilder, has_escaped_name};
use ovl_names::{DEPTH_LIMIT, Name, TEXT_LIMIT};
use std::alloc::Global;
use std::borrow::CowStr;

// Fewer bytes than most entries have in a manifest, so that a list with room for one in this many
// bytes of the text seldom grows. Room that no entry takes is never touched.
const ENTRY_TEXT: usize = 96;

/// The sheet of the layer whose manifest the text is, as [`write_layer`](crate::write_layer) writes
/// it; the newline at its end may be missing. Gives none of a manifest that is written in another
/// way, of any fault and when out of memory.
pub(crate) fn read_compact(alloc: Global, text: &str) -> Option<Sheet>
    requires { IsUtf8 text.now }
    ensures { IfSome result (λ sheet. layer_stated text.now ≡ Ok sheet) }
{
    let mut rest = Rest::of(text);
    let sheet = read_manifest(alloc, &mut rest)?;
    let _newline = rest.take("\n");
    if rest.is_empty() { Some(sheet) } else { None }
}

// The sheet of the layer whose manifest comes next.
fn read_manifest(alloc: Global, rest: &mut Rest<'_>) -> Option<Sheet>
    ensures text { IfSome result (λ sheet. rest.old ≡ compact_text (layer_value sheet) ++ rest.new) }
    ensures layer { IfSome result (λ sheet. IsLayer sheet) }
{
    rest.take("{\"entries\":[")?;
    let sheet = read_entries(alloc, rest)?;
    rest.take(",\"overlay-layer\":")?;
    let number = rest.take_natural(u64::MAX)?;
    if number != WRITTEN.number() {
        return None;
    }
    rest.take("}")?;
    Some(sheet)
}

// The sheet of at least one entry and at most `ENTRY_LIMIT`, whose list's bracket was taken.
fn read_entries(alloc: Global, rest: &mut Rest<'_>) -> Option<Sheet>
    ensures text { IfSome result
        (λ sheet. rest.old ≡ items_text false (entry_items sheet) ++ rest.new) }
    ensures layer { IfSome result (λ sheet. IsLayer sheet) }
{
    let room = (rest.len() / ENTRY_TEXT).min(ENTRY_LIMIT);
    let (text, root) = read_entry(alloc, rest)?;
    let mut builder = start(alloc, text.as_str(), root, room)?;
    let mut last = CowStr::Borrowed("");
    let mut ends = Vec::new(alloc);
    let Ok(()) = ends.push(0) else {
        return None;
    };
    let mut number = 1;
    'entries: while rest.take(",").is_some() {
        if number == ENTRY_LIMIT {
            return None;
        }
        // A `?` here would copy each inode three more times.
        let Some((path, inode)) = read_entry(alloc, rest) else {
            return None;
        };
        add_beside(
            alloc,
            &mut builder,
            last.as_str(),
            &mut ends,
            path.as_str(),
            inode,
        )?;
        last = path;
        number += 1;
    }
    rest.take("]")?;
    match builder.finish(alloc) {
        Ok(sheet) => Some(sheet),
        Err(_) => None,
    }
}

// The builder of the entry of a sound inode, whose path a text spells, if it can be a layer's first;
// it has room for this many.
fn start(alloc: Global, text: &str, inode: Inode, room: usize) -> Option<SheetBuilder>
    requires { is_sound_inode inode ≡ true }
    ensures root { IfSome result (λ _. text.now ≡ path_text []) }
    ensures builder { IfSome result (λ builder. IsSheetBuilder builder) }
    ensures entries { IfSome result (λ builder. built_entries builder ≡ ([], inode) ∷ []) }
    ensures last { IfSome result (λ builder. last_path builder ≡ []) }
{
    if text != "/" || has_escaped_name(&inode.attrs) || !is_directory(&inode) {
        return None;
    }
    match SheetBuilder::start(alloc, inode, room) {
        Ok(builder) => Some(builder),
        Err(_) => None,
    }
}

// Puts the entry of a sound inode, whose path a text spells, into the builder, whose last path has
// the text `last`; where in that the paths on the way there end is beside it, and the text of
// the root is empty here. Gives none of a path or an inode that no layer has there, and when out of
// memory.
fn add_beside(
    alloc: Global,
    builder: &mut SheetBuilder,
    last: &str,
    ends: &mut Vec<usize>,
    text: &str,
    inode: Inode,
) -> Option<()>
    requires builder { IsSheetBuilder builder.old }
    requires room { length (built_entries builder.old) < entry_limit }
    requires last { slashed (last_path builder.old) ≡ last.now }
    requires ends { AreEnds (last_path builder.old) ends.old.items }
    requires sound { is_sound_inode inode ≡ true }
    ensures builder { IfSome result (λ _. IsSheetBuilder builder.new) }
    ensures last { IfSome result (λ _. slashed (last_path builder.new) ≡ text.now) }
    ensures ends { IfSome result (λ _. AreEnds (last_path builder.new) ends.new.items) }
    ensures path { IfSome result (λ _. path_text (last_path builder.new) ≡ text.now) }
    ensures entries { IfSome result
        (λ _. built_entries builder.new ≡ built_entries builder.old ++ (last_path builder.new, inode) ∷ []) }
{
    let (depth, name) = next_place(alloc, builder, last, ends, text, &inode)?;
    let Ok(()) = builder.enter(alloc, depth, name, inode) else {
        return None;
    };
    match go_on(ends, depth, text.len()) {
        Ok(()) => Some(()),
        Err(_) => None,
    }
}

// Where that entry comes, if it can be the next: how many names of the last path lead to its
// directory, and its own name.
fn next_place(
    alloc: Global,
    builder: &SheetBuilder,
    last: &str,
    ends: &[usize],
    text: &str,
    inode: &Inode,
) -> Option<(usize, Name)>
    requires builder { IsSheetBuilder builder.now }
    requires room { length (built_entries builder.now) < entry_limit }
    requires last { slashed (last_path builder.now) ≡ last.now }
    requires ends { AreEnds (last_path builder.now) ends.now }
    requires sound { is_sound_inode inode.now ≡ true }
    ensures entry { IfSome result (λ place. CanEnter builder.now place.0 place.1 inode.now) }
    ensures depth { IfSome result (λ place. place.0 < depth_limit) }
    ensures text { IfSome result (λ place.
        text.now ≡ slashed (child_path (take place.0 (last_path builder.now)) place.1)) }
{
    let (depth, name) = place_beside(last, ends, text)?;
    if depth >= DEPTH_LIMIT || text.len() > TEXT_LIMIT || has_escaped_name(&inode.attrs) {
        return None;
    }
    let Ok(name) = Name::of(alloc, name) else {
        return None;
    };
    if builder.comes_before_child(depth, &name) && builder.is_directory_above(depth) {
        Some((depth, name))
    } else {
        None
    }
}
