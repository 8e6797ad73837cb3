//! The layer that a value of JSON states, entry by entry.
ghost use Rattle.std.specs.Prelude.{◌≡◌, Ok, Some, MatchResult, codes, option_and_then};
ghost use Rattle.std.specs.Option.{option_map};
ghost use Rattle.serde_json.specs.Find.{get, as_array, as_number, as_u64};
ghost use Rattle.serde_json.specs.View.{view, number_view, items_view};
ghost use Rattle.ovl_layer.specs.Entries.{layer_of_entries, IsFaultOf};
ghost use Rattle.ovl_manifest.specs.Manifest.{stated_entries, layer_of_value};
ghost use Rattle.ovl_manifest.specs.Manifest as manifest;
ghost use Rattle.ovl_manifest.specs.Versions.{version_of};

use crate::fields::{has_exactly, read_entry};
use crate::versions::Version;
use ovl_layer::{ENTRY_LIMIT, Layer, LayerFault, start_builder};
use serde_json::{Number, Value};
use std::alloc::Global;

/// The layer that a value states.
pub(crate) fn layer_of(alloc: Global, value: &Value) -> Result<Layer, LayerFault>
    ensures { MatchResult result
        (λ layer. layer_of_value (view value.now) ≡ Ok layer)
        (λ fault. IsFaultOf (layer_of_value (view value.now)) fault) }
{
    if !has_exactly(value, &[], &["entries", "overlay-layer"]) {
        return Err(LayerFault::Shape);
    }
    match (number_of(value), entries_of(value)) {
        (Some(number), Some(entries)) => layer_of_fields(alloc, number, entries),
        _ => Err(LayerFault::Shape),
    }
}

// The number of the version.
fn number_of(value: &Value) -> Option<&Number>
    ensures { option_map (λ number. number_view number.now) result
        ≡ option_and_then as_number (get (codes "overlay-layer") (view value.now)) }
{
    value.get("overlay-layer")?.as_number()
}

// The list of the entries.
fn entries_of(value: &Value) -> Option<&Vec<Value>>
    ensures { option_map (λ entries. items_view entries.now.items) result
        ≡ option_and_then as_array (get (codes "entries") (view value.now)) }
{
    value.get("entries")?.as_array()
}

// The layer of a number and the list of the entries.
fn layer_of_fields(alloc: Global, number: &Number, entries: &[Value]) -> Result<Layer, LayerFault>
    ensures { MatchResult result
        (λ layer. manifest.layer_of_fields (Some (number_view number.now))
        (Some (items_view entries.now)) ≡ Ok layer)
        (λ fault. IsFaultOf (manifest.layer_of_fields (Some (number_view number.now))
        (Some (items_view entries.now))) fault) }
{
    if !number.is_u64() && !number.is_i64() {
        return Err(LayerFault::Shape);
    }
    match version_named(number) {
        Some(version) => read_entries(alloc, version, entries),
        None => Err(LayerFault::Version),
    }
}

// The version that a number names, if there is one.
fn version_named(number: &Number) -> Option<Version>
    ensures { result ≡ option_and_then version_of (as_u64 (number_view number.now)) }
{
    Version::of(number.as_u64()?)
}

// The layer of these entries, each tested before the next.
fn read_entries(alloc: Global, version: Version, values: &[Value]) -> Result<Layer, LayerFault>
    ensures { MatchResult result
        (λ layer. layer_of_entries (stated_entries version (items_view values.now)) ≡ Ok layer)
        (λ fault. IsFaultOf
        (layer_of_entries (stated_entries version (items_view values.now))) fault) }
{
    if values.len() > ENTRY_LIMIT {
        return Err(LayerFault::Count);
    }
    let Some((root, others)) = values.split_first() else {
        return Err(LayerFault::Count);
    };
    let mut builder = start_builder(alloc, read_entry(alloc, version, root)?)?;
    let mut number = 0;
    for value in others {
        number += 1;
        let entry = read_entry(alloc, version, value)?;
        builder = builder.with_entry(alloc, number, entry)?;
    }
    Ok(builder.finish()?)
}
