//! The report of a new layer. It must not know the stack that it comes from.
ghost use Rattle.std.specs.Prelude.{◌≡◌, ◌+◌, ◌++◌, IfOk, OnOk, codes, length, string_bytes};
ghost use Rattle.std.specs.List.{flat_map};
ghost use Rattle.ovl_names.specs.Escapes.{escaped};
ghost use Rattle.ovl_names.specs.Paths.{PathNames, child_path};
ghost use Rattle.ovl_inode.specs.Marks as marks;
ghost use Rattle.ovl_layer.specs.LayerTrees.{entries_from, placed};
ghost use Rattle.ovl_reports.specs.LayerReports.{redirect_word, redirect_end, marked_line, entry_line, layer_report};
ghost use Rattle.ovl_reports.specs.LayerReports as layer_reports;
ghost use Rattle.ovl_reports.specs.Reports.{shown_names};
ghost use Rattle.ovl_layer.specs.Layers.{IsLayer};

use crate::listings::{one_more, push_place, text_of};
use crate::reports::{push_count, push_path, push_word};
use ovl_inode::{Inode, Mark, Redirect, mark_of};
use ovl_layer::{Layer, Node};
use ovl_names::push_escaped;
use std::alloc::{AllocError, Global};

/// The report of a new layer: a line for each entry below its root, in their order, by what it
/// means to the overlay, and the number of all entries. Fails only when out of memory.
pub fn layer_report_of(alloc: Global, layer: &Layer) -> Result<Vec<u8>, AllocError>
    ensures value { IfOk result (λ report. report.items ≡ layer_report layer.now) }
    ensures layer { OnOk result (IsLayer layer.now) }
{
    let mut report = String::new(alloc);
    let mut entries = 1;
    for node in layer.root().children() {
        push_under(alloc, &mut report, &mut entries, "", node)?;
    }
    push_count(&mut report, entries)?;
    Ok(report.into_bytes())
}

// Appends the lines of the entries at and under a node, and counts these; `above` is the text of
// the path up to its name.
fn push_under(
    alloc: Global,
    report: &mut String,
    entries: &mut u64,
    above: &str,
    node: &Node,
) -> Result<(), AllocError>
    ensures lines { OnOk result
        ((dir : PathNames) → above.now ≡ shown_names dir
        → string_bytes report.new ≡ string_bytes report.old
        ++ flat_map entry_line
        (placed (child_path dir node.now.name) (entries_from node.now.inode node.now.below))) }
    ensures count { OnOk result
        (entries.new ≡ entries.old + length (entries_from node.now.inode node.now.below)) }
{
    push_counted(alloc, report, entries, above, node)?;
    let children = node.children();
    if children.is_empty() {
        return Ok(());
    }
    let path = text_of(alloc, above, node.name().as_str())?;
    for child in children {
        push_under(alloc, report, entries, path.as_str(), child)?;
    }
    Ok(())
}

// Appends the line of the entry at a node, and counts it.
fn push_counted(
    alloc: Global,
    report: &mut String,
    entries: &mut u64,
    above: &str,
    node: &Node,
) -> Result<(), AllocError>
    ensures line { OnOk result (string_bytes report.new ≡ string_bytes report.old
        ++ marked_line (marks.mark_of node.now.inode)
        (above.now ++ (codes "/" ++ escaped node.now.name))) }
    ensures count { OnOk result (entries.new ≡ entries.old + 1) }
{
    push_entry(alloc, report, above, node.name().as_str(), node.inode())?;
    *entries = one_more(*entries)?;
    Ok(())
}

// Appends the line of an entry below the root, of whose path `above` is the text up to its name.
fn push_entry(
    alloc: Global,
    report: &mut String,
    above: &str,
    name: &str,
    inode: &Inode,
) -> Result<(), AllocError>
    ensures { OnOk result (string_bytes report.new ≡ string_bytes report.old
        ++ marked_line (marks.mark_of inode.now) (above.now ++ (codes "/" ++ escaped name.now))) }
{
    let mark = mark_of(alloc, inode)?;
    push_marked(alloc, report, above, name, &mark)
}

// Appends the line of an entry below the root, by its mark; `above` is the text of its path up to
// its name.
fn push_marked(
    alloc: Global,
    report: &mut String,
    above: &str,
    name: &str,
    mark: &Mark,
) -> Result<(), AllocError>
    ensures { OnOk result (string_bytes report.new ≡ string_bytes report.old
        ++ marked_line mark.now (above.now ++ (codes "/" ++ escaped name.now))) }
{
    push_word(report, mark_word(mark))?;
    push_place(alloc, report, above, name)?;
    push_redirect_of(alloc, report, mark)?;
    report.push_str("\n")
}

fn mark_word(mark: &Mark) -> &'static str
    ensures { result.now ≡ layer_reports.mark_word mark.now }
{
    match mark {
        Mark::Whiteout => "whiteout",
        Mark::DirOpaque | Mark::DirBad => "opaque",
        Mark::DirMoved(_) => "moved",
        Mark::DirPlain => "plain",
        Mark::Meta(_) => "meta",
        Mark::MetaBad | Mark::Leaf => "leaf",
    }
}

// Appends the redirect of a mark that has one, and a space before it.
fn push_redirect_of(alloc: Global, report: &mut String, mark: &Mark) -> Result<(), AllocError>
    ensures { OnOk result
        (string_bytes report.new ≡ string_bytes report.old ++ redirect_end mark.now) }
{
    match mark {
        Mark::DirMoved(redirect) | Mark::Meta(Some(redirect)) => {
            report.push_str(" ")?;
            push_redirect(alloc, report, redirect)
        }
        _ => Ok(()),
    }
}

fn push_redirect(alloc: Global, report: &mut String, redirect: &Redirect) -> Result<(), AllocError>
    ensures { OnOk result
        (string_bytes report.new ≡ string_bytes report.old ++ redirect_word redirect.now) }
{
    match redirect {
        Redirect::To(path) => push_path(alloc, report, path),
        Redirect::Beside(name) => push_escaped(alloc, report, name.as_str()),
    }
}
