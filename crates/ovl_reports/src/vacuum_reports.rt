//! The report of vacuum.
ghost use Rattle.std.specs.Prelude.{◌≡◌, ◌++◌, IfOk, OnOk, string_bytes};
ghost use Rattle.ovl_reports.specs.VacuumReports.{removed_line, vacuum_report};

use crate::reports::{push_number, push_path, push_word};
use ovl_names::Path;
use std::alloc::{AllocError, Global};

/// The report of `vacuum`: a line for each path that is removed, in their order, how many these
/// are, and how many entries are kept. Fails only when out of memory.
pub fn vacuum_report_of(alloc: Global, removed: &[Path], kept: u64) -> Result<Vec<u8>, AllocError>
    ensures { IfOk result (λ report. report.items ≡ vacuum_report removed.now kept) }
{
    let mut report = String::new(alloc);
    for path in removed {
        push_removed(alloc, &mut report, path)?;
    }
    report.push_str("removed ")?;
    push_number(&mut report, removed.len() as u64)?;
    report.push_str(" kept ")?;
    push_number(&mut report, kept)?;
    report.push_str("\n")?;
    Ok(report.into_bytes())
}

// Appends the line of a removed path.
fn push_removed(alloc: Global, report: &mut String, path: &Path) -> Result<(), AllocError>
    ensures { OnOk result
        (string_bytes report.new ≡ string_bytes report.old ++ removed_line path.now) }
{
    push_word(report, "removed")?;
    push_path(alloc, report, path)?;
    report.push_str("\n")
}
