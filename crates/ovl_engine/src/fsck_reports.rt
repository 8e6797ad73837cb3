//! The report of the check. It must not look into layers.
ghost use Rattle.std.specs.Prelude.{◌≡◌, ◌<◌, ◌++◌, [], IfOk, OnOk, codes, decimal, string_bytes};
ghost use Rattle.std.specs.List.{flat_map};
ghost use Rattle.ovl_names.specs.Escapes.{shown_path};
ghost use Rattle.ovl_engine.specs.FsckReports.{finding_line, fault_count, note_count, fsck_report};
ghost use Rattle.ovl_engine.specs.FsckReports as fsck_reports;

use ovl_check::{Code, Finding};
use ovl_names::{Names, Path};
use ovl_reports::{joined, push_name, push_number, push_number_word, push_word, share_of};
use std::alloc::{AllocError, Global};
use std::marker::Model;
use std::thread::{Threads, map_chunks};

/// The report of `fsck`: a line for each finding, in their order, and how many are faults and how
/// many notes. Fails only when out of memory.
pub(crate) fn fsck_report_of(alloc: Global, found: &[Finding]) -> Result<Vec<u8>, AllocError>
    ensures { IfOk result (λ report. report.items ≡ fsck_report found.now) }
{
    let mut report = lines_of(alloc, found)?;
    push_counts(&mut report, found)?;
    Ok(report.into_bytes())
}

/// What [`fsck_report_of`] gives, written by at most as many threads as there are workers: each
/// writes a share of the lines.
pub(crate) fn fsck_report_by<R: Threads + Sync>(
    rt: &R,
    alloc: Global,
    found: &[Finding],
    workers: usize,
) -> Result<Vec<u8>, AllocError>
    requires { 0 < workers }
    ensures { IfOk result (λ report. report.items ≡ fsck_report found.now) }
{
    let share = share_of(found.len(), workers);
    if found.len() <= share {
        return fsck_report_of(alloc, found);
    }
    let write = |_first: usize, found: &[Finding]| -> Result<String, AllocError>
        ensures { IfOk result
            (λ lines. string_bytes lines ≡ flat_map finding_line found.entry.now) }
    { lines_of(alloc, found) };
    let parts = map_chunks(rt, alloc, found, share, &write)?;
    let mut report = joined(alloc, parts)?;
    push_counts(&mut report, found)?;
    Ok(report.into_bytes())
}

// The lines of findings.
fn lines_of(alloc: Global, found: &[Finding]) -> Result<String, AllocError>
    ensures { IfOk result (λ lines. string_bytes lines ≡ flat_map finding_line found.now) }
{
    let mut lines = String::new(alloc);
    let mut above = Above::root(alloc);
    for finding in found {
        push_finding(alloc, &mut lines, &mut above, finding)?;
    }
    Ok(lines)
}

// Appends the last line, by all findings.
fn push_counts(report: &mut String, found: &[Finding]) -> Result<(), AllocError>
    ensures { OnOk result (string_bytes report.new ≡ string_bytes report.old
        ++ codes "faults " ++ decimal (fault_count found.now) ++ codes " notes "
        ++ decimal (note_count found.now) ++ codes "\n") }
{
    report.push_str("faults ")?;
    push_number(report, count_of_faults(found))?;
    report.push_str(" notes ")?;
    push_number(report, count_of_notes(found))?;
    report.push_str("\n")
}

/// Whether no finding is a fault.
pub(crate) fn is_clean(found: &[Finding]) -> bool
    ensures { result ≡ fsck_reports.is_clean found.now }
{
    count_of_faults(found) == 0
}

// A directory, with what is in a report before the names in it. It is kept from line to line,
// since what is found in one directory mostly comes together.
#[derive(Drop)]
struct Above<'a> {
    directory: Names<'a>,
    text: String,
}

impl<'a> Model for Above<'a> {
    ghost use Rattle.std.specs.Prelude.{◌≡◌, string_bytes};
    ghost use Rattle.ovl_names.specs.Paths.{PathNames};
    ghost use Rattle.ovl_reports.specs.Reports.{shown_names};

    ghost Value = { PathNames };

    ghost view = { λ a. a.directory };

    ghost invariant = { λ a. string_bytes a.text ≡ shown_names a.directory };
}

impl<'a> Above<'a> {
    fn root(alloc: Global) -> Above<'a>
        ensures { result ≡ [] }
    {
        Above {
            directory: Names::none(),
            text: String::new(alloc),
        }
    }

    // Goes to a directory; the text is made anew where it is another one.
    fn go_to(&mut self, alloc: Global, directory: Names<'a>) -> Result<(), AllocError>
        ensures { OnOk result (self.new ≡ directory.entry) }
    {
        if self.directory == directory {
            return Ok(());
        }
        let mut text = String::new(alloc);
        for name in directory.rest() {
            push_name(alloc, &mut text, name)?;
        }
        *self = Above { directory, text };
        Ok(())
    }

    // Appends a path, whose directory it goes to.
    fn push_path(
        &mut self,
        alloc: Global,
        report: &mut String,
        path: &'a Path,
    ) -> Result<(), AllocError>
        ensures { OnOk result
            (string_bytes report.new ≡ string_bytes report.old ++ shown_path path.now) }
    {
        let Some((name, directory)) = path.names().split_last() else {
            return report.push_str("/");
        };
        self.go_to(alloc, directory)?;
        report.push_str(self.text.as_str())?;
        push_name(alloc, report, name)
    }
}

// Appends the line of a finding.
fn push_finding<'a>(
    alloc: Global,
    report: &mut String,
    above: &mut Above<'a>,
    finding: &'a Finding,
) -> Result<(), AllocError>
    ensures { OnOk result
        (string_bytes report.new ≡ string_bytes report.old ++ finding_line finding.now) }
{
    push_word(report, weight_word(finding.code))?;
    push_word(report, finding.code.word())?;
    push_number_word(report, u64::from(finding.layer))?;
    above.push_path(alloc, report, &finding.path)?;
    report.push_str("\n")
}

fn weight_word(code: Code) -> &'static str
    ensures { result.now ≡ fsck_reports.weight_word code }
{
    if code.is_fault() { "fault" } else { "note" }
}

fn count_of_faults(found: &[Finding]) -> u64
    ensures { result ≡ fault_count found.now }
{
    found.iter().filter(|one| one.code.is_fault()).count() as u64
}

fn count_of_notes(found: &[Finding]) -> u64
    ensures { result ≡ note_count found.now }
{
    found.iter().filter(|one| !one.code.is_fault()).count() as u64
}
