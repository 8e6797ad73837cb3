//! An answer written to files and standard output.
ghost use Rattle.std.specs.Prelude.{◌≡◌, ◌<◌, ◌≤◌, ℕ, IfOk, MatchResult, length, take};
ghost use Rattle.std.specs.Io.KnownBytes.{Appends};
ghost use Rattle.ovl_program.specs.declared.faults.ProgramFault.TheVariants.{Output};
ghost use Rattle.ovl_program.specs.Reported.{IsReported};

use crate::faults::ProgramFault;
use crate::output::layer_files::write_answer;
use crate::output::status::Ending;
use ovl_engine::{Answer, EngineFault, emit};
use std::io::Write;
use std::rt::Files;

/// Writes what a command gives: first its new layers into the folder `out`, if there is one, and
/// then its report. If the command is refused for faults, their report is written and no layer.
/// Nothing is written to the writer where the command gives no answer, or a layer can't be written.
pub fn write_report<H: Files + AllocGlobal, W: Write>(
    rt: &H,
    answered: Result<Answer, EngineFault>,
    out: &Option<String>,
    writer: &mut W,
) -> Result<Ending, ProgramFault>
    requires { IfOk answered (λ answer. length answer.layers.items ≤ 255) }
    ensures { IsReported (λ outcome. outcome ≡ answered) out.now
        (W.contents writer.old) (W.contents writer.new) result }
{
    match answered {
        Ok(answer) => match out {
            Some(folder) => write_answer(rt, folder.as_str(), &answer, writer),
            None => write(writer, &answer.report, Ending::of(answer.clean)),
        },
        Err(EngineFault::Faulty(report)) => write(writer, &report, Ending::Faulty),
        Err(fault) => Err(ProgramFault::Engine(fault)),
    }
}

// Writes a report, with which the program ends so.
fn write<W: Write>(writer: &mut W, report: &[u8], ending: Ending) -> Result<Ending, ProgramFault>
    ensures { MatchResult result
        (λ ended. (ended ≡ ending)
        × Appends (W.contents writer.old) (W.contents writer.new) report.now)
        (λ fault. (fault ≡ Output) × ((count : ℕ) × ((count < length report.now)
        × Appends (W.contents writer.old) (W.contents writer.new) (take count report.now)))) }
{
    // Made by hand (1): a write failed or took nothing.
    match emit(writer, report) {
        Ok(()) => Ok(ending),
        Err(_) => Err(ProgramFault::Output),
    }
}
