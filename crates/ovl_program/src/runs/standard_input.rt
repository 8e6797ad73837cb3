//! One manifest from standard input, shown.
ghost use Rattle.std.specs.Prelude.{◌≡◌, ◌≢◌, ◌⊎◌, None, Err, IfErr, IfSome};
ghost use Rattle.std.specs.Io.KnownBytes.{Keeps};
ghost use Rattle.ovl_engine.specs.declared.faults.EngineFault.TheVariants.{Memory};
ghost use Rattle.ovl_program.specs.declared.faults.ProgramFault.TheVariants.{Input, Output, Engine};
ghost use Rattle.ovl_program.specs.Reported.{IsComing, IsReported, input_request};

use crate::faults::ProgramFault;
use crate::output::report::write_report;
use crate::output::status::Ending;
use ovl_command_line::DEFAULT_WORKERS;
use ovl_engine::{Command, command};
use ovl_files::{INPUT_LIMIT, read_all};
use ovl_pool::OpenGate;
use std::io::{Read, Write};
use std::rt::Files;
use std::sync::Wait;
use std::thread::Threads;

/// Writes the report of `show` over the one layer that a reader's manifest states, by
/// [`DEFAULT_WORKERS`]. If the input can't be read or states no layer, or the command fails, that
/// is the fault, and nothing is written.
pub fn show_input<H: Threads + Wait + Sync + Files + AllocGlobal, R: Read, W: Write>(
    rt: &H,
    reader: &mut R,
    writer: &mut W,
) -> Result<Ending, ProgramFault>
    ensures shown { IfSome (R.remaining reader.old)
        (λ manifest. (result ≡ Err Input) ⊎ ((result ≡ Err (Engine Memory))
        ⊎ IsReported (IsComing (input_request manifest)) None (W.contents writer.old)
        (W.contents writer.new) result)) }
    ensures silent { IfErr result
        (λ fault. fault ≢ Output → Keeps (W.contents writer.old) (W.contents writer.new)) }
{
    let manifest = read_all(rt.alloc(), reader, INPUT_LIMIT)?;
    show_manifest(rt, manifest, writer)
}

// Writes the report of `show` over the one layer that this manifest states.
fn show_manifest<H: Threads + Wait + Sync + Files + AllocGlobal, W: Write>(
    rt: &H,
    manifest: Vec<u8>,
    writer: &mut W,
) -> Result<Ending, ProgramFault>
    ensures { IsReported (IsComing (input_request manifest.items)) None (W.contents writer.old)
        (W.contents writer.new) result }
{
    let mut manifests = Vec::new(rt.alloc());
    manifests.push(manifest)?;
    let answered = command(
        rt,
        rt.alloc(),
        Command::Show,
        manifests,
        0,
        &[],
        DEFAULT_WORKERS,
        &OpenGate,
    );
    write_report(rt, answered, &None, writer)
}
