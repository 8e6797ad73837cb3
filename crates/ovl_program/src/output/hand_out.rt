//! An answer written to writers. It must not know files.
ghost use Rattle.std.specs.Prelude.{◌≡◌, ◌<◌, ◌≤◌, ◌++◌, ◌∷◌, [], map, length, take, MatchResult, IfErr};
ghost use Rattle.std.specs.Io.KnownBytes.{Appends};
ghost use Rattle.ovl_engine.specs.Outcomes.{new_manifests};
ghost use Rattle.ovl_program.specs.HandedOut.{AreWhole, IsCutAt};
ghost use Rattle.ovl_program.specs.Status.{ending_of, ending_status};

use crate::output::status::Ending;
use ovl_engine::{Answer, emit};
use std::io::Write;
use thiserror::Error;

/// Where an answer isn't written whole.
#[derive(Clone, Copy, Debug, PartialEq, Eq, Error)]
#[error("only {written} bytes of part {part} were written")]
pub struct OutFault {
    /// The first part that isn't, by its number: those of the layers from 0 on, and then the
    /// report's.
    pub part: u8,
    /// How many of its bytes went out, from the first on; fewer than all.
    pub written: usize,
}

/// Writes an answer's layers in their order, each to the writer in its place, and then the report,
/// and gives the status that the program ends with. The first part that isn't written whole is
/// given, and nothing is written after it. No memory is taken.
pub fn hand_out<W: Write, O: Write>(
    answer: &Answer,
    files: &mut [W],
    output: &mut O,
) -> Result<u8, OutFault>
    requires each { length files.old ≡ length answer.now.layers.items }
    requires few { length files.old ≤ 255 }
    ensures { MatchResult result
        (λ status. (status ≡ ending_status (ending_of answer.now.clean))
        × AreWhole (map W.contents files.old ++ O.contents output.old ∷ [])
        (map W.contents files.new ++ O.contents output.new ∷ [])
        (new_manifests answer.now ++ answer.now.report.items ∷ []))
        (λ fault. IsCutAt fault.part fault.written
        (map W.contents files.old ++ O.contents output.old ∷ [])
        (map W.contents files.new ++ O.contents output.new ∷ [])
        (new_manifests answer.now ++ answer.now.report.items ∷ [])) }
{
    hand_on(&answer.layers, &answer.report, files, output)?;
    Ok(Ending::of(answer.clean).status())
}

// Writes the layers that are left in their order, each to the writer in its place, and then the
// report. The first part that isn't written whole is given, counted from the first of these layers,
// and nothing is written after it.
fn hand_on<W: Write, O: Write>(
    layers: &[Vec<u8>],
    report: &[u8],
    files: &mut [W],
    output: &mut O,
) -> Result<(), OutFault>
    requires each { length files.old ≡ length layers.now }
    requires few { length files.old ≤ 255 }
    ensures handed { MatchResult result
        (λ _. AreWhole (map W.contents files.old ++ O.contents output.old ∷ [])
        (map W.contents files.new ++ O.contents output.new ∷ [])
        (map (λ layer. layer.items) layers.now ++ report.now ∷ []))
        (λ fault. IsCutAt fault.part fault.written
        (map W.contents files.old ++ O.contents output.old ∷ [])
        (map W.contents files.new ++ O.contents output.new ∷ [])
        (map (λ layer. layer.items) layers.now ++ report.now ∷ [])) }
    ensures within { IfErr result (λ fault. fault.part ≤ length files.old) }
{
    let Some((layer, layers)) = layers.split_first() else {
        return hand(report, output);
    };
    let Some((file, files)) = files.split_first_mut() else {
        unreachable!();
    };
    hand(layer, file)?;
    match hand_on(layers, report, files, output) {
        Ok(()) => Ok(()),
        Err(OutFault { part, written }) => Err(OutFault {
            part: part + 1,
            written,
        }),
    }
}

// Writes one part, the first.
fn hand<W: Write>(part: &[u8], writer: &mut W) -> Result<(), OutFault>
    ensures { MatchResult result
        (λ _. Appends (W.contents writer.old) (W.contents writer.new) part.now)
        (λ fault. (fault.part ≡ 0) × ((fault.written < length part.now)
        × Appends (W.contents writer.old) (W.contents writer.new) (take fault.written part.now))) }
{
    match emit(writer, part) {
        Ok(()) => Ok(()),
        Err(fault) => Err(OutFault {
            part: 0,
            written: fault.written,
        }),
    }
}
