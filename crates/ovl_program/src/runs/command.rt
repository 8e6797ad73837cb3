//! A line done: its manifests are read, and its blobs held or read in parts.
ghost use Rattle.std.specs.Prelude.{◌≡◌, ◌<◌, ◌≤◌, [], true, option_map, IfOk, IfErr, IfNone};
ghost use Rattle.ovl_board.specs.Machine.{worker_limit};
ghost use Rattle.ovl_blobs.specs.Blobs.{blob_views, are_in_order};
ghost use Rattle.ovl_engine.specs.Tasks.{command_of};
ghost use Rattle.ovl_engine.specs.Requests.{request_for};
ghost use Rattle.ovl_files.specs.Faults.{IsUnread};
ghost use Rattle.ovl_program.specs.Faults.{IsUnreadFile};
ghost use Rattle.ovl_program.specs.Programs.{AreContentsFor, IsComingFor, IsKnownIn, IsOfBlobs, IsPerformed};
ghost use Rattle.ovl_program.specs.Programs as programs;

use crate::faults::ProgramFault;
use crate::output::report::write_report;
use crate::output::status::Ending;
use ovl_command_line::Line;
use ovl_engine::{
    Answer, Blob, BlobInfo, Command, EngineFault, Prepared, Task, answer, digest_blobs, prepare,
};
use ovl_files::{FileFault, SharedFiles, measure_blobs, read_blobs, read_files};
use ovl_pool::OpenGate;
use std::io::Write;
use std::rt::Files;
use std::sync::Wait;
use std::thread::Threads;

/// Does what a line asks for: reads its layers and then its blobs, and writes the new layers and
/// then the report. If it asks for blobs of any size, those that the layers name are read in
/// parts once all else is tested that is before any work. Nothing is written where a file or a
/// folder isn't read, or the command gives no answer; if it is refused for faults, only their
/// report is written. What files hold is what their reads give; of a file that changes nothing more
/// is said.
pub fn perform<
    R: Files + SharedFiles + AllocGlobal + Clone + Drop + Threads + Wait + Sync,
    W: Write,
>(rt: &R, line: &Line, writer: &mut W) -> Result<Ending, ProgramFault>
    ensures { IsPerformed line.now (W.contents writer.old) (W.contents writer.new) result }
{
    let manifests = read_files(rt, &line.layers, line.workers)?;
    let blobs = held_blobs(rt, line)?;
    let answered = answer_of(rt, line, manifests, blobs)?;
    write_report(rt, answered, &line.out, writer)
}

// The blobs of a line's folder that are held: none where it has no folder, or asks that they be
// read in parts.
fn held_blobs<R: Files + SharedFiles + AllocGlobal + Clone + Drop + Threads + Sync>(
    rt: &R,
    line: &Line,
) -> Result<Vec<Blob>, FileFault>
    ensures in_order { IfOk result (λ blobs. are_in_order (blob_views blobs.items) ≡ true) }
    ensures none { IfNone (programs.held_folder line.now)
        (IfOk result (λ blobs. blob_views blobs.items ≡ [])) }
    ensures fault { IfErr result (λ fault. IsUnread (IsOfBlobs line.now) fault) }
{
    match &line.blobs {
        Some(folder) if !line.any_size => read_blobs(rt, folder.as_str(), line.workers),
        _ => Ok(Vec::new(rt.alloc())),
    }
}

// What the line's task gives of these manifests and blobs, or of those of its folder that is read in
// parts, if that can be read.
fn answer_of<R: Files + SharedFiles + AllocGlobal + Threads + Wait + Sync>(
    rt: &R,
    line: &Line,
    manifests: Vec<Vec<u8>>,
    blobs: Vec<Blob>,
) -> Result<Result<Answer, EngineFault>, ProgramFault>
    requires { are_in_order (blob_views blobs.items) ≡ true }
    ensures coming { IfOk result (IsComingFor line.now
        (request_for (programs.task_of line.now.what line.now.down_to) manifests.items
        line.now.data_layers blobs.items line.now.workers)) }
    ensures fault { IfErr result (λ fault. IsUnreadFile (IsOfBlobs line.now) fault) }
{
    let alloc = rt.alloc();
    let prepared = match prepare(
        rt,
        alloc,
        task_of(line),
        manifests,
        line.data_layers,
        &blobs,
        line.workers,
    ) {
        Ok(prepared) => prepared,
        Err(fault) => return Ok(Err(fault)),
    };
    let contents = contents_for(rt, line, &prepared, &blobs)?;
    drop(blobs);
    Ok(answer(rt, alloc, prepared, contents, line.workers, &OpenGate))
}

// The line's task: its command, or merges down to the number of layers that it says.
fn task_of(line: &Line) -> Task
    ensures { result ≡ programs.task_of line.now.what line.now.down_to }
{
    match (line.what, line.down_to) {
        (Command::Merge, Some(left)) => Task::MergeDown(left),
        (what, _) => Task::Once(what),
    }
}

// What is known of the blobs that a prepared task of a line wants to know: read in parts where the
// line asks for that, else digested where they are held.
fn contents_for<R: Files + SharedFiles + AllocGlobal + Threads + Wait + Sync>(
    rt: &R,
    line: &Line,
    prepared: &Prepared,
    blobs: &[Blob],
) -> Result<Vec<BlobInfo>, ProgramFault>
    requires number { (0 < line.now.workers) × (line.now.workers ≤ worker_limit) }
    requires ascend { are_in_order (blob_views blobs.now) ≡ true }
    ensures known { IfOk result (λ contents. AreContentsFor (command_of prepared.now.task)
        (IsKnownIn (programs.folder_in_parts line.now) prepared.now.stack (blob_views blobs.now))
        contents.items) }
    ensures fault { IfErr result (λ fault. IsUnreadFile (IsOfBlobs line.now) fault) }
{
    let alloc = rt.alloc();
    match folder_in_parts(line) {
        Some(folder) => {
            let names = prepared.wanted_names(alloc)?;
            Ok(measure_blobs(rt, folder.as_str(), &names, line.workers)?)
        }
        None => Ok(digest_blobs(rt, alloc, prepared, blobs, line.workers, &OpenGate)?),
    }
}

// The folder whose blobs are read in parts, if the line asks for that.
fn folder_in_parts(line: &Line) -> Option<&String>
    ensures { option_map (λ folder. folder.now) result ≡ programs.folder_in_parts line.now }
{
    if line.any_size {
        line.blobs.as_ref()
    } else {
        None
    }
}
