//! New layers as files.
ghost use Rattle.std.specs.Prelude.{◌≡◌, ◌<◌, ◌≤◌, [], All, Contains, IfOk, MatchResult, String, length, string_bytes, vec_capacity, vec_len};
ghost use Rattle.std.specs.Global.{Global};
ghost use Rattle.std.specs.Io.KnownBytes.{Appends};
ghost use Rattle.ovl_program.specs.declared.faults.ProgramFault.TheVariants.{Output, Unwritten};
ghost use Rattle.ovl_program.specs.LayerFiles.{IsLayerFile, IsLeftOut, IsUnfinished};
ghost use Rattle.ovl_program.specs.LayerFiles as layer_files;
ghost use Rattle.ovl_program.specs.Status.{ending_of};

use crate::faults::ProgramFault;
use crate::output::hand_out::{OutFault, hand_out};
use crate::output::status::Ending;
use ovl_engine::Answer;
use std::alloc::{AllocError, Global};
use std::fs::{Metadata, OpenFile, OpenOptions};
use std::io::{self, Write};
use std::os::unix::fs::MetadataExt;
use std::rt::Files;

/// Writes an answer's new layers into a folder, the topmost as `layer-0.json`, the next as
/// `layer-1.json` and so on, and then its report. All memory that this takes is had before the
/// first file is opened. All files are opened, and made where they aren't there, before one of them
/// is emptied, and all are emptied before the first byte is written. Two that lead to one file
/// can't be written.
pub fn write_answer<R: Files + AllocGlobal, W: Write>(
    rt: &R,
    folder: &str,
    answer: &Answer,
    writer: &mut W,
) -> Result<Ending, ProgramFault>
    requires { length answer.now.layers.items ≤ 255 }
    ensures { MatchResult result
        (λ ending. (ending ≡ ending_of answer.now.clean)
        × Appends (W.contents writer.old) (W.contents writer.new) answer.now.report.items)
        (λ fault. IsUnfinished folder.now answer.now (W.contents writer.old)
        (W.contents writer.new) fault) }
{
    let alloc = rt.alloc();
    let paths = layer_paths(alloc, folder, answer.layers.len())?;
    let mut files = Vec::with_capacity(alloc, answer.layers.len())?;
    match put_out(rt, &paths, &mut files, answer, writer) {
        Ok(_) => Ok(Ending::of(answer.clean)),
        Err(fault) => Err(unwritten(paths, fault)),
    }
}

// The paths of this many new layers in a folder.
fn layer_paths(alloc: Global, folder: &str, count: usize) -> Result<Vec<String>, AllocError>
    ensures each { IfOk result (λ paths. vec_len paths ≡ count) }
    ensures named { IfOk result
        (λ paths. All (λ path. IsLayerFile folder.now count (string_bytes path)) paths.items) }
{
    let mut paths = Vec::with_capacity(alloc, count)?;
    for index in 0..count {
        paths.push(layer_path(alloc, folder, index)?)?;
    }
    Ok(paths)
}

// A new layer's path: the folder as it is given, a slash, and the layer's name.
fn layer_path(alloc: Global, folder: &str, index: usize) -> Result<String, AllocError>
    ensures { IfOk result (λ path. string_bytes path ≡ layer_files.layer_path folder.now index) }
{
    let mut path = String::from_str(alloc, folder)?;
    path.push_str("/layer-")?;
    path.push_str(itoa::Buffer::new().format(index))?;
    path.push_str(".json")?;
    Ok(path)
}

// Opens and empties the files of these paths, for which there is room, and hands the answer out.
fn put_out<R: Files, W: Write>(
    rt: &R,
    paths: &[String],
    files: &mut Vec<R::File>,
    answer: &Answer,
    writer: &mut W,
) -> Result<u8, OutFault>
    requires none { files.old.items ≡ [] }
    requires room { length paths.now ≤ vec_capacity files.old }
    requires each { length paths.now ≡ length answer.now.layers.items }
    requires few { length paths.now ≤ 255 }
    ensures { MatchResult result
        (λ _. Appends (W.contents writer.old) (W.contents writer.new) answer.now.report.items)
        (λ fault. IsLeftOut answer.now (W.contents writer.old) (W.contents writer.new) fault) }
{
    open_all(rt, paths, files)?;
    empty_all(files.as_slice())?;
    hand_out(answer, files.as_mut_slice(), writer)
}

// Opens the files of these paths, in their order, and makes those that aren't there. What is in
// them stays.
fn open_all<R: Files>(rt: &R, paths: &[String], files: &mut Vec<R::File>) -> Result<(), OutFault>
    requires none { files.old.items ≡ [] }
    requires room { length paths.now ≤ vec_capacity files.old }
    requires few { length paths.now ≤ 255 }
    ensures { MatchResult result
        (λ _. vec_len files.new ≡ length paths.now)
        (λ fault. fault.part < length paths.now) }
{
    for (index, path) in paths.iter().enumerate() {
        let Some(file) = open_apart(rt, path.as_str(), files.as_slice()) else {
            return Err(OutFault {
                part: index as u8,
                written: 0,
            });
        };
        let Ok(()) = files.push(file) else {
            unreachable!();
        };
    }
    Ok(())
}

// Opens a file for writing, where it is none of the others, of which there are few. Where standard
// output is closed, a file that is opened gets its descriptor, and the report with it; a copy of a
// descriptor is none of the standard ones.
fn open_apart<R: Files>(rt: &R, path: &str, others: &[R::File]) -> Option<R::File> {
    let mut options = OpenOptions::new();
    options.write(true).create(true);
    let file = options.open(rt, path).ok()?.try_clone().ok()?;
    for other in others {
        if is_same(&file.metadata().ok()?, &other.metadata().ok()?) {
            return None;
        }
    }
    Some(file)
}

fn is_same(one: &Metadata, other: &Metadata) -> bool {
    one.dev() == other.dev() && one.ino() == other.ino()
}

// Empties those of these files that hold something; a device or a pipe has no length of its own.
fn empty_all<F: OpenFile>(files: &[F]) -> Result<(), OutFault>
    requires { length files.now ≤ 255 }
    ensures { MatchResult result (λ _. Unit {0}) (λ fault. fault.part < length files.now) }
{
    for (index, file) in files.iter().enumerate() {
        if empty(file).is_err() {
            return Err(OutFault {
                part: index as u8,
                written: 0,
            });
        }
    }
    Ok(())
}

fn empty(file: &impl OpenFile) -> io::Result<()> {
    let metadata = file.metadata()?;
    if metadata.is_file() && metadata.len() > 0 {
        file.set_len(0)?;
    }
    Ok(())
}

// The fault where a part isn't written whole: the file that was to have these bytes, or standard
// output.
fn unwritten(mut paths: Vec<String>, fault: OutFault) -> ProgramFault
    ensures layer { fault.part < vec_len paths
        → (path : String Global) × ((result ≡ Unwritten path) × Contains paths.items path) }
    ensures report { vec_len paths ≤ fault.part → result ≡ Output }
{
    // Made by hand (2): makes the fault of a path of the part that wasn't written.
    let part = usize::from(fault.part);
    if part < paths.len() {
        ProgramFault::Unwritten(paths.swap_remove(part))
    } else {
        ProgramFault::Output
    }
}
