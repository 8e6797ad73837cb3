//! Texts of which several threads write a share each, and work of two parts that are done side by
//! side.
ghost use Rattle.std.specs.Prelude.{◌≡◌, ◌<◌, ◌≤◌, ◌*◌, ◌++◌, ◌∷◌, [], IfOk, OnOk, Ok, map, string_bytes};
ghost use Rattle.std.specs.List.{flat_map};
ghost use Rattle.ovl_reports.specs.Shares.{AreJoined, least_share};

use std::alloc::{AllocError, Global};
use std::thread::{Threads, join};

// The fewest lines for which a thread is started, and the room that is kept for the line after all
// shares.
const LEAST_SHARE: usize = 1024;

const LAST_LINE: usize = 64;

/// How many lines a thread writes, if this many lines are shared by that many workers: no more
/// threads are needed than there are workers, and none for few lines or one worker.
pub fn share_of(lines: usize, workers: usize) -> usize
    requires { 0 < workers }
    ensures some { 0 < result }
    ensures least { least_share ≤ result }
    ensures all { lines ≤ result * workers }
{
    lines.div_ceil(workers).max(LEAST_SHARE)
}

/// What two parts of work give: side by side where there are several workers, else one after the
/// other.
pub fn side_by_side<R: Threads, F: FnOnce() -> A + Send, G: FnOnce() -> B, A: Send, B>(
    rt: &R,
    workers: usize,
    first: F,
    second: G,
) -> (A, B)
    requires { F.pre first × G.pre second }
    ensures first { F.post first result.0 }
    ensures second { G.post second result.1 }
{
    if workers > 1 {
        join(rt, first, second)
    } else {
        (first(), second())
    }
}

/// The texts of all shares one after another, or the first fault. Fails too when out of memory.
pub fn joined(alloc: Global, parts: Vec<Result<String, AllocError>>) -> Result<String, AllocError>
    ensures { IfOk result (λ whole. AreJoined string_bytes parts.items (string_bytes whole)) }
{
    let mut texts = texts_of(alloc, parts)?;
    if texts.is_empty() {
        return Ok(String::new(alloc));
    }
    let first = texts.remove(0);
    with_others(first, texts)
}

// A text and the others after it. It grows by all of them at once, in place where it can, and each
// is let go once it is appended.
fn with_others(mut text: String, others: Vec<String>) -> Result<String, AllocError>
    ensures { IfOk result
        (λ whole. string_bytes whole ≡ string_bytes text ++ flat_map string_bytes others.items) }
{
    text.reserve_exact(room_for(&others))?;
    for other in others {
        text.push_str(other.as_str())?;
    }
    Ok(text)
}

fn texts_of(
    alloc: Global,
    parts: Vec<Result<String, AllocError>>,
) -> Result<Vec<String>, AllocError>
    ensures { IfOk result (λ texts. parts.items ≡ map Ok texts.items) }
{
    let mut texts = Vec::with_capacity(alloc, parts.len())?;
    for part in parts {
        push_text(&mut texts, part)?;
    }
    Ok(texts)
}

// Puts the text of a share after those before it, or gives its fault.
fn push_text(texts: &mut Vec<String>, part: Result<String, AllocError>) -> Result<(), AllocError>
    ensures { OnOk result (map Ok texts.new.items ≡ map Ok texts.old.items ++ part ∷ []) }
{
    texts.push(part?)?;
    Ok(())
}

// The bytes of all texts and of a last line.
fn room_for(texts: &[String]) -> usize {
    let mut room = LAST_LINE;
    for text in texts {
        room = room.saturating_add(text.len());
    }
    room
}
