//! How an answer is handed out: its layers in order and then its report, up to the first write that
//! fails.

use ovl_engine::{Answer, Command, command, named_blobs};
use ovl_pool::OpenGate;
use ovl_program::hand_out;
use ovl_test_rows::{parts_of, same};
use std::alloc::{AllocError, Global};
use std::io::{self, Error, Write};
use std::sync::Wait;
use std::test::Fail;
use std::thread::Threads;

// Whether an answer of the layers `ab` and `cd` and the report `ef` is clean, or that of a merge,
// and the bytes that two files and the output have room for; after ` -> ` how it is handed out,
// and how many bytes of their parts they took.
const ROWS: &str = "\
clean 9 9 9 -> Ok(0) 2 2 2
faulty 9 9 9 -> Ok(1) 2 2 2
clean 9 1 9 -> Err(OutFault { part: 1, written: 1 }) 2 1 0
clean 0 1 9 -> Err(OutFault { part: 0, written: 0 }) 0 0 0
clean 9 9 1 -> Err(OutFault { part: 2, written: 1 }) 2 2 1
merge 999 10 999 -> Err(OutFault { part: 1, written: 10 }) 122 10 0
merge 999 999 999 -> Ok(0) 122 419 30
";

// `whiteout /a, dir /b redirect=/a` over `dir /a, file /a/k` over `dir /b, file /b/z`.
const MOVED: &str =
    r#"{"entries":[{"gid":0,"kind":"dir","mode":493,"mtime":0,"mtime-nsec":0,"path":"/","uid":0,"xattrs":{}},{"gid":0,"kind":"char","major":0,"minor":0,"mode":0,"mtime":0,"mtime-nsec":0,"path":"/a","uid":0,"xattrs":{}},{"gid":0,"kind":"dir","mode":493,"mtime":0,"mtime-nsec":0,"path":"/b","uid":0,"xattrs":{"trusted.overlay.redirect":"2f61"}}],"overlay-layer":2}
{"entries":[{"gid":0,"kind":"dir","mode":493,"mtime":0,"mtime-nsec":0,"path":"/","uid":0,"xattrs":{}},{"gid":0,"kind":"dir","mode":493,"mtime":0,"mtime-nsec":0,"path":"/a","uid":0,"xattrs":{}},{"blob":"ca978112ca1bbdcafac231b39a23dc4da786eff8147c4e72b9807785afee48bb","gid":0,"kind":"file","mode":420,"mtime":0,"mtime-nsec":0,"path":"/a/k","size":1,"uid":0,"xattrs":{}}],"overlay-layer":2}
{"entries":[{"gid":0,"kind":"dir","mode":493,"mtime":0,"mtime-nsec":0,"path":"/","uid":0,"xattrs":{}},{"gid":0,"kind":"dir","mode":493,"mtime":0,"mtime-nsec":0,"path":"/b","uid":0,"xattrs":{}},{"blob":"ca978112ca1bbdcafac231b39a23dc4da786eff8147c4e72b9807785afee48bb","gid":0,"kind":"file","mode":420,"mtime":0,"mtime-nsec":0,"path":"/b/z","size":1,"uid":0,"xattrs":{}}],"overlay-layer":2}
"#;

// A writer that takes a few bytes, and then fails for lack of the device's room.
#[derive(Drop)]
struct Narrow {
    room: usize,
    taken: Vec<u8>,
}

impl Write for Narrow {
    fn write(&mut self, buf: &[u8]) -> io::Result<usize> {
        if self.room == 0 {
            return Err(Error::from_raw_os_error(28));
        }
        let count = buf.len().min(self.room);
        let Ok(()) = self.taken.extend_from_slice(&buf[..count]) else {
            return Err(Error::from_raw_os_error(12));
        };
        self.room -= count;
        Ok(count)
    }

    fn flush(&mut self) -> io::Result<()> {
        Ok(())
    }
}

fn of_room(alloc: Global, word: Option<&str>) -> Narrow {
    Narrow {
        room: word.unwrap_or("").parse().unwrap_or(0),
        taken: Vec::new(alloc),
    }
}

fn bytes(alloc: Global, text: &str) -> Result<Vec<u8>, AllocError> {
    Vec::from_slice(alloc, text.as_bytes())
}

fn answer(alloc: Global, clean: bool) -> Result<Answer, AllocError> {
    Ok(Answer {
        report: bytes(alloc, "ef")?,
        layers: vec![in alloc; bytes(alloc, "ab")?, bytes(alloc, "cd")?]?,
        clean,
    })
}

// What a merge answers that puts the moved directory into the layer below.
fn merged<R: Threads + Wait + Sync>(rt: &R, alloc: Global) -> Result<Answer, Fail> {
    let mut manifests = Vec::new(alloc);
    for line in MOVED.lines() {
        manifests.push(bytes(alloc, line)?)?;
    }
    let blobs = named_blobs(alloc, &[bytes(alloc, "a")?])?;
    let what = Command::Merge;
    Ok(command(rt, alloc, what, manifests, 0, &blobs, 2, &OpenGate)?)
}

fn answer_of<R: Threads + Wait + Sync>(
    rt: &R,
    alloc: Global,
    word: Option<&str>,
) -> Result<Answer, Fail> {
    match word {
        Some("merge") => merged(rt, alloc),
        _ => Ok(answer(alloc, word == Some("clean"))?),
    }
}

// How many bytes of a part a writer took; it may have taken no others.
fn push_taken(alloc: Global, text: &mut String, part: &[u8], writer: &Narrow) -> Result<(), Fail> {
    if !part.starts_with(writer.taken.as_slice()) {
        return Err(Fail::new("other bytes were written"));
    }
    text.push_str(format!(in alloc; " {}", writer.taken.len())?.as_str())?;
    Ok(())
}

fn taken(
    alloc: Global,
    answer: &Answer,
    files: &[Narrow],
    output: &Narrow,
) -> Result<String, Fail> {
    let mut text = String::new(alloc);
    for (layer, file) in answer.layers.iter().zip(files) {
        push_taken(alloc, &mut text, layer.as_slice(), file)?;
    }
    push_taken(alloc, &mut text, answer.report.as_slice(), output)?;
    Ok(text)
}

fn handed(
    alloc: Global,
    answer: &Answer,
    files: &mut [Narrow],
    output: &mut Narrow,
) -> Result<String, Fail> {
    if files.len() != answer.layers.len() || files.len() > 2 {
        return Err(Fail::new("there is a file for each layer"));
    }
    let given = hand_out(answer, files, output);
    let taken = taken(alloc, answer, files, output)?;
    Ok(format!(in alloc; "{given:?}{taken}")?)
}

fn told<R: Threads + Wait + Sync>(rt: &R, alloc: Global, words: &str) -> Result<String, Fail> {
    let mut words = words.split(' ');
    let answer = answer_of(rt, alloc, words.next())?;
    let mut files = vec![in alloc; of_room(alloc, words.next()), of_room(alloc, words.next())]?;
    let mut output = of_room(alloc, words.next());
    handed(alloc, &answer, files.as_mut_slice(), &mut output)
}

fn row_told<R: Threads + Wait + Sync>(rt: &R, alloc: Global, row: &str) -> Result<(), Fail> {
    let (words, wanted) = parts_of(row);
    let found = told(rt, alloc, words)?;
    same(words, found.as_str(), wanted)
}

#[test]
fn an_answer_is_handed_out(rt: HostRuntime) -> Result<(), Fail> {
    for row in ROWS.lines() {
        row_told(&rt, rt.alloc(), row)?;
    }
    Ok(())
}
