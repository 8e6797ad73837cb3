//! Lines of words.

use ovl_program::{LineFault, line};
use ovl_test_rows::{parts_of, same};
use std::alloc::Global;
use std::test::Fail;

// Words with a space between them, and after ` -> ` the line that they make, or what is reported in
// its place.
const ROWS: &str = "\
show a.json -> Line { what: Show, workers: 4, data_layers: 0, blobs: None, any_size: false, down_to: None, out: None, layers: [\"a.json\"] }
fsck a.json -> usage
show --workers 65 a.json -> usage
--help -> help
show a c --workers=64 --data-layers 1 -> Line { what: Show, workers: 64, data_layers: 1, blobs: None, any_size: false, down_to: None, out: None, layers: [\"a\", \"c\"] }
fsck --blobs= a -> Line { what: Fsck, workers: 4, data_layers: 0, blobs: Some(\"\"), any_size: false, down_to: None, out: None, layers: [\"a\"] }
vacuum --out o --blobs b --any-size a -> Line { what: Vacuum, workers: 4, data_layers: 0, blobs: Some(\"b\"), any_size: true, down_to: None, out: Some(\"o\"), layers: [\"a\"] }
deref a --blobs b --out=o a -> Line { what: Deref, workers: 4, data_layers: 0, blobs: Some(\"b\"), any_size: false, down_to: None, out: Some(\"o\"), layers: [\"a\", \"a\"] }
merge --data-layers=127 --blobs=b --out=o -- -a -> Line { what: Merge, workers: 4, data_layers: 127, blobs: Some(\"b\"), any_size: false, down_to: None, out: Some(\"o\"), layers: [\"-a\"] }
merge --blobs b --out o --down-to 3 a c -> Line { what: Merge, workers: 4, data_layers: 0, blobs: Some(\"b\"), any_size: false, down_to: Some(3), out: Some(\"o\"), layers: [\"a\", \"c\"] }
flatten --blobs b --workers 1 --out o --any-size a c -> Line { what: Flatten, workers: 1, data_layers: 0, blobs: Some(\"b\"), any_size: true, down_to: None, out: Some(\"o\"), layers: [\"a\", \"c\"] }
";

fn told(alloc: Global, text: &str) -> Result<String, Fail> {
    let mut words = Vec::new(alloc);
    for word in text.split(' ') {
        words.push(word)?;
    }
    match line(alloc, words.as_slice()) {
        Ok(read) => Ok(format!(in alloc; "{read:?}")?),
        Err(LineFault::Help(_)) => Ok(String::from_str(alloc, "help")?),
        Err(LineFault::Usage(_)) => Ok(String::from_str(alloc, "usage")?),
        Err(LineFault::Memory) => Err(Fail::new("out of memory")),
    }
}

fn row_told(alloc: Global, row: &str) -> Result<(), Fail> {
    let (words, wanted) = parts_of(row);
    let found = told(alloc, words)?;
    same(words, found.as_str(), wanted)
}

#[test]
fn words_make_a_line(rt: HostRuntime) -> Result<(), Fail> {
    for row in ROWS.lines() {
        row_told(rt.alloc(), row)?;
    }
    Ok(())
}
