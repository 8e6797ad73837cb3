//! Stacks of layers, each a manifest in a line, the topmost first.

use ovl_engine::Command;
use ovl_lookup::Stack;
use ovl_manifest::read_layer;
use std::alloc::{AllocError, Global};

// The stack of these manifests; what refuses it but out of memory is reported as that too.
fn read_stack(alloc: Global, manifests: &str) -> Result<Stack, AllocError> {
    let mut layers = Vec::new(alloc);
    for manifest in manifests.lines() {
        let Ok(layer) = read_layer(alloc, manifest.as_bytes()) else {
            return Err(AllocError);
        };
        layers.push(layer)?;
    }
    match Stack::of(alloc, layers) {
        Ok(stack) => Ok(stack),
        Err(_) => Err(AllocError),
    }
}

/// The stack of these manifests, made again where memory ran out.
pub(crate) fn stack_of(alloc: Global, manifests: &str) -> Result<Stack, AllocError> {
    again!(read_stack(alloc, manifests), AllocError)
}

/// The stack of [`MOVED`].
pub(crate) fn moved_stack(alloc: Global) -> Result<Stack, AllocError> {
    stack_of(alloc, MOVED.manifests)
}

/// Only a root.
pub(crate) const ROOT: &str =
    r#"{"entries":[{"gid":0,"kind":"dir","mode":493,"mtime":0,"mtime-nsec":0,"path":"/","uid":0,"xattrs":{}}],"overlay-layer":2}
"#;

/// `dir /a redirect=/x, dir /b redirect=/x` over `dir /x`.
pub(crate) const DOUBLE: &str =
    r#"{"entries":[{"gid":0,"kind":"dir","mode":493,"mtime":0,"mtime-nsec":0,"path":"/","uid":0,"xattrs":{}},{"gid":0,"kind":"dir","mode":493,"mtime":0,"mtime-nsec":0,"path":"/a","uid":0,"xattrs":{"trusted.overlay.redirect":"2f78"}},{"gid":0,"kind":"dir","mode":493,"mtime":0,"mtime-nsec":0,"path":"/b","uid":0,"xattrs":{"trusted.overlay.redirect":"2f78"}}],"overlay-layer":2}
{"entries":[{"gid":0,"kind":"dir","mode":493,"mtime":0,"mtime-nsec":0,"path":"/","uid":0,"xattrs":{}},{"gid":0,"kind":"dir","mode":493,"mtime":0,"mtime-nsec":0,"path":"/x","uid":0,"xattrs":{}}],"overlay-layer":2}
"#;

/// A stack, the contents of its blobs, each after `=` where they have the name of others, and the
/// end of each command's report, or after `!` what refuses it.
#[derive(Clone, Copy, Debug)]
pub(crate) struct Sample {
    pub(crate) manifests: &'static str,
    pub(crate) blobs: &'static str,
    pub(crate) ends: [(Command, &'static str); 6],
}

/// `bare /m metacopy=, dir /n opaque=y, dir /n/d redirect=/x, link /n/l user.k=v, whiteout /x` over
/// `file /m, dir /n, file /n/z, dir /x, file /x/k`.
pub(crate) const MOVED: Sample = Sample {
    manifests: r#"{"entries":[{"gid":0,"kind":"dir","mode":493,"mtime":0,"mtime-nsec":0,"path":"/","uid":0,"xattrs":{}},{"gid":0,"kind":"file","mode":420,"mtime":0,"mtime-nsec":0,"path":"/m","size":1,"uid":0,"xattrs":{"trusted.overlay.metacopy":""}},{"gid":0,"kind":"dir","mode":493,"mtime":0,"mtime-nsec":0,"path":"/n","uid":0,"xattrs":{"trusted.overlay.opaque":"79"}},{"gid":0,"kind":"dir","mode":493,"mtime":0,"mtime-nsec":0,"path":"/n/d","uid":0,"xattrs":{"trusted.overlay.redirect":"2f78"}},{"gid":0,"kind":"symlink","mode":511,"mtime":0,"mtime-nsec":0,"path":"/n/l","target":"a b","uid":0,"xattrs":{"user.k":"76"}},{"gid":0,"kind":"char","major":0,"minor":0,"mode":0,"mtime":0,"mtime-nsec":0,"path":"/x","uid":0,"xattrs":{}}],"overlay-layer":2}
{"entries":[{"gid":0,"kind":"dir","mode":493,"mtime":0,"mtime-nsec":0,"path":"/","uid":0,"xattrs":{}},{"blob":"ca978112ca1bbdcafac231b39a23dc4da786eff8147c4e72b9807785afee48bb","gid":0,"kind":"file","mode":420,"mtime":0,"mtime-nsec":0,"path":"/m","size":1,"uid":0,"xattrs":{}},{"gid":0,"kind":"dir","mode":493,"mtime":0,"mtime-nsec":0,"path":"/n","uid":0,"xattrs":{}},{"blob":"ca978112ca1bbdcafac231b39a23dc4da786eff8147c4e72b9807785afee48bb","gid":0,"kind":"file","mode":420,"mtime":0,"mtime-nsec":0,"path":"/n/z","size":1,"uid":0,"xattrs":{}},{"gid":0,"kind":"dir","mode":493,"mtime":0,"mtime-nsec":0,"path":"/x","uid":0,"xattrs":{}},{"blob":"ca978112ca1bbdcafac231b39a23dc4da786eff8147c4e72b9807785afee48bb","gid":0,"kind":"file","mode":420,"mtime":0,"mtime-nsec":0,"path":"/x/k","size":1,"uid":0,"xattrs":{}}],"overlay-layer":2}
"#,
    blobs: "a",
    ends: [
        (Command::Show, "entries 6"),
        (Command::Fsck, "faults 0 notes 0"),
        (Command::Vacuum, "removed 1 kept 5"),
        (Command::Deref, "entries 7"),
        (Command::Merge, "entries 6"),
        (Command::Flatten, "entries 6"),
    ],
};

/// `root`.
pub(crate) const ONE: Sample = Sample {
    manifests: r#"{"entries":[{"gid":0,"kind":"dir","mode":493,"mtime":0,"mtime-nsec":0,"path":"/","uid":0,"xattrs":{}}],"overlay-layer":2}
"#,
    blobs: "",
    ends: [
        (Command::Show, "entries 1"),
        (Command::Fsck, "faults 0 notes 0"),
        (Command::Vacuum, "removed 0 kept 1"),
        (Command::Deref, "entries 1"),
        (Command::Merge, "! no lower layer"),
        (Command::Flatten, "entries 1"),
    ],
};

/// `dir /n opaque=y, dir /n/d redirect=/x, whiteout /x` over `dir /n, file /n/z, dir /x, file
/// /x/k`.
pub(crate) const OPAQUE: Sample = Sample {
    manifests: r#"{"entries":[{"gid":0,"kind":"dir","mode":493,"mtime":0,"mtime-nsec":0,"path":"/","uid":0,"xattrs":{}},{"gid":0,"kind":"dir","mode":493,"mtime":0,"mtime-nsec":0,"path":"/n","uid":0,"xattrs":{"trusted.overlay.opaque":"79"}},{"gid":0,"kind":"dir","mode":493,"mtime":0,"mtime-nsec":0,"path":"/n/d","uid":0,"xattrs":{"trusted.overlay.redirect":"2f78"}},{"gid":0,"kind":"char","major":0,"minor":0,"mode":0,"mtime":0,"mtime-nsec":0,"path":"/x","uid":0,"xattrs":{}}],"overlay-layer":2}
{"entries":[{"gid":0,"kind":"dir","mode":493,"mtime":0,"mtime-nsec":0,"path":"/","uid":0,"xattrs":{}},{"gid":0,"kind":"dir","mode":493,"mtime":0,"mtime-nsec":0,"path":"/n","uid":0,"xattrs":{}},{"blob":"ca978112ca1bbdcafac231b39a23dc4da786eff8147c4e72b9807785afee48bb","gid":0,"kind":"file","mode":420,"mtime":0,"mtime-nsec":0,"path":"/n/z","size":1,"uid":0,"xattrs":{}},{"gid":0,"kind":"dir","mode":493,"mtime":0,"mtime-nsec":0,"path":"/x","uid":0,"xattrs":{}},{"blob":"ca978112ca1bbdcafac231b39a23dc4da786eff8147c4e72b9807785afee48bb","gid":0,"kind":"file","mode":420,"mtime":0,"mtime-nsec":0,"path":"/x/k","size":1,"uid":0,"xattrs":{}}],"overlay-layer":2}
"#,
    blobs: "a",
    ends: [
        (Command::Show, "entries 4"),
        (Command::Fsck, "faults 0 notes 0"),
        (Command::Vacuum, "removed 0 kept 4"),
        (Command::Deref, "entries 5"),
        (Command::Merge, "entries 4"),
        (Command::Flatten, "entries 4"),
    ],
};

/// `dir /d, file /d/k`, twice.
pub(crate) const TWICE: Sample = Sample {
    manifests: r#"{"entries":[{"gid":0,"kind":"dir","mode":493,"mtime":0,"mtime-nsec":0,"path":"/","uid":0,"xattrs":{}},{"gid":0,"kind":"dir","mode":493,"mtime":0,"mtime-nsec":0,"path":"/d","uid":0,"xattrs":{}},{"blob":"ca978112ca1bbdcafac231b39a23dc4da786eff8147c4e72b9807785afee48bb","gid":0,"kind":"file","mode":420,"mtime":0,"mtime-nsec":0,"path":"/d/k","size":1,"uid":0,"xattrs":{}}],"overlay-layer":2}
{"entries":[{"gid":0,"kind":"dir","mode":493,"mtime":0,"mtime-nsec":0,"path":"/","uid":0,"xattrs":{}},{"gid":0,"kind":"dir","mode":493,"mtime":0,"mtime-nsec":0,"path":"/d","uid":0,"xattrs":{}},{"blob":"ca978112ca1bbdcafac231b39a23dc4da786eff8147c4e72b9807785afee48bb","gid":0,"kind":"file","mode":420,"mtime":0,"mtime-nsec":0,"path":"/d/k","size":1,"uid":0,"xattrs":{}}],"overlay-layer":2}
"#,
    blobs: "a",
    ends: [
        (Command::Show, "entries 3"),
        (Command::Fsck, "faults 0 notes 0"),
        (Command::Vacuum, "removed 2 kept 1"),
        (Command::Deref, "entries 3"),
        (Command::Merge, "entries 3"),
        (Command::Flatten, "entries 3"),
    ],
};

/// `whiteout /a, dir /b redirect=/a` over `dir /a, file /a/k` over `dir /b, file /b/z`.
pub(crate) const OVER: Sample = Sample {
    manifests: r#"{"entries":[{"gid":0,"kind":"dir","mode":493,"mtime":0,"mtime-nsec":0,"path":"/","uid":0,"xattrs":{}},{"gid":0,"kind":"char","major":0,"minor":0,"mode":0,"mtime":0,"mtime-nsec":0,"path":"/a","uid":0,"xattrs":{}},{"gid":0,"kind":"dir","mode":493,"mtime":0,"mtime-nsec":0,"path":"/b","uid":0,"xattrs":{"trusted.overlay.redirect":"2f61"}}],"overlay-layer":2}
{"entries":[{"gid":0,"kind":"dir","mode":493,"mtime":0,"mtime-nsec":0,"path":"/","uid":0,"xattrs":{}},{"gid":0,"kind":"dir","mode":493,"mtime":0,"mtime-nsec":0,"path":"/a","uid":0,"xattrs":{}},{"blob":"ca978112ca1bbdcafac231b39a23dc4da786eff8147c4e72b9807785afee48bb","gid":0,"kind":"file","mode":420,"mtime":0,"mtime-nsec":0,"path":"/a/k","size":1,"uid":0,"xattrs":{}}],"overlay-layer":2}
{"entries":[{"gid":0,"kind":"dir","mode":493,"mtime":0,"mtime-nsec":0,"path":"/","uid":0,"xattrs":{}},{"gid":0,"kind":"dir","mode":493,"mtime":0,"mtime-nsec":0,"path":"/b","uid":0,"xattrs":{}},{"blob":"ca978112ca1bbdcafac231b39a23dc4da786eff8147c4e72b9807785afee48bb","gid":0,"kind":"file","mode":420,"mtime":0,"mtime-nsec":0,"path":"/b/z","size":1,"uid":0,"xattrs":{}}],"overlay-layer":2}
"#,
    blobs: "a",
    ends: [
        (Command::Show, "entries 3"),
        (Command::Fsck, "faults 0 notes 0"),
        (Command::Vacuum, "removed 0 kept 3"),
        (Command::Deref, "entries 4"),
        (Command::Merge, "entries 3"),
        (Command::Flatten, "entries 3"),
    ],
};

/// `empty /e`, and `/k`, `/m` and `/s` with the contents `abc`, `a` and `ab`, of which the last is
/// stated as longer.
pub(crate) const WRONG: Sample = Sample {
    manifests: r#"{"entries":[{"gid":0,"kind":"dir","mode":493,"mtime":0,"mtime-nsec":0,"path":"/","uid":0,"xattrs":{}},{"gid":0,"kind":"file","mode":420,"mtime":0,"mtime-nsec":0,"path":"/e","size":0,"uid":0,"xattrs":{}},{"blob":"ba7816bf8f01cfea414140de5dae2223b00361a396177a9cb410ff61f20015ad","gid":0,"kind":"file","mode":420,"mtime":0,"mtime-nsec":0,"path":"/k","size":3,"uid":0,"xattrs":{}},{"blob":"ca978112ca1bbdcafac231b39a23dc4da786eff8147c4e72b9807785afee48bb","gid":0,"kind":"file","mode":420,"mtime":0,"mtime-nsec":0,"path":"/m","size":1,"uid":0,"xattrs":{}},{"blob":"fb8e20fc2e4c3f248c60c39bd652f3c1347298bb977b8b4d5903b85055620603","gid":0,"kind":"file","mode":420,"mtime":0,"mtime-nsec":0,"path":"/s","size":3,"uid":0,"xattrs":{}}],"overlay-layer":2}
"#,
    blobs: "abc=abd ab",
    ends: [
        (Command::Show, "entries 5"),
        (Command::Fsck, "faults 3 notes 0"),
        (Command::Vacuum, "! faults 3 notes 0"),
        (Command::Deref, "! faults 3 notes 0"),
        (Command::Merge, "! no lower layer"),
        (Command::Flatten, "! faults 3 notes 0"),
    ],
};
