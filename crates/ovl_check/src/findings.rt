//! Codes and findings, and their order.
ghost use Rattle.std.specs.Prelude.{◌≡◌};
ghost use Rattle.ovl_check.specs.Codes.{is_fault, code_word};

use ovl_names::Path;

/// What a finding says of an entry, in the order of reports: ten faults, then five notes.
/// docs/PROFILE.md has the condition of each.
#[derive(Clone, Copy, Debug, PartialEq, Eq, PartialOrd, Ord)]
pub enum Code {
    /// A redirect that is malformed.
    RedirectForm,
    /// A moved directory whose old place shows nothing.
    RedirectLost,
    /// A moved directory whose old place shows something else than a directory.
    RedirectKind,
    /// A moved directory that goes on where an earlier directory does.
    RedirectDouble,
    /// A moved directory whose old place isn't hidden.
    RedirectOpen,
    /// A metacopy file without data.
    DataMissing,
    /// A metacopy file whose data has another size.
    DataSize,
    /// A file whose blob isn't among the blobs.
    BlobMissing,
    /// A file whose blob has another length than the file's size.
    BlobSize,
    /// A file whose blob has another digest than its name.
    BlobDigest,
    /// A whiteout that hides nothing.
    OrphanWhiteout,
    /// A whiteout in an opaque directory.
    WhiteoutInOpaque,
    /// A whiteout by attribute in a directory that isn't marked as having such.
    WhiteoutUnmarked,
    /// A directory that holds a copied entry and isn't marked as impure.
    ImpureMissing,
    /// An entry with an attribute that says nothing there.
    MarkIgnored,
}

impl Code {
    /// Whether the code is a fault; the other codes are notes.
    pub fn is_fault(self) -> bool
        ensures { result ≡ is_fault self }
    {
        self < Code::OrphanWhiteout
    }

    /// The word of the code in a report.
    pub fn word(self) -> &'static str
        ensures { result.now ≡ code_word self }
    {
        match self {
            Code::RedirectForm => "redirect-form",
            Code::RedirectLost => "redirect-lost",
            Code::RedirectKind => "redirect-kind",
            Code::RedirectDouble => "redirect-double",
            Code::RedirectOpen => "redirect-open",
            Code::DataMissing => "data-missing",
            Code::DataSize => "data-size",
            Code::BlobMissing => "blob-missing",
            Code::BlobSize => "blob-size",
            Code::BlobDigest => "blob-digest",
            Code::OrphanWhiteout => "orphan-whiteout",
            Code::WhiteoutInOpaque => "whiteout-in-opaque",
            Code::WhiteoutUnmarked => "whiteout-unmarked",
            Code::ImpureMissing => "impure-missing",
            Code::MarkIgnored => "mark-ignored",
        }
    }
}

/// What is found at an entry of a layer. Findings are ordered by layer, then by path, then by code.
#[derive(Debug, PartialEq, Eq, PartialOrd, Ord, Drop)]
pub struct Finding {
    /// The layer, 0 for the topmost.
    pub layer: u16,
    /// The path of the entry in that layer.
    pub path: Path,
    /// What is found there.
    pub code: Code,
}
