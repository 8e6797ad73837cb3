//! A command, and its answer. It must not know what a layer is.
/// What is done with a stack of layers.
#[derive(Clone, Copy, Debug, PartialEq, Eq)]
pub enum Command {
    /// The report lists the merged tree. There is no new layer.
    Show,
    /// The report lists what is wrong with the layers and the blobs. There is no new layer.
    Fsck,
    /// The new layer is the topmost without what changes nothing in the merged tree, and the report
    /// lists what went.
    Vacuum,
    /// The new layer is the topmost without redirects and metacopy files, and the report lists what
    /// it has.
    Deref,
    /// The new layers are a topmost one that has only its root, and under it the two topmost ones
    /// as one; the report lists what that has.
    Merge,
    /// The new layer is what the stack shows, as one layer for the whole stack, and the report
    /// lists what it has.
    Flatten,
}

/// What a command gives.
#[derive(Debug, PartialEq, Eq, Drop)]
pub struct Answer {
    /// The report, as `docs/FORMATS.md` has it for each command.
    pub report: Vec<u8>,
    /// The manifests of the new layers, the topmost first; none where the command makes none.
    pub layers: Vec<Vec<u8>>,
    /// Whether no fault was found; true for each command but [`Command::Fsck`].
    pub clean: bool,
}
