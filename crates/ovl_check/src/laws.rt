//! Laws of findings; the contract of each is its statement.
ghost use Rattle.ovl_check.specs.Laws.{FindingsTellSoundness, FindingsNeedContents, FindingsNeedNamed, ShownLayersAreClean, UnmarkedLayersAreQuiet};

/// A stack is sound exactly if none of its findings speaks of a redirect or of a metacopy file's
/// data.
pub fn findings_tell_soundness()
    ensures { FindingsTellSoundness }
{}

/// The findings of a stack and its blobs are those by the name, the length and the rightness of
/// each blob.
pub fn findings_need_contents()
    ensures { FindingsNeedContents }
{}

/// The findings need the contents of no other blobs than those that the layers of the stack name.
pub fn findings_need_named()
    ensures { FindingsNeedNamed }
{}

/// In a layer without marks, by itself, nothing is found but what is wrong with blobs.
pub fn unmarked_layers_are_quiet()
    ensures { UnmarkedLayersAreQuiet }
{}

/// If nothing is at fault in a stack and its blobs, nothing at all is found in the layer of what
/// it shows, by itself.
pub fn shown_layers_are_clean()
    ensures { ShownLayersAreClean }
{}
