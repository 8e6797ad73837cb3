//! Laws of a merge; the contract of each is its statement.
ghost use Rattle.ovl_merge.specs.Laws.{MergeGivesLayer, MergeKeepsTree, MergedLayerKeepsTree, MergeHasCore};

/// What a merge makes of a sound stack's two topmost layers is a layer, but for the limits.
pub fn merge_gives_a_layer()
    ensures { MergeGivesLayer }
{}

/// Over a sound stack a merge keeps the merged tree.
pub fn merge_keeps_the_tree()
    ensures { MergeKeepsTree }
{}

/// Over a sound stack the new lower layer keeps it by itself: the new topmost one, only a root, may
/// be left out.
pub fn merged_layer_keeps_the_tree()
    ensures { MergedLayerKeepsTree }
{}

/// Where the walks of the new lower layer go on.
pub fn merge_has_its_core()
    ensures { MergeHasCore }
{}
