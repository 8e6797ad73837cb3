//! Laws of vacuum; the contract of each is its statement.
ghost use Rattle.ovl_vacuum.specs.Laws.{VacuumGivesLayer, VacuumKeepsTree, VacuumKeepsSoundness, VacuumLeavesNothingIdle};

/// What vacuum leaves is a layer.
pub fn vacuum_gives_a_layer()
    ensures { VacuumGivesLayer }
{}

/// Vacuum keeps the merged tree.
pub fn vacuum_keeps_the_tree()
    ensures { VacuumKeepsTree }
{}

/// Vacuum keeps a sound stack sound.
pub fn vacuum_keeps_soundness()
    ensures { VacuumKeepsSoundness }
{}

/// Vacuum leaves nothing idle.
pub fn vacuum_leaves_nothing_idle()
    ensures { VacuumLeavesNothingIdle }
{}
