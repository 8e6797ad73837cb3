//! Laws of flatten; the contract of each is its statement.
ghost use Rattle.ovl_flatten.specs.Laws.{FlattenGivesLayer, FlattenKeepsTree, FlattenIsSound, FlattenHasNoMarks, FlattenIsTheOne};

/// What flatten makes of a sound stack is a layer, but for the limits.
pub fn flatten_gives_a_layer()
    ensures { FlattenGivesLayer }
{}

/// The layer that flatten makes of a sound stack shows by itself what the stack shows.
pub fn flatten_keeps_the_tree()
    ensures { FlattenKeepsTree }
{}

/// The layer that flatten makes of a sound stack is sound by itself.
pub fn flatten_is_sound()
    ensures { FlattenIsSound }
{}

/// The layer that flatten makes of a sound stack has no marks.
pub fn flatten_has_no_marks()
    ensures { FlattenHasNoMarks }
{}

/// The only layer without marks that shows by itself what a stack shows is the one that flatten
/// makes of it.
pub fn flatten_is_the_one()
    ensures { FlattenIsTheOne }
{}
