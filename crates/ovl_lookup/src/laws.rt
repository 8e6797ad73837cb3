//! Laws of walks and of the merged tree; the contract of each is its statement.
ghost use Rattle.ovl_lookup.specs.Laws.{ShowsParents, ShowsWithinDepth, ViewsGoOn, ViewsFind, ViewsShow, ViewsStand, ViewsLook};
ghost use Rattle.ovl_lookup.specs.WalkSplits.{WalksStep, WalksSplit, AbsoluteRedirectsLead, RelativeRedirectsLead};
ghost use Rattle.ovl_lookup.specs.WalkLaws.{WalksEnter, WalksEnd, WalksPass, WalksPassOver, FilesClose, WalksKeepNames, WalksStayBelowRoot};

/// The merged tree is closed under parents: where something is shown in a directory, that directory
/// is shown.
pub fn merged_tree_has_parents()
    ensures { ShowsParents }
{}

/// The merged tree is no deeper than the most names of a layer's path times the number of layers,
/// the data-only ones not counted.
pub fn merged_tree_is_within_depth()
    ensures { ShowsWithinDepth }
{}

/// A directory is shown exactly if its view isn't empty.
pub fn views_show()
    ensures { ViewsShow }
{}

/// Each place of a view is a directory of its layer, which isn't above the view's first layer, with
/// the path by which the layers below know it and whether they are hidden there. After one where
/// they are hidden there is none.
pub fn views_stand()
    ensures { ViewsStand }
{}

/// How the view of a directory goes on with one more name.
pub fn views_go_on()
    ensures { ViewsGoOn }
{}

/// What is found with one more name, by the view of the directory.
pub fn views_find()
    ensures { ViewsFind }
{}

/// The looks of all names in a directory, by the first place of its view that has the name.
pub fn views_look()
    ensures { ViewsLook }
{}

/// A walk goes on into a directory by the mark of that.
pub fn walks_enter()
    ensures { WalksEnter }
{}

/// A walk ends at the first name that is no directory.
pub fn walks_end()
    ensures { WalksEnd }
{}

/// Past a name that is no directory nothing is found, and the names are kept.
pub fn walks_pass()
    ensures { WalksPass }
{}

/// A layer that is passed with one more name is passed without it.
pub fn walks_pass_over()
    ensures { WalksPassOver }
{}

/// A file that is no metacopy file closes its walk.
pub fn files_close()
    ensures { FilesClose }
{}

/// Where a walk goes on there are only names.
pub fn walks_keep_names()
    ensures { WalksKeepNames }
{}

/// The walk of a path below the root goes on below the root.
pub fn walks_stay_below_root()
    ensures { WalksStayBelowRoot }
{}

/// What is at one more name says by its mark where the walk goes on.
pub fn walks_step()
    ensures { WalksStep }
{}

/// A walk splits at a directory.
pub fn walks_split()
    ensures { WalksSplit }
{}

/// Everything under an absolute redirect goes on from there.
pub fn absolute_redirects_lead()
    ensures { AbsoluteRedirectsLead }
{}

/// Everything under a relative redirect goes on beside it.
pub fn relative_redirects_lead()
    ensures { RelativeRedirectsLead }
{}
