//! Rows of replacements.
ghost use Rattle.ov_history_t.specs.Replacing.{NewNodesHaveEdges, NumbersGoOn, OldBytesDoNotCount};
ghost use Rattle.ov_history_t.specs.Replacing.{ReplacedAreGone, ReplacementsAreNewFiles};
ghost use Rattle.ov_history_t.specs.Replacing.{ReplacementsKeepLists};

/// A replacement is a new file, at the node of the list that its file has.
pub fn a_replacement_is_a_new_file_of_its_list()
    ensures node { ReplacementsAreNewFiles }
    ensures edges { NewNodesHaveEdges }
    ensures list { ReplacementsKeepLists }
{}

/// Numbers of files go on behind a replacement, and behind its removal.
pub fn numbers_go_on_behind_a_replacement()
    ensures { NumbersGoOn }
{}

/// The bytes of a file that is to be replaced don't count.
pub fn old_bytes_do_not_count()
    ensures { OldBytesDoNotCount }
{}

/// A file that was replaced is no file any more.
pub fn a_replaced_file_is_gone()
    ensures { ReplacedAreGone }
{}
