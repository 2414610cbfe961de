//! Rows of records with first blocks, and of the Blobs beside them.
ghost use Rattle.ov_history_t.specs.Extents.{BlocksAreUsedAgain, BlocksInUseAreDamage};
ghost use Rattle.ov_history_t.specs.Extents.{ChangedByteIsNoDamage, EmptyFileHasNoBlock};
ghost use Rattle.ov_history_t.specs.Extents.{EndOfBlobsIsDamage, FileHasWholeBlocks, FirstIsLeftOver};
ghost use Rattle.ov_history_t.specs.Extents.{FirstIsMissing, GateComesFirst, LastBlockCounts};
ghost use Rattle.ov_history_t.specs.Extents.{NewBlocksAreApart, OldBlocksAreInUse};
ghost use Rattle.ov_history_t.specs.Extents.{OwnBlocksAreInUse, RemovedBlocksAreFree};
ghost use Rattle.ov_history_t.specs.Extents.{RemovedFilesAreGone, ReplacedBlocksAreFree};
ghost use Rattle.ov_history_t.specs.Extents.{ReplacedFilesHaveNames};

/// A file of 8,193 bytes has three blocks: beside 12,288 bytes of Blobs its record is whole.
pub fn a_file_has_whole_blocks()
    ensures { FileHasWholeBlocks }
{}

/// Beside one byte less its extent passes the end of Blobs, and so does one behind the last block that
/// counts, however long Blobs is.
pub fn a_file_past_the_end_is_damage()
    ensures short { EndOfBlobsIsDamage }
    ensures last { LastBlockCounts }
{}

/// A second file in its last block is damage, at that block.
pub fn blocks_in_use_are_damage()
    ensures { BlocksInUseAreDamage }
{}

/// A creation without its first block is damage at the end of the body, and one with two is damage
/// behind the first.
pub fn the_number_of_first_blocks_is_damage()
    ensures missing { FirstIsMissing }
    ensures left_over { FirstIsLeftOver }
{}

/// A refused update is damage at its gate, whatever stands behind it in the body.
pub fn the_gate_comes_before_first_blocks()
    ensures { GateComesFirst }
{}

/// A file of no bytes has no first block.
pub fn an_empty_file_has_no_block()
    ensures { EmptyFileHasNoBlock }
{}

/// A revocation rewrites the file at block 3, and the next grant at block 0 again.
pub fn blocks_are_used_again()
    ensures { BlocksAreUsedAgain }
{}

/// The blocks of a file that is removed are free for the next one, and of the file itself there are
/// no bytes any more.
pub fn removed_blocks_are_free()
    ensures { RemovedBlocksAreFree }
{}

/// A second removal of a file is damage at its gate.
pub fn removed_files_are_gone()
    ensures { RemovedFilesAreGone }
{}

/// The blocks of a file that is replaced are free for the updates behind it, and not for the one
/// that replaces it.
pub fn replaced_blocks_are_free()
    ensures free { ReplacedBlocksAreFree }
    ensures old { OldBlocksAreInUse }
{}

/// A replacement of a name that no file has is damage at its gate.
pub fn replaced_files_have_names()
    ensures { ReplacedFilesHaveNames }
{}

/// Two files that one update rewrites take blocks apart from one another.
pub fn new_blocks_are_apart()
    ensures { NewBlocksAreApart }
{}

/// A revocation that rewrites the file over its own blocks is damage.
pub fn own_blocks_are_in_use()
    ensures { OwnBlocksAreInUse }
{}

/// A changed byte behind the last byte of a file is no damage: the same history is kept.
pub fn a_changed_byte_behind_a_file_is_no_damage()
    ensures { ChangedByteIsNoDamage }
{}
