//! What an image can keep. The functions do nothing.
ghost use Rattle.ov_images.specs.Laws.{DamageHasOnePlace, DamageNeedsNoMaster};
ghost use Rattle.ov_images.specs.Laws.{DamagedKeepsNone, ExtentsTellBytes, KeepingGoesOn};
ghost use Rattle.ov_images.specs.Laws.{FreeNeedsNoOrder, GatesNeedNoBlocks, GoneFilesAreFree};
ghost use Rattle.ov_images.specs.Laws.{KeepsOnce};
ghost use Rattle.ov_images.specs.Laws.{KeptIsBorn, KeptIsSealed, KeysAreKept};
ghost use Rattle.ov_images.specs.Laws.{PlacesAreKeptOnce, RecordsAreKept};
ghost use Rattle.ov_images.specs.Laws.{SameExtentsKeepTheSame};

/// The law of images: an image keeps at most one history, but for the bytes of files that are gone,
/// which may be any, and with one list of first blocks. Where it keeps histories under two pairs of
/// keys, these have the same check values, and the histories the same updates; under one surface
/// master they are the same, but for the bytes of files that are gone.
pub fn an_image_keeps_one_history()
    ensures history { KeepsOnce }
    ensures gone { GoneFilesAreFree }
    ensures places { PlacesAreKeptOnce }
    ensures keys { KeysAreKept }
{}

/// The law of what is kept: a sealed history, of a store that was begun. Whichever bytes
/// the extents of its files hold, some history is kept.
pub fn records_keep_a_history()
    ensures born { KeptIsBorn }
    ensures sealed { KeptIsSealed }
    ensures any { RecordsAreKept }
{}

/// The law of extents: an image with the same header and records, a Blobs no shorter and the same
/// bytes in the latest extent of each file keeps the same history. These bytes are the same where
/// all bytes of the extents in use are.
pub fn same_extents_keep_the_same()
    ensures same { SameExtentsKeepTheSame }
    ensures bytes { ExtentsTellBytes }
{}

/// The law of free blocks: which blocks are free depends on the extents in use and not on the order
/// in which they are kept.
pub fn free_blocks_need_no_order()
    ensures { FreeNeedsNoOrder }
{}

/// The law of records: with one more record in the second form, whose new extents took free
/// blocks and hold the new stored bytes while all others keep theirs, the history goes on,
/// whichever the format of the store is.
pub fn keeping_goes_on()
    ensures { KeepingGoesOn }
{}

/// The law of damage: an image with a record that goes on with no history, or with a
/// length that can't be behind its last record, keeps no history, and has the first of these at one
/// place of one area, whatever the surface master is.
pub fn damaged_images_keep_no_history()
    ensures none { DamagedKeepsNone }
    ensures one_place { DamageHasOnePlace }
    ensures masters { DamageNeedsNoMaster }
{}

/// The law of gates: where the gate behind the records of a history is depends on its updates
/// alone, and not on which blocks their first ones are. So of a record that isn't as its owner
/// sealed it the gate is at one place.
pub fn gates_need_no_blocks()
    ensures { GatesNeedNoBlocks }
{}
