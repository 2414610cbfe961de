//! What has been given away, for the proofs of callers. The functions do nothing.
ghost use Rattle.ov_exposure.specs.Auditing.{AuditsGoOn, FindingsAreExact, FindingsAreInOrder};
ghost use Rattle.ov_exposure.specs.Auditing.{FindingsAreThose, MeetsIsAny, NextMayFollow};
ghost use Rattle.ov_exposure.specs.Auditing.{NothingIsSeen};
ghost use Rattle.ov_exposure.specs.Exposure.{AccessKeysAreOfHolders, BaseNodeIsOne};
ghost use Rattle.ov_exposure.specs.Exposure.{CoalitionReadsAsOne, FullReadsWhatWasListed};
ghost use Rattle.ov_exposure.specs.Exposure.{ExposedIsReadable, ExposedOnce};
ghost use Rattle.ov_exposure.specs.Exposure.{NameIsOne, NoneIsBareInFull, ReadsWhatWasListedOrBare};
ghost use Rattle.ov_exposure.specs.Exposure.{ServerReadsWhatIsHeld};
ghost use Rattle.ov_exposure.specs.Hoarding.{ReadersWereGivenBytes};
ghost use Rattle.ov_exposure.specs.Staying.{PublishedStays};

/// Users who kept everything can read exactly the files in which one of them was listed once, and in
/// Delta those that were bare once and of whose base node one of them is a holder now. Several read
/// what one of them does.
pub fn what_was_shown_can_be_read()
    ensures full { FullReadsWhatWasListed }
    ensures either { ReadsWhatWasListedOrBare }
    ensures coalition { CoalitionReadsAsOne }
    ensures bare { NoneIsBareInFull }
    ensures node { BaseNodeIsOne }
    ensures name { NameIsOne }
{}

/// Together with the server they read exactly the files of whose base node one of them is a holder
/// now: just of these files do their keys lead to the access key, with those of all surface nodes
/// besides.
pub fn what_is_held_can_be_read_with_the_server()
    ensures files { ServerReadsWhatIsHeld }
    ensures keys { AccessKeysAreOfHolders }
{}

/// No node, edge or token that was published is ever taken back, not even by a removal.
pub fn what_was_published_stays()
    ensures { PublishedStays }
{}

/// The files that are exposed, each by one cause since one epoch, are exactly those that the users
/// can read.
pub fn what_is_exposed_can_be_read()
    ensures readable { ExposedIsReadable }
    ensures once { ExposedOnce }
{}

/// Who notes little of each file at each state of a store, one after the other, finds just why each
/// file is exposed.
pub fn audits_go_on()
    ensures nothing { NothingIsSeen }
    ensures follows { NextMayFollow }
    ensures goes_on { AuditsGoOn }
    ensures findings { FindingsAreExact }
    ensures those { FindingsAreThose }
    ensures order { FindingsAreInOrder }
    ensures sets { MeetsIsAny }
{}

/// Users who can read a file of a legal history derive its keys, and get its bytes from what was
/// stored when they protected it.
pub fn readers_were_given_bytes()
    ensures { ReadersWereGivenBytes }
{}
