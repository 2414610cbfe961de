//! Laws of books that are served. The functions do nothing.
ghost use Rattle.ov_owning.specs.Serving.{NewBooksAreServed, OwnersFilesAreEnough, ServedBooksGoOn};

use ov_disk::Disk;
use ov_peer::Peer;

/// The law of beginnings: a store that begins empty, at epoch 0, serves the book that begins empty, by
/// which each act may go on.
pub fn new_books_are_served()
    ensures { NewBooksAreServed }
{}

/// The law of later calls: what a crash leaves after a call is once more a book that is served. What a
/// crash leaves at a moment of the call is one that was served before it or is served after it, and both
/// while an intent is pending.
pub fn served_books_go_on<P: Peer, D: Disk>()
    ensures { ServedBooksGoOn P.tells D.tells }
{}

/// The law of files: a call has the right ones where its key file is one of the masters and the file
/// that it stores, where it has one, isn't too long.
pub fn owners_files_are_enough()
    ensures { OwnersFilesAreEnough }
{}
