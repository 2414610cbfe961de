//! Rows of books: that a pending intent is served without its update and with it, and that a first call
//! by a book needs nothing but right files.
ghost use Rattle.std.specs.Prelude.{IfSome};
ghost use Rattle.ov_protocol_t.specs.Books.{IsFirstCall, PendingIsServedTwice};
ghost use Rattle.ov_protocol_t.specs.Premises.{masters};

use crate::premises::{a_new_store_is_one_of_its_masters, a_server_in_this_process_is_alone};
use ov_base::Key;
use ov_disk::MemDisk;
use ov_io::{Sink, Source};
use ov_owning::{OwnJob, Owned, new_books_are_served, own};
use ov_peer::Peer;
use ov_server::LocalPeer;
use std::alloc::Global;

/// A book with a pending enrolment is served by the store without it and by the one with it; before the
/// intent and after its settling the book is served by one of them alone.
pub fn a_pending_enrolment_is_served_twice()
    ensures { PendingIsServedTwice }
{}

/// A call by a book that begins on an empty disk, over a new store of its masters in this process, needs
/// no premise but right files; and what it leaves has those of the next call.
pub fn a_first_call_by_a_book_needs_its_files<K: Source, B: Source, O: Sink>(
    alloc: Global,
    base: &Key,
    surface: Key,
    job: OwnJob,
    keys: &mut K,
    body: &mut B,
    out: &mut O,
) -> Option<(Owned<MemDisk>, LocalPeer<MemDisk>)>
    ensures { IfSome result (λ both. IsFirstCall ⟦<LocalPeer<MemDisk> as Peer>⟧.tells
        (masters base.now.bytes surface.bytes) job.act job.mode (K.tells.left keys.old)
        (B.tells.left body.old) both.1 both.0) }
{
    a_server_in_this_process_is_alone::<MemDisk>();
    new_books_are_served();
    let mut peer = a_new_store_is_one_of_its_masters(alloc, base, surface, job.mode)?;
    let disk = MemDisk::new(alloc);
    let owned = own(alloc, job, keys, body, out, &mut peer, disk);
    Some((owned, peer))
}
