//! What a job does by the owner's book.
ghost use Rattle.std.specs.Prelude.{◌≡◌, ◌⊎◌, IfSome, true, false};
ghost use Rattle.ov_acts.specs.Causes.{TakesUpTo, past_key_file};
ghost use Rattle.ov_acts.specs.Files.{plain_masters};
ghost use Rattle.ov_base.specs.Causes.{Rose};
ghost use Rattle.ov_keyfile.specs.KeyFile.{HasMasters};
ghost use Rattle.ov_owning.specs.Causes.{OwnStopsFor, TakesStored};
ghost use Rattle.ov_owning.specs.Printing.{PutsEnd};
ghost use Rattle.ov_owning.specs.Running.{IsResume, OwnsBy, OwnsOpen, OwnsUnder};
ghost use Rattle.ov_owning.specs.Serving.{IsByOneBook};

use crate::carrying::{own_intent, resume};
use crate::ending::finish;
use crate::intents::intent_of;
use crate::job::{OwnAct, OwnJob};
use crate::stop::{OwnStop, known_check, stop_of_begin, stop_of_files};
use ov_acts::masters_of;
use ov_base::Mode;
use ov_book::{Book, BookRefused};
use ov_disk::Disk;
use ov_io::{Sink, Source};
use ov_keyfile::Masters;
use ov_peer::Peer;
use std::alloc::Global;

/// Whether the act carries out what is pending.
fn is_resume(act: &OwnAct) -> bool
    ensures yes { result ≡ true → IsResume act.now }
    ensures no { result ≡ false → IsResume act.now → ⊥ }
{
    matches!(act, OwnAct::Resume)
}

/// Does what the act is by an open book, and gives the epoch.
fn act_by<B: Source, P: Peer, D: Disk>(
    alloc: Global,
    act: OwnAct,
    masters: &Masters,
    mode: Mode,
    body: &mut B,
    peer: &mut P,
    book: &mut Book<D>,
) -> Result<u32, OwnStop>
    requires masters { plain_masters masters.now ≡ book.old.masters }
    requires failed { book.old.failed ≡ false }
    ensures owns { OwnsOpen P.tells D.tells act mode (B.tells.left body.old)
        (body.new ≡ body.old) book.old peer.old peer.new book.new.disk result }
    ensures cause { OwnStopsFor ⊥ (Rose (B.tells.faults body.old) (B.tells.faults body.new))
        (Rose (P.tells.faults peer.old) (P.tells.faults peer.new))
        (Rose (D.tells.faults book.old.disk) (D.tells.faults book.new.disk)) result }
    ensures takes { TakesStored B.tells act body.old body.new }
{
    if book.pending() && !is_resume(&act) {
        let kept = book.epoch();
        return Err(OwnStop::Pending { kept });
    }
    match intent_of(alloc, act, body) {
        Ok(Some(intent)) => own_intent(alloc, intent, masters, mode, peer, book),
        Ok(None) => resume(alloc, masters, mode, peer, book),
        Err(stop) => Err(stop_of_files(stop)),
    }
}

/// Opens the book, and does what the act is by it. The disk is given back.
fn act_over<B: Source, P: Peer, D: Disk + Drop>(
    alloc: Global,
    act: OwnAct,
    masters: &Masters,
    mode: Mode,
    body: &mut B,
    peer: &mut P,
    disk: D,
) -> (Result<u32, OwnStop>, D)
    ensures owns { OwnsUnder P.tells D.tells (plain_masters masters.now) act mode
        (B.tells.left body.old) (body.new ≡ body.old) peer.old peer.new disk result.1 result.0 }
    ensures cause { OwnStopsFor ⊥ (Rose (B.tells.faults body.old) (B.tells.faults body.new))
        (Rose (P.tells.faults peer.old) (P.tells.faults peer.new))
        (Rose (D.tells.faults disk) (D.tells.faults result.1)) result.0 }
    ensures takes { TakesStored B.tells act body.old body.new }
{
    match Book::begin(alloc, disk, masters.base, masters.surface, mode) {
        Ok(book) => {
            let mut book = book;
            book.known();
            let done = act_by(alloc, act, masters, mode, body, peer, &mut book);
            (done, book.close())
        }
        Err(refused) => {
            let BookRefused { fault, disk } = refused;
            known_check(&fault);
            (Err(stop_of_begin(fault)), disk)
        }
    }
}

/// Reads the masters, opens the book, and does what the job is by it. The disk is given back.
fn perform<K: Source, B: Source, P: Peer, D: Disk + Drop>(
    alloc: Global,
    act: OwnAct,
    mode: Mode,
    keys: &mut K,
    body: &mut B,
    peer: &mut P,
    disk: D,
) -> (Result<u32, OwnStop>, D)
    ensures owns { OwnsBy P.tells D.tells act mode (K.tells.left keys.old)
        (B.tells.left body.old) (body.new ≡ body.old) peer.old peer.new disk result.1 result.0 }
    ensures cause { OwnStopsFor (IfSome (K.tells.left keys.old) (λ file. HasMasters file → ⊥))
        (Rose (K.tells.faults keys.old) (K.tells.faults keys.new)
        ⊎ Rose (B.tells.faults body.old) (B.tells.faults body.new))
        (Rose (P.tells.faults peer.old) (P.tells.faults peer.new))
        (Rose (D.tells.faults disk) (D.tells.faults result.1)) result.0 }
    ensures keys { TakesUpTo K.tells past_key_file keys.old keys.new }
    ensures takes { TakesStored B.tells act body.old body.new }
{
    match masters_of(keys) {
        Ok(masters) => act_over(alloc, act, &masters, mode, body, peer, disk),
        Err(stop) => (Err(stop_of_files(stop)), disk),
    }
}

/// How a call of [`own`] ended: the epoch, or why there is none; the exit status; and the disk.
#[derive(Drop)]
pub struct Owned<D> {
    /// The epoch that the update made, or why the call ended without one.
    pub end: Result<u32, OwnStop>,
    /// The exit status, which differs from the end's where its line couldn't be put.
    pub code: u8,
    /// The book's disk.
    pub disk: D,
}

/// Does what the job asks for by the owner's book on `disk`, and puts the line of its end.
///
/// The masters are read, and then the book is begun or opened. A job other than `resume` ends where
/// an intent is pending. Else the bytes to be stored are read, and the server is asked for its
/// epoch. Only then the intent is written down, and after it is on the disk its update is sent, at
/// the book's epoch, and the intent settled. Nothing of a reply goes into an update.
///
/// * `owns`: what is asked of the server, what a crash may leave of the book, and how the call ends,
///   as said above. Where the masters or the book aren't there, or an intent is pending, nothing is
///   taken of `body`; and where its bytes aren't read, nothing is asked;
/// * `puts`: the end's line, and the status;
/// * `causes`: the key file is said to be none only where it isn't one, and the other causes come only
///   where a count of faults rose: that of a file that is read, of the peer, of the disk;
/// * `write`: 6 comes only where the count of standard output rose;
/// * `keys`, `takes`: what is taken of the two files;
/// * `one_book`: over a server that nobody else updates, and that serves this book, it serves it
///   afterwards too, with the intent where the call ended well, and a crash meanwhile leaves a book that
///   was served before or is afterwards; and the call is answered.
pub fn own<K: Source, B: Source, O: Sink, P: Peer, D: Disk + Drop>(
    alloc: Global,
    job: OwnJob,
    keys: &mut K,
    body: &mut B,
    out: &mut O,
    peer: &mut P,
    disk: D,
) -> Owned<D>
    ensures owns { OwnsBy P.tells D.tells job.act job.mode (K.tells.left keys.old)
        (B.tells.left body.old) (body.new ≡ body.old) peer.old peer.new disk result.disk
        result.end }
    ensures puts { PutsEnd result.end (O.tells.written out.old) (O.tells.written out.new)
        result.code }
    ensures causes { OwnStopsFor (IfSome (K.tells.left keys.old) (λ file. HasMasters file → ⊥))
        (Rose (K.tells.faults keys.old) (K.tells.faults keys.new)
        ⊎ Rose (B.tells.faults body.old) (B.tells.faults body.new))
        (Rose (P.tells.faults peer.old) (P.tells.faults peer.new))
        (Rose (D.tells.faults disk) (D.tells.faults result.disk)) result.end }
    ensures write { result.code ≡ 6 → Rose (O.tells.faults out.old) (O.tells.faults out.new) }
    ensures keys { TakesUpTo K.tells past_key_file keys.old keys.new }
    ensures takes { TakesStored B.tells job.act body.old body.new }
    ensures one_book { IsByOneBook P.tells D.tells job.act job.mode (K.tells.left keys.old)
        (B.tells.left body.old) peer.old peer.new disk result.disk result.end result.code }
{
    let OwnJob {
        address: _,
        keys: _,
        book: _,
        path: _,
        mode,
        act,
    } = job;
    let (end, disk) = perform(alloc, act, mode, keys, body, peer, disk);
    let code = finish(alloc, end, out);
    Owned { end, code, disk }
}
