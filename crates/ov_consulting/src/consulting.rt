//! A question to the owner's book.
ghost use Rattle.std.specs.Prelude.{◌≡◌, ◌↔◌, Err, IfOk, IfSome, IsErr, true};
ghost use Rattle.ov_acts.specs.Causes.{TakesUpTo, past_key_file};
ghost use Rattle.ov_acts.specs.Files.{plain_masters};
ghost use Rattle.ov_base.specs.Causes.{Rose};
ghost use Rattle.ov_disk.specs.Calls.{IsDiskCall};
ghost use Rattle.ov_disk.specs.Disk.{Told};
ghost use Rattle.ov_disk.specs.Moments.{IsUntouched};
ghost use Rattle.ov_journal.specs.Standing.{IsUnborn};
ghost use Rattle.ov_keyfile.specs.KeyFile.{HasMasters};
ghost use Rattle.ov_consulting.specs.Consulting.{Consults, ConsultsUnder};
ghost use Rattle.ov_consulting.specs.Endings.{StopsForKeys};
ghost use Rattle.ov_consulting.specs.Printing.{PutsEnd};
ghost use Rattle.ov_consulting.specs.declared.stop.BookStop.TheVariants.{Disk as DiskFailed};

use crate::answering::answer;
use crate::ending::finish;
use crate::job::{BookJob, Question};
use crate::stop::{BookStop, stop_of_begin, stop_of_keys};
use ov_acts::masters_of;
use ov_base::{Mode, Octets};
use ov_book::{Book, BookRefused};
use ov_disk::{Area, Disk, DiskFault};
use ov_io::{Sink, Source};
use ov_keyfile::Masters;
use std::alloc::Global;

// The most bytes that a Book has in which none was begun.
const LONGEST_UNBORN: u64 = 79;

/// Whether no book was begun on the disk, by the length of Book and its first gate.
fn is_unborn<D: Disk>(disk: &mut D) -> Result<bool, DiskFault>
    ensures found { IfOk result (λ unborn. Told (D.tells.reads disk.old) (λ i.
        (unborn ≡ true) ↔ IsUnborn i.book)) }
    ensures untouched { IsUntouched D.tells disk.old disk.new }
    ensures call { IsDiskCall D.tells (IsErr result) disk.old disk.new }
{
    let length = disk.len(Area::Book)?;
    if length <= 1 {
        return Ok(true);
    }
    if length > LONGEST_UNBORN {
        return Ok(false);
    }
    let mut gate = [0; 1];
    disk.read(Area::Book, 0, &mut gate)?;
    Ok(gate[0] != 1)
}

/// Opens the book that was begun on the disk, and asks it. The disk is given back.
fn ask_begun<D: Disk + Drop>(
    alloc: Global,
    question: &Question,
    masters: &Masters,
    mode: Mode,
    disk: D,
) -> (Result<Octets, BookStop>, D)
    requires begun { Told (D.tells.reads disk) (λ i. IsUnborn i.book → ⊥) }
    ensures consults { ConsultsUnder D.tells (plain_masters masters.now) mode question.now
        disk result.1 result.0 }
    ensures keys { StopsForKeys ⊥ ⊥ result.0 }
    ensures call { IsDiskCall D.tells (result.0 ≡ Err DiskFailed) disk result.1 }
{
    match Book::begin(alloc, disk, masters.base, masters.surface, mode) {
        Ok(book) => {
            book.known();
            let end = answer(alloc, question, &book);
            (end, book.close())
        }
        Err(refused) => {
            let BookRefused { fault, disk } = refused;
            (Err(stop_of_begin(fault)), disk)
        }
    }
}

/// Asks the book on the disk, where one was begun there. The disk is given back.
fn ask<D: Disk + Drop>(
    alloc: Global,
    question: &Question,
    masters: &Masters,
    mode: Mode,
    disk: D,
) -> (Result<Octets, BookStop>, D)
    ensures consults { ConsultsUnder D.tells (plain_masters masters.now) mode question.now
        disk result.1 result.0 }
    ensures keys { StopsForKeys ⊥ ⊥ result.0 }
    ensures call { IsDiskCall D.tells (result.0 ≡ Err DiskFailed) disk result.1 }
{
    let mut disk = disk;
    match is_unborn(&mut disk) {
        Ok(true) => (Err(BookStop::NoBook), disk),
        Ok(false) => ask_begun(alloc, question, masters, mode, disk),
        Err(_) => (Err(BookStop::Disk), disk),
    }
}

/// Reads the masters, and asks the book on the disk. The disk is given back.
fn perform<K: Source, D: Disk + Drop>(
    alloc: Global,
    job: &BookJob,
    keys: &mut K,
    disk: D,
) -> (Result<Octets, BookStop>, D)
    ensures consults { Consults D.tells job.now.mode job.now.question (K.tells.left keys.old)
        disk result.1 result.0 }
    ensures causes { StopsForKeys
        (IfSome (K.tells.left keys.old) (λ file. HasMasters file → ⊥))
        (Rose (K.tells.faults keys.old) (K.tells.faults keys.new)) result.0 }
    ensures call { IsDiskCall D.tells (result.0 ≡ Err DiskFailed) disk result.1 }
    ensures takes { TakesUpTo K.tells past_key_file keys.old keys.new }
{
    match masters_of(keys) {
        Ok(masters) => ask(alloc, &job.question, &masters, job.mode, disk),
        Err(stop) => (Err(stop_of_keys(stop)), disk),
    }
}

/// How a call of [`consult`] ended: the bytes of the answer, or why there are none; the exit status;
/// and the disk.
#[derive(Drop)]
pub struct Consulted<D> {
    /// The bytes of the answer, or why there are none.
    pub end: Result<Octets, BookStop>,
    /// The exit status, which differs from the end's where its bytes couldn't be put.
    pub code: u8,
    /// The book's disk.
    pub disk: D,
}

/// Asks the book on `disk` what the job asks for, and puts the answer. No server is asked, and
/// nothing is written to the disk: where no book was begun there, none is.
///
/// * `consults`: the answer is that of the settled history of the book on the disk, under the
///   masters of the key file; or there is no such book;
/// * `puts`: what is put, and the status;
/// * `causes`, `call`: the key file is said to be none only where it isn't one, and a fault of the
///   key file or of the disk comes only where its count rose;
/// * `write`: 6 comes only where the count of standard output rose;
/// * `takes`: what is taken of the key file.
pub fn consult<K: Source, O: Sink, D: Disk + Drop>(
    alloc: Global,
    job: &BookJob,
    keys: &mut K,
    out: &mut O,
    disk: D,
) -> Consulted<D>
    ensures consults { Consults D.tells job.now.mode job.now.question (K.tells.left keys.old)
        disk result.disk result.end }
    ensures puts { PutsEnd result.end (O.tells.written out.old) (O.tells.written out.new)
        result.code }
    ensures causes { StopsForKeys
        (IfSome (K.tells.left keys.old) (λ file. HasMasters file → ⊥))
        (Rose (K.tells.faults keys.old) (K.tells.faults keys.new)) result.end }
    ensures call { IsDiskCall D.tells (result.end ≡ Err DiskFailed) disk result.disk }
    ensures write { result.code ≡ 6 → Rose (O.tells.faults out.old) (O.tells.faults out.new) }
    ensures takes { TakesUpTo K.tells past_key_file keys.old keys.new }
{
    let (end, disk) = perform(alloc, job, keys, disk);
    let code = finish(alloc, &end, out);
    Consulted { end, code, disk }
}
