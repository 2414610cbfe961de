//! The answer of an open book.
ghost use Rattle.std.specs.Prelude.{◌≡◌, IfOk, Ok};
ghost use Rattle.ov_book.specs.Opened.{Holds};
ghost use Rattle.ov_books.specs.Books.{Booked};
ghost use Rattle.ov_consulting.specs.Answers.{answer_by};
ghost use Rattle.ov_consulting.specs.Saying.{Says, given};

use crate::job::Question;
use crate::pending::tell_pending;
use crate::stop::BookStop;
use crate::telling::{line_of, tell_files, tell_files_of, tell_key, tell_list, tell_users};
use ov_base::{Memory, Octets};
use ov_book::Book;
use ov_disk::Disk;
use ov_script::Reply;
use std::alloc::Global;

/// Bytes that were made, or that memory was refused for them.
fn given(bytes: Result<Octets, Memory>) -> Result<Octets, BookStop>
    ensures { result ≡ given bytes }
{
    match bytes {
        Ok(bytes) => Ok(bytes),
        Err(Memory) => Err(BookStop::Memory),
    }
}

/// What the book says to the question. Its disk isn't read.
pub fn answer<D: Disk>(
    alloc: Global,
    question: &Question,
    book: &Book<D>,
) -> Result<Octets, BookStop>
    ensures { (b : Booked) → Holds D.tells b book.now
        → Says (answer_by book.now.masters b question.now) result }
{
    book.known();
    let state = book.settled();
    match question {
        Question::Key { user } => tell_key(alloc, book, user),
        Question::List { file } => tell_list(alloc, state, file),
        Question::Users => given(tell_users(alloc, state)),
        Question::Files => given(tell_files(alloc, state)),
        Question::FilesOf { user } => tell_files_of(alloc, state, user),
        Question::Epoch => given(line_of(alloc, &Reply::Epoch(state.epoch()))),
        Question::Pending => given(tell_pending(alloc, state, book.brief())),
    }
}
