//! What a line may go on with, where its LF didn't come yet.
ghost use Rattle.std.specs.Prelude.{◌≡◌, ◌==◌, ◌+◌, List, length, nat_lt, ◌&&◌};
ghost use Rattle.ov_base.specs.Names.{is_letter_or_digit};
ghost use Rattle.ov_script.specs.LineFronts.{spelling, behind, after_name, after_comma, chosen, chosen_by, first_bytes, next_bytes, step, run, is_digit, is_named, word_by, is_spelled, name_by, end_by, readers_by, size_step, size_read};
ghost use Rattle.ov_script.specs.LineEnds.{fewest_after, fewest_behind, fewest_more, may_go_on};

use ov_base::limits::MAX_FILE_BYTES;
use ov_base::{is_letter_or_digit, is_name_byte};

/// The word that begins a line.
#[derive(Clone, Copy)]
pub enum Word {
    Enrol,
    Create,
    Grant,
    Revoke,
    Remove,
    Replace,
    Read,
    List,
    Epoch,
}

/// What several words begin with.
#[derive(Clone, Copy)]
pub enum Stem {
    /// The `e` of `enrol` and `epoch`.
    E,
    /// The `r` of `read`, `remove`, `replace` and `revoke`.
    R,
    /// The `re` of `read`, `remove`, `replace` and `revoke`.
    Re,
}

/// What follows a name.
#[derive(Clone, Copy)]
pub enum Then {
    /// The end of the line.
    End,
    /// A space and the last name.
    LastName,
    /// A space, the list of readers, a space and the size.
    Readers,
    /// A space and the size.
    Size,
    /// A comma and the next reader, or a space and the size.
    NextReader,
}

/// How far the front of a line is read.
#[derive(Clone, Copy)]
pub enum Front {
    /// Nothing came yet.
    Start,
    /// What several words begin with came.
    InStem(Stem),
    /// This many bytes of the first word came.
    InWord { word: Word, count: usize },
    /// This many bytes of a name came.
    InName { next: Then, count: usize },
    /// A list of readers comes next, and none of it came yet.
    AtReaders,
    /// The `-` of a list without names came.
    Nobody,
    /// The digits that came are this number, or none came yet.
    InSize(Option<u32>),
    /// The whole line came.
    Done,
    /// No line goes on so.
    Never,
}

/// The word, and a space where more follows it.
pub fn spelling(word: Word) -> &'static [u8]
    ensures { result.now ≡ spelling word }
{
    match word {
        Word::Enrol => b"enrol ",
        Word::Create => b"create ",
        Word::Grant => b"grant ",
        Word::Revoke => b"revoke ",
        Word::Remove => b"remove ",
        Word::Replace => b"replace ",
        Word::Read => b"read ",
        Word::List => b"list ",
        Word::Epoch => b"epoch",
    }
}

// What is read behind the word.
fn behind(word: Word) -> Front
    ensures { result ≡ behind word }
{
    let next = match word {
        Word::Enrol | Word::Remove | Word::List => Then::End,
        Word::Create => Then::Readers,
        Word::Replace => Then::Size,
        Word::Grant | Word::Revoke | Word::Read => Then::LastName,
        Word::Epoch => return Front::Done,
    };
    Front::InName { next, count: 0 }
}

// What is read behind the first byte.
fn begin(byte: u8) -> Front
    ensures { result ≡ chosen byte first_bytes }
{
    let word = match byte {
        b'c' => Word::Create,
        b'e' => return Front::InStem(Stem::E),
        b'g' => Word::Grant,
        b'l' => Word::List,
        b'r' => return Front::InStem(Stem::R),
        _ => return Front::Never,
    };
    Front::InWord { word, count: 1 }
}

// What is read behind one more byte, where several words begin as the line does.
fn in_stem(stem: Stem, byte: u8) -> Front
    ensures { result ≡ chosen byte (next_bytes stem) }
{
    let (word, count) = match (stem, byte) {
        (Stem::E, b'n') => (Word::Enrol, 2),
        (Stem::E, b'p') => (Word::Epoch, 2),
        (Stem::R, b'e') => return Front::InStem(Stem::Re),
        (Stem::Re, b'a') => (Word::Read, 3),
        (Stem::Re, b'm') => (Word::Remove, 3),
        (Stem::Re, b'p') => (Word::Replace, 3),
        (Stem::Re, b'v') => (Word::Revoke, 3),
        _ => return Front::Never,
    };
    Front::InWord { word, count }
}

// What is read behind one more byte of the first word.
fn in_word(word: Word, count: usize, byte: u8) -> Front
    ensures { result ≡ word_by (is_spelled word count byte)
        (count + 1 == length (spelling word)) word count }
{
    let spelling = spelling(word);
    if count >= spelling.len() || spelling[count] != byte {
        Front::Never
    } else if count + 1 == spelling.len() {
        behind(word)
    } else {
        Front::InWord {
            word,
            count: count + 1,
        }
    }
}

// What is read behind a name and a space.
fn after_name(next: Then) -> Front
    ensures { result ≡ after_name next }
{
    match next {
        Then::End => Front::Never,
        Then::LastName => Front::InName {
            next: Then::End,
            count: 0,
        },
        Then::Readers => Front::AtReaders,
        Then::Size | Then::NextReader => Front::InSize(None),
    }
}

// What is read behind a name and a comma.
fn after_comma(next: Then) -> Front
    ensures { result ≡ after_comma next }
{
    match next {
        Then::NextReader => Front::InName { next, count: 0 },
        _ => Front::Never,
    }
}

// What is read behind a whole name and one more byte.
fn end_of_name(next: Then, byte: u8) -> Front
    ensures { result ≡ end_by (byte == 32) (byte == 44) next }
{
    match byte {
        b' ' => after_name(next),
        b',' => after_comma(next),
        _ => Front::Never,
    }
}

// Whether a name of which this many bytes came goes on with this byte.
fn is_named(count: usize, byte: u8) -> bool
    ensures { result ≡ is_named count byte }
{
    if count == 0 {
        is_letter_or_digit(byte)
    } else {
        count < 64 && is_name_byte(byte)
    }
}

// What is read behind one more byte of a name, or behind it.
fn in_name(next: Then, count: usize, byte: u8) -> Front
    ensures { result ≡ name_by (is_named count byte) (nat_lt 0 count) next count byte }
{
    if is_named(count, byte) {
        Front::InName {
            next,
            count: count + 1,
        }
    } else if count > 0 {
        end_of_name(next, byte)
    } else {
        Front::Never
    }
}

// What is read behind the first byte of a list of readers.
fn at_readers(byte: u8) -> Front
    ensures { result ≡ readers_by (is_letter_or_digit byte) (byte == 45) }
{
    if is_letter_or_digit(byte) {
        Front::InName {
            next: Then::NextReader,
            count: 1,
        }
    } else if byte == b'-' {
        Front::Nobody
    } else {
        Front::Never
    }
}

// What is read behind one more digit.
fn in_size(size: Option<u32>, byte: u8) -> Front
    ensures { result ≡ size_step size byte }
{
    if !byte.is_ascii_digit() {
        return Front::Never;
    }
    let digit = byte - b'0';
    match size {
        None => Front::InSize(Some(u32::from(digit))),
        Some(size) => {
            let next = u64::from(size) * 10 + u64::from(digit);
            if size > 0 && next <= u64::from(MAX_FILE_BYTES) {
                Front::InSize(Some(next as u32))
            } else {
                Front::Never
            }
        }
    }
}

// What is read behind one more byte.
fn step(front: Front, byte: u8) -> Front
    ensures { result ≡ step front byte }
{
    match front {
        Front::Start => begin(byte),
        Front::InStem(stem) => in_stem(stem, byte),
        Front::InWord { word, count } => in_word(word, count, byte),
        Front::InName { next, count } => in_name(next, count, byte),
        Front::AtReaders => at_readers(byte),
        Front::Nobody if byte == b' ' => Front::InSize(None),
        Front::InSize(size) => in_size(size, byte),
        Front::Nobody | Front::Done | Front::Never => Front::Never,
    }
}

impl Front {
    /// What is read behind these bytes.
    pub fn run(self, bytes: &[u8]) -> Front
        ensures { result ≡ run self bytes.now }
    {
        let mut front = self;
        for byte in bytes {
            front = step(front, *byte);
        }
        front
    }

    /// The size that was read.
    pub fn size(self) -> Option<u32>
        ensures { result ≡ size_read self }
    {
        match self {
            Front::InSize(size) => size,
            _ => None,
        }
    }
}
