//! Fields of records and of frames: numbers, names, tokens, tags, sets, and lists of them.
//!
//! `specs/Spelling` says how each is spelled in bytes, and `specs/Reading` how it is read from the
//! left: a reader gives a value and the bytes after it, or how many bytes are left at the first
//! wrong one, so that it needn't know where it began. A number is wrong at its first byte, and
//! bytes that end inside a field are wrong at their end. Each `take_..` of this crate gives what
//! its reader reads, by `Gives` of `specs/Answers`; each `put_..` appends a spelling, to a list of
//! its caller's own; [`append`] then adds three lists to another, or nothing. Each `known_..` does
//! nothing, and says what is known of a name, a tag or a token by its type.
//!
//! `proofs/ReadingLaws` has what each reader keeps (`Reads`): it reads exactly the spellings of its
//! values, and a wrong byte is near. Laws put readers together: one after another, behind a number,
//! behind a flag, by kind bytes. From it follows for whole lists of bytes that what is read is
//! spelled so, what is spelled so is read, and no spelling is the front of another's
//! (`proofs/WholeLaws`). `proofs/PlaceLaws` has what each reader says of a wrong place
//! (`HasPlaces`), in the words of `specs/Fronts`: the bytes before it are the front of a spelling,
//! and no spelling goes on with the field there. `proofs/TestLaws` has what the tests of numbers
//! say.
#![tactic(auto)]

mod fault;
mod known;
mod name;
mod reading;
mod set;
mod writing;

pub use fault::FieldFault;
pub use known::{known_name, known_names, known_tag, known_token, known_tokens};
pub use name::take_name;
pub use reading::{
    take_byte, take_bytes, take_bytes_or_none, take_flag, take_sized, take_tag, take_token,
    take_token_or_none, take_u8, take_u16, take_u16_at_most, take_u32, take_u32_at_most,
    take_u32_below, take_u32_between,
};
pub use set::{put_set, take_set};
pub use writing::{append, put_name, put_token, put_token_or_none, put_two, put_u16, put_u32};
