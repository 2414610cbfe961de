//! Writing requests.

ghost use Rattle.std.specs.Prelude.{◌≡◌, ◌≤◌, ◌∷◌, ◌++◌, length, IfOk, OnErr, OnOk};
ghost use Rattle.ov_fields.specs.Spelling.{counted, name_field, u32};
ghost use Rattle.ov_wire.specs.declared.request.Request.TheVariants.{Update};
ghost use Rattle.ov_wire.specs.Requests.{question_bytes, request_bytes, request_body, HasRequestForm, HasRequestLimits};

use crate::form::known_request_form;
use crate::names::put_names;
use crate::{Question, Request, kinds};
use ov_base::{Memory, Name, Names, Octets};
use ov_fields::{append, known_tag, put_name, put_two, put_u32};

/// Appends a byte and a name.
fn put_byte_and_name(byte: u8, name: &Name, out: &mut Vec<u8>) -> Result<(), Memory>
    ensures { OnOk result (out.new.items ≡ out.old.items ++ (byte ∷ name_field name.now)) }
{
    out.push(byte)?;
    put_name(name, out)
}

/// Appends a byte, and the names of a user and of a file.
fn put_two_names(byte: u8, user: &Name, file: &Name, out: &mut Vec<u8>) -> Result<(), Memory>
    ensures { OnOk result (out.new.items
        ≡ out.old.items ++ (byte ∷ name_field user.now ++ name_field file.now)) }
{
    put_byte_and_name(byte, user, out)?;
    put_name(file, out)
}

/// Appends a verb, and the names that the command has.
fn put_question(question: &Question, out: &mut Vec<u8>) -> Result<(), Memory>
    ensures { OnOk result (out.new.items ≡ out.old.items ++ question_bytes question.now) }
{
    match question {
        Question::Enrol { user } => put_byte_and_name(1, user, out)?,
        Question::Grant { user, file } => put_two_names(3, user, file, out)?,
        Question::Revoke { user, file } => put_two_names(4, user, file, out)?,
        Question::Key { user } => put_byte_and_name(5, user, out)?,
        Question::Remove { file } => put_byte_and_name(6, file, out)?,
    }
    Ok(())
}

/// Appends a Cover.
fn put_cover(file: &Name, len: u32, names: &Names, out: &mut Vec<u8>) -> Result<(), Memory>
    requires { length names.now ≤ 65535 }
    ensures { OnOk result (out.new.items ≡ out.old.items
        ++ (3 ∷ name_field file.now ++ u32 len ++ counted name_field names.now)) }
{
    put_byte_and_name(kinds::COVER, file, out)?;
    put_u32(len, out)?;
    put_names(names, out)
}

/// Appends a Replan.
fn put_replan(file: &Name, len: u32, out: &mut Vec<u8>) -> Result<(), Memory>
    ensures { OnOk result (out.new.items
        ≡ out.old.items ++ (9 ∷ name_field file.now ++ u32 len)) }
{
    put_byte_and_name(kinds::REPLAN, file, out)?;
    put_u32(len, out)
}

/// Appends a Chunk.
fn put_chunk(
    file: u32,
    generation: u32,
    start: u32,
    count: u32,
    out: &mut Vec<u8>,
) -> Result<(), Memory>
    ensures { OnOk result (out.new.items ≡ out.old.items
        ++ (6 ∷ u32 file ++ u32 generation ++ u32 start ++ u32 count)) }
{
    out.push(kinds::CHUNK)?;
    put_two(file, generation, out)?;
    put_two(start, count, out)
}

/// The update's spelling, and the owner's tag.
fn body(request: &Request) -> (&[u8], &[u8])
    ensures { (result.0.now ++ result.1.now) ≡ request_body request.now }
{
    match request {
        Request::Update { spelling, tag, .. } => (spelling.as_slice(), tag),
        _ => (&[], &[]),
    }
}

/// Appends the spelling without an update's spelling and tag.
fn put_front(request: &Request, out: &mut Vec<u8>) -> Result<(), Memory>
    requires { HasRequestLimits request.now }
    ensures { OnOk result (out.new.items ++ request_body request.now
        ≡ out.old.items ++ request_bytes request.now) }
{
    match request {
        Request::Hello => out.push(kinds::HELLO)?,
        Request::Ask { question } => {
            out.push(kinds::ASK)?;
            put_question(question, out)?;
        }
        Request::Cover {
            file,
            length,
            names,
        } => put_cover(file, *length, names, out)?,
        Request::Update { epoch, .. } => {
            out.push(kinds::UPDATE)?;
            put_u32(*epoch, out)?;
        }
        Request::Chain { user, file } => put_two_names(kinds::CHAIN, user, file, out)?,
        Request::Chunk {
            file,
            generation,
            start,
            count,
        } => put_chunk(*file, *generation, *start, *count, out)?,
        Request::Page { part, number } => {
            out.extend_from_slice(&[kinds::PAGE, *part])?;
            put_u32(*number, out)?;
        }
        Request::List { file } => put_byte_and_name(kinds::LIST, file, out)?,
        Request::Replan { file, length } => put_replan(file, *length, out)?,
    }
    Ok(())
}

/// Appends the request's one spelling, without its length field.
pub fn write_request(request: &Request, out: &mut Vec<u8>) -> Result<(), Memory>
    requires { HasRequestLimits request.now }
    ensures ok { OnOk result (out.new.items ≡ out.old.items ++ request_bytes request.now) }
    ensures err { OnErr result (out.new.items ≡ out.old.items) }
    // What is written can be read again.
    ensures form { HasRequestForm request.now }
{
    known_request_form(request);
    let mut front = Vec::new(*out.allocator());
    put_front(request, &mut front)?;
    let (body, end) = body(request);
    append(&front, body, end, out)
}

/// Puts the kind byte and the epoch of an Update in front, and the owner's tag behind.
fn put_around(epoch: u32, tag: &[u8; 32], frame: &mut Vec<u8>) -> Result<(), Memory>
    ensures { OnOk result (frame.new.items ≡ 4 ∷ u32 epoch ++ frame.old.items ++ tag.now) }
{
    frame.reserve_exact(37)?;
    frame.extend_from_slice(tag)?;
    frame.push(kinds::UPDATE)?;
    frame.extend_from_slice(&epoch.to_be_bytes())?;
    frame.rotate_right(5);
    Ok(())
}

/// The frame of an Update, as [`write_request`] appends it. It is made around the update's spelling,
/// in the allocation of that where it has the room.
pub fn update_frame(epoch: u32, spelling: Octets, tag: &[u8; 32]) -> Result<Vec<u8>, Memory>
    requires { HasRequestLimits (Update epoch spelling tag.now) }
    ensures ok { IfOk result (λ frame. frame.items
        ≡ request_bytes (Update epoch spelling tag.now)) }
    // What is written can be read again.
    ensures form { HasRequestForm (Update epoch spelling tag.now) }
{
    known_tag(tag);
    let mut frame = spelling.into_vec();
    put_around(epoch, tag, &mut frame)?;
    Ok(frame)
}
