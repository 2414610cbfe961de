//! Reading requests.

ghost use Rattle.std.specs.Prelude.{◌≡◌, ◌≤◌, length, IfOk, Ok};
ghost use Rattle.ov_fields.specs.Answers.{Gives, GivesField, left_of};
ghost use Rattle.ov_fields.specs.Reading.{all_of, by_rows, making, name_at};
ghost use Rattle.ov_wire.specs.declared.request.Request.{Request};
ghost use Rattle.ov_wire.specs.declared.request.Request.TheVariants as requests;
ghost use Rattle.ov_wire.specs.Places.{place_of};
ghost use Rattle.ov_wire.specs.RequestReading.{chain, chain_at, chunk, chunk_at, cover, cover_at, page, page_at, question_at, replan, replan_at, request_of, request_rows, update, update_at};
ghost use Rattle.ov_wire.specs.Requests.{request_bytes, HasRequestForm, HasRequestLimits};

use crate::names::take_names;
use crate::update::take_spelling;
use crate::{Question, Request, WireFault, kinds};
use ov_base::limits::{MAX_CHUNK_BYTES, MAX_FILE_BYTES, MAX_FRAME_BYTES};
use ov_base::{Name, Octets};
use ov_fields::{
    FieldFault, take_name, take_tag, take_u8, take_u32, take_u32_at_most, take_u32_between,
};
use std::alloc::Global;

/// The names of a user and of a file.
fn take_two_names(bytes: &[u8]) -> Result<((Name, Name), &[u8]), FieldFault>
    ensures { GivesField (λ n. n) result (chain_at bytes.now) }
{
    let (user, rest) = take_name(bytes)?;
    let (file, rest) = take_name(rest)?;
    Ok(((user, file), rest))
}

/// A verb (enrol is 1, grant 3, revoke 4, key 5, remove 6) with the names that its command takes.
#[tactic(auto, unfolding(crate::specs::RequestReading::question_at))]
fn take_question(bytes: &[u8]) -> Result<(Question, &[u8]), FieldFault>
    ensures { GivesField (λ q. q) result (question_at bytes.now) }
{
    match bytes {
        [1, rest @ ..] => {
            let (user, rest) = take_name(rest)?;
            Ok((Question::Enrol { user }, rest))
        }
        [3, rest @ ..] => {
            let ((user, file), rest) = take_two_names(rest)?;
            Ok((Question::Grant { user, file }, rest))
        }
        [4, rest @ ..] => {
            let ((user, file), rest) = take_two_names(rest)?;
            Ok((Question::Revoke { user, file }, rest))
        }
        [5, rest @ ..] => {
            let (user, rest) = take_name(rest)?;
            Ok((Question::Key { user }, rest))
        }
        [6, rest @ ..] => {
            let (file, rest) = take_name(rest)?;
            Ok((Question::Remove { file }, rest))
        }
        _ => Err(FieldFault::Bad { left: bytes.len() }),
    }
}

/// What follows the kind byte of an Ask.
fn take_ask(bytes: &[u8]) -> Result<(Request, &[u8]), FieldFault>
    ensures { GivesField (λ r. r) result (making requests.Ask question_at bytes.now) }
{
    let (question, rest) = take_question(bytes)?;
    Ok((Request::Ask { question }, rest))
}

/// What follows the kind byte of a Cover.
fn take_cover(alloc: Global, bytes: &[u8]) -> Result<(Request, &[u8]), FieldFault>
    ensures { GivesField (λ r. r) result (making cover cover_at bytes.now) }
{
    let (file, rest) = take_name(bytes)?;
    let (length, rest) = take_u32_at_most(MAX_FILE_BYTES, rest)?;
    let (names, rest) = take_names(alloc, u16::MAX, rest)?;
    let request = Request::Cover {
        file,
        length,
        names,
    };
    Ok((request, rest))
}

/// What follows the kind byte of an Update.
fn take_update(alloc: Global, bytes: &[u8]) -> Result<(Request, &[u8]), FieldFault>
    ensures { GivesField (λ r. r) result (making update update_at bytes.now) }
{
    let (epoch, rest) = take_u32(bytes)?;
    let (spelling, rest) = take_spelling(rest)?;
    let (tag, rest) = take_tag(rest)?;
    let request = Request::Update {
        epoch,
        spelling: Octets::copy(alloc, spelling)?,
        tag,
    };
    Ok((request, rest))
}

/// What follows the kind byte of a Chain.
fn take_chain(bytes: &[u8]) -> Result<(Request, &[u8]), FieldFault>
    ensures { GivesField (λ r. r) result (making chain chain_at bytes.now) }
{
    let (user, rest) = take_name(bytes)?;
    let (file, rest) = take_name(rest)?;
    Ok((Request::Chain { user, file }, rest))
}

/// What follows the kind byte of a Chunk.
fn take_chunk(bytes: &[u8]) -> Result<(Request, &[u8]), FieldFault>
    ensures { GivesField (λ r. r) result (making chunk chunk_at bytes.now) }
{
    let (file, rest) = take_u32(bytes)?;
    let (generation, rest) = take_u32(rest)?;
    let (start, rest) = take_u32(rest)?;
    let (count, rest) = take_u32_between(1, MAX_CHUNK_BYTES as u64, rest)?;
    let request = Request::Chunk {
        file,
        generation,
        start,
        count,
    };
    Ok((request, rest))
}

/// What follows the kind byte of a Page.
fn take_page(bytes: &[u8]) -> Result<(Request, &[u8]), FieldFault>
    ensures { GivesField (λ r. r) result (making page page_at bytes.now) }
{
    let (part, rest) = take_u8(bytes)?;
    let (number, rest) = take_u32(rest)?;
    Ok((Request::Page { part, number }, rest))
}

/// What follows the kind byte of a List.
fn take_list(bytes: &[u8]) -> Result<(Request, &[u8]), FieldFault>
    ensures { GivesField (λ r. r) result (making requests.List name_at bytes.now) }
{
    let (file, rest) = take_name(bytes)?;
    Ok((Request::List { file }, rest))
}

/// What follows the kind byte of a Replan.
fn take_replan(bytes: &[u8]) -> Result<(Request, &[u8]), FieldFault>
    ensures { GivesField (λ r. r) result (making replan replan_at bytes.now) }
{
    let (file, rest) = take_name(bytes)?;
    let (length, rest) = take_u32_at_most(MAX_FILE_BYTES, rest)?;
    Ok((Request::Replan { file, length }, rest))
}

/// A request.
fn take_request(alloc: Global, bytes: &[u8]) -> Result<(Request, &[u8]), FieldFault>
    ensures { GivesField (λ r. r) result (by_rows request_rows bytes.now) }
{
    match bytes {
        [] => Err(FieldFault::Bad { left: 0 }),
        [kind, body @ ..] => match *kind {
            kinds::HELLO => Ok((Request::Hello, body)),
            kinds::ASK => take_ask(body),
            kinds::COVER => take_cover(alloc, body),
            kinds::UPDATE => take_update(alloc, body),
            kinds::CHAIN => take_chain(body),
            kinds::CHUNK => take_chunk(body),
            kinds::PAGE => take_page(body),
            kinds::LIST => take_list(body),
            kinds::REPLAN => take_replan(body),
            _ => Err(FieldFault::Bad { left: bytes.len() }),
        },
    }
}

/// The request that all of the bytes are.
fn read_all(alloc: Global, bytes: &[u8]) -> Result<Request, FieldFault>
    ensures { Gives left_of (λ r. r) result (all_of (by_rows request_rows bytes.now)) }
{
    let (request, rest) = take_request(alloc, bytes)?;
    if !rest.is_empty() {
        return Err(FieldFault::Bad { left: rest.len() });
    }
    Ok(request)
}

/// The request that a frame is. The frame is without its length field; in one that is longer than a
/// frame may be, the first byte too many is wrong.
pub fn read_request(alloc: Global, frame: &[u8]) -> Result<Request, WireFault>
    // What is read is spelled so.
    ensures found { IfOk result (λ r. HasRequestForm r × (frame.now ≡ request_bytes r)) }
    // What is read can be written again.
    ensures limits { IfOk result HasRequestLimits }
    // What is spelled so is read, unless memory runs out.
    ensures only { (r : Request) → HasRequestForm r → frame.now ≡ request_bytes r
        → Gives place_of (λ x. x) result (Ok r) }
    // The place that an error names.
    ensures exact { Gives place_of (λ r. r) result (request_of frame.now) }
{
    if frame.len() > MAX_FRAME_BYTES as usize {
        return Err(WireFault::Bad {
            at: MAX_FRAME_BYTES,
        });
    }
    match read_all(alloc, frame) {
        Ok(request) => Ok(request),
        Err(FieldFault::Bad { left }) => Err(WireFault::Bad {
            at: (frame.len() - left) as u32,
        }),
        Err(FieldFault::Memory) => Err(WireFault::Memory),
    }
}
