//! Reading answers.

ghost use Rattle.std.specs.Prelude.{◌≡◌, ◌≤◌, ◌+◌, length, IfOk, Ok};
ghost use Rattle.ov_fields.specs.Answers.{Gives, GivesField, left_of};
ghost use Rattle.ov_fields.specs.Reading.{all_of, by_kind, by_rows};
ghost use Rattle.ov_fields.specs.declared.fault.FieldFault.TheVariants.{Bad};
ghost use Rattle.ov_wire.specs.declared.answer.Answer.{Answer};
ghost use Rattle.ov_wire.specs.AnswerBytes.{answer_bytes, HasAnswerCounts};
ghost use Rattle.ov_wire.specs.AnswerReading.{answer_of, answer_rows, ask_rows, chain_rows, chunk_rows, hello_rows, list_rows, page_rows, plan_rows, update_rows};
ghost use Rattle.ov_wire.specs.AnswersTo.{IsAnswer};
ghost use Rattle.ov_base.specs.declared.limits.TheConstants.{MAX_FRAME_BYTES};
ghost use Rattle.ov_wire.specs.Places.{place_of};

use crate::answer_bodies::{
    take_accepted, take_chained, take_chunk, take_known, take_listed, take_moved, take_page_of,
    take_plan, take_refused, take_stale, take_welcome,
};
use crate::refusals::{
    ask_refusals, create_refusals, read_refusals, replace_refusals, update_refusals,
};
use crate::{Answer, Question, Request, WireFault, kinds};
use ov_base::Refusal;
use ov_base::limits::MAX_FRAME_BYTES;
use ov_fields::FieldFault;
use std::alloc::Global;

/// The fault of a kind byte that no answer to the request has, before this body.
fn no_answer(body: &[u8]) -> FieldFault
    ensures { result ≡ Bad (length body.now + 1) }
{
    FieldFault::Bad {
        left: body.len() + 1,
    }
}

/// The answer to Hello that follows this kind byte.
fn to_hello(kind: u8, body: &[u8]) -> Result<(Answer, &[u8]), FieldFault>
    ensures { GivesField (λ a. a) result (by_kind hello_rows kind body.now) }
{
    match kind {
        kinds::WELCOME => take_welcome(body),
        kinds::NO_MEMORY => Ok((Answer::NoMemory, body)),
        _ => Err(no_answer(body)),
    }
}

/// The answer to Ask that follows this kind byte.
fn to_ask<'a>(
    question: &Question,
    kind: u8,
    body: &'a [u8],
) -> Result<(Answer, &'a [u8]), FieldFault>
    ensures { GivesField (λ a. a) result (by_kind (ask_rows question.now) kind body.now) }
{
    match kind {
        kinds::KNOWN => take_known(question, body),
        kinds::REFUSED => take_refused(ask_refusals(question), body),
        kinds::NO_MEMORY => Ok((Answer::NoMemory, body)),
        _ => Err(no_answer(body)),
    }
}

/// The answer that follows this kind byte, to a request for a plan that has these refusals.
fn to_plan<'a>(
    alloc: Global,
    refusals: &[Refusal],
    kind: u8,
    body: &'a [u8],
) -> Result<(Answer, &'a [u8]), FieldFault>
    ensures { GivesField (λ a. a) result (by_kind (plan_rows refusals.now) kind body.now) }
{
    match kind {
        kinds::PLAN => take_plan(alloc, body),
        kinds::REFUSED => take_refused(refusals, body),
        kinds::NO_MEMORY => Ok((Answer::NoMemory, body)),
        _ => Err(no_answer(body)),
    }
}

/// The answer to Update that follows this kind byte.
fn to_update<'a>(
    made_at: u32,
    spelling: &[u8],
    kind: u8,
    body: &'a [u8],
) -> Result<(Answer, &'a [u8]), FieldFault>
    ensures { GivesField (λ a. a) result
        (by_kind (update_rows made_at spelling.now) kind body.now) }
{
    match kind {
        kinds::ACCEPTED => take_accepted(made_at, body),
        kinds::REFUSED => take_refused(update_refusals(spelling), body),
        kinds::STALE => take_stale(made_at, body),
        kinds::BAD_TAG => Ok((Answer::BadTag, body)),
        kinds::DEVICE_FAULT => Ok((Answer::DeviceFault, body)),
        kinds::NO_MEMORY => Ok((Answer::NoMemory, body)),
        _ => Err(no_answer(body)),
    }
}

/// The answer to Chain that follows this kind byte.
fn to_chain(alloc: Global, kind: u8, body: &[u8]) -> Result<(Answer, &[u8]), FieldFault>
    ensures { GivesField (λ a. a) result (by_kind chain_rows kind body.now) }
{
    match kind {
        kinds::CHAINED => take_chained(alloc, body),
        kinds::REFUSED => take_refused(read_refusals(), body),
        kinds::NO_MEMORY => Ok((Answer::NoMemory, body)),
        _ => Err(no_answer(body)),
    }
}

/// The answer to Chunk that follows this kind byte.
fn to_chunk(
    alloc: Global,
    asked: u32,
    count: u32,
    kind: u8,
    body: &[u8],
) -> Result<(Answer, &[u8]), FieldFault>
    ensures { GivesField (λ a. a) result (by_kind (chunk_rows asked count) kind body.now) }
{
    match kind {
        kinds::BYTES => take_chunk(alloc, count, body),
        kinds::REFUSED => take_refused(&[Refusal::NoFile], body),
        kinds::MOVED => take_moved(asked, body),
        kinds::DEVICE_FAULT => Ok((Answer::DeviceFault, body)),
        kinds::NO_MEMORY => Ok((Answer::NoMemory, body)),
        _ => Err(no_answer(body)),
    }
}

/// The answer to Page that follows this kind byte.
fn to_page(alloc: Global, part: u8, kind: u8, body: &[u8]) -> Result<(Answer, &[u8]), FieldFault>
    ensures { GivesField (λ a. a) result (by_kind (page_rows part) kind body.now) }
{
    match kind {
        kinds::PAGE_OF => take_page_of(alloc, part, body),
        kinds::NO_MEMORY => Ok((Answer::NoMemory, body)),
        _ => Err(no_answer(body)),
    }
}

/// The answer to List that follows this kind byte.
fn to_list(alloc: Global, kind: u8, body: &[u8]) -> Result<(Answer, &[u8]), FieldFault>
    ensures { GivesField (λ a. a) result (by_kind list_rows kind body.now) }
{
    match kind {
        kinds::LISTED => take_listed(alloc, body),
        kinds::REFUSED => take_refused(&[Refusal::NoFile], body),
        kinds::NO_MEMORY => Ok((Answer::NoMemory, body)),
        _ => Err(no_answer(body)),
    }
}

/// An answer to this request.
fn take_answer<'a>(
    alloc: Global,
    request: &Request,
    bytes: &'a [u8],
) -> Result<(Answer, &'a [u8]), FieldFault>
    ensures { GivesField (λ a. a) result (by_rows (answer_rows request.now) bytes.now) }
{
    match bytes {
        [] => Err(FieldFault::Bad { left: 0 }),
        [kind, body @ ..] => answer_to(alloc, request, *kind, body),
    }
}

/// The answer to this request that follows this kind byte.
fn answer_to<'a>(
    alloc: Global,
    request: &Request,
    kind: u8,
    body: &'a [u8],
) -> Result<(Answer, &'a [u8]), FieldFault>
    ensures { GivesField (λ a. a) result (by_kind (answer_rows request.now) kind body.now) }
{
    match request {
        Request::Hello => to_hello(kind, body),
        Request::Ask { question } => to_ask(question, kind, body),
        Request::Cover { .. } => to_plan(alloc, create_refusals(), kind, body),
        Request::Update {
            epoch,
            spelling,
            ..
        } => to_update(*epoch, spelling.as_slice(), kind, body),
        Request::Chain { .. } => to_chain(alloc, kind, body),
        Request::Chunk {
            generation,
            count,
            ..
        } => to_chunk(alloc, *generation, *count, kind, body),
        Request::Page { part, .. } => to_page(alloc, *part, kind, body),
        Request::List { .. } => to_list(alloc, kind, body),
        Request::Replan { .. } => to_plan(alloc, replace_refusals(), kind, body),
    }
}

/// The answer to this request that all of the bytes are.
fn read_all(alloc: Global, request: &Request, bytes: &[u8]) -> Result<Answer, FieldFault>
    ensures { Gives left_of (λ a. a) result (all_of (by_rows (answer_rows request.now) bytes.now)) }
{
    let (answer, rest) = take_answer(alloc, request, bytes)?;
    if !rest.is_empty() {
        return Err(FieldFault::Bad { left: rest.len() });
    }
    Ok(answer)
}

/// The answer to this request that a frame is. The frame is without its length field; in one that
/// is longer than a frame may be, the first byte too many is wrong.
pub fn read_answer(alloc: Global, request: &Request, frame: &[u8]) -> Result<Answer, WireFault>
    // What is read is an answer to this request, and spelled so.
    ensures found { IfOk result (λ a. IsAnswer request.now a × (frame.now ≡ answer_bytes a)) }
    // What is read can be written again.
    ensures counts { IfOk result HasAnswerCounts }
    // An answer that is spelled so is read, unless memory runs out.
    ensures only { (a : Answer) → IsAnswer request.now a → length frame.now ≤ MAX_FRAME_BYTES
        → frame.now ≡ answer_bytes a → Gives place_of (λ x. x) result (Ok a) }
    // The place that an error names.
    ensures exact { Gives place_of (λ a. a) result (answer_of request.now frame.now) }
{
    if frame.len() > MAX_FRAME_BYTES as usize {
        return Err(WireFault::Bad {
            at: MAX_FRAME_BYTES,
        });
    }
    match read_all(alloc, request, frame) {
        Ok(answer) => Ok(answer),
        Err(FieldFault::Bad { left }) => Err(WireFault::Bad {
            at: (frame.len() - left) as u32,
        }),
        Err(FieldFault::Memory) => Err(WireFault::Memory),
    }
}
