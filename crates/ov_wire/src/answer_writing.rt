//! Writing answers.

ghost use Rattle.std.specs.Prelude.{◌≡◌, ◌≤◌, ◌∷◌, ◌++◌, [], length, OnErr, OnOk, IfSome};
ghost use Rattle.std.specs.List.{flat_map};
ghost use Rattle.ov_fields.specs.Spelling.{counted, flag, u32};
ghost use Rattle.ov_wire.specs.AnswerBytes.{answer_body, answer_bytes, chained_bytes, known_bytes, plan_bytes, welcome_bytes, HasAnswerCounts};

use crate::chains::{put_chain, put_chain_or_none};
use crate::names::put_names;
use crate::{Answer, Chained, Known, Plan, Welcome, kinds};
use ov_base::Memory;
use ov_base::limits::SET_BYTES;
use ov_fields::{put_set, put_u16, put_u32};
use ov_tokens::Numbers;

/// For how many bytes there is room before an answer is written: enough for most answers without
/// their body, so that those take memory once.
const FRONT: usize = 32 + SET_BYTES;

/// The flag of a truth.
fn flag(value: bool) -> u8
    ensures { result ≡ flag value }
{
    if value { 1 } else { 0 }
}

/// Appends a kind byte and numbers of four bytes.
fn put_kind(kind: u8, numbers: &[u32], out: &mut Vec<u8>) -> Result<(), Memory>
    ensures { OnOk result (out.new.items ≡ out.old.items ++ (kind ∷ flat_map u32 numbers.now)) }
{
    out.push(kind)?;
    put_each_number(numbers, out)
}

/// Appends numbers, one after the other.
fn put_each_number(numbers: &[u32], out: &mut Vec<u8>) -> Result<(), Memory>
    ensures { OnOk result (out.new.items ≡ out.old.items ++ flat_map u32 numbers.now) }
{
    for number in numbers {
        put_u32(*number, out)?;
    }
    Ok(())
}

/// Appends numbers behind their number.
fn put_numbers(numbers: &Numbers, out: &mut Vec<u8>) -> Result<(), Memory>
    requires { length numbers.now ≤ 65535 }
    ensures { OnOk result (out.new.items ≡ out.old.items ++ counted u32 numbers.now) }
{
    let numbers = numbers.as_slice();
    put_u16(numbers.len() as u16, out)?;
    put_each_number(numbers, out)
}

/// Appends a Welcome.
fn put_welcome(welcome: &Welcome, out: &mut Vec<u8>) -> Result<(), Memory>
    ensures { OnOk result (out.new.items
        ≡ out.old.items ++ (0x81 ∷ welcome_bytes welcome.now)) }
{
    out.push(kinds::WELCOME)?;
    out.push(welcome.mode.byte())?;
    put_u32(welcome.epoch, out)?;
    out.extend_from_slice(&welcome.base_check)?;
    Ok(())
}

/// Appends a Known.
fn put_known(known: &Known, out: &mut Vec<u8>) -> Result<(), Memory>
    ensures { OnOk result (out.new.items ≡ out.old.items ++ (0x82 ∷ known_bytes known.now)) }
{
    let numbers = [
        known.epoch,
        known.user,
        known.base_root,
        known.surface_root,
        known.file,
        known.node,
    ];
    put_kind(kinds::KNOWN, &numbers, out)?;
    out.push(flag(known.wants))?;
    Ok(())
}

/// Appends a Plan.
fn put_plan(plan: &Plan, out: &mut Vec<u8>) -> Result<(), Memory>
    requires { length plan.now.from ≤ 65535 }
    ensures { OnOk result (out.new.items ≡ out.old.items ++ (0x83 ∷ plan_bytes plan.now)) }
{
    put_kind(kinds::PLAN, &[plan.epoch, plan.file], out)?;
    put_set(&plan.list, out)?;
    put_u32(plan.node, out)?;
    out.push(flag(plan.fresh))?;
    put_numbers(&plan.from, out)
}

/// Appends a Chained.
fn put_chained(chained: &Chained, out: &mut Vec<u8>) -> Result<(), Memory>
    requires base { length chained.now.base.steps ≤ 65535 }
    requires surface { IfSome chained.now.surface (λ c. length c.steps ≤ 65535) }
    ensures { OnOk result (out.new.items
        ≡ out.old.items ++ (0x85 ∷ chained_bytes chained.now)) }
{
    let numbers = [
        chained.epoch,
        chained.file,
        chained.length,
        chained.generation,
    ];
    put_kind(kinds::CHAINED, &numbers, out)?;
    out.extend_from_slice(&chained.tag)?;
    put_chain(&chained.base, out)?;
    put_chain_or_none(&chained.surface, out)
}

/// The bytes with which the answer ends, as they are.
fn body(answer: &Answer) -> &[u8]
    ensures { result.now ≡ answer_body answer.now }
{
    match answer {
        Answer::Bytes { bytes } => bytes.as_slice(),
        Answer::PageOf { entry: Some(entry) } => entry.as_slice(),
        _ => &[],
    }
}

/// Appends the spelling without those bytes.
fn put_front(answer: &Answer, out: &mut Vec<u8>) -> Result<(), Memory>
    requires { HasAnswerCounts answer.now }
    ensures { OnOk result (out.new.items ++ answer_body answer.now
        ≡ out.old.items ++ answer_bytes answer.now) }
{
    match answer {
        Answer::Welcome(welcome) => put_welcome(welcome, out)?,
        Answer::Known(known) => put_known(known, out)?,
        Answer::Plan(plan) => put_plan(plan, out)?,
        Answer::Accepted { epoch } => put_kind(kinds::ACCEPTED, &[*epoch], out)?,
        Answer::Chained(chained) => put_chained(chained, out)?,
        Answer::Bytes { .. } => out.push(kinds::BYTES)?,
        Answer::PageOf { entry } => {
            out.push(kinds::PAGE_OF)?;
            out.push(flag(entry.is_some()))?;
        }
        Answer::Refused { refusal } => {
            out.push(kinds::REFUSED)?;
            out.push(refusal.number())?;
        }
        Answer::Stale { epoch } => put_kind(kinds::STALE, &[*epoch], out)?,
        Answer::BadTag => out.push(kinds::BAD_TAG)?,
        Answer::BadRequest { at } => put_kind(kinds::BAD_REQUEST, &[*at], out)?,
        Answer::Moved { generation } => put_kind(kinds::MOVED, &[*generation], out)?,
        Answer::DeviceFault => out.push(kinds::DEVICE_FAULT)?,
        Answer::NoMemory => out.push(kinds::NO_MEMORY)?,
        Answer::Listed { names } => {
            out.push(kinds::LISTED)?;
            put_names(names, out)?;
        }
    }
    Ok(())
}

/// Appends the spelling. Where memory was refused, a part of it may have been appended.
fn put_answer(answer: &Answer, out: &mut Vec<u8>) -> Result<(), Memory>
    requires { HasAnswerCounts answer.now }
    ensures { OnOk result (out.new.items ≡ out.old.items ++ answer_bytes answer.now) }
{
    out.reserve(FRONT)?;
    put_front(answer, out)?;
    out.extend_from_slice(body(answer))?;
    Ok(())
}

/// Puts the answer's one spelling, without its length field, in place of what was in `out`; where
/// memory was refused, `out` is empty then.
pub fn write_answer(answer: &Answer, out: &mut Vec<u8>) -> Result<(), Memory>
    requires { HasAnswerCounts answer.now }
    ensures ok { OnOk result (out.new.items ≡ answer_bytes answer.now) }
    ensures err { OnErr result (out.new.items ≡ []) }
{
    out.clear();
    match put_answer(answer, out) {
        Ok(()) => Ok(()),
        Err(Memory) => {
            out.clear();
            Err(Memory)
        }
    }
}
