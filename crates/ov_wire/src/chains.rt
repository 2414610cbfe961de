//! Chains in frames.

ghost use Rattle.std.specs.Prelude.{◌≡◌, ◌≤◌, ◌++◌, length, OnOk, IfSome};
ghost use Rattle.std.specs.List.{flat_map};
ghost use Rattle.ov_tokens.specs.Labels.{label_bytes, tag_of};
ghost use Rattle.ov_fields.specs.Answers.{GivesField};
ghost use Rattle.ov_fields.specs.Reading.{many_at, one_of_at, optional_at};
ghost use Rattle.ov_fields.specs.Spelling.{counted, optional};
ghost use Rattle.ov_wire.specs.Chains.{chain_at, chain_field, kinds_of, surface_kinds, step_at, step_field, steps_at};

use ov_base::Memory;
use ov_base::limits::MAX_LAYER_NODES;
use ov_fields::{
    FieldFault, put_token, put_u16, put_u32, take_flag, take_token, take_u16, take_u32_below,
};
use ov_tokens::{Chain, Kind, Label, Step, Steps};
use std::alloc::Global;

/// The layer that a chain lies in.
#[derive(Clone, Copy, Debug, PartialEq, Eq)]
pub enum Side {
    Base,
    Surface,
}

/// The kind of a label in a chain of this many steps.
#[tactic(auto, unfolding(ov_fields::specs::Reading::one_of_at))]
fn take_kind(side: Side, count: u16, bytes: &[u8]) -> Result<(Kind, &[u8]), FieldFault>
    ensures { GivesField (λ k. k) result (one_of_at tag_of (kinds_of side count) bytes.now) }
{
    match (side, bytes) {
        (Side::Base, [b'B', rest @ ..]) => Ok((Kind::Derive, rest)),
        (Side::Base, [b'A', rest @ ..]) if count == 1 => Ok((Kind::Access, rest)),
        (Side::Surface, [b'S', rest @ ..]) => Ok((Kind::Surface, rest)),
        _ => Err(FieldFault::Bad { left: bytes.len() }),
    }
}

/// A step of a chain of this many steps.
fn take_step(side: Side, count: u16, bytes: &[u8]) -> Result<(Step, &[u8]), FieldFault>
    ensures { GivesField (λ s. s) result (step_at (kinds_of side count) bytes.now) }
{
    let (kind, rest) = take_kind(side, count, bytes)?;
    let (number, rest) = take_u32_below(MAX_LAYER_NODES, rest)?;
    let (token, rest) = take_token(rest)?;
    let to = Label { kind, number };
    Ok((Step { to, token }, rest))
}

/// Takes `count` steps, one after the other.
fn take_each_step(
    alloc: Global,
    side: Side,
    count: u16,
    bytes: &[u8],
) -> Result<(Steps, &[u8]), FieldFault>
    ensures { GivesField (λ s. s) result (many_at (step_at (kinds_of side count)) count bytes.now) }
{
    let mut steps = Steps::new(alloc);
    let mut rest = bytes;
    for _ in 0..count {
        let (step, after) = take_step(side, count, rest)?;
        steps.push(step)?;
        rest = after;
    }
    Ok((steps, rest))
}

/// Steps behind their number.
#[tactic(auto, unfolding(crate::specs::Chains::steps_at))]
fn take_steps(alloc: Global, side: Side, bytes: &[u8]) -> Result<(Steps, &[u8]), FieldFault>
    ensures { GivesField (λ s. s) result (steps_at (kinds_of side) bytes.now) }
{
    let (count, rest) = take_u16(bytes)?;
    let (steps, rest) = take_each_step(alloc, side, count, rest)?;
    Ok((steps, rest))
}

/// A chain of this layer.
pub fn take_chain(alloc: Global, side: Side, bytes: &[u8]) -> Result<(Chain, &[u8]), FieldFault>
    ensures { GivesField (λ c. c) result (chain_at (kinds_of side) bytes.now) }
{
    let (root, rest) = take_u32_below(MAX_LAYER_NODES, bytes)?;
    let (steps, rest) = take_steps(alloc, side, rest)?;
    Ok((Chain { root, steps }, rest))
}

/// A flag, and a chain of the surface layer where it is 1.
#[tactic(auto, unfolding(ov_fields::specs::Reading::optional_at))]
pub fn take_chain_or_none(alloc: Global, bytes: &[u8]) -> Result<(Option<Chain>, &[u8]), FieldFault>
    ensures { GivesField (λ c. c) result (optional_at (chain_at surface_kinds) bytes.now) }
{
    let (there, rest) = take_flag(bytes)?;
    if there {
        let (chain, rest) = take_chain(alloc, Side::Surface, rest)?;
        Ok((Some(chain), rest))
    } else {
        Ok((None, rest))
    }
}

/// Appends a step.
fn put_step(step: &Step, out: &mut Vec<u8>) -> Result<(), Memory>
    ensures { OnOk result (out.new.items ≡ out.old.items ++ step_field step.now) }
{
    out.extend_from_slice(&step.to.bytes())?;
    put_token(&step.token, out)
}

/// Appends steps, one after the other.
fn put_each_step(steps: &[Step], out: &mut Vec<u8>) -> Result<(), Memory>
    ensures { OnOk result (out.new.items ≡ out.old.items ++ flat_map step_field steps.now) }
{
    for step in steps {
        put_step(step, out)?;
    }
    Ok(())
}

/// Appends a chain.
pub fn put_chain(chain: &Chain, out: &mut Vec<u8>) -> Result<(), Memory>
    requires { length chain.now.steps ≤ 65535 }
    ensures { OnOk result (out.new.items ≡ out.old.items ++ chain_field chain.now) }
{
    let steps = chain.steps.as_slice();
    put_u32(chain.root, out)?;
    put_u16(steps.len() as u16, out)?;
    put_each_step(steps, out)
}

/// Appends a flag, and the chain where there is one.
pub fn put_chain_or_none(chain: &Option<Chain>, out: &mut Vec<u8>) -> Result<(), Memory>
    requires { IfSome chain.now (λ c. length c.steps ≤ 65535) }
    ensures { OnOk result (out.new.items ≡ out.old.items ++ optional chain_field chain.now) }
{
    match chain {
        None => out.push(0)?,
        Some(chain) => {
            out.push(1)?;
            put_chain(chain, out)?;
        }
    }
    Ok(())
}
