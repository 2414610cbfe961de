//! A value that is shared by two passes.
ghost use Rattle.std.specs.Prelude.{◌≡◌};
ghost use Rattle.ov_turn.specs.Passes.{IsPassOf};

use ov_peer::Answerer;
use ov_turn::{Pass, Shared};
use std::alloc::Global;
use std::sync::Wait;
use std::test::Fail;

/// A shared value, and both its passes.
pub struct Pair<V: Answerer> {
    pub shared: Shared<V>,
    pub first: Pass<V>,
    pub second: Pass<V>,
    ghost own: { IsPassOf shared first × IsPassOf shared second },
    ghost all: { shared.passes ≡ 2 },
}

/// Two passes share this value.
pub fn share<V: Answerer + Drop>(alloc: Global, value: V) -> Result<Pair<V>, Fail> {
    let Ok((shared, mut passes)) = Shared::new(alloc, value, 2) else {
        return Err(Fail::from("memory"));
    };
    let second = passes.remove(1);
    let first = passes.remove(0);
    Ok(Pair {
        shared,
        first,
        second,
    })
}

/// The value comes back.
pub fn close<V: Answerer + Drop>(alloc: Global, pair: Pair<V>) -> Result<V, Fail> {
    let Pair {
        shared,
        first,
        second,
    } = pair;
    let passes = Vec::from_array(alloc, [first, second])?;
    Ok(shared.close(passes))
}

/// Asks a short frame by a pass. Whether it was answered.
pub fn ask<R: Wait, V: Answerer>(
    rt: &R,
    shared: &Shared<V>,
    pass: &mut Pass<V>,
    request: &[u8],
    reply: &mut Vec<u8>,
) -> bool
    requires own { IsPassOf shared.now pass.old }
    ensures own { IsPassOf shared.now pass.new }
{
    if request.is_empty() || request.len() > 1_000 {
        return false;
    }
    shared.ask(rt, pass, request, reply).is_ok()
}
