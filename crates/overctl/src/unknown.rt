//! Which names of a list are no users'.

use crate::asks::text_of;
use ov_acts::Act;
use ov_base::{Memory, Name, Refusal};
use ov_peer::{Peer, exchange};
use ov_wire::{Answer, Question, Request};
use std::alloc::Global;

// Whether the store has no user of this name, as the server says. Where no answer comes it isn't
// said.
fn is_unknown<P: Peer>(alloc: Global, peer: &mut P, user: &Name) -> bool {
    let request = Request::Ask {
        question: Question::Key { user: user.copy() },
    };
    match exchange(alloc, peer, &request) {
        Ok(Answer::Refused { refusal }) => refusal == Refusal::NoUser,
        _ => false,
    }
}

// Those of these names that the store has no user of, with commas between.
fn unknown_among<P: Peer>(alloc: Global, peer: &mut P, names: &[Name]) -> Result<String, Memory> {
    let mut unknown = String::new(alloc);
    for name in names {
        if is_unknown(alloc, peer, name) {
            if !unknown.is_empty() {
                unknown.push(',')?;
            }
            unknown.push_str(text_of(name))?;
        }
    }
    Ok(unknown)
}

/// Says which names of its list are no users', where a creation was refused for that. It asks for
/// each name, over the same session.
pub fn say_unknown<P: Peer>(rt: &HostRuntime, act: &Act, peer: &mut P) {
    match act {
        Act::Create { file: _, list } => {
            match unknown_among(rt.alloc(), peer, list.as_slice()) {
                Ok(names) if !names.is_empty() => {
                    let _ = eprintln!(rt; "overctl: note: not enrolled: {names}");
                }
                _ => {}
            }
        }
        _ => {}
    }
}
