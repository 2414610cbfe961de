//! Listings of a store.
use crate::case::Case;
use crate::peers::{peer_of, print_came};
use ov_base::{Name, Octets};
use ov_listing::{ListingFault, Question, answer};
use ov_peer::Peer;
use std::alloc::Global;
use std::str;
use std::test::Fail;

// The question that words ask.
fn question_of(rest: &str) -> Result<Question, Fail> {
    match rest.split_once(' ') {
        Some(("files", user)) => Ok(Question::Files {
            user: Name::read(user.as_bytes()),
        }),
        None if rest == "files" => Ok(Question::Files { user: None }),
        None if rest == "users" => Ok(Question::Users),
        None if rest == "epoch" => Ok(Question::Epoch),
        _ => Err(Fail::from("a question was expected")),
    }
}

// The text that answers a question, or why there is none.
fn asked<P: Peer>(
    alloc: Global,
    peer: &mut P,
    question: &Question,
) -> Result<Option<Octets>, ListingFault> {
    answer(alloc, peer, question)
}

// What an answer is.
fn told(alloc: Global, found: Result<Option<Octets>, ListingFault>) -> Result<String, Fail> {
    match found {
        Ok(Some(text)) => {
            let text = str::from_utf8(text.as_slice())?;
            Ok(format!(in alloc; "ok\n{text}  end")?)
        }
        Ok(None) => Ok(String::from_str(alloc, "no such user")?),
        Err(fault) => Ok(format!(in alloc; "{fault:?}")?),
    }
}

/// Prints what answers a question over the case's replies.
pub fn print_listing(rt: &HostRuntime, case: &Case, line: &str, rest: &str) -> Result<(), Fail> {
    let question = question_of(rest)?;
    let mut peer = peer_of(rt.alloc(), case)?;
    let found = asked(rt.alloc(), &mut peer, &question);
    let came = told(rt.alloc(), found)?;
    print_came(rt, line, came.as_str(), &peer)
}
