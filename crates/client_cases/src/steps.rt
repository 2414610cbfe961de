//! One line of a case.
use crate::acts::print_act;
use crate::case::Case;
use crate::links::print_link;
use crate::listings::print_listing;
use crate::owners::print_done;
use crate::readers::{print_line, print_read};
use crate::texts::{block_of, byte_of, number_of, words_of};
use ov_base::{Key, Octets};
use std::alloc::Global;
use std::test::Fail;

// The replies to which the next one is added. The first one behind a call begins a new list.
fn replies<'a>(case: &'a mut Case) -> &'a mut Vec<Octets> {
    if case.is_asked {
        case.replies.truncate(0);
        case.is_asked = false;
    }
    &mut case.replies
}

// Adds replies so many times. A ` / ` stands between two.
fn push_rounds(alloc: Global, case: &mut Case, rest: &str) -> Result<(), Fail> {
    let (count, text) = rest.split_once(' ').ok_or("a number and words")?;
    for _ in 0..number_of(count)? {
        for words in text.split(" / ") {
            replies(case).push(Octets::from_vec(words_of(alloc, words)?))?;
        }
    }
    Ok(())
}

// Sets which call fails for the next line.
fn set_fails(case: &mut Case, rest: &str) -> Result<(), Fail> {
    let (party, call) = rest.split_once(' ').ok_or("a party and a call")?;
    let call = byte_of(call)?;
    match party {
        "ask" => case.failing_asks.push(call)?,
        "keys" => case.failing_keys.push(call)?,
        "take" => case.failing_takes.push(call)?,
        "put" => case.failing_puts.push(call)?,
        _ => return Err(Fail::from("ask, keys, take or put")),
    }
    Ok(())
}

// Sets the key file, or the line of keys.
fn set_keys(alloc: Global, case: &mut Case, text: &str) -> Result<(), Fail> {
    case.keys.truncate(0);
    let text = text.replace(alloc, "\\n", "\n")?;
    case.keys.extend_from_slice(text.as_bytes())?;
    Ok(())
}

// A line that sets something for later lines, and whether it is one.
fn set(alloc: Global, case: &mut Case, word: &str, rest: &str) -> Result<bool, Fail> {
    match word {
        "<" => {
            let reply = Octets::from_vec(words_of(alloc, rest)?);
            replies(case).push(reply)?
        }
        "*" => push_rounds(alloc, case, rest)?,
        "base" => case.base = Key {
            bytes: block_of(alloc, rest)?,
        },
        "surface" => case.surface = Key {
            bytes: block_of(alloc, rest)?,
        },
        "keys" => set_keys(alloc, case, rest)?,
        "length" => case.length = number_of(rest)?,
        "fails" => set_fails(case, rest)?,
        _ => return Ok(false),
    }
    Ok(true)
}

// A line that prints something.
fn print(
    rt: &HostRuntime,
    case: &mut Case,
    line: &str,
    word: &str,
    rest: &str,
) -> Result<(), Fail> {
    match word {
        "enrol" | "create" | "grant" | "revoke" | "remove" | "replace" | "list" | "hello" => {
            print_done(rt, case, line, word, rest)
        }
        "read" | "fetch" => print_read(rt, case, line, word, rest),
        "line" => print_line(rt, case),
        "overctl" => print_act(rt, case, rest),
        "listing" => print_listing(rt, case, line, rest),
        "link" => print_link(rt, case, rest),
        _ => Err(Fail::from("a line of a case was expected")),
    }
}

/// Does what a line says.
pub fn step(rt: &HostRuntime, case: &mut Case, line: &str) -> Result<(), Fail> {
    if line.is_empty() || line.starts_with("#") {
        return Ok(());
    }
    if line.starts_with("==") {
        println!(rt; "{line}")?;
        *case = Case::new(rt.alloc())?;
        return Ok(());
    }
    let (word, rest) = line.split_once(' ').unwrap_or((line, ""));
    if set(rt.alloc(), case, word, rest)? {
        return Ok(());
    }
    print(rt, case, line, word, rest)?;
    case.is_asked = true;
    case.mend();
    Ok(())
}
