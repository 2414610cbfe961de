//! What an owner does. The calls are wrapped in functions without a clause, generic over the peer, so
//! that no proof computes what comes of them.
use crate::case::Case;
use crate::peers::{peer_of, print_came};
use crate::texts::{name_of, shown};
use ov_base::{Mode, Name, Names};
use ov_owner::{Change, Owner, OwnerFault};
use ov_peer::Peer;
use std::alloc::Global;
use std::test::Fail;

fn owner_of(case: &Case) -> Owner {
    Owner::new(case.base, case.surface)
}

// What came of a change.
fn told(alloc: Global, epoch: Result<u32, OwnerFault>) -> Result<String, Fail> {
    match epoch {
        Ok(epoch) => Ok(format!(in alloc; "ok {epoch}")?),
        Err(fault) => Ok(format!(in alloc; "{fault:?}")?),
    }
}

fn enrolled<P: Peer>(alloc: Global, case: &Case, peer: &mut P, user: &str) -> Result<String, Fail> {
    let user = name_of(user)?;
    let change = Change::Enrol { user: &user };
    told(alloc, owner_of(case).change(alloc, peer, &change))
}

// The users of the file are a and b.
fn created<P: Peer>(alloc: Global, case: &Case, peer: &mut P, rest: &str) -> Result<String, Fail> {
    let (file, text) = rest.split_once(' ').ok_or("a file and a text")?;
    let file = name_of(file)?;
    let mut list = Names::new(alloc);
    list.insert(Name::read(b"a").ok_or("a name")?)?;
    list.insert(Name::read(b"b").ok_or("a name")?)?;
    if text.len() > 1000 {
        return Err(Fail::from("a shorter text was expected"));
    }
    let change = Change::Create {
        file: &file,
        list: &list,
        bytes: text.as_bytes(),
    };
    told(alloc, owner_of(case).change(alloc, peer, &change))
}

fn granted<P: Peer>(alloc: Global, case: &Case, peer: &mut P, rest: &str) -> Result<String, Fail> {
    let (user, file) = rest.split_once(' ').ok_or("a user and a file")?;
    let (user, file) = (name_of(user)?, name_of(file)?);
    let change = Change::Grant {
        user: &user,
        file: &file,
    };
    told(alloc, owner_of(case).change(alloc, peer, &change))
}

fn revoked<P: Peer>(alloc: Global, case: &Case, peer: &mut P, rest: &str) -> Result<String, Fail> {
    let (user, file) = rest.split_once(' ').ok_or("a user and a file")?;
    let (user, file) = (name_of(user)?, name_of(file)?);
    let change = Change::Revoke {
        user: &user,
        file: &file,
    };
    told(alloc, owner_of(case).change(alloc, peer, &change))
}

fn removed<P: Peer>(alloc: Global, case: &Case, peer: &mut P, file: &str) -> Result<String, Fail> {
    let file = name_of(file)?;
    let change = Change::Remove { file: &file };
    told(alloc, owner_of(case).change(alloc, peer, &change))
}

fn replaced<P: Peer>(alloc: Global, case: &Case, peer: &mut P, rest: &str) -> Result<String, Fail> {
    let (file, text) = rest.split_once(' ').ok_or("a file and a text")?;
    let file = name_of(file)?;
    if text.len() > 1000 {
        return Err(Fail::from("a shorter text was expected"));
    }
    let change = Change::Replace {
        file: &file,
        bytes: text.as_bytes(),
    };
    told(alloc, owner_of(case).change(alloc, peer, &change))
}

fn listed<P: Peer>(alloc: Global, case: &Case, peer: &mut P, file: &str) -> Result<String, Fail> {
    let file = name_of(file)?;
    match owner_of(case).list(alloc, peer, &file) {
        Ok(names) => {
            let mut text = String::from_str(alloc, "ok")?;
            for name in names.as_slice() {
                text.push_str(" ")?;
                for byte in name.as_bytes() {
                    text.push(char::from(*byte))?;
                }
            }
            Ok(text)
        }
        Err(fault) => Ok(format!(in alloc; "{fault:?}")?),
    }
}

fn greeted<P: Peer>(alloc: Global, case: &Case, peer: &mut P) -> Result<String, Fail> {
    match owner_of(case).hello(alloc, peer) {
        Ok(welcome) => {
            let mode = match welcome.mode {
                Mode::Full => "full",
                Mode::Delta => "delta",
            };
            let (epoch, check) = (welcome.epoch, shown(alloc, &welcome.base_check)?);
            Ok(format!(in alloc; "ok {mode} {epoch} {check}")?)
        }
        Err(fault) => Ok(format!(in alloc; "{fault:?}")?),
    }
}

// What comes of what this line asks an owner for.
fn done<P: Peer>(
    alloc: Global,
    case: &Case,
    peer: &mut P,
    word: &str,
    rest: &str,
) -> Result<String, Fail> {
    match word {
        "enrol" => enrolled(alloc, case, peer, rest),
        "create" => created(alloc, case, peer, rest),
        "grant" => granted(alloc, case, peer, rest),
        "revoke" => revoked(alloc, case, peer, rest),
        "remove" => removed(alloc, case, peer, rest),
        "replace" => replaced(alloc, case, peer, rest),
        "list" => listed(alloc, case, peer, rest),
        _ => greeted(alloc, case, peer),
    }
}

/// Prints what comes of what this line asks an owner for, over the case's replies.
pub fn print_done(
    rt: &HostRuntime,
    case: &Case,
    line: &str,
    word: &str,
    rest: &str,
) -> Result<(), Fail> {
    let mut peer = peer_of(rt.alloc(), case)?;
    let came = done(rt.alloc(), case, &mut peer, word, rest)?;
    print_came(rt, line, came.as_str(), &peer)
}
