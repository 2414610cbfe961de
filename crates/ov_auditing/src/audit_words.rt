//! The words that ask for an audit.
ghost use Rattle.std.specs.Prelude.{◌≡◌, ℕ, List, IfNone, IfOk, IfSome, codes, true};
ghost use Rattle.ov_auditing.specs.AuditWords.{AreNoAudit, IsAudit, IsListOfSome};

use ov_base::{Memory, Names};
use ov_script::list_of;
use std::alloc::Global;

/// What an audit is asked for.
#[derive(Drop)]
pub struct Asked {
    /// The names of the users, one at least.
    pub names: Names,
    /// Whether the server helps them.
    pub server: bool,
}

// The names of a list that has one at least.
fn some_names(alloc: Global, list: &str) -> Result<Option<Names>, Memory>
    ensures found { IfOk result (λ found. IfSome found (IsListOfSome list.now)) }
    ensures none { IfOk result (λ found. IfNone found
        ((names : List (List ℕ)) → IsListOfSome list.now names → ⊥)) }
{
    match list_of(alloc, list.as_bytes())? {
        Some(names) => {
            if names.as_slice().is_empty() {
                Ok(None)
            } else {
                Ok(Some(names))
            }
        }
        None => Ok(None),
    }
}

// The audit of the users of this list.
fn asked_of(alloc: Global, list: &str, server: bool) -> Result<Option<Asked>, Memory>
    ensures found { IfOk result (λ found. IfSome found (λ asked.
        IsListOfSome list.now asked.names × (asked.server ≡ server))) }
    ensures none { IfOk result (λ found. IfNone found
        ((names : List (List ℕ)) → IsListOfSome list.now names → ⊥)) }
{
    match some_names(alloc, list)? {
        Some(names) => Ok(Some(Asked { names, server })),
        None => Ok(None),
    }
}

// The audit of the users of this list, where the word in front is `audit`.
fn asked_by(alloc: Global, audit: &str, list: &str, server: bool) -> Result<Option<Asked>, Memory>
    ensures found { IfOk result (λ found. IfSome found (λ asked.
        (audit.now ≡ codes "audit") × IsListOfSome list.now asked.names
        × (asked.server ≡ server))) }
    ensures none { IfOk result (λ found. IfNone found ((names : List (List ℕ))
        → audit.now ≡ codes "audit" → IsListOfSome list.now names → ⊥)) }
{
    if audit != "audit" {
        return Ok(None);
    }
    asked_of(alloc, list, server)
}

// The audit that the server helps in, where the last word is `server`.
fn asked_with(alloc: Global, audit: &str, list: &str, server: &str) -> Result<Option<Asked>, Memory>
    ensures found { IfOk result (λ found. IfSome found (λ asked.
        (server.now ≡ codes "server") × (audit.now ≡ codes "audit")
        × IsListOfSome list.now asked.names × (asked.server ≡ true))) }
    ensures none { IfOk result (λ found. IfNone found ((names : List (List ℕ))
        → server.now ≡ codes "server" → audit.now ≡ codes "audit"
        → IsListOfSome list.now names → ⊥)) }
{
    if server != "server" {
        return Ok(None);
    }
    asked_by(alloc, audit, list, true)
}

/// The audit that these words ask for.
pub fn audit_of(alloc: Global, words: &[String]) -> Result<Option<Asked>, Memory>
    ensures found { IfOk result (λ found. IfSome found (λ asked. IsAudit asked words.now)) }
    ensures none { IfOk result (λ found. IfNone found (AreNoAudit words.now)) }
{
    match words {
        [] | [_] => Ok(None),
        [audit, list] => asked_by(alloc, audit.as_str(), list.as_str(), false),
        [first, names, server] => {
            asked_with(alloc, first.as_str(), names.as_str(), server.as_str())
        }
        [_, _, _, _, ..] => Ok(None),
    }
}
