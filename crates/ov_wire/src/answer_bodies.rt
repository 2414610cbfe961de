//! What follows the kind byte of each answer.

ghost use Rattle.std.specs.Prelude.{◌≡◌, false, true, [], ◌∷◌};
ghost use Rattle.ov_base.specs.Modes.{mode_byte};
ghost use Rattle.ov_base.specs.declared.mode.Mode.TheVariants.{Full, Delta};
ghost use Rattle.ov_base.specs.Refusals.{refusal_number};
ghost use Rattle.ov_base.specs.declared.limits.TheConstants.{MAX_USERS};
ghost use Rattle.ov_fields.specs.Answers.{GivesField};
ghost use Rattle.ov_fields.specs.Reading.{counted_at, making, many_at, one_of_at};
ghost use Rattle.ov_fields.specs.Spelling.{flag};
ghost use Rattle.ov_wire.specs.declared.answer.Answer.TheVariants as answers;
ghost use Rattle.ov_wire.specs.AnswerReading.{chained, chained_at, entry_or_none_at, greater_at, known, known_at, next_at, plan, plan_at, up_to, welcome, welcome_at};
ghost use Rattle.ov_wire.specs.AnswersTo.{files_of, most_chunk, names_file, names_user, nodes_of, roots_of, users_of, wants_of};
ghost use Rattle.ov_wire.specs.Entries.{node_at};
ghost use Rattle.ov_wire.specs.RequestReading.{names_at};

use crate::chains::{Side, take_chain, take_chain_or_none};
use crate::entries::take_entry_or_none;
use crate::names::take_names;
use crate::refusals::take_refusal;
use crate::{Answer, Chained, Known, Plan, Question, Welcome};
use ov_base::limits::{MAX_CHUNK_BYTES, MAX_FILE_BYTES, MAX_FILES, MAX_LAYER_NODES, MAX_USERS};
use ov_base::{Mode, Octets, Refusal};
use ov_fields::{
    FieldFault, take_flag, take_set, take_tag, take_u16_at_most, take_u32, take_u32_at_most,
    take_u32_below, take_u32_between,
};
use ov_tokens::Numbers;
use std::alloc::Global;

/// A mode.
#[tactic(auto, unfolding(ov_fields::specs::Reading::one_of_at))]
fn take_mode(bytes: &[u8]) -> Result<(Mode, &[u8]), FieldFault>
    ensures { GivesField (λ m. m) result (one_of_at mode_byte (Full ∷ Delta ∷ []) bytes.now) }
{
    match bytes {
        [0, rest @ ..] => Ok((Mode::Full, rest)),
        [1, rest @ ..] => Ok((Mode::Delta, rest)),
        _ => Err(FieldFault::Bad { left: bytes.len() }),
    }
}

/// Whether an access token is wanted, which is so of a grant alone.
#[tactic(auto, unfolding(ov_fields::specs::Reading::one_of_at))]
fn take_wants<'a>(question: &Question, bytes: &'a [u8]) -> Result<(bool, &'a [u8]), FieldFault>
    ensures { GivesField (λ b. b) result (one_of_at flag (wants_of question.now) bytes.now) }
{
    match (question, bytes) {
        (_, [0, rest @ ..]) => Ok((false, rest)),
        (Question::Grant { .. }, [1, rest @ ..]) => Ok((true, rest)),
        _ => Err(FieldFault::Bad { left: bytes.len() }),
    }
}

/// Whether the command is about a user.
fn names_user(question: &Question) -> bool
    ensures { result ≡ names_user question.now }
{
    match question {
        Question::Enrol { .. } => true,
        Question::Grant { .. } => true,
        Question::Revoke { .. } => true,
        Question::Key { .. } => true,
        Question::Remove { .. } => false,
    }
}

/// The number that a user's is below: where the command is about none, it is 0.
fn users_of(question: &Question) -> u32
    ensures { result ≡ users_of question.now }
{
    if names_user(question) { MAX_USERS } else { 1 }
}

/// The number that a root's is below: where the command is about no user, it is 0.
fn roots_of(question: &Question) -> u32
    ensures { result ≡ roots_of question.now }
{
    if names_user(question) {
        MAX_LAYER_NODES
    } else {
        1
    }
}

/// Whether the command is about a file.
fn names_file(question: &Question) -> bool
    ensures { result ≡ names_file question.now }
{
    match question {
        Question::Enrol { .. } => false,
        Question::Grant { .. } => true,
        Question::Revoke { .. } => true,
        Question::Key { .. } => false,
        Question::Remove { .. } => true,
    }
}

/// The number that a file's is below: where the command is about none, it is 0.
fn files_of(question: &Question) -> u32
    ensures { result ≡ files_of question.now }
{
    if names_file(question) { MAX_FILES } else { 1 }
}

/// The number that a base node's is below: where the command is about no file, it is 0.
fn nodes_of(question: &Question) -> u32
    ensures { result ≡ nodes_of question.now }
{
    if names_file(question) {
        MAX_LAYER_NODES
    } else {
        1
    }
}

/// A Welcome behind its kind byte.
pub fn take_welcome(bytes: &[u8]) -> Result<(Answer, &[u8]), FieldFault>
    ensures { GivesField (λ a. a) result (making welcome welcome_at bytes.now) }
{
    let (mode, rest) = take_mode(bytes)?;
    let (epoch, rest) = take_u32(rest)?;
    let (base_check, rest) = take_tag(rest)?;
    let welcome = Welcome {
        mode,
        epoch,
        base_check,
    };
    Ok((Answer::Welcome(welcome), rest))
}

/// A Known behind its kind byte.
pub fn take_known<'a>(
    question: &Question,
    bytes: &'a [u8],
) -> Result<(Answer, &'a [u8]), FieldFault>
    ensures { GivesField (λ a. a) result (making known (known_at question.now) bytes.now) }
{
    let (epoch, rest) = take_u32(bytes)?;
    let (user, rest) = take_u32_below(users_of(question), rest)?;
    let (base_root, rest) = take_u32_below(roots_of(question), rest)?;
    let (surface_root, rest) = take_u32_below(roots_of(question), rest)?;
    let (file, rest) = take_u32_below(files_of(question), rest)?;
    let (node, rest) = take_u32_below(nodes_of(question), rest)?;
    let (wants, rest) = take_wants(question, rest)?;
    let known = Known {
        epoch,
        user,
        base_root,
        surface_root,
        file,
        node,
        wants,
    };
    Ok((Answer::Known(known), rest))
}

/// Takes `count` nodes, one after the other.
fn take_each_node(alloc: Global, count: u16, bytes: &[u8]) -> Result<(Numbers, &[u8]), FieldFault>
    ensures { GivesField (λ n. n) result (many_at node_at count bytes.now) }
{
    let mut nodes = Numbers::new(alloc);
    let mut rest = bytes;
    for _ in 0..count {
        let (node, after) = take_u32_below(MAX_LAYER_NODES, rest)?;
        nodes.push(node)?;
        rest = after;
    }
    Ok((nodes, rest))
}

/// Nodes behind their number.
#[tactic(auto, unfolding(ov_fields::specs::Reading::counted_at))]
fn take_nodes(alloc: Global, bytes: &[u8]) -> Result<(Numbers, &[u8]), FieldFault>
    ensures { GivesField (λ n. n) result (counted_at MAX_USERS node_at bytes.now) }
{
    let (count, rest) = take_u16_at_most(MAX_USERS as u16, bytes)?;
    let (nodes, rest) = take_each_node(alloc, count, rest)?;
    Ok((nodes, rest))
}

/// A Plan behind its kind byte.
pub fn take_plan(alloc: Global, bytes: &[u8]) -> Result<(Answer, &[u8]), FieldFault>
    ensures { GivesField (λ a. a) result (making plan plan_at bytes.now) }
{
    let (epoch, rest) = take_u32(bytes)?;
    let (file, rest) = take_u32_below(MAX_FILES, rest)?;
    let (list, rest) = take_set(rest)?;
    let (node, rest) = take_u32_below(MAX_LAYER_NODES, rest)?;
    let (fresh, rest) = take_flag(rest)?;
    let (from, rest) = take_nodes(alloc, rest)?;
    let plan = Plan {
        epoch,
        file,
        list,
        node,
        fresh,
        from,
    };
    Ok((Answer::Plan(plan), rest))
}

/// A Chained behind its kind byte.
pub fn take_chained(alloc: Global, bytes: &[u8]) -> Result<(Answer, &[u8]), FieldFault>
    ensures { GivesField (λ a. a) result (making chained chained_at bytes.now) }
{
    let (epoch, rest) = take_u32(bytes)?;
    let (file, rest) = take_u32_below(MAX_FILES, rest)?;
    let (length, rest) = take_u32_at_most(MAX_FILE_BYTES, rest)?;
    let (generation, rest) = take_u32(rest)?;
    let (tag, rest) = take_tag(rest)?;
    let (base, rest) = take_chain(alloc, Side::Base, rest)?;
    let (surface, rest) = take_chain_or_none(alloc, rest)?;
    let chained = Chained {
        epoch,
        file,
        length,
        generation,
        tag,
        base,
        surface,
    };
    Ok((Answer::Chained(chained), rest))
}

/// A Refused behind its kind byte, with one of these refusals.
pub fn take_refused<'a>(
    refusals: &[Refusal],
    bytes: &'a [u8],
) -> Result<(Answer, &'a [u8]), FieldFault>
    ensures { GivesField (λ a. a) result
        (making answers.Refused (one_of_at refusal_number refusals.now) bytes.now) }
{
    let (refusal, rest) = take_refusal(refusals, bytes)?;
    Ok((Answer::Refused { refusal }, rest))
}

/// An Accepted behind its kind byte: the epoch after the one that the update was made at.
pub fn take_accepted(made_at: u32, bytes: &[u8]) -> Result<(Answer, &[u8]), FieldFault>
    ensures { GivesField (λ a. a) result (making answers.Accepted (next_at made_at) bytes.now) }
{
    let next = made_at as u64 + 1;
    let (epoch, rest) = take_u32_between(next, next, bytes)?;
    Ok((Answer::Accepted { epoch }, rest))
}

/// A Stale behind its kind byte: an epoch past the one that the update was made at.
pub fn take_stale(made_at: u32, bytes: &[u8]) -> Result<(Answer, &[u8]), FieldFault>
    ensures { GivesField (λ a. a) result (making answers.Stale (greater_at made_at) bytes.now) }
{
    let (epoch, rest) = take_u32_between(made_at as u64 + 1, u32::MAX as u64, bytes)?;
    Ok((Answer::Stale { epoch }, rest))
}

/// A Moved behind its kind byte: a generation past the one that was asked for.
pub fn take_moved(asked: u32, bytes: &[u8]) -> Result<(Answer, &[u8]), FieldFault>
    ensures { GivesField (λ a. a) result (making answers.Moved (greater_at asked) bytes.now) }
{
    let (generation, rest) = take_u32_between(asked as u64 + 1, u32::MAX as u64, bytes)?;
    Ok((Answer::Moved { generation }, rest))
}

/// Bytes behind their kind byte, of which there are no more than were asked for.
pub fn take_chunk(alloc: Global, count: u32, bytes: &[u8]) -> Result<(Answer, &[u8]), FieldFault>
    ensures { GivesField (λ a. a) result
        (making answers.Bytes (up_to (most_chunk count)) bytes.now) }
{
    let most = count.min(MAX_CHUNK_BYTES) as usize;
    let (text, rest) = bytes.split_at(most.min(bytes.len()));
    let bytes = Octets::copy(alloc, text)?;
    Ok((Answer::Bytes { bytes }, rest))
}

/// A PageOf behind its kind byte.
pub fn take_page_of(alloc: Global, part: u8, bytes: &[u8]) -> Result<(Answer, &[u8]), FieldFault>
    ensures { GivesField (λ a. a) result
        (making answers.PageOf (entry_or_none_at part) bytes.now) }
{
    let (entry, rest) = take_entry_or_none(alloc, part, bytes)?;
    Ok((Answer::PageOf { entry }, rest))
}

/// A Listed behind its kind byte.
pub fn take_listed(alloc: Global, bytes: &[u8]) -> Result<(Answer, &[u8]), FieldFault>
    ensures { GivesField (λ a. a) result (making answers.Listed (names_at MAX_USERS) bytes.now) }
{
    let (names, rest) = take_names(alloc, MAX_USERS as u16, bytes)?;
    Ok((Answer::Listed { names }, rest))
}
