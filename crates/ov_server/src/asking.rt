//! What an owner is told before an update.
ghost use Rattle.std.specs.Prelude.{◌≡◌, IfOk};
ghost use Rattle.ov_history.specs.Asking.{file_named, user_named};
ghost use Rattle.ov_wire.specs.AnswerForm.{HasAnswerForm};
ghost use Rattle.ov_wire.specs.declared.request.Question.TheVariants as questions;
ghost use Rattle.ov_protocol.specs.Asking.{AnswersAsk};
ghost use Rattle.ov_server.specs.Telling.{known_answer};

use ov_base::{Memory, Name};
use ov_state::{Asked, Catalogue, ChainFault};
use ov_wire::{Answer, Known, Question};
use std::alloc::Global;

/// The answer that tells these numbers at an epoch.
fn known(epoch: u32, asked: Asked) -> Answer
    ensures { result ≡ known_answer epoch asked }
{
    Answer::Known(Known {
        epoch,
        user: asked.user,
        base_root: asked.base_root,
        surface_root: asked.surface_root,
        file: asked.file,
        node: asked.node,
        wants: asked.wants,
    })
}

/// The answer to the question for an enrolment.
fn answer_enrol(state: &Catalogue, user: &Name) -> Answer
    ensures answer { AnswersAsk state.now.catalogue (questions.Enrol user.now) result }
    ensures form { HasAnswerForm result }
{
    state.known();
    match state.ask_enrol(user) {
        Ok(asked) => known(state.epoch(), asked),
        Err(refusal) => Answer::Refused { refusal },
    }
}

/// The answer to the question for a grant.
fn answer_grant(
    alloc: Global,
    state: &Catalogue,
    user: &Name,
    file: &Name,
) -> Result<Answer, Memory>
    ensures answer { IfOk result
        (AnswersAsk state.now.catalogue (questions.Grant user.now file.now)) }
    ensures form { IfOk result HasAnswerForm }
{
    state.known();
    match state.ask_grant(alloc, user, file) {
        Ok(asked) => Ok(known(state.epoch(), asked)),
        Err(ChainFault::Refused(refusal)) => Ok(Answer::Refused { refusal }),
        Err(ChainFault::Memory) => Err(Memory),
    }
}

/// The answer to the question for a revocation.
fn answer_revoke(
    alloc: Global,
    state: &Catalogue,
    user: &Name,
    file: &Name,
) -> Result<Answer, Memory>
    ensures answer { IfOk result
        (AnswersAsk state.now.catalogue (questions.Revoke user.now file.now)) }
    ensures form { IfOk result HasAnswerForm }
{
    state.known();
    match state.ask_revoke(alloc, user, file) {
        Ok(asked) => Ok(known(state.epoch(), asked)),
        Err(ChainFault::Refused(refusal)) => Ok(Answer::Refused { refusal }),
        Err(ChainFault::Memory) => Err(Memory),
    }
}

/// The answer to the question for a removal.
fn answer_remove(state: &Catalogue, file: &Name) -> Result<Answer, Memory>
    ensures answer { IfOk result
        (AnswersAsk state.now.catalogue (questions.Remove file.now)) }
    ensures form { IfOk result HasAnswerForm }
{
    state.known();
    match state.ask_remove(file) {
        Ok(asked) => Ok(known(state.epoch(), asked)),
        Err(ChainFault::Refused(refusal)) => Ok(Answer::Refused { refusal }),
        Err(ChainFault::Memory) => Err(Memory),
    }
}

/// The answer to the question for a user's keys.
fn answer_key(state: &Catalogue, user: &Name) -> Answer
    ensures answer { AnswersAsk state.now.catalogue (questions.Key user.now) result }
    ensures form { HasAnswerForm result }
{
    state.known();
    match state.ask_key(user) {
        Ok(asked) => known(state.epoch(), asked),
        Err(refusal) => Answer::Refused { refusal },
    }
}

/// The answer to an Ask.
pub fn answer_ask(alloc: Global, state: &Catalogue, question: &Question) -> Result<Answer, Memory>
    ensures answer { IfOk result (AnswersAsk state.now.catalogue question.now) }
    ensures form { IfOk result HasAnswerForm }
{
    match question {
        Question::Enrol { user } => Ok(answer_enrol(state, user)),
        Question::Grant { user, file } => answer_grant(alloc, state, user, file),
        Question::Revoke { user, file } => answer_revoke(alloc, state, user, file),
        Question::Remove { file } => answer_remove(state, file),
        Question::Key { user } => Ok(answer_key(state, user)),
    }
}
