//! The chains to a file's keys.
ghost use Rattle.std.specs.Prelude.{◌≡◌, IfOk, IfSome};
ghost use Rattle.ov_history.specs.Asking.{file_named, user_named};
ghost use Rattle.ov_wire.specs.AnswerForm.{HasAnswerForm};
ghost use Rattle.ov_protocol.specs.Reading.{AnswersChain};
ghost use Rattle.ov_server.specs.Telling.{chained_answer, HaveTokens};

use crate::form::steps_have_tokens;
use ov_base::{Memory, Name};
use ov_fields::known_tag;
use ov_state::{Catalogue, ChainFault, Chained};
use ov_tokens::Chain;
use ov_wire::Answer;
use std::alloc::Global;

/// The answer that gives these chains.
fn chained(chained: Chained) -> Answer
    ensures { result ≡ chained_answer chained }
{
    let Chained {
        epoch,
        file,
        length,
        generation,
        tag,
        base,
        surface,
    } = chained;
    Answer::Chained(ov_wire::Chained {
        epoch,
        file,
        length,
        generation,
        tag,
        base,
        surface,
    })
}

/// What holds of the tokens of each chain, where there is one.
fn has_tokens(chain: &Option<Chain>)
    ensures { IfSome chain.now (λ c. HaveTokens c.steps) }
{
    match chain {
        Some(chain) => steps_have_tokens(chain.steps.as_slice()),
        None => {}
    }
}

/// The answer to a Chain.
pub fn answer_chain(
    alloc: Global,
    state: &Catalogue,
    user: &Name,
    file: &Name,
) -> Result<Answer, Memory>
    ensures answer { let c = state.now.catalogue in
        IfOk result (AnswersChain c (user_named c user.now) (file_named c file.now)) }
    ensures form { IfOk result HasAnswerForm }
{
    state.known();
    match state.chain(alloc, user, file) {
        Ok(found) => {
            known_tag(&found.tag);
            steps_have_tokens(found.base.steps.as_slice());
            has_tokens(&found.surface);
            Ok(chained(found))
        }
        Err(ChainFault::Refused(refusal)) => Ok(Answer::Refused { refusal }),
        Err(ChainFault::Memory) => Err(Memory),
    }
}
