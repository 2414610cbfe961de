//! The top call.
ghost use Rattle.std.specs.Prelude.{◌≡◌, ◌⊎◌, IfSome};
ghost use Rattle.ov_base.specs.Causes.{Rose};
ghost use Rattle.ov_keyfile.specs.KeyFile.{HasMasters};
ghost use Rattle.ov_acts.specs.Acts.{admitted};
ghost use Rattle.ov_acts.specs.Causes.{TakesUpTo, past_key_file};
ghost use Rattle.ov_acts.specs.Files.{plain_masters};
ghost use Rattle.ov_scripting.specs.Endings.{EndsFor};
ghost use Rattle.ov_scripting.specs.Machine.{AnswersAsMachine};
ghost use Rattle.ov_scripting.specs.Scripting.{AnswersScript, Greets, Scripts};

use crate::answering::answer_all;
use crate::ended::Ended;
use crate::finishing::finish;
use crate::replying::stop_of_owner;
use ov_acts::{Stop, masters_of};
use ov_base::{Key, Memory};
use ov_io::{Sink, Source};
use ov_keyfile::Masters;
use ov_owner::{Owner, OwnerFault, Welcome};
use ov_peer::Peer;
use ov_script::{Buffer, Script};
use ov_tokens::{Master, check_value};
use std::alloc::Global;

/// Whether the store that welcomes is one of this base master.
fn admitted(base: &Key, greeting: Result<Welcome, OwnerFault>) -> Result<(), Stop>
    ensures { result ≡ admitted base.now.bytes greeting }
{
    match greeting {
        Ok(welcome) => {
            if welcome.base_check == check_value(&Master::new(base)) {
                Ok(())
            } else {
                Err(Stop::OtherKeys)
            }
        }
        Err(fault) => Err(stop_of_owner(fault)),
    }
}

/// Answers the script of an owner whose store was found.
fn answer_script<I: Source, O: Sink, P: Peer>(
    alloc: Global,
    owner: &Owner,
    buffer: Buffer,
    input: &mut I,
    out: &mut O,
    peer: &mut P,
) -> Ended
    ensures answers { AnswersScript P.tells owner.now (I.tells.left input.old) peer.old peer.new
        (O.tells.written out.old) (O.tells.written out.new) result }
    ensures cause { EndsFor (Rose (I.tells.faults input.old) (I.tells.faults input.new))
        (Rose (O.tells.faults out.old) (O.tells.faults out.new))
        (Rose (P.tells.faults peer.old) (P.tells.faults peer.new)) ⊥ result }
{
    let mut script = Script::over(buffer, input);
    let ended = answer_all(alloc, owner, &mut script, out, peer);
    // The loan ends here, and what is known of the source goes back to `input`.
    let _ = script.into_source();
    finish(alloc, ended, out)
}

/// Asks the server for the check value of its store, and answers the script where that is the base
/// master's.
fn greet<I: Source, O: Sink, P: Peer>(
    alloc: Global,
    masters: &Masters,
    buffer: Buffer,
    input: &mut I,
    out: &mut O,
    peer: &mut P,
) -> Ended
    ensures greets { Greets P.tells (plain_masters masters.now) (I.tells.left input.old)
        peer.old peer.new (O.tells.written out.old) (O.tells.written out.new) result }
    ensures cause { EndsFor (Rose (I.tells.faults input.old) (I.tells.faults input.new))
        (Rose (O.tells.faults out.old) (O.tells.faults out.new))
        (Rose (P.tells.faults peer.old) (P.tells.faults peer.new)) ⊥ result }
{
    let owner = Owner::new(masters.base, masters.surface);
    match admitted(&masters.base, owner.hello(alloc, peer)) {
        Ok(()) => answer_script(alloc, &owner, buffer, input, out, peer),
        Err(stop) => Ended::Stopped(stop),
    }
}

/// Answers the script of `input` on `out`, by the server that `peer` asks, for the owner whose
/// masters are in the key file.
///
/// * `scripts`: the masters are read first, and the server is asked for its check value; then each
///   command is asked of it as the owner or a reader of ov_owner and ov_client asks, and its reply
///   line is put, in turn, until the script ends, a bad item comes, or something fails.
/// * `machine`: over a server that nobody else updates, and whose store is right under these masters,
///   the lines are the access-matrix machine's.
/// * `cause`: a fault is answered only where its count of faults rose.
/// * `takes`: no more is taken of the key file than shows whether it is one.
pub fn script<K: Source, I: Source, O: Sink, P: Peer>(
    alloc: Global,
    keys: &mut K,
    input: &mut I,
    out: &mut O,
    peer: &mut P,
) -> Ended
    ensures scripts { Scripts P.tells (K.tells.left keys.old) (I.tells.left input.old)
        peer.old peer.new (O.tells.written out.old) (O.tells.written out.new) result }
    ensures machine { AnswersAsMachine P.tells (K.tells.left keys.old) (I.tells.left input.old)
        peer.old peer.new (O.tells.written out.old) (O.tells.written out.new) result }
    ensures cause { EndsFor (Rose (K.tells.faults keys.old) (K.tells.faults keys.new)
        ⊎ Rose (I.tells.faults input.old) (I.tells.faults input.new))
        (Rose (O.tells.faults out.old) (O.tells.faults out.new))
        (Rose (P.tells.faults peer.old) (P.tells.faults peer.new))
        (IfSome (K.tells.left keys.old) (λ file. HasMasters file → ⊥)) result }
    ensures takes { TakesUpTo K.tells past_key_file keys.old keys.new }
{
    let masters = match masters_of(keys) {
        Ok(masters) => masters,
        Err(stop) => return Ended::Stopped(stop),
    };
    // The buffer is there before anything is asked, so that without one all is as it was.
    match Buffer::new(alloc) {
        Ok(buffer) => greet(alloc, &masters, buffer, input, out, peer),
        Err(Memory) => Ended::Stopped(Stop::Memory),
    }
}
