//! What a job does.
ghost use Rattle.std.specs.Prelude.{◌≡◌, ◌≢◌, ◌⊎◌, IfOk, IfSome};
ghost use Rattle.std.specs.Io.KnownBytes.{Keeps};
ghost use Rattle.ov_base.specs.Causes.{Rose};
ghost use Rattle.ov_client.specs.KeyLines.{IsLineOf};
ghost use Rattle.ov_client.specs.Readers.{Reader};
ghost use Rattle.ov_keyfile.specs.KeyFile.{HasMasters};
ghost use Rattle.ov_protocol.specs.Serving.{Service};
ghost use Rattle.ov_acts.specs.Acts.{Acts, ChecksBy, OwnsBy, ReadsBy, check_line};
ghost use Rattle.ov_acts.specs.Causes.{EndsFor, HasKeys, NeedsKeys, StopsFor, StoresFile};
ghost use Rattle.ov_acts.specs.Causes.{StoresTooMany, TakesFiles, TakesUpTo, most_bytes};
ghost use Rattle.ov_acts.specs.Causes.{past_key_file, past_key_line};
ghost use Rattle.ov_acts.specs.Completeness.{AsksByName, IsComplete};
ghost use Rattle.ov_acts.specs.Endings.{Ends};
ghost use Rattle.ov_acts.specs.Files.{FindsBody, HasListLimits, IsOwners};
ghost use Rattle.ov_acts.specs.Machine.{ActsAsMachine, OwnersAsMachine, ReadersAsMachine};

use crate::command::greet_and_command;
use crate::files::{bytes_of, client_of, masters_of};
use crate::job::{Act, Job};
use crate::outcome::finish;
use crate::stop::{Stop, stop_of_client};
use ov_base::{Memory, Name, Octets};
use ov_client::lines_are_read_once;
use ov_io::{Sink, Source};
use ov_keyfile::one_pair_of_masters;
use ov_owner::Owner;
use ov_peer::Peer;
use ov_tokens::{Master, check_value};
use std::alloc::Global;

/// The bytes that an act stores.
fn body_of<B: Source>(alloc: Global, act: &Act, body: &mut B) -> Result<Octets, Stop>
    ensures found { FindsBody act.now (B.tells.left body.old) result }
    ensures cause { StopsFor (Rose (B.tells.faults body.old) (B.tells.faults body.new)) ⊥ ⊥
        (StoresTooMany act.now (B.tells.left body.old)) result }
    ensures takes { (body.new ≡ body.old)
        ⊎ (StoresFile act.now × TakesUpTo B.tells most_bytes body.old body.new) }
{
    match act {
        Act::Create { file: _, list: _ } | Act::Replace { file: _ } => bytes_of(alloc, body),
        _ => Ok(Octets::new(alloc)),
    }
}

/// What an owner does.
fn own<K: Source, B: Source, P: Peer>(
    alloc: Global,
    act: &Act,
    keys: &mut K,
    body: &mut B,
    peer: &mut P,
) -> Result<Octets, Stop>
    requires owners { IsOwners act.now }
    requires list { HasListLimits act.now }
    ensures acts { OwnsBy P.tells act.now (K.tells.left keys.old) (B.tells.left body.old)
        peer.old peer.new result }
    ensures told { (v : Service) → P.tells.serves peer.old v
        → OwnersAsMachine act.now (K.tells.left keys.old) (B.tells.left body.old) v
        (P.tells.serves peer.new) result }
    ensures cause { StopsFor (Rose (K.tells.faults keys.old) (K.tells.faults keys.new)
        ⊎ Rose (B.tells.faults body.old) (B.tells.faults body.new))
        (Rose (P.tells.faults peer.old) (P.tells.faults peer.new))
        (IfSome (K.tells.left keys.old) (λ file. HasMasters file → ⊥))
        (StoresTooMany act.now (B.tells.left body.old)) result }
    ensures files { TakesFiles K.tells B.tells act.now keys.old keys.new body.old body.new }
{
    one_pair_of_masters();
    let masters = match masters_of(keys) {
        Ok(masters) => masters,
        Err(stop) => return Err(stop),
    };
    let bytes = match body_of(alloc, act, body) {
        Ok(bytes) => bytes,
        Err(stop) => return Err(stop),
    };
    let owner = Owner::new(masters.base, masters.surface);
    greet_and_command(alloc, &owner, &masters.base, act, bytes.as_slice(), peer)
}

/// What a reader does: it gives the file's bytes.
fn read<K: Source, P: Peer>(
    alloc: Global,
    file: &Name,
    keys: &mut K,
    peer: &mut P,
) -> Result<Octets, Stop>
    ensures acts { ReadsBy P.tells file.now (K.tells.left keys.old) peer.old peer.new result }
    ensures told { (v : Service) → P.tells.serves peer.old v
        → ReadersAsMachine file.now (K.tells.left keys.old) v (P.tells.serves peer.new) result }
    ensures cause { StopsFor (Rose (K.tells.faults keys.old) (K.tells.faults keys.new))
        (Rose (P.tells.faults peer.old) (P.tells.faults peer.new))
        (IfSome (K.tells.left keys.old) (λ line. ((r : Reader) × IsLineOf line r) → ⊥)) ⊥ result }
    ensures takes { TakesUpTo K.tells past_key_line keys.old keys.new }
{
    lines_are_read_once();
    let client = match client_of(keys) {
        Ok(client) => client,
        Err(stop) => return Err(stop),
    };
    match client.fetch(alloc, peer, file) {
        Ok(bytes) => Ok(bytes),
        Err(fault) => Err(stop_of_client(fault)),
    }
}

/// The line with a check value, in hexadecimal.
fn line_on_check(alloc: Global, value: &[u8; 32]) -> Result<Octets, Memory>
    ensures { IfOk result (λ line. line ≡ check_line value.now) }
{
    let text = hex::encode(alloc, *value)?;
    let mut line = Vec::new(alloc);
    line.extend_from_slice(text.as_bytes())?;
    line.push(b'\n')?;
    Ok(Octets::from_vec(line))
}

/// Gives the base master's check value.
fn check<K: Source>(alloc: Global, keys: &mut K) -> Result<Octets, Stop>
    ensures acts { ChecksBy (K.tells.left keys.old) result }
    ensures cause { StopsFor (Rose (K.tells.faults keys.old) (K.tells.faults keys.new)) ⊥
        (IfSome (K.tells.left keys.old) (λ file. HasMasters file → ⊥)) ⊥ result }
    ensures takes { TakesUpTo K.tells past_key_file keys.old keys.new }
{
    let masters = masters_of(keys)?;
    match line_on_check(alloc, &check_value(&Master::new(&masters.base))) {
        Ok(line) => Ok(line),
        Err(Memory) => Err(Stop::Memory),
    }
}

/// Does what an act is, and gives the bytes for standard output.
fn perform<K: Source, B: Source, P: Peer>(
    alloc: Global,
    act: &Act,
    keys: &mut K,
    body: &mut B,
    peer: &mut P,
) -> Result<Octets, Stop>
    requires list { HasListLimits act.now }
    ensures acts { Acts P.tells act.now (K.tells.left keys.old) (B.tells.left body.old)
        peer.old peer.new result }
    ensures told { (v : Service) → P.tells.serves peer.old v
        → ActsAsMachine act.now (K.tells.left keys.old) (B.tells.left body.old) v
        (P.tells.serves peer.new) result }
    ensures cause { StopsFor (Rose (K.tells.faults keys.old) (K.tells.faults keys.new)
        ⊎ Rose (B.tells.faults body.old) (B.tells.faults body.new))
        (Rose (P.tells.faults peer.old) (P.tells.faults peer.new))
        (IfSome (K.tells.left keys.old) (λ bytes. HasKeys act.now bytes → ⊥))
        (StoresTooMany act.now (B.tells.left body.old)) result }
    ensures files { TakesFiles K.tells B.tells act.now keys.old keys.new body.old body.new }
{
    match act {
        Act::Check => check(alloc, keys),
        Act::Read { file } => read(alloc, file, keys, peer),
        Act::Enrol { user: _ }
        | Act::Grant { user: _, file: _ }
        | Act::Revoke { user: _, file: _ }
        | Act::Remove { file: _ }
        | Act::Create { file: _, list: _ }
        | Act::Replace { file: _ }
        | Act::List { file: _ }
        | Act::Key { user: _ } => own(alloc, act, keys, body, peer),
    }
}

/// Does nothing. Its contract is that what an act asks by is a name.
fn known_names(act: &Act)
    ensures { AsksByName act.now }
{
    match act {
        Act::List { file: name } | Act::Key { user: name } => {
            let _ = name.as_bytes();
        }
        _ => {}
    }
}

/// Does what the job asks for, and gives the exit status.
pub fn act<K: Source, B: Source, O: Sink, P: Peer>(
    alloc: Global,
    job: &Job,
    keys: &mut K,
    body: &mut B,
    out: &mut O,
    peer: &mut P,
) -> u8
    requires list { HasListLimits job.now.act }
    ensures ends { Ends P.tells job.now.act (K.tells.left keys.old) (B.tells.left body.old)
        peer.old peer.new (O.tells.written out.old) (O.tells.written out.new) result }
    ensures keys { NeedsKeys job.now.act (K.tells.left keys.old) peer.old peer.new result }
    ensures causes { EndsFor result (Rose (K.tells.faults keys.old) (K.tells.faults keys.new)
        ⊎ Rose (B.tells.faults body.old) (B.tells.faults body.new))
        (Rose (O.tells.faults out.old) (O.tells.faults out.new))
        (Rose (P.tells.faults peer.old) (P.tells.faults peer.new))
        (IfSome (K.tells.left keys.old) (λ bytes. HasKeys job.now.act bytes → ⊥))
        (StoresTooMany job.now.act (B.tells.left body.old)) }
    ensures quiet { (result ≢ 0) → (result ≢ 3) → (result ≢ 6)
        → Keeps (O.tells.written out.old) (O.tells.written out.new) }
    ensures files { TakesFiles K.tells B.tells job.now.act keys.old keys.new body.old body.new }
    ensures complete { IsComplete P.tells job.now.act (K.tells.left keys.old)
        (B.tells.left body.old) peer.old peer.new result }
{
    known_names(&job.act);
    let outcome = perform(alloc, &job.act, keys, body, peer);
    finish(alloc, outcome, out)
}
