//! What is read of files: the masters, a user key line, and the bytes to be stored.
ghost use Rattle.std.specs.Prelude.{◌≡◌, ◌⊎◌, ◌<◌, IfSome, length};
ghost use Rattle.ov_base.specs.Causes.{Rose};
ghost use Rattle.ov_base.specs.declared.limits.TheConstants.{MAX_FILE_BYTES};
ghost use Rattle.ov_client.specs.KeyLines.{IsLineOf};
ghost use Rattle.ov_client.specs.Readers.{Reader};
ghost use Rattle.ov_keyfile.specs.KeyFile.{HasMasters};
ghost use Rattle.ov_acts.specs.Causes.{StopsFor, TakesUpTo, most_bytes, past_key_file};
ghost use Rattle.ov_acts.specs.Files.{FindsBytes, FindsMasters, FindsReader};

use crate::stop::Stop;
use ov_base::Octets;
use ov_base::limits::MAX_FILE_BYTES;
use ov_client::Client;
use ov_io::{Source, fill};
use ov_keyfile::{Masters, read_masters};
use std::alloc::Global;

// One byte more than the longest user key line has.
const ENOUGH: usize = 208;

// One byte more than the longest file has.
const TOO_MANY: usize = MAX_FILE_BYTES as usize + 1;

/// The masters of the key file.
pub fn masters_of<K: Source>(keys: &mut K) -> Result<Masters, Stop>
    ensures takes { TakesUpTo K.tells past_key_file keys.old keys.new }
    ensures found { FindsMasters (K.tells.left keys.old) result }
    ensures cause { StopsFor (Rose (K.tells.faults keys.old) (K.tells.faults keys.new)) ⊥
        (IfSome (K.tells.left keys.old) (λ file. HasMasters file → ⊥)) ⊥ result }
{
    match read_masters(keys) {
        Ok(Some(masters)) => Ok(masters),
        Ok(None) => Err(Stop::BadKeys),
        Err(_) => Err(Stop::Read),
    }
}

/// The reader of the user key line.
pub fn client_of<K: Source>(keys: &mut K) -> Result<Client, Stop>
    ensures takes { TakesUpTo K.tells ENOUGH keys.old keys.new }
    ensures found { FindsReader (K.tells.left keys.old) result }
    ensures cause { StopsFor (Rose (K.tells.faults keys.old) (K.tells.faults keys.new)) ⊥
        (IfSome (K.tells.left keys.old) (λ line. ((r : Reader) × IsLineOf line r) → ⊥)) ⊥ result }
{
    let mut buffer = [0; ENOUGH];
    match fill(keys, &mut buffer) {
        Ok(count) => {
            let (line, _) = buffer.split_at(count);
            match Client::from_line(line) {
                Some(client) => Ok(client),
                None => Err(Stop::BadKeys),
            }
        }
        Err(_) => Err(Stop::Read),
    }
}

/// The bytes of the file, where they aren't too many.
pub fn bytes_of<B: Source>(alloc: Global, body: &mut B) -> Result<Octets, Stop>
    ensures takes { (body.new ≡ body.old) ⊎ TakesUpTo B.tells most_bytes body.old body.new }
    ensures found { FindsBytes (B.tells.left body.old) result }
    ensures cause { StopsFor (Rose (B.tells.faults body.old) (B.tells.faults body.new)) ⊥ ⊥
        (IfSome (B.tells.left body.old) (λ bytes. MAX_FILE_BYTES < length bytes)) result }
{
    let mut bytes = match vec![in alloc; 0_u8; TOO_MANY] {
        Ok(bytes) => bytes,
        Err(_) => return Err(Stop::Memory),
    };
    match fill(body, &mut bytes) {
        Ok(count) => {
            if count > MAX_FILE_BYTES as usize {
                return Err(Stop::TooLong);
            }
            bytes.truncate(count);
            Ok(Octets::from_vec(bytes))
        }
        Err(_) => Err(Stop::Read),
    }
}
