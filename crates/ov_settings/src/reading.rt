//! Reading a settings file.
ghost use Rattle.std.specs.Prelude.{◌≡◌, ◌⊎◌, length, IfErr, IfOk};
ghost use Rattle.toml.specs.Data.{Members};
ghost use Rattle.toml.specs.View.{table_view};
ghost use Rattle.ov_io.specs.Calls.{IsCallOf};
ghost use Rattle.ov_settings.specs.Settings.{FindsOr, IsDocument, IsOneWord, IsReadAs};
ghost use Rattle.ov_settings.specs.Settings.{IsSettingsFile, IsSettingsStatus, TakesEnough};
ghost use Rattle.ov_settings.specs.Settings.{fault_code};

use crate::fault::SettingsFault;
use crate::keys::settings_of;
use crate::settings::Settings;
use ov_base::Memory;
use ov_io::{Source, fill};
use std::alloc::Global;
use toml::Table;

/// The most bytes of a settings file.
pub const LONGEST: usize = 65_536;

// One byte more than the longest settings file has.
const ENOUGH: usize = 65_537;

// The document of a text.
fn table_of(alloc: Global, bytes: &[u8]) -> Result<Table, SettingsFault>
    ensures found { IfOk result (λ table. IsDocument bytes.now (table_view table)) }
    ensures none { IfErr result (λ fault. (fault ≡ SettingsFault.Memory)
        ⊎ ((fault ≡ SettingsFault.NotToml)
        × ((document : Members) → IsDocument bytes.now document → ⊥))) }
{
    match toml::table_from_slice(alloc, bytes) {
        Ok(table) => Ok(table),
        Err(error) if error.is_memory() => Err(SettingsFault::Memory),
        Err(_) => Err(SettingsFault::NotToml),
    }
}

/// The settings of a file of these bytes.
pub fn settings_in(alloc: Global, bytes: &[u8]) -> Result<Settings, SettingsFault>
    ensures { FindsOr (IsSettingsFile bytes.now) result }
{
    if bytes.len() > LONGEST {
        return Err(SettingsFault::TooLong);
    }
    let table = table_of(alloc, bytes)?;
    settings_of(alloc, &table)
}

// Room for the longest file and one byte more.
fn buffer(alloc: Global) -> Result<Vec<u8>, Memory>
    ensures { IfOk result (λ buffer. length buffer.items ≡ ENOUGH) }
{
    Ok(vec![in alloc; 0; ENOUGH]?)
}

// The settings of the file that the source has left, by way of a buffer.
fn read_into<K: Source>(
    alloc: Global,
    source: &mut K,
    buffer: &mut [u8],
) -> Result<Settings, SettingsFault>
    requires { length buffer.old ≡ ENOUGH }
    ensures read { IsReadAs fault_code (K.tells.left source.old) result }
    ensures needed { TakesEnough K.tells (result ≡ Err SettingsFault.Read) source.old source.new }
    ensures call { IsCallOf K.tells (result ≡ Err SettingsFault.Read) source.old source.new }
{
    let count = fill(source, buffer)?;
    let (bytes, _) = buffer.split_at(count);
    settings_in(alloc, bytes)
}

// The settings of the file that the source has left.
fn read_all<K: Source>(alloc: Global, source: &mut K) -> Result<Settings, SettingsFault>
    ensures read { IsReadAs fault_code (K.tells.left source.old) result }
    ensures needed { TakesEnough K.tells (result ≡ Err SettingsFault.Read) source.old source.new }
    ensures call { IsCallOf K.tells (result ≡ Err SettingsFault.Read) source.old source.new }
{
    match buffer(alloc) {
        Ok(mut buffer) => read_into(alloc, source, &mut buffer),
        Err(Memory) => Err(SettingsFault::Memory),
    }
}

/// The settings of the file that the source has left. The words are those behind the program's
/// name: one, which names the file. It takes at most one byte more than a settings file may have,
/// and doesn't ask again once the source gave nothing.
pub fn read_settings<K: Source>(
    alloc: Global,
    words: &[String],
    source: &mut K,
) -> Result<Settings, u8>
    ensures words { (IsOneWord words.now → ⊥) → (result ≡ Err 2) × (source.new ≡ source.old) }
    ensures read { IsOneWord words.now → IsReadAs (λ code. code) (K.tells.left source.old) result }
    ensures status { IfErr result IsSettingsStatus }
    ensures needed { TakesEnough K.tells (result ≡ Err 5) source.old source.new }
    ensures call { IsCallOf K.tells (result ≡ Err 5) source.old source.new }
{
    match words {
        [_] => match read_all(alloc, source) {
            Ok(settings) => Ok(settings),
            Err(fault) => Err(fault.code()),
        },
        _ => Err(2),
    }
}
