//! The keys of a settings file.
ghost use Rattle.std.specs.Prelude.{◌≡◌, IfOk, option_map};
ghost use Rattle.toml.specs.View.{table_view};
ghost use Rattle.ov_settings.specs.Settings.{AreSettings, Finds, FindsOr, HoldsDigits, HoldsMode};
ghost use Rattle.ov_settings.specs.Settings.{HoldsNumber, HoldsSessions, HoldsText, HoldsWorkers};
ghost use Rattle.ov_settings.specs.Settings.{fault_code};
ghost use Rattle.ov_settings.specs.Settings.{integer_at, text_at};
ghost use Rattle.ov_keyfile.specs.KeyFile.{IsKeyLine};

use crate::fault::SettingsFault;
use crate::settings::{DEFAULT_WORKERS, MAX_SESSIONS, MAX_WORKERS, Settings};
use ov_base::{Key, Memory, Mode, Octets};
use ov_keyfile::key_of;
use std::alloc::Global;
use toml::Table;

// The text at a key, where there is one.
fn str_at<'a>(table: &'a Table, key: &str) -> Option<&'a str>
    ensures { option_map (λ text. text.now) result ≡ text_at (table_view table.now) key.now }
{
    match table.get(key) {
        Some(value) => value.as_str(),
        None => None,
    }
}

// The integer at a key, where there is one.
fn number_at(table: &Table, key: &str) -> Option<i64>
    ensures { result ≡ integer_at (table_view table.now) key.now }
{
    match table.get(key) {
        Some(value) => value.as_integer(),
        None => None,
    }
}

// A copy of the text at a key, or this fault.
fn text_of(
    alloc: Global,
    table: &Table,
    key: &str,
    fault: SettingsFault,
) -> Result<Octets, SettingsFault>
    requires { fault_code fault ≡ 2 }
    ensures { FindsOr (HoldsText (table_view table.now) key.now) result }
{
    match str_at(table, key) {
        Some(text) => Ok(Octets::copy(alloc, text.as_bytes())?),
        None => Err(fault),
    }
}

// The bytes of the digits at a key, or this fault.
fn digits_of(table: &Table, key: &str, fault: SettingsFault) -> Result<Key, SettingsFault>
    requires { fault_code fault ≡ 2 }
    ensures { FindsOr (λ found. HoldsDigits (table_view table.now) key.now found.bytes) result }
{
    let Some(text) = str_at(table, key) else {
        return Err(fault);
    };
    match key_of(text.as_bytes()) {
        Some(found) => Ok(found),
        None => Err(fault),
    }
}

// The mode that is named.
fn mode_of(table: &Table) -> Result<Mode, SettingsFault>
    ensures { FindsOr (HoldsMode (table_view table.now)) result }
{
    match str_at(table, "mode") {
        Some("full") => Ok(Mode::Full),
        Some("delta") => Ok(Mode::Delta),
        _ => Err(SettingsFault::Mode),
    }
}

// The number at a key, where it is from 1 to `most`, or this fault.
fn number_of(
    table: &Table,
    key: &str,
    most: u32,
    fault: SettingsFault,
) -> Result<u32, SettingsFault>
    requires { fault_code fault ≡ 2 }
    ensures { FindsOr (HoldsNumber (table_view table.now) key.now most) result }
{
    match number_at(table, key) {
        Some(number) if 1 <= number && number <= most as i64 => Ok(number as u32),
        _ => Err(fault),
    }
}

// The number of sessions.
fn sessions_of(table: &Table) -> Result<u32, SettingsFault>
    ensures { FindsOr (HoldsSessions (table_view table.now)) result }
{
    number_of(table, "sessions", MAX_SESSIONS, SettingsFault::Sessions)
}

// The number of workers. A key that is there has to be as it should be.
fn workers_of(table: &Table) -> Result<u32, SettingsFault>
    ensures { FindsOr (HoldsWorkers (table_view table.now)) result }
{
    match table.get("workers") {
        Some(_) => number_of(table, "workers", MAX_WORKERS, SettingsFault::Workers),
        None => Ok(DEFAULT_WORKERS),
    }
}

/// The settings that a document has.
pub fn settings_of(alloc: Global, table: &Table) -> Result<Settings, SettingsFault>
    ensures { FindsOr (AreSettings (table_view table.now)) result }
{
    let mode = mode_of(table)?;
    let surface = digits_of(table, "surface", SettingsFault::Surface)?;
    let base = digits_of(table, "base_check", SettingsFault::BaseCheck)?;
    let base_check = base.bytes;
    let sessions = sessions_of(table)?;
    let workers = workers_of(table)?;
    let address = text_of(alloc, table, "address", SettingsFault::Address)?;
    let book = text_of(alloc, table, "book", SettingsFault::Book)?;
    let blobs = text_of(alloc, table, "blobs", SettingsFault::Blobs)?;
    Ok(Settings {
        address,
        mode,
        surface,
        base_check,
        book,
        blobs,
        sessions,
        workers,
    })
}
