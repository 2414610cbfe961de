//! What a server is told by its settings file.
//!
//! [`read_settings`] reads a TOML file with eight keys from any source, and takes at most one byte
//! more than the longest may have. One of them, `workers`, may be missing, and is then
//! [`DEFAULT_WORKERS`]; where it is there it has to be as it should be, as the others.
//! `specs/Settings` says which bytes are a settings file, and of which [`Settings`]: a record with
//! a line for each key. The document is the one that the kit's crate `toml` reads of the bytes, and
//! the digits of a key are those of a key file (ov_keyfile). Other keys are passed over.
//! [`settings_in`] reads the settings from bytes, and says why there are no settings
//! ([`SettingsFault`]). That a file has one reading is the law [`settings_are_one`].
#![tactic(auto)]

mod fault;
mod keys;
mod laws;
mod reading;
mod settings;

pub use fault::SettingsFault;
pub use laws::settings_are_one;
pub use reading::{LONGEST, read_settings, settings_in};
pub use settings::{DEFAULT_WORKERS, MAX_SESSIONS, MAX_WORKERS, Settings};
