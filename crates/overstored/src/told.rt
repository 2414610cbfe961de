//! What is wrong and what to do, on standard error. Where that can't be written the status has to
//! do.
use crate::texts::{
    ACCEPTING, CHANGED, FAILED, LISTENING, NO_ADDRESS, NO_FILE, NO_LINE, NO_PLACES, NO_ROOM, OLDER,
    OTHER_KEY, TWO_STORES, WRONG_WORDS, error_in, hint_on, hint_on_door, on_file, on_store,
};
use ov_base::Mode;
use ov_files::{FileFault, NOTHING, fault_of, folder_of, is_open_to_others};
use ov_host::DOOR_FAULT;
use ov_report::word_of;
use ov_settings::{SettingsFault, settings_in};
use std::fs;
use std::io::ErrorKind;

// The keys that are read. All others are passed over.
const KEYS: [&str; 8] = [
    "address",
    "mode",
    "surface",
    "base_check",
    "book",
    "blobs",
    "sessions",
    "workers",
];

// Says what is wrong.
fn say(rt: &HostRuntime, error: &str) {
    let _ = eprintln!(rt; "overstored: error: {error}");
}

// Says what is wrong with this file, key or address.
fn say_of(rt: &HostRuntime, name: &str, error: &str) {
    let _ = eprintln!(rt; "overstored: error: {name}: {error}");
}

// Says what to do.
fn advise(rt: &HostRuntime, hint: &str) {
    let _ = eprintln!(rt; "overstored: hint: {hint}");
}

// Says that the words behind the program's name aren't one settings file.
fn wrong_words(rt: &HostRuntime) {
    say(rt, WRONG_WORDS.0);
    advise(rt, WRONG_WORDS.1);
}

/// Says that memory was refused.
pub fn no_memory(rt: &HostRuntime) {
    say(rt, NO_ROOM.0);
    advise(rt, NO_ROOM.1);
}

/// Says that no connection could be accepted, and that another try comes.
pub fn no_connection<R: Eprint>(rt: &R, why: Option<ErrorKind>) {
    match why {
        Some(why) => {
            let _ = eprintln!(rt; "overstored: warning: can't accept, trying again: {why}");
        }
        None => {
            let _ = eprintln!(rt; "overstored: warning: can't accept, trying again");
        }
    }
}

/// Says that the places of standard streams can't be held.
pub fn no_places(rt: &HostRuntime) {
    say_of(rt, NOTHING, NO_PLACES.0);
    advise(rt, NO_PLACES.1);
}

/// Says that standard output can't be written.
pub fn no_line(rt: &HostRuntime) {
    say(rt, NO_LINE.0);
    advise(rt, NO_LINE.1);
}

// The line of a text on which this byte is, counted from 1.
fn line_of(bytes: &[u8], at: usize) -> usize {
    1 + bytes.iter().take(at).filter(|byte| **byte == b'\n').count()
}

// Says where a text stops being a TOML document.
fn say_place(rt: &HostRuntime, path: &str, bytes: &[u8]) {
    match toml::table_from_slice(rt.alloc(), bytes) {
        Ok(_) => say_of(rt, path, CHANGED.0),
        Err(error) => match error.span() {
            Some(span) => {
                let line = line_of(bytes, span.start);
                let _ = eprintln!(rt;
                    "overstored: error: {path}: line {line}: {}",
                    error.message()
                );
            }
            None => say_of(rt, path, error_in(SettingsFault::NotToml)),
        },
    }
}

// Says what is wrong with the bytes of a settings file.
fn explain(rt: &HostRuntime, path: &str, bytes: &[u8]) {
    match settings_in(rt.alloc(), bytes) {
        Ok(_) => {
            say_of(rt, path, CHANGED.0);
            advise(rt, CHANGED.1);
        }
        Err(fault) => {
            if fault == SettingsFault::NotToml {
                say_place(rt, path, bytes);
            } else {
                say_of(rt, path, error_in(fault));
            }
            advise(rt, hint_on(fault));
        }
    }
}

// Says that a settings file can't be read, and why where the system says so.
fn unreadable(rt: &HostRuntime, path: &str, why: Option<ErrorKind>) {
    match why {
        Some(ErrorKind::NotFound) => say_of(rt, path, NO_FILE),
        Some(why) => {
            let _ = eprintln!(rt; "overstored: error: {path}: {why}");
        }
        None => say_of(rt, path, error_in(SettingsFault::Read)),
    }
    advise(rt, hint_on(SettingsFault::Read));
}

/// Says why there are no settings in this file; none is named where the words aren't one word.
pub fn no_settings(rt: &HostRuntime, path: &str, status: u8) {
    if status == 7 {
        no_memory(rt);
        return;
    }
    if status == 2 && path.is_empty() {
        wrong_words(rt);
        return;
    }
    match fs::read(rt, path) {
        Ok(bytes) if status == 2 => explain(rt, path, &bytes),
        Ok(_) => unreadable(rt, path, None),
        Err(error) => unreadable(rt, path, Some(error.kind())),
    }
}

// Whether a key is read.
fn is_read(key: &str) -> bool {
    KEYS.iter().any(|known| *known == key)
}

/// Names the keys of a settings file that are passed over.
pub fn other_keys(rt: &HostRuntime, path: &str) {
    let Ok(bytes) = fs::read(rt, path) else {
        return;
    };
    let Ok(table) = toml::table_from_slice(rt.alloc(), &bytes) else {
        return;
    };
    for key in table.keys() {
        if !is_read(key.as_str()) {
            let _ = eprintln!(rt; "overstored: warning: {path}: `{key}` is passed over");
            advise(rt, OTHER_KEY);
        }
    }
}

/// Says so where others may read a settings file.
pub fn open_settings(rt: &HostRuntime, path: &str) {
    if is_open_to_others(rt, path) {
        let _ = eprintln!(rt;
            "overstored: warning: {path} can be read by others, and has the surface master"
        );
        let _ = eprintln!(rt; "overstored: hint: keep it to the server by `chmod 600 {path}`");
    }
}

/// Says that there was no store with this book, and that one was begun in this mode.
pub fn new_store<R: Eprint>(rt: &R, book: &str, mode: Mode) {
    let mode = word_of(mode);
    let _ = eprintln!(rt;
        "overstored: note: there was no store at {book}, so a new one was begun, in mode {mode}"
    );
    let _ = eprintln!(rt; "overstored: hint: {TWO_STORES}");
}

/// Says that this book is of the first format, and what its next update does.
pub fn older_store<R: Eprint>(rt: &R, book: &str) {
    let (note, hint) = OLDER;
    let _ = eprintln!(rt; "overstored: note: {book}: {note}");
    let _ = eprintln!(rt; "overstored: hint: {hint}");
}

// Says what is wrong with this file of a store, or with its folder.
fn file_fault(rt: &HostRuntime, path: &str, fault: FileFault) {
    let (error, hint) = on_file(fault);
    match fault {
        FileFault::NoFolder | FileFault::NotMade => say_of(rt, folder_of(path), error),
        _ => say_of(rt, path, error),
    }
    advise(rt, hint);
}

// Says why a store in these files can't be used by the settings in a file.
fn disk_fault(rt: &HostRuntime, settings: &str, book: &str, blobs: &str) {
    let of_book = fault_of(rt, book, &[settings, blobs]);
    match (of_book, fault_of(rt, blobs, &[settings, book])) {
        (Some(fault), _) => file_fault(rt, book, fault),
        (None, Some(fault)) => file_fault(rt, blobs, fault),
        (None, None) => {
            say_of(rt, book, FAILED.0);
            advise(rt, FAILED.1);
        }
    }
}

/// Says how a server ended over a store in these files, by the settings in this one.
pub fn end(rt: &HostRuntime, status: u8, settings: &str, book: &str, blobs: &str) {
    match status {
        4 => disk_fault(rt, settings, book, blobs),
        6 => no_line(rt),
        7 => no_memory(rt),
        _ => match on_store(status) {
            Some((error, hint)) => {
                say_of(rt, book, error);
                advise(rt, hint);
            }
            None => {}
        },
    }
}

/// Says why the door at this address failed, where the status says that it did: at listening, or
/// behind that at accepting.
pub fn door(rt: &HostRuntime, status: u8, address: &str, listens: bool, why: Option<ErrorKind>) {
    if status != DOOR_FAULT {
        return;
    }
    let act = if listens { ACCEPTING } else { LISTENING };
    match why {
        Some(ErrorKind::InvalidInput) => say_of(rt, address, NO_ADDRESS),
        Some(ErrorKind::Uncategorized) | None => say_of(rt, address, act),
        Some(why) => {
            let _ = eprintln!(rt; "overstored: error: {address}: {act}: {why}");
        }
    }
    advise(rt, hint_on_door(why));
}
