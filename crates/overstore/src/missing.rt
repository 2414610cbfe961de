//! Which users of an audit aren't enrolled.

use crate::told::KEY_FILE;
use ov_answering::base_check_of;
use ov_base::{Memory, Name};
use ov_disk::Disk;
use ov_io::FileSource;
use ov_keyfile::{Masters, read_masters};
use ov_store::Store;
use std::alloc::Global;
use std::fs;

// The masters of the key file. A pipe isn't opened again, since that may wait.
fn masters_again(rt: &HostRuntime) -> Option<Masters> {
    if !fs::metadata(rt, KEY_FILE).ok()?.is_file() {
        return None;
    }
    let mut keys = FileSource::new(*rt, KEY_FILE).ok()?;
    match read_masters(&mut keys) {
        Ok(masters) => masters,
        Err(_) => None,
    }
}

// Those names of a list that no user of the store has, with commas between.
fn missing_from<D: Disk>(alloc: Global, list: &str, store: &Store<D>) -> Result<String, Memory> {
    let mut missing = String::new(alloc);
    for word in list.split(',') {
        match Name::read(word.as_bytes()) {
            Some(name) if store.state().user_number(&name).is_none() => {
                if !missing.is_empty() {
                    missing.push(',')?;
                }
                missing.push_str(word)?;
            }
            _ => {}
        }
    }
    Ok(missing)
}

/// Says on standard error which users of an audit's list the store on this disk doesn't have. Nothing is
/// written to it. Where the keys can't be read again, or memory is refused, nothing is said.
pub fn say_missing<D: Disk>(rt: &HostRuntime, words: &[String], disk: &mut D) {
    let [_, list, ..] = words else {
        return;
    };
    let Some(masters) = masters_again(rt) else {
        return;
    };
    let check = base_check_of(&masters.base);
    match Store::open(rt.alloc(), disk, masters.surface, check) {
        Ok(store) => {
            match missing_from(rt.alloc(), list.as_str(), &store) {
                Ok(names) if !names.is_empty() => {
                    let _ = eprintln!(rt; "overstore: note: not enrolled: {names}");
                }
                _ => {}
            }
            let _ = store.close();
        }
        Err(_) => {}
    }
}
