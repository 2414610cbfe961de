//! Who may read a file.

use std::os::unix::fs::PermissionsExt;
use std::path::Path;
use std::{env, fs};

// What a mode has where others than the file's owner may read it.
const OTHERS_READ: u32 = 0o044;

// Whether the service manager handed this file over, and itself saw to who may read it. An empty
// name of its folder is none.
fn is_handed_over(rt: &HostRuntime, path: &str) -> bool {
    match env::var(rt, "CREDENTIALS_DIRECTORY") {
        Ok(folder) => !folder.is_empty() && Path::new(path).starts_with(folder.as_str()),
        Err(_) => false,
    }
}

/// Whether others than its owner may read this file.
pub fn is_open_to_others(rt: &HostRuntime, path: &str) -> bool {
    match fs::metadata(rt, path) {
        Ok(about) => {
            about.is_file()
                && about.permissions().mode() & OTHERS_READ != 0
                && !is_handed_over(rt, path)
        }
        Err(_) => false,
    }
}
