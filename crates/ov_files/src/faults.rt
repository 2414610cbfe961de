//! Why a file of a store can't be used, as far as the system says so.

use crate::identity::FileId;
use crate::locks::is_locked_now;
use std::fs;
use std::fs::{Metadata, OpenOptions};
use std::io::ErrorKind;
use std::path::Path;

/// Why a file of a store can't be used.
#[derive(Clone, Copy, Debug, PartialEq, Eq)]
pub enum FileFault {
    /// The file's folder isn't there.
    NoFolder,
    /// The file isn't there, and can't be made in its folder.
    NotMade,
    /// The path is a folder, or another thing that holds no bytes.
    NoFile,
    /// The path is a symbolic link, which may lead to a file that isn't meant.
    Link,
    /// The file may not be read and written.
    NotOurs,
    /// The file has another name that the program uses, that of its keys included.
    TwoNames,
    /// Another program has the file.
    InUse,
}

/// The folder that a file lies in.
pub fn folder_of(path: &str) -> &str {
    match Path::new(path).parent() {
        Some(folder) if !folder.as_str().is_empty() => folder.as_str(),
        _ => ".",
    }
}

/// Whether there is a folder of this name.
pub fn is_folder(rt: &HostRuntime, path: &str) -> bool {
    match fs::metadata(rt, path) {
        Ok(about) => about.is_dir(),
        Err(error) => error.kind() == ErrorKind::PermissionDenied,
    }
}

// Whether the path is a symbolic link.
fn is_link(rt: &HostRuntime, path: &str) -> bool {
    match fs::symlink_metadata(rt, path) {
        Ok(about) => about.is_symlink(),
        Err(_) => false,
    }
}

// Whether one of these paths leads to this file.
fn is_one_of(rt: &HostRuntime, about: &Metadata, paths: &[&str]) -> bool {
    for path in paths {
        match fs::metadata(rt, path) {
            Ok(other) if FileId::of(&other) == FileId::of(about) => return true,
            _ => {}
        }
    }
    false
}

// Why this regular file can't be used, where it can't.
fn fault_of_file(
    rt: &HostRuntime,
    path: &str,
    about: &Metadata,
    others: &[&str],
) -> Option<FileFault> {
    if is_link(rt, path) {
        return Some(FileFault::Link);
    }
    match OpenOptions::new().read(true).write(true).open(rt, path) {
        Ok(_) if is_one_of(rt, about, others) => Some(FileFault::TwoNames),
        Ok(file) if !is_locked_now(&file) => Some(FileFault::InUse),
        Ok(_) => None,
        Err(_) => Some(FileFault::NotOurs),
    }
}

/// Why this file of a store can't be used, where the system says so. The others are the further files
/// that the program uses.
pub fn fault_of(rt: &HostRuntime, path: &str, others: &[&str]) -> Option<FileFault> {
    match fs::metadata(rt, path) {
        Ok(about) if about.is_file() => fault_of_file(rt, path, &about, others),
        Ok(_) => Some(FileFault::NoFile),
        Err(_) if is_link(rt, path) => Some(FileFault::Link),
        Err(_) if is_folder(rt, folder_of(path)) => Some(FileFault::NotMade),
        Err(_) => Some(FileFault::NoFolder),
    }
}
