//! Whether files can be written, before a run looks for what it is to write.

use explain::{FolderFault, Warning, folder_of, written_names};
use std::fs::{Metadata, OpenOptions};
use std::io::ErrorKind;
use std::os::unix::fs::MetadataExt;
use std::rt::Files;
use std::{fs, io};

/// The bits of a folder's mode by which its owner may make files in it: to write to it and to pass through it.
const OWNER: u32 = 0o300;

/// The bits of a folder's mode by which its group or all others may write to it. Without either, nobody but its owner
/// makes files in it.
const OTHERS: u32 = 0o022;

/// The folder that belongs to whoever runs the program.
const OWN: &str = "/proc/self";

/// Says on standard error which of the files that the words ask to write surely can't be written. None is made or
/// changed.
pub(crate) fn warn<R: Files + Eprint>(rt: &R, words: &[String]) {
    for name in written_names(words).into_iter().flatten() {
        if let Some(fault) = fault_of(rt, name) {
            let warning = Warning { name, fault };
            // a line that can't be written is left out
            let _ = eprintln!(rt; "npnp: {warning}");
        }
    }
}

/// Why a file surely can't be written, if so.
fn fault_of<R: Files>(rt: &R, name: &str) -> Option<FolderFault> {
    match fs::metadata(rt, name) {
        Ok(metadata) if metadata.is_dir() => Some(FolderFault::IsFolder),
        // a pipe or a device isn't opened, since that may wait for whoever reads it
        Ok(metadata) if metadata.is_file() => fault_of_file(rt, name),
        Ok(_) => None,
        // a link that leads nowhere
        Err(_) if fs::symlink_metadata(rt, name).is_ok() => None,
        Err(_) => fault_of_folder(rt, folder_of(name)),
    }
}

/// Opens a file for writing, and leaves it as it is.
fn fault_of_file<R: Files>(rt: &R, name: &str) -> Option<FolderFault> {
    match OpenOptions::new().write(true).open(rt, name) {
        Ok(_file) => None,
        Err(_) => Some(FolderFault::ClosedFile),
    }
}

fn fault_of_folder<R: Files>(rt: &R, folder: &str) -> Option<FolderFault> {
    match fs::metadata(rt, folder) {
        Ok(metadata) if !metadata.is_dir() => Some(FolderFault::NotAFolder),
        Ok(metadata) => is_closed(rt, &metadata).then_some(FolderFault::ClosedFolder),
        Err(error) => fault_of_error(&error),
    }
}

fn fault_of_error(error: &io::Error) -> Option<FolderFault> {
    match error.kind() {
        ErrorKind::NotFound => Some(FolderFault::NoFolder),
        ErrorKind::NotADirectory => Some(FolderFault::NotAFolder),
        ErrorKind::PermissionDenied => Some(FolderFault::ClosedFolder),
        _ => None,
    }
}

/// Whether nothing can be made in a folder: its owner needs the right to, and others where nobody else has it. Root
/// may.
fn is_closed<R: Files>(rt: &R, folder: &Metadata) -> bool {
    let Ok(own) = fs::metadata(rt, OWN) else {
        return false;
    };
    if own.uid() == 0 {
        return false;
    }
    if own.uid() == folder.uid() {
        return folder.mode() & OWNER != OWNER;
    }
    folder.mode() & OTHERS == 0
}
