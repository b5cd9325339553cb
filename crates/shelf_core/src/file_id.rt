//! Which file of the machine a name leads to.

use std::fs;
use std::fs::Metadata;
use std::os::unix::fs::{FileTypeExt, MetadataExt};
use std::rt::Files;

/// The name that leads to whatever standard output goes to.
pub(crate) const OUTPUT: &str = "/dev/stdout";

/// Linux's number of the null device, major 1 and minor 3.
const NULL_DEVICE: u64 = 0x103;

/// What a file is recognized by, whatever names lead to it: the device that it is on, and its number there.
#[derive(Clone, Copy, Debug, PartialEq, Eq)]
pub(crate) struct FileId {
    device: u64,
    inode: u64,
}

impl FileId {
    pub(crate) fn of(metadata: &Metadata) -> FileId {
        FileId {
            device: metadata.dev(),
            inode: metadata.ino(),
        }
    }
}

/// The file that standard output goes to, where bytes of another writer would mix with those of the report; `None`
/// where standard output is closed, the system doesn't say which file it is, or it is the null device, which keeps
/// nothing.
pub(crate) fn output_file<R: Files>(rt: &R) -> Option<FileId> {
    match fs::metadata(rt, OUTPUT) {
        Ok(metadata) if !is_null_device(&metadata) => Some(FileId::of(&metadata)),
        _ => None,
    }
}

fn is_null_device(metadata: &Metadata) -> bool {
    metadata.file_type().is_char_device() & (metadata.rdev() == NULL_DEVICE)
}
