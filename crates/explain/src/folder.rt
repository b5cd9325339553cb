//! Files that surely can't be written, said before the run.

use check_steps::{Command, command_asked};
use refusal_words::TerminalText;
use std::fmt;

/// Why a file can't be written.
#[derive(Clone, Copy, Debug, PartialEq, Eq)]
pub enum FolderFault {
    /// There is no folder where it is to stand.
    NoFolder,
    /// What should be its folder is none.
    NotAFolder,
    /// Nothing can be made in its folder.
    ClosedFolder,
    /// The name is that of a folder.
    IsFolder,
    /// The file is there, and can't be opened for writing.
    ClosedFile,
}

/// A warning that a file can't be written.
#[derive(Clone, Copy, Debug)]
pub struct Warning<'a> {
    pub name: &'a str,
    pub fault: FolderFault,
}

/// As a line without its line feed.
impl fmt::Display for Warning<'_> {
    fn fmt<W: fmt::Write>(&self, f: &mut fmt::Formatter<W>) -> fmt::Result {
        let Warning { name, fault } = *self;
        let folder = TerminalText::name(folder_of(name));
        write!(f, "{} can't be written: ", TerminalText::name(name))?;
        match fault {
            FolderFault::NoFolder => write!(f, "there is no folder {folder}"),
            FolderFault::NotAFolder => write!(f, "{folder} is no folder"),
            FolderFault::ClosedFolder => write!(f, "the folder {folder} isn't writable"),
            FolderFault::IsFolder => f.write_str("it is a folder"),
            FolderFault::ClosedFile => f.write_str("it isn't writable"),
        }
    }
}

/// The folder in which a file of a name stands.
pub fn folder_of(name: &str) -> &str {
    match name.rsplit_once('/') {
        Some(("", _)) => "/",
        Some((folder, _)) => folder,
        None => ".",
    }
}

/// The files that the words ask to write.
pub fn written_names(words: &[String]) -> [Option<&str>; 2] {
    match command_asked(words) {
        Some(Command::Match(asked)) => [Some(asked.account), None],
        Some(Command::Restore(asked)) => [Some(asked.restored), None],
        Some(Command::Trim(asked)) => [Some(asked.trimmed), None],
        Some(Command::Convert(asked)) => [Some(asked.converted), None],
        Some(Command::Flatten(asked)) => [Some(asked.flat), None],
        Some(Command::Sweep(asked)) => [Some(asked.swept), None],
        Some(Command::Make(asked)) => [Some(asked.first), Some(asked.second)],
        _ => [None, None],
    }
}
