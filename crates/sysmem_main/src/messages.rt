//! What the program says where it does nothing with a script.
ghost use Rattle.std.specs.Prelude.{◌≡◌, Some, option_map, slice_get, string_bytes};
ghost use Rattle.sysmem_main.specs.Messages.{file_in, open_reason, shown_name};

use std::fmt;
use std::io::ErrorKind;

/// What stands before a message of the parser.
pub(crate) const NAME: &str = "sysmem: ";

/// What is said where no command is given.
pub(crate) const NO_COMMAND: &str = "\
sysmem: a command is missing: run, threads, explain, draw, check or explore; sysmem --help describes them";

// The name as a message shows it: quotes stand for an empty one.
fn shown(name: &str) -> &str
    ensures { result.now ≡ shown_name name.now }
{
    if name.is_empty() { "''" } else { name }
}

/// A file that can't be opened, and why.
#[derive(Clone, Copy)]
pub(crate) struct Unopened<'a> {
    pub(crate) name: &'a str,
    pub(crate) reason: &'static str,
}

impl fmt::Display for Unopened<'_> {
    ghost use Rattle.std.specs.Prelude.{Some};
    ghost use Rattle.sysmem_main.specs.Messages.{unopened_text};

    ghost output = { λ file. Some (unopened_text file.name.now file.reason.now) };

    fn fmt<W: fmt::Write>(&self, f: &mut fmt::Formatter<W>) -> fmt::Result {
        let (name, reason) = (shown(self.name), self.reason);
        write!(f, "sysmem: {name}: {reason}")
    }
}

/// A file that stands where a command is to stand.
#[derive(Clone, Copy)]
pub(crate) struct Misplaced<'a> {
    pub(crate) name: &'a str,
}

impl fmt::Display for Misplaced<'_> {
    ghost use Rattle.std.specs.Prelude.{Some};
    ghost use Rattle.sysmem_main.specs.Messages.{misplaced_text};

    ghost output = { λ file. Some (misplaced_text file.name.now) };

    fn fmt<W: fmt::Write>(&self, f: &mut fmt::Formatter<W>) -> fmt::Result {
        let name = self.name;
        write!(f, "sysmem: no such command: {name}; try sysmem run FILE")
    }
}

/// Why a file can't be opened, where the system gives an error of this kind. Costs O(1).
pub(crate) fn reason_of(kind: ErrorKind) -> &'static str
    ensures { result.now ≡ open_reason kind }
{
    match kind {
        ErrorKind::NotFound => "no such file",
        ErrorKind::PermissionDenied => "permission denied",
        ErrorKind::NotADirectory => "a part of its path is no directory",
        ErrorKind::IsADirectory => "it is a directory",
        ErrorKind::FilesystemLoop => "too many symbolic links",
        ErrorKind::InvalidFilename => "the name is too long",
        ErrorKind::OutOfMemory => "no memory",
        _ => "it can't be opened",
    }
}

/// The word in the place of a command, if it is the name of a file. Costs O(n) for a word of n bytes.
pub(crate) fn misplaced_file(words: &[String]) -> Option<&str>
    ensures { option_map (λ name. name.now) result
        ≡ file_in (option_map (λ word. string_bytes word) (slice_get words.now 1)) }
{
    match words.get(1) {
        Some(word) => file_name(word.as_str()),
        None => None,
    }
}

// The word, if it is the name of a file: it has a point or a slash, which no command has.
fn file_name(word: &str) -> Option<&str>
    ensures { option_map (λ name. name.now) result ≡ file_in (Some word.now) }
{
    let bytes = word.as_bytes();
    if bytes.contains(&b'.') || bytes.contains(&b'/') {
        Some(word)
    } else {
        None
    }
}
