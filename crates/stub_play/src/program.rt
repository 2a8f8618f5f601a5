//! How the program begins and ends: the files that it reads, in their order, and how each fault is reported.

ghost use Rattle.std.specs.Prelude.{◌≡◌, ◌∷◌, [], true, is_some, option_map, string_bytes, IfOk, IfErr, OnOk, Some};
ghost use Rattle.std.specs.IoError.{error_kind};
ghost use Rattle.std.specs.Str.{IsUtf8};
ghost use Rattle.std.specs.declared.io.ErrorKind.TheVariants.{InvalidData};
ghost use Rattle.stub_play.specs.Program.{IsContent, Sets, ending_text, input_of, path_of, status_of, unread_arguments, unread_file};

use crate::plays::{PlayFault, PlayInput};
use crate::report::PlayFormat;
use crate::words::{Words, WordsFault};
use std::alloc::{AllocError, Global};
use std::{fmt, io};

/// A file that the program reads.
#[derive(Clone, Copy, Debug, PartialEq, Eq)]
pub enum InputFile {
    Zone,
    Script,
    Hosts,
}

/// The contents of the files.
#[derive(Drop)]
pub struct FileContents {
    pub zone: String,
    pub script: String,
    pub hosts: Vec<u8>,
}

/// Why the program exits with a status other than 0.
#[derive(Debug, Drop)]
pub enum Ending {
    /// The arguments are invalid, or ask for help. The error's text says which.
    Arguments(clap::Error),
    /// The origin is not a name, or the limit is above 65,507 and `--udp` is given.
    BadWords,
    /// An argument is not valid UTF-8.
    NotUtf8,
    /// A file could not be read, or the zone file or the script is not valid UTF-8: its path, as given.
    CannotRead(String),
    /// The run ended early.
    Fault(PlayFault),
    /// Out of memory.
    Memory,
}

/// Returns the files, in the order in which the program reads them.
pub fn reading_order() -> [InputFile; 3]
    ensures { result ≡ InputFile.Zone ∷ InputFile.Script ∷ InputFile.Hosts ∷ [] }
{
    [InputFile::Zone, InputFile::Script, InputFile::Hosts]
}

impl FileContents {
    /// Creates empty contents.
    pub fn new(alloc: Global) -> Self
        ensures zone { string_bytes result.zone ≡ [] }
        ensures script { string_bytes result.script ≡ [] }
        ensures hosts { result.hosts.items ≡ [] }
    {
        FileContents {
            zone: String::new(alloc),
            script: String::new(alloc),
            hosts: Vec::new(alloc),
        }
    }

    /// Sets the content of a file. The zone file and the script must be valid UTF-8, or else the error is of kind
    /// [`io::ErrorKind::InvalidData`], and nothing is set.
    pub fn set(&mut self, file: InputFile, bytes: Vec<u8>) -> io::Result<()>
        ensures set { OnOk result (Sets self.old file bytes.items self.new) }
        ensures content { OnOk result (IsContent file bytes.items) }
        ensures refused { IfErr result (λ error. ¬ (IsContent file bytes.items)
            × (error_kind error ≡ InvalidData) × (self.new ≡ self.old)) }
    {
        match file {
            InputFile::Zone => self.zone = text_of(bytes)?,
            InputFile::Script => self.script = text_of(bytes)?,
            InputFile::Hosts => self.hosts = bytes,
        }
        Ok(())
    }
}

/// Returns the text of bytes that are valid UTF-8.
fn text_of(bytes: Vec<u8>) -> io::Result<String>
    ensures text { IfOk result (λ text. string_bytes text ≡ bytes.items) }
    ensures valid { OnOk result (IsUtf8 bytes.items) }
    ensures refused { IfErr result (λ error. ¬ (IsUtf8 bytes.items)
        × (error_kind error ≡ InvalidData)) }
{
    match String::from_utf8(bytes) {
        Ok(text) => Ok(text),
        Err(_) => Err(io::Error::from(io::ErrorKind::InvalidData)),
    }
}

impl Words {
    /// Returns the path of a file, as given. There may be none for the hosts file.
    pub fn path(&self, file: InputFile) -> Option<&str>
        ensures { option_map (λ path. path.now) result
            ≡ option_map string_bytes (path_of self.now file) }
    {
        match file {
            InputFile::Zone => Some(self.zone.as_str()),
            InputFile::Script => Some(self.script.as_str()),
            InputFile::Hosts => Some(self.hosts.as_ref()?.as_str()),
        }
    }

    /// Returns how the program ends if reading a file fails with `error`.
    pub fn unread(self, file: InputFile, error: &io::Error) -> Ending
        requires { is_some (path_of self file) ≡ true }
        ensures { unread_file (path_of self file) (error_kind error.now) ≡ Some result }
    {
        if error.kind() == io::ErrorKind::OutOfMemory {
            // Reading the file was refused memory.
            return Ending::Memory;
        }
        Ending::CannotRead(match file {
            InputFile::Zone => self.zone,
            InputFile::Script => self.script,
            InputFile::Hosts => self.hosts.unwrap(),
        })
    }

    /// Returns the input of the run, from the options and the contents of the files. Its report is written as text.
    pub fn into_input(self, contents: FileContents) -> PlayInput
        ensures { result ≡ input_of self contents }
    {
        PlayInput {
            zone: contents.zone,
            script: contents.script,
            hosts: contents.hosts,
            origin: self.origin,
            limit: self.limit,
            cache: self.cache,
            max_ttl: self.max_ttl,
            udp: self.udp,
            types: self.types,
            format: PlayFormat::Text,
        }
    }
}

/// Returns how the program ends if reading its arguments fails with `error`.
pub fn unread_arguments(error: &io::Error) -> Ending
    ensures { result ≡ unread_arguments (error_kind error.now) }
{
    match error.kind() {
        // Copying the arguments was refused memory.
        io::ErrorKind::OutOfMemory => Ending::Memory,
        _ => Ending::NotUtf8,
    }
}

impl From<AllocError> for Ending {
    ghost use Rattle.stub_play.specs.declared.program.Ending.TheVariants.{Memory};

    ghost from_gives = { λ _ ending. ending ≡ Memory };

    fn from(_error: AllocError) -> Ending {
        Ending::Memory
    }
}

impl From<WordsFault> for Ending {
    ghost use Rattle.stub_play.specs.Program.{words_ending};

    ghost from_gives = { λ fault ending. ending ≡ words_ending fault };

    fn from(fault: WordsFault) -> Ending {
        match fault {
            WordsFault::Clap(error) => Ending::Arguments(error),
            WordsFault::Bad => Ending::BadWords,
            WordsFault::Memory => Ending::Memory,
        }
    }
}

impl From<PlayFault> for Ending {
    ghost use Rattle.stub_play.specs.declared.program.Ending.TheVariants.{Fault};

    ghost from_gives = { λ fault ending. ending ≡ Fault fault };

    fn from(fault: PlayFault) -> Ending {
        Ending::Fault(fault)
    }
}

impl Ending {
    /// Returns the exit status: 2 if the arguments are at fault, otherwise 1.
    pub fn status(&self) -> u8
        ensures { result ≡ status_of self.now }
    {
        match self {
            Ending::Arguments(_) | Ending::BadWords | Ending::NotUtf8 => 2,
            Ending::CannotRead(_) | Ending::Fault(_) | Ending::Memory => 1,
        }
    }
}

impl fmt::Display for Ending {
    ghost output = { ending_text };

    /// Writes what the program writes to standard error, including the line break.
    fn fmt<W: fmt::Write>(&self, f: &mut fmt::Formatter<W>) -> fmt::Result {
        match self {
            // Clap's text ends with a line break.
            Ending::Arguments(error) => write!(f, "{error}"),
            Ending::BadWords => f.write_str("bad words\n"),
            Ending::NotUtf8 => f.write_str("arguments are not valid UTF-8\n"),
            Ending::CannotRead(path) => writeln!(f, "cannot read {path}"),
            Ending::Fault(fault) => writeln!(f, "{fault}"),
            Ending::Memory => f.write_str("no memory\n"),
        }
    }
}
