// Where the bytes go that are read.

use std::fmt::{self, Display};
use std::{fs, io};

/// Where the bytes of pages go.
#[derive(Clone, Copy)]
pub(crate) enum Output<'a> {
    /// Into the lines that tell of the pages, as text.
    Told,
    Standard,
    File(&'a str),
}

impl<'a> Output<'a> {
    /// The output that a word names.
    pub(crate) fn named(word: &'a str) -> Self {
        match word {
            "-" => Output::Standard,
            file => Output::File(file),
        }
    }
}

impl Output<'_> {
    /// Prints a line that does not come between the bytes.
    pub(crate) fn note<D: Display + Drop>(self, rt: &HostRuntime, line: D) -> io::Result<()> {
        match self {
            Output::Standard => rt.eprintln(line),
            Output::Told | Output::File(_) => rt.println(line),
        }
    }

    /// Whether the bytes would take the place of a file.
    pub(crate) fn replaces(self, rt: &HostRuntime, path: &str) -> io::Result<bool> {
        let Output::File(file) = self else {
            return Ok(false);
        };
        if file == path {
            return Ok(true);
        }
        if !fs::exists(rt, file)? || !fs::exists(rt, path)? {
            return Ok(false);
        }
        Ok(fs::canonicalize(rt, file)?.as_str() == fs::canonicalize(rt, path)?.as_str())
    }

    /// Writes bytes, in place of those that a file has.
    pub(crate) fn put(self, rt: &HostRuntime, bytes: &[u8]) -> io::Result<()> {
        match self {
            Output::Told => Ok(()),
            Output::Standard => Print::write_all(rt, bytes),
            Output::File(path) => fs::write(rt, path, bytes),
        }
    }
}

impl Display for Output<'_> {
    fn fmt<W: fmt::Write>(&self, f: &mut fmt::Formatter<W>) -> fmt::Result {
        match self {
            Output::Told => f.write_str("told"),
            Output::Standard => f.write_str("standard output"),
            Output::File(path) => f.write_str(path),
        }
    }
}
