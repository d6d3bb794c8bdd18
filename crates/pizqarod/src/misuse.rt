// Words that are no action.

use crate::usage::Usage;
use std::fmt;

/// Why words name no action.
#[derive(Clone, Copy)]
pub(crate) enum Misuse<'a> {
    /// There is no action of this name.
    Unknown(&'a str),
    /// The action has too many words or too few.
    Words(Usage),
    NotANumber(&'a str),
    NotAState(&'a str),
}

impl<'a> Misuse<'a> {
    /// Why a name orders no action with the words behind it.
    pub(crate) fn of(name: &'a str) -> Self {
        match Usage::of_action(name) {
            Some(usage) => Misuse::Words(usage),
            None => Misuse::Unknown(name),
        }
    }
}

impl fmt::Display for Misuse<'_> {
    fn fmt<W: fmt::Write>(&self, f: &mut fmt::Formatter<W>) -> fmt::Result {
        match self {
            Misuse::Unknown(word) => write!(f, "'{word}' is no action"),
            Misuse::Words(Usage { name, words, .. }) => write!(f, "{name} takes {words}"),
            Misuse::NotANumber(word) => write!(f, "'{word}' is no number"),
            Misuse::NotAState(word) => write!(f, "'{word}' is no state of a cell: 0, 1 or 2"),
        }
    }
}
