// Actions on an image as text: those of the command line, and those of a script, one to a line.

use crate::misuse::Misuse;
use crate::output::Output;
use lives::call::Call;

/// One action on an image.
#[derive(Clone, Copy)]
pub(crate) enum Action<'a> {
    /// Makes an image, each cell 0 and none blank, in place of one that there is only if told to.
    Create {
        pages: usize,
        replace: bool,
    },
    /// Writes a file's bytes over the pages from one on.
    Write {
        page: usize,
        file: &'a str,
    },
    /// Reads so many pages from one on.
    Read {
        page: usize,
        count: usize,
        output: Output<'a>,
    },
    PatrolAll,
    /// Does one call: a patrol or a wear.
    Call(Call<'a>),
    Inspect {
        page: usize,
    },
}

fn number<'a>(word: &'a str) -> Result<usize, Misuse<'a>> {
    word.parse().ok().ok_or(Misuse::NotANumber(word))
}

fn state<'a>(word: &'a str) -> Result<u8, Misuse<'a>> {
    word.parse().ok().ok_or(Misuse::NotAState(word))
}

impl<'a> Action<'a> {
    fn create(pages: &'a str, replace: bool) -> Result<Self, Misuse<'a>> {
        Ok(Action::Create {
            pages: number(pages)?,
            replace,
        })
    }

    fn write(page: &'a str, file: &'a str) -> Result<Self, Misuse<'a>> {
        Ok(Action::Write {
            page: number(page)?,
            file,
        })
    }

    fn read(page: &'a str, count: &'a str, output: Output<'a>) -> Result<Self, Misuse<'a>> {
        Ok(Action::Read {
            page: number(page)?,
            count: number(count)?,
            output,
        })
    }

    fn patrol(page: &'a str) -> Result<Self, Misuse<'a>> {
        Ok(Action::Call(Call::Patrol {
            page: number(page)?,
        }))
    }

    fn wear(page: &'a str, cell: &'a str, word: &'a str) -> Result<Self, Misuse<'a>> {
        Ok(Action::Call(Call::Wear {
            page: number(page)?,
            cell: number(cell)?,
            state: state(word)?,
        }))
    }

    fn inspect(page: &'a str) -> Result<Self, Misuse<'a>> {
        Ok(Action::Inspect {
            page: number(page)?,
        })
    }

    /// The action that a name and the words behind it order.
    pub(crate) fn parse(name: &'a str, words: &[&'a str]) -> Result<Self, Misuse<'a>> {
        match (name, words) {
            ("create", [pages]) => Action::create(pages, false),
            ("create", [pages, "--replace"]) => Action::create(pages, true),
            ("write", [page, file]) => Action::write(page, file),
            ("read", [page]) => Action::read(page, "1", Output::Told),
            ("read", [page, count]) => Action::read(page, count, Output::Told),
            ("read", [page, "--output", file]) => Action::read(page, "1", Output::named(file)),
            ("read", [page, count, "--output", file]) => {
                Action::read(page, count, Output::named(file))
            }
            ("patrol", []) => Ok(Action::PatrolAll),
            ("patrol", [page]) => Action::patrol(page),
            ("wear", [page, cell, state]) => Action::wear(page, cell, state),
            ("inspect", [page]) => Action::inspect(page),
            _ => Err(Misuse::of(name)),
        }
    }

    /// Whether the image's file is to be written afterwards.
    pub(crate) fn changes(self) -> bool {
        !matches!(self, Action::Read { .. } | Action::Inspect { .. })
    }
}

#[cfg(test)]
mod tests {
    use super::*;

    #[test]
    fn actions_are_named(rt: HostRuntime) {
        let wear = Action::parse("wear", &["1", "2", "0"]);
        assert!(rt;
            matches!(
                wear,
                Ok(Action::Call(Call::Wear {
                    page: 1,
                    cell: 2,
                    state: 0
                }))
            )
        );
        let read = Action::parse("read", &["7"]);
        assert!(rt;
            matches!(
                read,
                Ok(Action::Read {
                    page: 7,
                    count: 1,
                    output: Output::Told
                })
            )
        );
        let copy = Action::parse("read", &["7", "2", "--output", "-"]);
        assert!(rt;
            matches!(
                copy,
                Ok(Action::Read {
                    page: 7,
                    count: 2,
                    output: Output::Standard
                })
            )
        );
        assert!(rt; matches!(Action::parse("patrol", &[]), Ok(Action::PatrolAll)));
    }

    #[test]
    fn other_words_are_refused(rt: HostRuntime) {
        assert!(rt;
            matches!(
                Action::parse("patrol", &["x"]),
                Err(Misuse::NotANumber("x"))
            )
        );
        let wear = Action::parse("wear", &["1", "2", "256"]);
        assert!(rt; matches!(wear, Err(Misuse::NotAState("256"))));
        assert!(rt; matches!(Action::parse("write", &["0"]), Err(Misuse::Words(_))));
        assert!(rt; matches!(Action::parse("mend", &["0"]), Err(Misuse::Unknown("mend"))));
        assert!(rt; matches!(Action::parse("run", &["0"]), Err(Misuse::Unknown("run"))));
    }
}
