// The commands, each with the words behind it and what it does.

use std::fmt;

/// A command. One on an image takes its file and a recipe before the other words; in a script it has the other words alone.
#[derive(Clone, Copy)]
pub(crate) struct Usage {
    pub(crate) name: &'static str,
    on_image: bool,
    pub(crate) words: &'static str,
    about: &'static str,
}

const COMMANDS: [Usage; 12] = [
    Usage {
        name: "describe",
        on_image: false,
        words: "HEX..",
        about: "what each recipe is: a line for each stage and the totals, or why it is refused",
    },
    Usage {
        name: "survey",
        on_image: false,
        words: "",
        about: "a table of the recipes on standard input, one to a line, by reach and then bytes",
    },
    Usage {
        name: "encode",
        on_image: false,
        words: "HEX BITS",
        about: "the codeword of a message, its columns one behind the other",
    },
    Usage {
        name: "damage",
        on_image: false,
        words: "HEX WORD CHANGE..",
        about: "the word with cells changed: 17 turns cell 17 over, 17? makes it blank",
    },
    Usage {
        name: "decode",
        on_image: false,
        words: "HEX WORD",
        about: "what each stage makes of the word, and the answer or the refusal",
    },
    Usage {
        name: "create",
        on_image: true,
        words: "PAGES [--replace]",
        about: "a new image, a file of packed pages; with --replace also where there is one",
    },
    Usage {
        name: "write",
        on_image: true,
        words: "PAGE FILE",
        about: "a file's bytes over the pages from one on",
    },
    Usage {
        name: "read",
        on_image: true,
        words: "PAGE [COUNT] [--output FILE]",
        about: "the bytes of a page, or of some from one on, told or written to a file (- for standard output)",
    },
    Usage {
        name: "patrol",
        on_image: true,
        words: "[PAGE]",
        about: "mends a page, or all",
    },
    Usage {
        name: "wear",
        on_image: true,
        words: "PAGE CELL STATE",
        about: "sets a cell to 0, 1 or 2, which is blank",
    },
    Usage {
        name: "inspect",
        on_image: true,
        words: "PAGE",
        about: "a page's harm and blank cells, and a picture",
    },
    Usage {
        name: "run",
        on_image: true,
        words: "SCRIPT [--strict]",
        about: "such actions one after the other, a line each, as write PAGE FILE",
    },
];

// The words of the usage that stand for something.
const LEGEND: &str = "
HEX is a recipe as hexadecimal text. BITS is a row of 0 and 1, WORD one of 0, 1 and ? for a blank cell; spaces do not count.
IMAGE is a file of packed pages. A script has a line for each action, without the image and the recipe, as write PAGE FILE.
The status is 1 after an error, and where a page was refused; after a script that ran to its end only with --strict.
";

impl Usage {
    /// The command of a name.
    pub(crate) fn of(name: &str) -> Option<Self> {
        COMMANDS.iter().find(|usage| usage.name == name).copied()
    }

    /// The command of a name that does an action on an image, which a script may have.
    pub(crate) fn of_action(name: &str) -> Option<Self> {
        Usage::of(name).filter(|usage| usage.on_image && usage.name != "run")
    }
}

/// A command line.
impl fmt::Display for Usage {
    fn fmt<W: fmt::Write>(&self, f: &mut fmt::Formatter<W>) -> fmt::Result {
        let Usage { name, words, .. } = self;
        let image = if self.on_image { " IMAGE HEX" } else { "" };
        let gap = if words.is_empty() { "" } else { " " };
        write!(f, "pizqarod {name}{image}{gap}{words}")
    }
}

/// What --help prints: each command, and what its words stand for.
#[derive(Clone, Copy)]
pub(crate) struct Help;

impl fmt::Display for Help {
    fn fmt<W: fmt::Write>(&self, f: &mut fmt::Formatter<W>) -> fmt::Result {
        for usage in &COMMANDS {
            let about = usage.about;
            writeln!(f, "{usage}\n    {about}")?;
        }
        f.write_str(LEGEND)
    }
}
