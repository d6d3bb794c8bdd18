// A refusal: a number, the layer where it arose, and a place.
ghost use Rattle.std.specs.Prelude.{◌≡◌, Some, None};
ghost use Rattle.words.specs.Faults.{number_of, fault, on_page};
ghost use Rattle.words.specs.Texts.{kind_text, layer_text};

use std::fmt;

/// Why a call refuses, each reason with its number.
#[derive(Clone, Copy, PartialEq, Eq, Debug)]
pub enum Kind {
    RecipeEnds = 1,
    UnknownChain = 2,
    BytesLeftOver = 3,
    Columns = 4,
    StageKind = 5,
    StageSize = 6,
    WrongLength = 10,
    TooLarge = 11,
    NoCodeword = 12,
    UnlawfulField = 13,
    OutsideKind = 14,
    UnfitStages = 15,
    StageOutOfRange = 16,
    PageOutOfRange = 17,
    CellOutOfRange = 18,
    UnfitMemory = 19,
    SpareBitSet = 20,
    UnfitMedium = 21,
}

/// The part of the library in which a refusal arose.
#[derive(Clone, Copy, PartialEq, Eq, Debug)]
pub enum Layer {
    Recipe,
    Field,
    Code,
    Chain,
    Pile,
    Medium,
    Memory,
}

/// A refusal, with the page once a memory has added it.
#[derive(Clone, Copy, PartialEq, Eq, Debug)]
pub struct Fault {
    pub kind: Kind,
    pub layer: Layer,
    pub place: usize,
    pub page: Option<usize>,
}

impl Kind {
    /// The refusal's number.
    pub fn number(self) -> u8
        ensures { result ≡ number_of self }
    {
        self as u8
    }

    /// The refusal in words: what Display prints, for callers that have no formatter.
    pub fn text(self) -> &'static str
        ensures { result.now ≡ kind_text self }
    {
        match self {
            Kind::RecipeEnds => "the recipe ends inside or before a field",
            Kind::UnknownChain => "unknown chain byte",
            Kind::BytesLeftOver => "bytes left over after the last stage",
            Kind::Columns => "no columns, or more than 4096 cells",
            Kind::StageKind => "unknown kind of code, or an extension at odd width",
            Kind::StageSize => "message length or columns do not fit the kind of code",
            Kind::WrongLength => "a buffer of the wrong length",
            Kind::TooLarge => "a value too large",
            Kind::NoCodeword => "no codeword near enough",
            Kind::UnlawfulField => "no lawful field",
            Kind::OutsideKind => "numbers outside the kind",
            Kind::UnfitStages => "stages that do not fit the chain",
            Kind::StageOutOfRange => "no such stage",
            Kind::PageOutOfRange => "no such page",
            Kind::CellOutOfRange => "no such cell, or no such state",
            Kind::UnfitMemory => "a code that does not fit the medium",
            Kind::SpareBitSet => "a spare bit is set",
            Kind::UnfitMedium => "pages, cells or bytes outside the medium's range",
        }
    }
}

impl Layer {
    /// The layer's name: what Display prints, for callers that have no formatter.
    pub fn text(self) -> &'static str
        ensures { result.now ≡ layer_text self }
    {
        match self {
            Layer::Recipe => "recipe",
            Layer::Field => "field",
            Layer::Code => "code",
            Layer::Chain => "chain",
            Layer::Pile => "pile",
            Layer::Medium => "medium",
            Layer::Memory => "memory",
        }
    }
}

impl fmt::Display for Kind {
    ghost output = { λ kind. Some (kind_text kind) };

    fn fmt<W: fmt::Write>(&self, f: &mut fmt::Formatter<W>) -> fmt::Result {
        f.write_str(self.text())
    }
}

impl fmt::Display for Layer {
    ghost output = { λ layer. Some (layer_text layer) };

    fn fmt<W: fmt::Write>(&self, f: &mut fmt::Formatter<W>) -> fmt::Result {
        f.write_str(self.text())
    }
}

impl Fault {
    /// A refusal that has met no memory yet.
    pub fn new(kind: Kind, layer: Layer, place: usize) -> Self
        ensures { result ≡ fault kind layer place }
    {
        Fault {
            kind,
            layer,
            place,
            page: None,
        }
    }

    /// The same refusal, met on a page.
    pub fn on_page(self, page: usize) -> Self
        ensures { result ≡ on_page self page }
    {
        Fault {
            page: Some(page),
            ..self
        }
    }

    /// The refusal's number.
    pub fn number(&self) -> u8
        ensures { result ≡ number_of self.now.kind }
    {
        self.kind.number()
    }
}

impl fmt::Display for Fault {
    fn fmt<W: fmt::Write>(&self, f: &mut fmt::Formatter<W>) -> fmt::Result {
        let Fault {
            kind,
            layer,
            place,
            page,
        } = self;
        let number = self.number();
        match page {
            None => write!(f, "refused {number} ({layer}, place {place}): {kind}"),
            Some(page) => write!(
                f,
                "refused {number} ({layer}, place {place}, page {page}): {kind}"
            ),
        }
    }
}
