// A refusal as it prints: its place by what it counts.

use std::fmt;
use words::fault::{Fault, Kind, Layer};

/// A refusal: its number and layer, its place, the page that a memory has added, and why.
#[derive(Clone, Copy, Debug)]
pub(crate) struct Refusal(pub(crate) Fault);

// Where a refusal arose, beside its page.
#[derive(Clone, Copy)]
enum Place {
    // In the whole, or in the page.
    Whole,
    // The stages chose a word, and it lies too far.
    AfterTheLastStage,
    At(&'static str, usize),
}

// What the place of a refusal counts.
fn counted(kind: Kind, layer: Layer) -> Option<&'static str> {
    match kind {
        Kind::RecipeEnds | Kind::WrongLength | Kind::UnfitMedium => Some("length"),
        Kind::UnknownChain
        | Kind::BytesLeftOver
        | Kind::Columns
        | Kind::StageKind
        | Kind::StageSize => Some("offset"),
        // A stage is given an estimate for each column.
        Kind::TooLarge if layer == Layer::Pile => Some("column"),
        Kind::TooLarge => Some("index"),
        Kind::NoCodeword | Kind::UnfitStages | Kind::StageOutOfRange => Some("stage"),
        Kind::PageOutOfRange => Some("page"),
        Kind::CellOutOfRange => Some("cell"),
        Kind::SpareBitSet => Some("bit"),
        Kind::UnlawfulField | Kind::OutsideKind | Kind::UnfitMemory => None,
    }
}

impl Place {
    fn of(fault: &Fault) -> Self {
        match fault.kind {
            Kind::NoCodeword if fault.place == 0 => Place::AfterTheLastStage,
            Kind::UnfitStages if fault.place == 0 => Place::Whole,
            Kind::PageOutOfRange if fault.page.is_some() => Place::Whole,
            kind => match counted(kind, fault.layer) {
                Some(what) => Place::At(what, fault.place),
                None => Place::Whole,
            },
        }
    }
}

impl fmt::Display for Place {
    fn fmt<W: fmt::Write>(&self, f: &mut fmt::Formatter<W>) -> fmt::Result {
        match self {
            Place::Whole => Ok(()),
            Place::AfterTheLastStage => f.write_str(", after the last stage"),
            Place::At(what, number) => write!(f, ", {what} {number}"),
        }
    }
}

impl fmt::Display for Refusal {
    fn fmt<W: fmt::Write>(&self, f: &mut fmt::Formatter<W>) -> fmt::Result {
        let Fault {
            kind,
            layer,
            page,
            ..
        } = self.0;
        let number = kind.number();
        let place = Place::of(&self.0);
        write!(f, "refused {number} ({layer}{place}")?;
        if let Some(page) = page {
            write!(f, ", page {page}")?;
        }
        write!(f, "): {kind}")
    }
}

#[cfg(test)]
mod tests {
    use super::*;
    use std::test::Fail;

    #[test]
    fn places_are_named(rt: HostRuntime) -> Result<(), Fail> {
        let late = Refusal(Fault::new(Kind::NoCodeword, Layer::Code, 0).on_page(3));
        let told = format!(in rt.alloc(); "{late}")?;
        assert!(rt;
            told.as_str()
                == "refused 12 (code, after the last stage, page 3): no codeword near enough"
        );
        let column = Refusal(Fault::new(Kind::TooLarge, Layer::Pile, 7));
        let told = format!(in rt.alloc(); "{column}")?;
        assert!(rt; told.as_str() == "refused 11 (pile, column 7): a value too large");
        let unfit = Refusal(Fault::new(Kind::UnfitMemory, Layer::Memory, 0));
        let told = format!(in rt.alloc(); "{unfit}")?;
        assert!(rt; told.as_str() == "refused 19 (memory): a code that does not fit the medium");
        Ok(())
    }
}
