// The open code: each word is its own message.
ghost use Rattle.std.specs.Prelude.{◌≡◌, None};
ghost use Rattle.codes.specs.Kinds.{open_code};
ghost use Rattle.codes.specs.Making.{InRange, Made};
ghost use Rattle.codes.specs.Parameters.{parameters_of};
ghost use Rattle.codes.specs.Simple.{open_lawful};

use crate::checks::Parameters;
use crate::code::Code;
use crate::size::Size;
use words::fault::{Fault, Kind, Layer};

/// The open code of a width and a length: K = N and D = 1, so that nothing is corrected.
#[derive(Clone, Copy)]
pub struct Open {
    size: Size,
}

impl Open {
    /// Refuses a width outside 1 to 8 and a length outside 1 to 4,096.
    pub fn new(width: usize, len: usize) -> Result<Self, Fault>
        ensures { Made (InRange width len) (λ c. (c.size.width ≡ width) × (c.size.len ≡ len)) result }
    {
        let size = Size::new(width, len)?;
        Ok(Open { size })
    }

    fn parameters(&self) -> Parameters
        ensures { result ≡ parameters_of (open_code self.now.size.width self.now.size.len) }
    {
        self.size.parameters(self.size.len)
    }
}

impl Code for Open {
    ghost model = { λ c. open_code c.size.width c.size.len };

    // its numbers are those of its kind, by its type
    ghost refusal = { λ _. None };

    ghost lawful = { λ c s. open_lawful c.size.width c.size.len ((c.size.some_width, c.size.narrow), (c.size.some_places, c.size.short)) };

    fn check(&self) -> Result<(), Fault> {
        Ok(())
    }

    fn width(&self) -> usize {
        self.size.width
    }

    fn len(&self) -> usize {
        self.size.len
    }

    fn message_len(&self) -> usize {
        self.size.len
    }

    fn distance(&self) -> usize {
        1
    }

    fn encode(&self, message: &[u8], word: &mut [u8]) -> Result<(), Fault> {
        self.parameters().check_encode(message, word)?;
        word.copy_from_slice(message);
        Ok(())
    }

    fn message_of(&self, word: &[u8], message: &mut [u8]) -> Result<(), Fault> {
        self.parameters().check_message_of(word, message)?;
        message.copy_from_slice(word);
        Ok(())
    }

    fn correct(&self, word: &mut [u8], marks: &[u8]) -> Result<usize, Fault> {
        self.parameters().check_correct(word, marks)?;
        if marks.contains(&1) {
            return Err(Fault::new(Kind::NoCodeword, Layer::Code, 0));
        }
        Ok(0)
    }
}
