// The state of a cell, however a medium keeps it.
ghost use Rattle.std.specs.Prelude.{◌≡◌};
ghost use Rattle.media_laws.specs.Grid.{state_of};
ghost use Rattle.media_laws.specs.Model.{value_of, mark_of};
ghost use Rattle.media.specs.States.{number};

#[derive(Clone, Copy, PartialEq, Eq)]
pub(crate) enum State {
    Zero,
    One,
    Blank,
}

impl From<u8> for State {
    ghost from_gives = { λ byte state. number state ≡ state_of byte };

    // 0, 1, and blank from 2 up.
    fn from(byte: u8) -> State {
        match byte {
            0 => State::Zero,
            1 => State::One,
            _ => State::Blank,
        }
    }
}

impl State {
    // A cell as it is fetched: under a mark its value is not shown.
    pub(crate) fn value(self) -> u8
        ensures { result ≡ value_of (number self) }
    {
        match self {
            State::Zero | State::Blank => 0,
            State::One => 1,
        }
    }

    pub(crate) fn mark(self) -> u8
        ensures { result ≡ mark_of (number self) }
    {
        match self {
            State::Zero | State::One => 0,
            State::Blank => 1,
        }
    }
}
