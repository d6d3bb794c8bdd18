// A call of a memory, and its answer.
use words::fault::Fault;

/// A call, with what it is given.
#[derive(Clone, Copy, PartialEq, Eq, Debug)]
pub enum Call<'a> {
    Write { page: usize, payload: &'a [u8] },
    Read { page: usize },
    Patrol { page: usize },
    Wear { page: usize, cell: usize, state: u8 },
}

/// The blank cells of a write, the harm of a read and of a patrol, 0 of a wear, or why the call was refused.
pub type Answer = Result<usize, Fault>;
