// What a run counts and writes, and what comes of its parts.

// How many words of the tape are taken, and how many words are put out.
// They stand beside the lent tape and out words, and not in one struct with them: a run gives them back, the slices are the
// caller's.
#[derive(Clone, Copy, PartialEq, Eq, Debug)]
pub struct Counts {
    pub taken: usize,
    pub sent: usize,
}

// Why a run stops before its end: a place past the cells, no room for a frame, the fuel is spent, no room for a word.
#[derive(Clone, Copy)]
pub(crate) enum Stop {
    Index,
    Full,
    Spent,
    NoOut,
}

// A procedure that is ready to be called: how many further locals it has, its body's node, and its body's height.
#[derive(Clone, Copy)]
pub(crate) struct Routine {
    pub locals: u16,
    pub body: u16,
    pub height: usize,
}

// What a run writes beside the frames: the lent globals, cells and out words, and how far tape and out words are used.
#[derive(Drop)]
pub(crate) struct Store<'a> {
    pub globals: &'a mut [u16],
    pub cells: &'a mut [u16],
    pub out: &'a mut [u16],
    pub counts: Counts,
}
