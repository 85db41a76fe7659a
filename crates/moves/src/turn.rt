// How a move ends.

// The variable that a move sets, and the value that it takes.
#[derive(Clone, Copy, Debug, PartialEq, Eq)]
pub(crate) struct Setting {
    pub node: u16,
    pub value: u64,
}

// How a walk ends: what it sets, if it is not blocked, the steps made so far in the run, and the next place on the tape.
#[derive(Clone, Copy, Debug, PartialEq, Eq)]
pub(crate) struct Stop {
    pub set: Option<Setting>,
    pub steps: u64,
    pub next: usize,
}

/// What a move comes to: the nodes evaluated after it, the steps made so far in the run, and the next place on the tape.
#[derive(Clone, Copy, Debug, PartialEq, Eq)]
pub struct Turn {
    pub above: u64,
    pub steps: u64,
    pub next: usize,
}
