//! Summaries of statements.

/// Summary of a statement: its jumps are listed apart.
#[derive(Clone, Copy)]
pub struct Flow {
    /// True of a statement that may complete normally.
    pub falls: bool,
    /// True of a statement in which something live may throw to a `catch` around it.
    pub acts: bool,
}

/// Summary of a statement that completes normally, without an event.
pub const QUIET: Flow = Flow {
    falls: true,
    acts: false,
};

/// Summary of a statement that completes normally, with an event.
pub const ACTS: Flow = Flow {
    falls: true,
    acts: true,
};

/// Summary of a `return` or a `throw`.
pub const LEAVES: Flow = Flow {
    falls: false,
    acts: true,
};

/// Summary of a jump.
pub const JUMPS: Flow = Flow {
    falls: false,
    acts: false,
};
