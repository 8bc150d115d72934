//! Schedules of recordings without a seed whose harts aren't in threads.

/// How a number draws the turns of a schedule.
#[derive(Clone, Copy, Drop)]
pub enum Manner {
    /// One hart keeps its turns for a while: a burst.
    Bursts,
    /// One hart takes no turn for a while, and each turn is of one of the others.
    Sleeper,
}

/// Which turns a recording without a seed takes on the caller's thread.
#[derive(Clone, Copy, Drop)]
pub enum Schedule<'a> {
    /// Those that a number draws.
    Drawn {
        /// How it draws them.
        manner: Manner,
        /// The number.
        number: u64,
    },
    /// Those of a list as far as it is legal, and then those of seed 0. A byte is a turn, the number of its hart.
    Listed(&'a [u8]),
}
