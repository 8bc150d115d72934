//! The commands of the debugger.
use bn_base::Addr;

/// What a line asks for.
#[derive(Clone, Copy, Drop)]
pub enum DebugCommand {
    /// Nothing: the line is empty.
    Empty,
    /// The hart of this number is chosen.
    Hart(u32),
    /// The chosen hart steps up to so many times.
    Step(u32),
    /// All harts step, up to a breakpoint.
    Go,
    /// So many steps back.
    Back(u32),
    /// Back to the latest step that was at a breakpoint.
    ReverseGo,
    /// A breakpoint is added.
    Break(Addr),
    /// A breakpoint is taken out.
    Unbreak(Addr),
    /// The registers of the chosen hart.
    Registers,
    /// A word of the memory.
    Word(Addr),
    /// The count and pc of each hart, and what it waits for.
    Where,
    /// The end.
    Quit,
    /// Any other line.
    Other,
}
