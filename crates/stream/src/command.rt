// A command of a net stream, with its operands. The flag of a place and the question are numbers, since the draft refuses others than it
// knows. The two kinds of arcs are two commands, as the stream has them, and not one with a side.
#[derive(Clone, Copy, Debug, PartialEq, Eq)]
pub enum Command {
    Place(u32, u8),
    Transition,
    ArcIn(u8, u8, u16),
    ArcOut(u8, u8, u16),
    End(u8),
}

// The kinds of commands, which are known from the first byte alone, before there are operands.
#[derive(Clone, Copy, Debug, PartialEq, Eq)]
pub enum Opcode {
    Place,
    Transition,
    ArcIn,
    ArcOut,
    End,
}
