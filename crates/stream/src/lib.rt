// The reader of net streams: one-byte commands with operands, the most significant byte first.
#![tactic(auto)]

ghost use Rattle.std.specs.Prelude.{◌≡◌, ◌+◌, ◌<◌, ◌^◌, true, length};
ghost use Rattle.net.specs.States.{sized, Answered};
ghost use Rattle.net.specs.Views.{drafted, SameSheet};
ghost use Rattle.stream.specs.Streams.{opcode, parsed, decoded, size, applied, stepped, read_on, Stepped, Filled, Read};
ghost use Rattle.stream.specs.Written.{ReadsWhatIsWritten};

mod command;
mod faults;

pub use command::Command;
use command::Opcode;
pub use faults::{Cause, ReadFault};
use net::{Draft, Layer, NetFault, Position, at_place};

// The kind of a command by its first byte.
impl TryFrom<u8> for Opcode {
    type Error = Cause;

    ghost try_from_gives = { λ b r. r ≡ opcode b };

    fn try_from(byte: u8) -> Result<Opcode, Cause> {
        match byte {
            0x10 => Ok(Opcode::Place),
            0x11 => Ok(Opcode::Transition),
            0x12 => Ok(Opcode::ArcIn),
            0x13 => Ok(Opcode::ArcOut),
            0x1f => Ok(Opcode::End),
            _ => Err(Cause::Unknown),
        }
    }
}

impl Opcode {
    // The command of this kind at the front of the bytes, if they hold a whole one. Numbers have the most significant byte first.
    fn parse(self, bytes: &[u8]) -> Option<Command>
        ensures { result ≡ parsed self bytes.now }
    {
        match (self, bytes) {
            (Opcode::Place, [_, a, b, c, d, flag, ..]) => {
                Some(Command::Place(u32::from_be_bytes([*a, *b, *c, *d]), *flag))
            }
            (Opcode::Transition, [_, ..]) => Some(Command::Transition),
            (Opcode::ArcIn, [_, t, p, a, b, ..]) => {
                Some(Command::ArcIn(*t, *p, u16::from_be_bytes([*a, *b])))
            }
            (Opcode::ArcOut, [_, t, p, a, b, ..]) => {
                Some(Command::ArcOut(*t, *p, u16::from_be_bytes([*a, *b])))
            }
            (Opcode::End, [_, question, ..]) => Some(Command::End(*question)),
            _ => None,
        }
    }
}

// The command at the front of the bytes.
fn decode(bytes: &[u8]) -> Result<Command, Cause>
    ensures { result ≡ decoded bytes.now }
{
    let first = bytes.first().ok_or(Cause::Short)?;
    Opcode::try_from(*first)?.parse(bytes).ok_or(Cause::Short)
}

impl Command {
    // How many bytes the command has.
    pub fn size(self) -> usize
        ensures { result ≡ size self }
    {
        match self {
            Command::Place(_, _) => 6,
            Command::Transition => 1,
            Command::ArcIn(_, _, _) | Command::ArcOut(_, _, _) => 5,
            Command::End(_) => 2,
        }
    }
}

// Does to the draft what the command says. A match, since each kind has operands of its own; a closure for each would be made in one.
fn apply(draft: &mut Draft<'_>, c: Command) -> Result<(), NetFault>
    ensures exact { Answered result (drafted draft.new) (drafted draft.old) (applied (drafted draft.old) c) }
    ensures lent { SameSheet draft.new.net draft.old.net }
{
    match c {
        Command::Place(mark, flag) => draft.place(mark, flag.into()),
        Command::Transition => draft.transition(),
        Command::ArcIn(t, p, weight) => draft.arc_in(t.into(), p.into(), weight.into()),
        Command::ArcOut(t, p, weight) => draft.arc_out(t.into(), p.into(), weight.into()),
        Command::End(question) => draft.question(question.into()),
    }
}

// The position behind a command that starts here. A method of `Position`, for the steps of a session too, would be public and would ask
// that nothing overflows.
fn behind(at: Position, c: Command) -> Position
    requires bytes { at.byte + size c < 2 ^ 64 }
    requires count { at.count + 1 < 2 ^ 64 }
    ensures byte { result.byte ≡ at.byte + size c }
    ensures count { result.count ≡ at.count + 1 }
{
    Position {
        byte: at.byte + c.size(),
        count: at.count + 1,
    }
}

// Reads and does the command at the front of the bytes, which start at the given position.
fn step(draft: &mut Draft<'_>, bytes: &[u8], at: Position) -> Result<Command, ReadFault>
    ensures exact { Stepped result (drafted draft.new) (drafted draft.old) (stepped (drafted draft.old) bytes.now at.byte at.count) }
    ensures lent { SameSheet draft.new.net draft.old.net }
{
    let c = decode(bytes).map_err(|cause| ReadFault {
        cause,
        origin: at.origin(Layer::Reader),
    })?;
    at_place(apply(draft, c), at.origin(Layer::Net))?;
    Ok(c)
}

// Reads commands until the end command, and answers the bytes used. Where the bytes end before it, the next step is refused.
// Each turn goes on by the length of its command, which no iterator over the bytes knows.
fn fill(draft: &mut Draft<'_>, bytes: &[u8]) -> Result<usize, ReadFault>
    requires { sized (drafted draft.old) ≡ true }
    ensures exact { Filled result (drafted draft.new) (read_on (length bytes.now) (drafted draft.old) bytes.now 0 0) }
    ensures lent { SameSheet draft.new.net draft.old.net }
{
    let mut at = Position::START;
    loop {
        let c = step(draft, &bytes[at.byte..], at)?;
        at = behind(at, c);
        if let Command::End(_) = c {
            return Ok(at.byte);
        }
    }
}

// Clears the draft, fills it from the bytes, tells it the question, and answers the bytes used. Bytes after the end command
// are not looked at. A refused reading leaves the draft empty.
#[tactic(auto, using(crate::proofs::Reading::empty_sized, crate::proofs::Writing::reads_what_is_written))]
pub fn read(draft: &mut Draft<'_>, bytes: &[u8]) -> Result<usize, ReadFault>
    ensures exact { Read result (drafted draft.new) (drafted draft.old) bytes.now }
    ensures honest { ReadsWhatIsWritten }
    ensures lent { SameSheet draft.new.net draft.old.net }
{
    at_place(draft.clear(), Position::START.origin(Layer::Net))?;
    let filled = fill(draft, bytes);
    if filled.is_err() {
        // The sheet has its size, so that this clearing is not refused.
        let _ = draft.clear();
    }
    filled
}
