// A printed line.
ghost use Rattle.std.specs.Prelude.{◌≡◌, Some};
ghost use Rattle.report.specs.Lines.{fault_line};
ghost use Rattle.report.specs.Texts.{text};

use std::fmt;
use stream::ReadFault;

// A take and a put are two lines, as they are printed.
#[derive(Clone, Copy, Debug, PartialEq, Eq)]
pub enum Line {
    Long,
    Net(u8, usize),
    Taken(usize),
    Refused(u8, usize),
    Place(usize, u32),
    Take(usize, usize, u32),
    Put(usize, usize, u32),
}

// The text of the line: a word, and its numbers in decimal.
impl fmt::Display for Line {
    ghost output = { λ line. Some (text line) };

    fn fmt<W: fmt::Write>(&self, f: &mut fmt::Formatter<W>) -> fmt::Result {
        match self {
            Line::Long => write!(f, "long"),
            Line::Net(number, at) => write!(f, "net {number} {at}"),
            Line::Taken(count) => write!(f, "taken {count}"),
            Line::Refused(number, at) => write!(f, "refused {number} {at}"),
            Line::Place(p, mark) => write!(f, "place {p} {mark}"),
            Line::Take(t, p, weight) => write!(f, "take {t} {p} {weight}"),
            Line::Put(t, p, weight) => write!(f, "put {t} {p} {weight}"),
        }
    }
}

// The line of a refused net: the number and the byte of the refused command.
impl From<ReadFault> for Line {
    ghost from_gives = { λ fault line. line ≡ fault_line fault };

    fn from(fault: ReadFault) -> Line {
        let told = fault.told();
        Line::Net(told.number, told.origin.at.byte)
    }
}
