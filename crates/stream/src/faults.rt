// Why a reading is refused, and where.
ghost use Rattle.std.specs.Prelude.{◌≡◌};
ghost use Rattle.stream.specs.Faults.{from_net, read_told};

use net::{NetFault, Origin, Placed, Told};

// The bytes end before a command does, the command is unknown, or the net refuses it.
#[derive(Clone, Copy, Debug, PartialEq, Eq)]
pub enum Cause {
    Short,
    Unknown,
    Net(NetFault),
}

// A refused reading: its cause, and where it arose. The byte is the one where the command starts, and the count that of the
// commands before it. It is a type of this crate, and no `Placed<Cause>`, since it has a call of its own, `told`.
#[derive(Clone, Copy, Debug, PartialEq, Eq)]
pub struct ReadFault {
    pub cause: Cause,
    pub origin: Origin,
}

impl From<Placed<NetFault>> for ReadFault {
    ghost from_gives = { λ e r. r ≡ from_net e };

    fn from(e: Placed<NetFault>) -> ReadFault {
        ReadFault {
            cause: Cause::Net(e.fault),
            origin: e.origin,
        }
    }
}

impl ReadFault {
    // The number, layer and place of the refusal.
    pub fn told(self) -> Told
        ensures { result ≡ read_told self }
    {
        // The numbers stand here, since an enum with a fault in one case has none of its own.
        let number = match self.cause {
            Cause::Short => 2,
            Cause::Unknown => 3,
            Cause::Net(e) => e.told().number,
        };
        Told {
            number,
            origin: self.origin,
        }
    }
}
