// The net's own types: what it is kept in, what it is asked, and what it refuses.
ghost use Rattle.std.specs.Prelude.{◌≤◌};
ghost use Rattle.net.specs.Tidy.{Tidy};

use crate::MOST_PLACES;

// What is asked of a net, by its number: which support numbers are reachable, with which a dead marking is reachable, or both.
#[derive(Clone, Copy, Debug, PartialEq, Eq)]
pub enum Question {
    Reach = 1,
    Standstill = 2,
    Both = 3,
}

// What is known of a net beside its sheet, in arrays of fixed size, since nothing is allocated. Standing and support are two lists,
// since each is a list of its own in the definitions, and a place that goes may have been in the support.
#[derive(Clone, Copy, Debug, PartialEq, Eq)]
pub struct Shape {
    pub transitions: usize,
    pub standing: [bool; MOST_PLACES],
    pub support: [bool; MOST_PLACES],
    pub question: Question,
    ghost few: { transitions ≤ 96 },
}

// A net over a lent sheet: a slice, since its owner may lend one of any size. The fields are open to the layers above, which rewrite
// the sheet in place.
#[derive(Drop)]
pub struct Net<'a> {
    pub sheet: &'a mut [u32],
    pub shape: Shape,
    ghost tidy: { Tidy sheet.now shape.transitions },
}

// The two sides of a transition: what it takes from its places, and what it puts into them.
#[derive(Clone, Copy, Debug, PartialEq, Eq)]
pub enum Side {
    Takes,
    Puts,
}

// Why the net refuses a call, with the number that is told.
#[derive(Clone, Copy, Debug, PartialEq, Eq)]
pub enum NetFault {
    WrongSize = 1,
    TooManyPlaces = 5,
    BadFlag = 6,
    TooManyTransitions = 7,
    NoTransition = 8,
    NoPlace = 9,
    BadWeight = 10,
    ArcExists = 11,
    BadQuestion = 12,
}

// The layer that raised a refusal.
#[derive(Clone, Copy, Debug, PartialEq, Eq)]
pub enum Layer {
    Net,
    Reader,
    Book,
    Session,
}

// A place in the bytes of a call: the byte where a command or a step starts, and the count of those before it.
#[derive(Clone, Copy, Debug, PartialEq, Eq)]
pub struct Position {
    pub byte: usize,
    pub count: usize,
}

// Where a refusal arose: the layer that raised it, and the place of the refused command or step in the call.
#[derive(Clone, Copy, Debug, PartialEq, Eq)]
pub struct Origin {
    pub layer: Layer,
    pub at: Position,
}

// What a refusal tells: its number, as it is printed and as a customer's book chooses it, and where it arose.
#[derive(Clone, Copy, Debug, PartialEq, Eq)]
pub struct Told {
    pub number: u8,
    pub origin: Origin,
}

// A lower layer's fault, and where it arose.
#[derive(Clone, Copy, Debug, PartialEq, Eq, Drop)]
pub struct Placed<F> {
    pub fault: F,
    pub origin: Origin,
}

// One number of a net that a look may ask for: by place, or by transition and place. A take and a put are two looks, by the names that
// their users have for them, and not one with a side.
#[derive(Clone, Copy, Debug, PartialEq, Eq)]
pub enum Look {
    Transitions,
    Question,
    Stands(usize),
    Support(usize),
    Mark(usize),
    Take(usize, usize),
    Put(usize, usize),
}
