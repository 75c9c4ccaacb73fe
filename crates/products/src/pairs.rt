// A feeder and a consumer of a place, and how their product is made.

// The kinds of agglomeration: a feeder's puts are joined with its consumers', or a consumer's takes with its feeders'.
#[derive(Clone, Copy, Debug, PartialEq, Eq)]
pub enum Kind {
    Post,
    Pre,
}

// Feeder h and consumer f of place p. Where neither is known yet, the kind and the place are passed apart, since the public calls take
// them apart, as a step tells them.
#[derive(Clone, Copy, Debug, PartialEq, Eq)]
pub struct Pair {
    pub kind: Kind,
    pub p: u8,
    pub h: u8,
    pub f: u8,
}
