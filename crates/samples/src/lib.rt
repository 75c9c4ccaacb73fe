// Nets that several crates of tests read, and what a refusal says, as plain numbers.
#![tactic(auto)]

ghost use Rattle.std.specs.Prelude.{◌≡◌, option_map, set};
ghost use Rattle.std.specs.Result.{result_err, result_map_both};
ghost use Rattle.net.specs.Refusals.{net_number};
ghost use Rattle.net.specs.States.{view};
ghost use Rattle.net.specs.Looks.{looked};

use books::faults::Numbered;
use net::{Look, Net, Told};

// A relay: place 0 with one token, place 1, and place 2 in the support; transition 0 moves a token from 0 to 1, transition 1 from 1
// to 2. The question is reach.
pub const RELAY: [u8; 42] = [
    0x10, 0, 0, 0, 1, 0, 0x10, 0, 0, 0, 0, 0, 0x10, 0, 0, 0, 0, 1, 0x11, 0x11, 0x12, 0, 0, 0, 1,
    0x13, 0, 1, 0, 1, 0x12, 1, 1, 0, 1, 0x13, 1, 2, 0, 1, 0x1f, 1,
];

// Places 0 with 2 tokens, 1, and 2 in the support; transition 0 moves one token from 0 to 1, 1 from 1 to 2, 3 from 0 to 2, and 2
// moves two from 0 to 1. Both questions are open.
pub const WAYS: [u8; 64] = [
    0x10, 0, 0, 0, 2, 0, 0x10, 0, 0, 0, 0, 0, 0x10, 0, 0, 0, 0, 1, 0x11, 0x11, 0x11, 0x11, 0x12, 0,
    0, 0, 1, 0x13, 0, 1, 0, 1, 0x12, 1, 1, 0, 1, 0x13, 1, 2, 0, 1, 0x12, 2, 0, 0, 2, 0x13, 2, 1, 0,
    2, 0x12, 3, 0, 0, 1, 0x13, 3, 2, 0, 1, 0x1f, 3,
];

// The ways with the question of this number.
pub fn ways(question: u8) -> [u8; 64]
    ensures { result ≡ set WAYS 63 question }
{
    let mut bytes = WAYS;
    bytes[63] = question;
    bytes
}

// The number of a refusal, where there is one.
pub fn number<T: Drop, F: Numbered + Drop>(r: Result<T, F>) -> Option<u8>
    ensures { result ≡ option_map F.Numbered.number_of (result_err r) }
{
    r.err().map(|fault| fault.number())
}

// The value of a look, or the number of its refusal.
pub fn seen(net: &Net<'_>, at: Look) -> Result<u32, u8>
    ensures { result ≡ result_map_both (λ n. n) net_number (looked (view net.now) at) }
{
    net.look(at).map_err(|fault| fault.number())
}

// Number, byte and count of what a refusal tells.
pub fn parts(told: Told) -> (u8, usize, usize)
    ensures { result ≡ (told.number, told.origin.at.byte, told.origin.at.count) }
{
    let at = told.origin.at;
    (told.number, at.byte, at.count)
}
