// A net that is being reduced. It is moved, and every session's state has the qualities of a net.
ghost use Rattle.net.specs.States.{view};
ghost use Rattle.net.specs.Qualities.{Sound};

use net::Net;

#[derive(Drop)]
pub struct Session<'a> {
    pub(crate) net: Net<'a>,
    ghost sound: { ∥ Sound (view net) ∥₁ },
}
