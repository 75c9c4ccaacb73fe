// A net that is being filled. It is moved, and every draft's state has the qualities of a net.
ghost use Rattle.net.specs.States.{view};
ghost use Rattle.net.specs.Qualities.{Sound};

use crate::net::Net;

#[derive(Drop)]
pub struct Draft<'a> {
    pub(crate) net: Net<'a>,
    ghost sound: { ∥ Sound (view net) ∥₁ },
}
