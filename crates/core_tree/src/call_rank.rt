//! The call rank of a body, which is above that of each body that it calls.

ghost use Rattle.std.specs.Prelude.{◌≡◌, ◌<◌, length, slice_index, map};

use crate::model::{Body, Model};

/// The call rank of a body, which is above that of each body that it calls.
pub fn rank(model: &Model, body: u32) -> u32
    requires { body < length model.now.bodies }
    ensures { result ≡ slice_index (map (λ (b : Body). b.rank) model.now.bodies) body }
{
    model.bodies.get(body as usize).rank
}
