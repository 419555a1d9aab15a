ghost use Rattle.std.specs.Prelude.{◌<◌};
ghost use Rattle.request_stream.specs.Fronts.{IsFront};
ghost use Rattle.gateway_msgs.specs.Fronts.{IsRequest};

use gateway_msgs::front_of;
use request_stream::Front;

/// What the bytes of a stream begin with, where a request may have as many bytes as there is room.
pub(crate) fn front_in(clients: u8, room: u64, bytes: &[u8]) -> Front
    requires { 0 < clients }
    ensures { IsFront (IsRequest clients) room bytes.now result }
{
    if bytes.is_empty() {
        return Front::More;
    }
    match front_of(clients, room, bytes) {
        gateway_msgs::Front::Whole(size) => Front::Whole(size),
        gateway_msgs::Front::More => Front::More,
        gateway_msgs::Front::Bad => Front::Bad,
    }
}
