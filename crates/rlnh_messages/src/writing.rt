ghost use Rattle.std.specs.Prelude.{◌≡◌, ◌++◌, IfOk};
ghost use Rattle.rlnh_messages.specs.Messages.{HasAddress, IsRlnh, spelling_of, typed};
ghost use Rattle.byteorder.specs.Endian.{big_bytes};

use crate::rlnh::{INIT, INIT_REPLY, PUBLISH, QUERY_NAME, Rlnh, UNPUBLISH, UNPUBLISH_ACK};
use byteorder::{BigEndian, ByteOrder};
use linx_base::{Blob, Inc, NoMemory};
use std::alloc::Global;

/// The version that INIT and its reply name.
const VERSION: u32 = 1;

/// A message of a type, with a number behind it.
fn numbered(kind: u8, number: u32) -> [u8; 8]
    ensures { result ≡ typed kind (big_bytes 4 number) }
{
    let mut bytes = [0; 8];
    bytes[0] = kind;
    BigEndian::write_u32(&mut bytes[4..], number);
    bytes
}

/// The bytes of PUBLISH in front of the name.
fn publication(addr: u32, inc: u64) -> [u8; 16]
    ensures { result ≡ typed 4 (big_bytes 4 addr ++ big_bytes 8 inc) }
{
    let mut bytes = [0; 16];
    bytes[0] = PUBLISH;
    BigEndian::write_u32(&mut bytes[4..], addr);
    BigEndian::write_u64(&mut bytes[8..], inc);
    bytes
}

/// The bytes of a message.
#[tactic(auto, unfolding(crate::specs::Messages::spelling_of))]
pub fn write(alloc: Global, m: &Rlnh) -> Result<Blob, NoMemory>
    requires { HasAddress m.now }
    ensures ok { IfOk result (λ bytes. bytes ≡ spelling_of m.now) }
    // So what is written is read again.
    ensures is_message { IsRlnh m.now }
{
    match m {
        Rlnh::Init => Blob::of(alloc, &numbered(INIT, VERSION)),
        Rlnh::InitReply => Blob::of(alloc, &numbered(INIT_REPLY, VERSION)),
        Rlnh::QueryName(name) => Blob::joined(alloc, &[QUERY_NAME, 0, 0, 0], name.bytes()),
        Rlnh::Publish {
            addr,
            inc: Inc(inc),
            name,
        } => Blob::joined(alloc, &publication(*addr, *inc), name.bytes()),
        Rlnh::Unpublish(addr) => Blob::of(alloc, &numbered(UNPUBLISH, *addr)),
        Rlnh::UnpublishAck(addr) => Blob::of(alloc, &numbered(UNPUBLISH_ACK, *addr)),
    }
}
