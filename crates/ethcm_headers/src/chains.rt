ghost use Rattle.std.specs.Prelude.{◌≡◌};

use crate::header_bytes::HeaderBytes;
use crate::headers::{
    ACK, CONN, FRAG, NACK, NONE, UDATA, ack_header, conn_header, frag_header, main_header,
    nack_header, udata_header,
};
use linx_base::ConnKind;

/// Which headers stand behind MAIN.
#[derive(Clone, Copy)]
pub enum Layout {
    Conn,
    Ack,
    Nack,
    First,
    Next,
}

impl Layout {
    ghost use Rattle.ethcm_headers.specs.Chains.{layout_length};

    /// The number of bytes of the headers, with MAIN.
    pub fn len(self) -> usize
        ensures { result ≡ layout_length self }
    {
        match self {
            Layout::Conn => 24,
            Layout::Ack | Layout::Nack => 28,
            Layout::First => 48,
            Layout::Next => 36,
        }
    }
}

/// The headers behind MAIN, without the payload.
#[derive(Clone, Copy)]
pub enum Chain {
    Conn(ConnKind),
    Ack {
        next: u32,
    },
    Nack {
        next: u32,
        count: u16,
    },
    First {
        next: u32,
        seq: u32,
        more: bool,
        from: u32,
        to: u32,
        size: u32,
    },
    Next {
        next: u32,
        seq: u32,
        more: bool,
    },
}

impl Chain {
    ghost use Rattle.ethcm_headers.specs.Chains.{layout_of};

    /// Which headers the chain has.
    pub fn layout(&self) -> Layout
        ensures { result ≡ layout_of self.now }
    {
        match self {
            Chain::Conn(_) => Layout::Conn,
            Chain::Ack { .. } => Layout::Ack,
            Chain::Nack { .. } => Layout::Nack,
            Chain::First { .. } => Layout::First,
            Chain::Next { .. } => Layout::Next,
        }
    }
}

/// The headers of a packet.
#[derive(Clone, Copy)]
pub struct Headers {
    pub src: u64,
    pub dst: u64,
    pub chain: Chain,
}

impl Headers {
    ghost use Rattle.ethcm_headers.specs.Chains.{header_bytes};

    /// The bytes of the headers of a packet that has this length.
    #[tactic(auto, unfolding(crate::specs::Chains::chain_bytes))]
    pub fn bytes(&self, length: u16) -> HeaderBytes
        ensures { result ≡ header_bytes length self.now }
    {
        let main = |next: u8| main_header(next, length, self.src, self.dst);
        match self.chain {
            Chain::Conn(kind) => HeaderBytes::pair(&main(CONN), &conn_header(kind)),
            Chain::Ack { next } => HeaderBytes::pair(&main(ACK), &ack_header(NONE, next)),
            Chain::Nack { next, count } => {
                HeaderBytes::pair(&main(NACK), &nack_header(next, count))
            }
            Chain::First {
                next,
                seq,
                more,
                from,
                to,
                size,
            } => HeaderBytes::triple(
                &main(ACK),
                &ack_header(UDATA, next),
                &udata_header(more, seq, from, to, size),
            ),
            Chain::Next { next, seq, more } => HeaderBytes::triple(
                &main(ACK),
                &ack_header(FRAG, next),
                &frag_header(more, seq),
            ),
        }
    }
}
