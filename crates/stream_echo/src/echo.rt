ghost use Rattle.std.specs.Prelude.{◌≡◌, IfOk};
ghost use Rattle.tcpcm_frames.specs.Frames.{IsSpelled};
ghost use Rattle.stream_echo.specs.Replying.{Echoes, Refuses, new_echo};

use crate::speaking::say;
use linx_base::{Name, NameError, NoMemory};
use request_stream::{Front, Refusal, Server};
use rlnh_end::RlnhEnd;
use std::alloc::Global;
use std::marker::Model;
use tcpcm_end::StreamEnd;
use tcpcm_frames::read;
use tcpcm_framing::front;

/// One endpoint at the end of a stream that sends each signal back.
#[derive(Drop)]
pub struct Echo {
    alloc: Global,
    line: StreamEnd,
    rlnh: RlnhEnd,
    name: Name,
}

impl Model for Echo {
    ghost use Rattle.stream_echo.specs.Echoing.{echo_name};
    ghost use Rattle.stream_echo.specs.Replying.{EchoState, IsSettled};
    ghost use Rattle.std.specs.Prelude.{◌≡◌};

    ghost Value = { EchoState };

    ghost view = { λ e. record { up = e.line; tables = e.rlnh.is.tables } };

    ghost invariant = { λ e. IsSettled e.rlnh × (e.name ≡ echo_name) };
}

impl Echo {
    /// No connection, and no tables.
    pub fn new(alloc: Global) -> Result<Echo, NoMemory>
        ensures { IfOk result (λ echo. echo ≡ new_echo) }
    {
        let name = match Name::of(alloc, b"echo") {
            Ok(name) => name,
            Err(_) => return Err(NoMemory),
        };
        Ok(Echo {
            alloc,
            line: StreamEnd::new(),
            rlnh: RlnhEnd::new(alloc),
            name,
        })
    }
}

impl Server for Echo {
    ghost asks = { λ _ bytes. IsSpelled bytes };

    ghost replies = { Echoes };

    ghost refuses = { Refuses };

    ghost is_full = { λ _ _. ⊥ };

    ghost leaves = { λ _ _ _. Unit {0} };

    fn front(&self, bytes: &[u8], room: u64) -> Front {
        front(bytes, room)
    }

    fn reply(&mut self, request: &[u8], out: &mut Vec<u8>) -> Result<(), Refusal> {
        let frame = match read(self.alloc, request) {
            Ok(frame) => frame,
            Err(_) => return Err(Refusal::NoMemory),
        };
        let means = self.line.input(frame);
        say(&mut self.rlnh, &self.name, means, out)
    }
}
