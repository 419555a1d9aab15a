ghost use Rattle.std.specs.Prelude.{◌≡◌, ◌≢◌, ◌<◌, ◌≤◌, IfOk, IfErr, IfSome};
ghost use Rattle.link_laws.specs.Laws.{IsLegal};
ghost use Rattle.request_stream.specs.Answers.{Answered, EndsItself};
ghost use Rattle.request_stream.specs.Ending.{CountsReads, CountsWrites};
ghost use Rattle.timer_laws.specs.Laws.{AreNumbered};
ghost use Rattle.gateway_core.specs.Handling.{first_state, timer_state};
ghost use Rattle.gateway_session.specs.Replying.{Asks, FillsUp, Leaves, Refuses, Replies};
ghost use Rattle.gateway_session.specs.Sessions.{IsServed};
ghost use Rattle.gateway_session.specs.Whole.{IsWhole};

use crate::framing::front_in;
use crate::handling::{handle, prepare};
use gateway_core::Gateway;
use journal::Journal;
use linx_base::NoMemory;
use linx_outside::{Sink, Source};
use request_stream::{Front, Refusal, ServeStop, Server, serve_stream};
use std::alloc::Global;
use std::marker::Model;

/// A gateway for the clients of one stream. Contracts see its state.
#[derive(Drop)]
pub struct Session {
    alloc: Global,
    clients: u8,
    gateway: Gateway,
}

impl Model for Session {
    ghost use Rattle.std.specs.Prelude.{◌≡◌, ◌<◌};
    ghost use Rattle.gateway_core.specs.Handling.{GateState};
    ghost use Rattle.gateway_session.specs.Replying.{clients_of};

    ghost Value = { GateState };

    ghost view = { λ s. s.gateway };

    ghost invariant = { λ s. (s.clients ≡ clients_of s.gateway) × (0 < s.clients) };
}

impl Server for Session {
    ghost asks = { Asks };

    ghost replies = { Replies };

    ghost refuses = { Refuses };

    ghost is_full = { FillsUp };

    ghost leaves = { Leaves };

    fn front(&self, bytes: &[u8], room: u64) -> Front {
        front_in(self.clients, room, bytes)
    }

    fn reply(&mut self, request: &[u8], out: &mut Vec<u8>) -> Result<(), Refusal> {
        match prepare(self.alloc, request, out) {
            Ok(asked) => handle(&mut self.gateway, asked, out),
            Err(NoMemory) => Err(Refusal::NoMemory),
        }
    }
}

impl Session {
    /// A session of so many clients, 1 to 16, at moment 0, with an empty journal.
    pub fn new(alloc: Global, clients: u8) -> Result<Session, NoMemory>
        requires { (0 < clients) × (clients ≤ 16) }
        ensures { IfOk result (λ session. session ≡ first_state clients) }
    {
        Ok(Session {
            alloc,
            clients,
            gateway: Gateway::new(alloc, u32::from(clients))?,
        })
    }

    /// Serves the requests that the source gives, in whatever pieces they come: each is handled and
    /// replied to before the next read.
    pub fn serve<S: Source, K: Sink>(
        &mut self,
        source: &mut S,
        sink: &mut K,
    ) -> Result<(), ServeStop>
        // Where the source told its bytes and these ended the session, the replies are those to
        // the requests that they are.
        ensures answers { IfSome (S.left source.old) (λ bytes. EndsItself result
            → Answered Asks Replies Refuses self.old bytes result
            (K.held sink.old) (K.held sink.new)) }
        // How every session goes, why it ends, and what it leaves of the gateway and its journal.
        ensures served { IsServed result self.old self.new (S.left source.old) (S.left source.new)
            (K.held sink.old) (K.held sink.new) }
        // The journal is the steps of the requests that were handled, and then those of the one that
        // was stopped; and no timer's signal is sent twice.
        ensures whole { AreNumbered (timer_state self.old) → IsWhole self.old self.new }
        ensures reads { CountsReads S.last_count result (S.faults source.old) (S.faults source.new) }
        ensures writes { CountsWrites K.last_count result (K.faults sink.old) (K.faults sink.new) }
        ensures faultless { S.is_faultless source.old → S.is_faultless source.new
            × IfErr result (λ stop. stop ≢ ServeStop.ReadFault) }
    {
        match serve_stream(self.alloc, self, source, sink) {
            Ok(()) => Ok(()),
            Err(stop) => Err(stop),
        }
    }

    /// The journal of all that was done.
    pub fn into_journal(self) -> Journal
        ensures log { result.log ≡ self.layout.log }
        ensures legal { IsLegal self.layout.shape self.layout.log.steps }
    {
        self.gateway.into_journal()
    }
}
