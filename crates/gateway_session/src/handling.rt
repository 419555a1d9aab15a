ghost use Rattle.std.specs.Prelude.{◌≡◌, ◌≢◌, ◌+◌, ◌≤◌, ◌++◌, ℕ, true, IfOk, IfErr, OnOk, OnErr};
ghost use Rattle.std.specs.Prelude.{vec_len, vec_capacity};
ghost use Rattle.journal.specs.Logs.{is_full};
ghost use Rattle.gateway_msgs.specs.declared.reply.Reply.{Reply};
ghost use Rattle.gateway_msgs.specs.Replies.{reply_most, reply_spelling};
ghost use Rattle.gateway_msgs.specs.Fronts.{IsRequest};
ghost use Rattle.gateway_msgs.specs.Requests.{FitsFields, Spells, type_of};
ghost use Rattle.gateway_core.specs.Handling.{Handles, IsAskerOf, Stops, makes_steps};
ghost use Rattle.gateway_session.specs.Replying.{refusal_of};

use fabric::StopCause;
use gateway_core::Gateway;
use gateway_msgs::{Asked, REPLY_MOST, read, write_reply};
use linx_base::NoMemory;
use request_stream::Refusal;
use std::alloc::Global;

/// The request that the bytes are, where there is room for the longest reply.
pub(crate) fn prepare(alloc: Global, request: &[u8], out: &mut Vec<u8>) -> Result<Asked, NoMemory>
    requires { (clients : ℕ) × IsRequest clients request.now }
    ensures spelled { IfOk result (λ asked. (clients : ℕ) → IsRequest clients request.now
        → Spells clients asked.client asked.request request.now) }
    ensures room { OnOk result (vec_len out.new + reply_most ≤ vec_capacity out.new) }
    ensures items { out.new.items ≡ out.old.items }
{
    out.reserve(REPLY_MOST)?;
    read(alloc, request)
}

/// Why a request isn't replied to.
fn refusal_of(cause: StopCause) -> Refusal
    ensures { result ≡ refusal_of cause }
{
    match cause {
        StopCause::JournalFull => Refusal::Full,
        StopCause::NoMemory => Refusal::NoMemory,
    }
}

/// Handles a request, and adds the reply, for which there is room.
pub(crate) fn handle(gateway: &mut Gateway, asked: Asked, out: &mut Vec<u8>) -> Result<(), Refusal>
    requires asker { IsAskerOf gateway.old.layout asked.client asked.request }
    requires fits { FitsFields asked.request }
    requires room { vec_len out.old + reply_most ≤ vec_capacity out.old }
    ensures replied { OnOk result ((answer : Reply)
        × Handles asked.client asked.request gateway.old gateway.new answer
        × (out.new.items ≡ out.old.items
        ++ reply_spelling (type_of asked.request) asked.client answer)) }
    ensures stopped { OnErr result (Stops asked.request gateway.old gateway.new) }
    ensures full { IfErr result (λ e. e ≡ Refusal.Full
        → is_full gateway.new.layout.log.steps ≡ true) }
    ensures full_at { IfErr result (λ e. e ≡ Refusal.Full → makes_steps asked.request ≡ true) }
    ensures serves_all { IfErr result (λ e. e ≢ Refusal.Refused) }
    ensures clients { gateway.new.layout.shape ≡ gateway.old.layout.shape }
{
    let Asked { client, request } = asked;
    let kind = request.kind();
    match gateway.handle(u32::from(client), request) {
        Ok(answer) => {
            write_reply(out, kind, client, &answer);
            Ok(())
        }
        Err(cause) => Err(refusal_of(cause)),
    }
}
