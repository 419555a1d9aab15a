//! What an actor is granted of what it asks: an opening where it has no endpoint, and what needs an
//! endpoint where it has one.
ghost use Rattle.std.specs.Prelude.{◌≡◌, Option};
ghost use Rattle.linx_base.specs.SigNotes.{SigNote};
ghost use Rattle.node_kernel.specs.Answers.{asks_to_open, granted_by, needs_endpoint};
ghost use Rattle.fabric.specs.Standings.{unless_refused};

use crate::standing::Standing;
use journal::{Event, Refusal};

/// Whether an event opens an endpoint.
fn is_opening(event: &Event) -> bool
    ensures { result ≡ asks_to_open event.now }
{
    matches!(event, Event::Open(_))
}

/// Whether an event needs an open endpoint.
fn needs_endpoint(event: &Event) -> bool
    ensures { result ≡ needs_endpoint event.now }
{
    match event {
        Event::Close
        | Event::Send(_)
        | Event::Look(_)
        | Event::Hunt(_)
        | Event::Attach(_)
        | Event::Detach(_) => true,
        _ => false,
    }
}

/// Why an event of an actor that stands so is refused, if it is.
pub(crate) fn refusal_of(standing: &Standing, event: &Event) -> Option<Refusal>
    ensures { (hand : Option SigNote) → granted_by standing.now.endpoint standing.now.closed
        (record { event = event.now; hand = hand })
        ≡ unless_refused result (record { event = event.now; hand = hand }) }
{
    match standing.endpoint {
        Some(inc) => {
            if is_opening(event) {
                return Some(Refusal::IsOpen { inc });
            }
            None
        }
        None => {
            if needs_endpoint(event) {
                return Some(Refusal::NotOpen {
                    at: standing.closed,
                });
            }
            None
        }
    }
}
