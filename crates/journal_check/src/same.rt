//! Whether two lists of effects are the same.
ghost use Rattle.std.specs.Prelude.{◌≡◌, ◌↔◌, IsTrue, slice_get};

use journal::Effect;
use linx_base::{Peer, SigNote};

fn same_note(a: &SigNote, b: &SigNote) -> bool
    ensures { IsTrue result ↔ (a.now ≡ b.now) }
{
    a.number() == b.number() && a.data().same(b.data())
}

fn same_peer(a: Peer, b: Peer) -> bool
    ensures { IsTrue result ↔ (a ≡ b) }
{
    a == b
}

fn same_effect(a: &Effect, b: &Effect) -> bool
    ensures { IsTrue result ↔ (a.now ≡ b.now) }
{
    match a {
        Effect::Opened(i) => match b {
            Effect::Opened(j) => i.0 == j.0,
            _ => false,
        },
        Effect::Closed(i) => match b {
            Effect::Closed(j) => i.0 == j.0,
            _ => false,
        },
        Effect::Arrived(i, p, x) => match b {
            Effect::Arrived(j, q, y) => i.0 == j.0 && same_peer(*p, *q) && same_note(x, y),
            _ => false,
        },
        Effect::Found(i, p, x, h) => match b {
            Effect::Found(j, q, y, k) => {
                i.0 == j.0 && same_peer(*p, *q) && same_note(x, y) && *h == *k
            }
            _ => false,
        },
        Effect::Notified(i, p, x, r, why) => match b {
            Effect::Notified(j, q, y, s, because) => {
                i.0 == j.0 && same_peer(*p, *q) && same_note(x, y) && r.0 == s.0 && *why == *because
            }
            _ => false,
        },
        Effect::Met(n, p, v) => match b {
            Effect::Met(m, q, w) => n.0 == m.0 && same_peer(*p, *q) && v.same(w),
            _ => false,
        },
        Effect::Gone(n, p) => match b {
            Effect::Gone(m, q) => n.0 == m.0 && same_peer(*p, *q),
            _ => false,
        },
        Effect::Up(n, l, x, y) => match b {
            Effect::Up(m, k, v, w) => n.0 == m.0 && l.0 == k.0 && x.0 == v.0 && y.0 == w.0,
            _ => false,
        },
        Effect::Down(n, l, x) => match b {
            Effect::Down(m, k, v) => n.0 == m.0 && l.0 == k.0 && x.0 == v.0,
            _ => false,
        },
    }
}

/// Whether two lists have the same effect, or none, at a place.
fn same_at(a: &[Effect], b: &[Effect], place: usize) -> bool
    ensures { IsTrue result ↔ (slice_get a.now place ≡ slice_get b.now place) }
{
    match a.get(place) {
        Some(x) => match b.get(place) {
            Some(y) => same_effect(x, y),
            None => false,
        },
        None => b.get(place).is_none(),
    }
}

/// Whether two lists of effects are the same.
pub(crate) fn same_effects(a: &[Effect], b: &[Effect]) -> bool
    ensures { IsTrue result ↔ (a.now ≡ b.now) }
{
    if a.len() != b.len() {
        return false;
    }
    for place in 0..a.len() {
        if !same_at(a, b, place) {
            return false;
        }
    }
    true
}
