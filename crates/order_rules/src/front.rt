//! An order: the makers that come first, and the rule behind them.

ghost use Rattle.std.specs.Prelude.{◌≡◌, ◌<◌, ◌≤◌, ◌^◌, true, drop, length};
ghost use Rattle.order_rules.specs.Orders.{named};
ghost use Rattle.order_rules.specs.Rules.{is_among};

use crate::rule::Rule;

/// Names the next maker of those that are ready: the first one of the front from this place on that
/// is, which is passed over with those before it; and behind the front the one that the rule
/// chooses.
pub fn name(front: &[u32], place: &mut usize, rule: &mut Rule, ready: &[u32]) -> u32
    requires some { 0 < length ready.now }
    requires few { length ready.now < 2 ^ 32 }
    requires within { place.old ≤ length front.now }
    ensures named { record {
      maker = result;
      order = record {
        left = drop place.new front.now;
        rule = rule.new;
      };
    } ≡ named (drop place.old front.now) rule.old ready.now }
    ensures among { is_among result ready.now ≡ true }
    ensures within { place.new ≤ length front.now }
{
    'front: while *place < front.len() {
        let maker = front[*place];
        *place += 1;
        if ready.contains(&maker) {
            return maker;
        }
    }
    rule.choose(ready)
}
