//! Orders: runs of a script in which a number, or a list of makers, says whose turn is next. An
//! order is a list of makers that come first, and a rule behind it (`order_rules`), which choose
//! among those that are ready. So an order decides a whole run, and one loop makes the runs of all
//! orders: those of listed turns, of a seed, and of the fixed order.
#![tactic(auto)]

mod laws;
mod play;
mod seeds;

pub use laws::order_decides;
pub use play::play_in_order;
pub use seeds::rule_of_seed;
