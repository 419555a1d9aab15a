//! Orders of turns: whose turn is next, of the makers that are ready. An order is a list of makers
//! that come first, and a rule behind it: rounds, a walk, bursts or priorities. A number decides a
//! rule (`rule_of`). Whom an order names is a function of where it stands and of who is ready, which
//! are numbers from 1 on; what these makers do is not known here.
#![tactic(auto)]

mod bursts;
mod dice;
mod front;
mod priorities;
mod rule;
mod seed;

pub use bursts::Bursts;
pub use front::name;
pub use priorities::Priorities;
pub use rule::Rule;
pub use seed::rule_of;
