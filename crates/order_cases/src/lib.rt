//! Cases of the rules of orders, and of runs in an order. They stand apart from `order_rules` and
//! `orders`, so that those are proved once.
#![tactic(auto)]

#[cfg(test)]
mod rules;
#[cfg(test)]
mod runs;
