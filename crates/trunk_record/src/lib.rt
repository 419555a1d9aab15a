//! The record of a trunk: what each side of a link said in each of its sessions, and what it was
//! given there, with no packet and no address. `specs/` has the record, what each call of a trunk
//! makes of it, and what a trunk keeps of its two sides; `proofs/` that each change keeps it. It
//! stands below the trunk, which shows it, and below the laws of links, which are proved from it.
#![tactic(auto)]
