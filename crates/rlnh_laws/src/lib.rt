//! What ties two ends of RLNH: whatever the two sides of a link say, and whatever of it has been
//! heard so far, each word under way is understood when it comes, and none is ever bad. `specs/`
//! has what a session of a side has said and heard, where each link address stands, and what holds
//! of a session alone and of a pair; `proofs/` that each call and each word that is heard keeps it.
//! It stands on the functions of an end alone, and knows no packet.
#![tactic(auto)]
