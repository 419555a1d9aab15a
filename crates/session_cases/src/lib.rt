//! Cases of a gateway's session over a byte stream: what is replied to the bytes of requests, in
//! pieces of each size, how the session ends, and the steps that its journal has.
#![tactic(auto)]

#[cfg(test)]
mod ends;
#[cfg(test)]
mod journals;
#[cfg(test)]
mod rows;
#[cfg(test)]
mod talking;
