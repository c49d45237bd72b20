//! Tests of the server of connections, which no program can show: its gate sees how evaluations
//! overlap, and its book has what each peer was given.
#![tactic(auto)]

#[cfg(test)]
mod client;
#[cfg(test)]
mod noting;
#[cfg(test)]
mod overlapping;
