//! Tests of the wire, of values, of the reader and of traces, by public calls alone.
#![tactic(auto)]

#[cfg(test)]
mod calls;
#[cfg(test)]
mod keys;
#[cfg(test)]
mod places;
#[cfg(test)]
mod read;
#[cfg(test)]
mod traces;
#[cfg(test)]
mod values;
#[cfg(test)]
mod wire;
