//! Tests of the server: readers and writers that fail, steps that are refused or dishonest, and
//! calls that no program makes.
#![tactic(auto)]

#[cfg(test)]
mod books;
#[cfg(test)]
mod calls;
#[cfg(test)]
mod endings;
#[cfg(test)]
mod ends;
#[cfg(test)]
mod failures;
#[cfg(test)]
mod knowing;
#[cfg(test)]
mod memory;
#[cfg(test)]
mod runners;
#[cfg(test)]
mod servers;
#[cfg(test)]
mod steps;
