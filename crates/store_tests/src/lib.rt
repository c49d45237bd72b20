//! Tests of what no program shows of evaluations, attempts at transactions, and refs: memory that
//! is refused, answers that do not fit, shared refs, and calls that break a rule.
#![tactic(auto)]

#[cfg(test)]
mod attempts;
#[cfg(test)]
mod both_histories;
#[cfg(test)]
mod calls;
#[cfg(test)]
mod given;
#[cfg(test)]
mod histories;
#[cfg(test)]
mod intents;
#[cfg(test)]
mod replays;
#[cfg(test)]
mod rings;
#[cfg(test)]
mod steps;
#[cfg(test)]
mod table_memory;
#[cfg(test)]
mod tables;
#[cfg(test)]
mod walks;
