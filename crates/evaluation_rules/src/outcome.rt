// What calls of the functions that ask the store come to.
use repl_asks::Ask;
use repl_values::{Fault, RefName, Value};

/// What a call comes to, before anybody is asked.
#[derive(Debug, Drop)]
pub enum Call {
    Refused(Fault),
    /// The value of a ref is read.
    Reads(RefName),
    /// A ref gets a value, in the attempt alone.
    Puts(RefName, Value),
    /// Nobody else is to change a ref until the attempt is committed. Its value is read.
    Ensures(RefName),
    /// The answer to this ask is the value.
    AsksValue(Ask),
    /// This is the value, if what is asked is granted.
    AsksPermission(Ask, Value),
}

/// What a call of `alter` or `commute` begins with.
#[derive(Debug, Drop)]
pub enum Altered {
    /// This ref gets what the function makes of its value.
    Ref(RefName),
    Refused(Fault),
}

/// What a call of `swap!` begins with.
#[derive(Debug, Drop)]
pub enum Swapped {
    /// The atom of this number gets what the function makes of its value.
    Atom(u64),
    Refused(Fault),
}

/// What a call of `send` or `send-off` begins with.
#[derive(Debug, Drop)]
pub enum Addressed {
    /// The function is sent to the agent of this number.
    Agent(u64),
    Refused(Fault),
}
