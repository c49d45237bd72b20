// What an evaluation has still to do, from the inside out.
use evaluation_rules::{Alteration, Occasion, Update};
use repl_asks::{Ask, Commute, NamedFunction, Sending};
use repl_values::{Fault, RefName, Value};
use special_forms::{Forms, Function, Locals, Logic};
use std::boxed::Box;
use std::collections::VecDeque;
use std::sync::{Arc, ArcStr};
use tx_attempt::Attempt;

/// What is called.
#[derive(Drop)]
pub enum Callee {
    Named(NamedFunction),
    // A keyword looks itself up in its argument.
    Keyword(ArcStr),
    // `alter`, `commute`, `swap!`, `send` or `send-off`, with the function that it was given.
    Update(Update, NamedFunction),
}

/// What is made of values in a row.
#[derive(Clone, Copy)]
pub enum Collection {
    Vector,
    Map,
}

/// What waits for the value of the form that is evaluated. Where forms are still to be evaluated,
/// the number behind them is their room: for so many forms inside one another.
#[derive(Drop)]
pub enum Frame {
    // A call: what is called, the values of its first arguments, and the forms of those behind the
    // one that is evaluated.
    Arguments(Callee, Vec<Value>, Forms, u32),
    // The items of a vector or, by turns, the keys and values of a map: those that have values, and
    // the forms behind the one that is evaluated.
    Collection(Collection, Vec<Value>, Forms, u32),
    // The forms of a body behind the one that is evaluated.
    Body(Forms, u32),
    // The bodies of which a condition chooses one: the first where it is true, else the second.
    Choice(Forms, Forms, u32),
    // The forms of `and` or `or` behind the one that is evaluated.
    Logic(Logic, Forms, u32),
    // The name whose value is evaluated, the names and forms behind it by turns, and the body.
    Let(ArcStr, Forms, Forms, u32),
    // The definition of this name.
    Define(ArcStr),
    Throw,
    // The value is the name of the namespace to enter.
    Namespace,
    // A function that asks the store.
    Store(StoreFrame),
    // The newest local goes.
    Unbind,
    // A function's body ends, and this is the place of its call.
    Leave(Place),
}

/// What of a function that asks the store waits for a value.
#[derive(Drop)]
pub enum StoreFrame {
    // `alter`, `commute`, `swap!`, `send` or `send-off`, for its ref, atom or agent: the form of its
    // function, and the forms of the arguments behind that, with their room.
    UpdateTarget(Update, Value, Forms, u32),
    // `alter` or `commute`, for the value of this ref: its function, and the arguments behind it.
    AlterCall(Alteration, RefName, NamedFunction, Vec<Value>, u32),
    // What goes into this ref.
    Held(RefName),
    // What a function gave that is applied to this ref's value, and is to be applied again.
    Commuted(RefName, Commute),
    // What the function of `swap!` gives for this value, which the atom had.
    Swapped(Box<Swap>, Value),
}

/// A call of `swap!`: the number of its atom, its function and the arguments behind it, with its
/// room, and how many tries are left behind this one.
#[derive(Drop)]
pub struct Swap {
    pub atom: u64,
    pub function: NamedFunction,
    pub arguments: Vec<Value>,
    pub room: u32,
    pub left: u32,
}

/// Where a form stands: the locals, and the namespace in which the function was defined
/// whose body it is in; none outside of functions.
#[derive(Drop)]
pub struct Place {
    pub locals: Locals,
    pub home: Option<ArcStr>,
}

/// What stays the same in an evaluation: how many attempts a transaction may make, and on which
/// occasion it is made.
#[derive(Clone, Copy)]
pub struct Setting {
    pub retries: u32,
    pub occasion: Occasion,
}

/// The frames of an evaluation up to its transaction, innermost first, where it stands, and what it
/// carries from form to form: how many calls it may still make, its namespace, the text that it
/// printed, what stays the same, and the transaction that runs.
#[derive(Drop)]
pub struct State {
    pub frames: VecDeque<Frame>,
    pub place: Place,
    pub calls: u32,
    pub namespace: ArcStr,
    pub text: String,
    pub setting: Setting,
    pub transaction: Option<Box<Transaction>>,
}

/// A transaction: its body, the calls and the namespace with which each attempt begins, how many
/// attempts are left behind this one, whether this is the first, the frames around the transaction,
/// and what the attempt did so far. Its place is the one that its frames lead back to.
#[derive(Drop)]
pub struct Transaction {
    pub body: Forms,
    pub room: u32,
    pub calls: u32,
    pub namespace: ArcStr,
    pub left: u32,
    pub is_first: bool,
    pub frames: VecDeque<Frame>,
    pub attempt: Attempt,
}

/// What a symbol is resolved for.
#[derive(Drop)]
pub enum SymbolUse {
    // The value of this symbol.
    Value(ArcStr),
    // The function at the head of a list, with the forms of its arguments.
    Head(Forms, u32),
    // The function of `alter`, `commute`, `swap!`, `send` or `send-off`, with the value before it and
    // the forms of the arguments behind it.
    Update(Update, Value, Forms, u32),
}

/// What an answer is wanted for, by its kind.
#[derive(Drop)]
pub enum Wanted {
    Resolution(SymbolUse),
    // That something is done; the form's value is this one.
    Completion(Value),
    // That the namespace of this name is there. What follows is evaluated in it; the form's value
    // is nil.
    Namespace(ArcStr),
    // The form's value.
    Value,
    // Whether this may be the form's value.
    Permission(Value),
    // Whether this may be sent. The form's value is the agent.
    Sending(Sending),
    // The value of this ref, which is noted.
    Reading(RefName),
    // The same, of a ref that is ensured.
    Ensuring(RefName),
    // The value of an atom, which goes to the function of `swap!`.
    Seen(Box<Swap>),
    // Whether the atom got this value.
    Tried(Box<Swap>, Value),
    // That an attempt has begun. The state has no transaction and no frames.
    Begin(Box<Transaction>),
    // What comes of the commit of a body with this value. The state has no transaction and no
    // frames.
    Verdict(Value, Box<Transaction>),
}

/// What comes next.
#[derive(Drop)]
pub enum Control {
    Evaluate(Value, u32),
    Return(Value),
    Fault(Fault),
    Ask(Ask, Wanted),
    // The body of this function, at these arguments.
    Enter(Arc<Function>, Vec<Value>, u32),
}
