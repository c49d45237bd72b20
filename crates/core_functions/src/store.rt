// Which functions ask the store, and how many arguments each takes.
ghost use Rattle.std.specs.Prelude.{◌≡◌, Some, None};
ghost use Rattle.repl_values.specs.Inside.RowView.{function_row_view};
ghost use Rattle.core_functions.specs.Names.{function_named};
ghost use Rattle.core_functions.specs.StoreNames.{store_row, store_functions};
ghost use Rattle.core_functions.specs.StoreNames.{store_function_named, store_name_of, store_fits};

use repl_values::{Arity, FunctionRow, HasRow, first_named};

/// A function of the language that asks the store.
#[derive(Clone, Copy, Debug, PartialEq, Eq)]
pub enum StoreFunction {
    Ref,
    Deref,
    RefSet,
    Alter,
    Commute,
    Ensure,
    HistoryCount,
    MinHistory,
    MaxHistory,
    Atom,
    Swap,
    Reset,
    CompareAndSet,
    Agent,
    AgentError,
    RestartAgent,
    Send,
    SendOff,
    Await,
}

const STORE_FUNCTIONS: [StoreFunction; 19] = [
    StoreFunction::Ref,
    StoreFunction::Deref,
    StoreFunction::RefSet,
    StoreFunction::Alter,
    StoreFunction::Commute,
    StoreFunction::Ensure,
    StoreFunction::HistoryCount,
    StoreFunction::MinHistory,
    StoreFunction::MaxHistory,
    StoreFunction::Atom,
    StoreFunction::Swap,
    StoreFunction::Reset,
    StoreFunction::CompareAndSet,
    StoreFunction::Agent,
    StoreFunction::AgentError,
    StoreFunction::RestartAgent,
    StoreFunction::Send,
    StoreFunction::SendOff,
    StoreFunction::Await,
];

impl HasRow for StoreFunction {
    ghost row_of = { store_row };

    ghost functions = { store_functions };

    fn row(self) -> FunctionRow
        ensures meant { function_row_view result ≡ store_row self }
        ensures known { store_function_named result.name.now ≡ Some self }
        ensures apart { function_named result.name.now ≡ None }
    {
        match self {
            StoreFunction::Ref => FunctionRow::new("ref", Arity::OddUpTo(5)),
            StoreFunction::Deref => FunctionRow::new("deref", Arity::Exactly(1)),
            StoreFunction::RefSet => FunctionRow::new("ref-set", Arity::Exactly(2)),
            StoreFunction::Alter => FunctionRow::new("alter", Arity::AtLeast(2)),
            StoreFunction::Commute => FunctionRow::new("commute", Arity::AtLeast(2)),
            StoreFunction::Ensure => FunctionRow::new("ensure", Arity::Exactly(1)),
            StoreFunction::HistoryCount => FunctionRow::new("ref-history-count", Arity::Exactly(1)),
            StoreFunction::MinHistory => FunctionRow::new("ref-min-history", Arity::FromTo(1, 2)),
            StoreFunction::MaxHistory => FunctionRow::new("ref-max-history", Arity::FromTo(1, 2)),
            StoreFunction::Atom => FunctionRow::new("atom", Arity::Exactly(1)),
            StoreFunction::Swap => FunctionRow::new("swap!", Arity::AtLeast(2)),
            StoreFunction::Reset => FunctionRow::new("reset!", Arity::Exactly(2)),
            StoreFunction::CompareAndSet => FunctionRow::new("compare-and-set!", Arity::Exactly(3)),
            StoreFunction::Agent => FunctionRow::new("agent", Arity::Exactly(1)),
            StoreFunction::AgentError => FunctionRow::new("agent-error", Arity::Exactly(1)),
            StoreFunction::RestartAgent => FunctionRow::new("restart-agent", Arity::Exactly(2)),
            StoreFunction::Send => FunctionRow::new("send", Arity::AtLeast(2)),
            StoreFunction::SendOff => FunctionRow::new("send-off", Arity::AtLeast(2)),
            StoreFunction::Await => FunctionRow::new("await", Arity::AtLeast(1)),
        }
    }
}

impl StoreFunction {
    /// The function of this name, without a namespace. It takes no memory.
    pub fn named(name: &str) -> Option<StoreFunction>
        ensures { result ≡ store_function_named name.now }
    {
        first_named(&STORE_FUNCTIONS, name)
    }

    /// Its name in `clojure.core`. No function without a store has this name.
    pub fn name(self) -> &'static str
        ensures text { result.now ≡ store_name_of self }
        ensures known { store_function_named result.now ≡ Some self }
        ensures apart { function_named result.now ≡ None }
    {
        self.row().name
    }

    /// Whether it takes this many arguments. It takes no memory.
    pub fn takes(self, arguments: usize) -> bool
        ensures { result ≡ store_fits self arguments }
    {
        self.row().arity.takes(arguments)
    }
}
