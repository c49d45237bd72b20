// The makers of faults. Each fails only for want of memory.
ghost use Rattle.std.specs.Prelude.{◌≡◌, ◌++◌, IfOk, string_bytes};
ghost use Rattle.repl_values.specs.Print.{print};
ghost use Rattle.value_data.specs.Inside.View.{view};
ghost use Rattle.repl_values.specs.Failure as meant;
ghost use Rattle.repl_values.specs.Inside.FaultView.{failure_of};

use crate::fault::Fault;
use crate::print::print_into;
use crate::rule::Rule;
use itoa::Buffer;
use std::alloc::{AllocError, Global};
use std::sync::ArcStr;
use value_data::Value;

const ARITHMETIC: &str = "java.lang.ArithmeticException";

const CLASS_CAST: &str = "java.lang.ClassCastException";

const ILLEGAL_ARGUMENT: &str = "java.lang.IllegalArgumentException";

const ILLEGAL_STATE: &str = "java.lang.IllegalStateException";

const RUNTIME: &str = "java.lang.RuntimeException";

fn fault(alloc: Global, class: &str, text: &str) -> Result<Fault, AllocError>
    ensures { IfOk result (λ f. failure_of f ≡ record { class = class.now; text = text.now }) }
{
    let class = ArcStr::from_str(alloc, class)?;
    let text = ArcStr::from_str(alloc, text)?;
    Ok(Fault { class, text })
}

// The text is put together already.
fn fault_with_text(alloc: Global, class: &str, text: String) -> Result<Fault, AllocError>
    ensures { IfOk result (λ f. failure_of f
        ≡ record { class = class.now; text = string_bytes text }) }
{
    let class = ArcStr::from_str(alloc, class)?;
    let text = ArcStr::from_string(text)?;
    Ok(Fault { class, text })
}

// The text is what stands in front, and a name behind it.
fn fault_with_name(alloc: Global, class: &str, front: &str, name: &str) -> Result<Fault, AllocError>
    ensures { IfOk result (λ f. failure_of f
        ≡ record { class = class.now; text = front.now ++ name.now }) }
{
    let mut text = String::from_str(alloc, front)?;
    text.push_str(name)?;
    fault_with_text(alloc, class, text)
}

// The text is what stands in front, and a value's print behind it.
fn fault_with_print(
    alloc: Global,
    class: &str,
    front: &str,
    value: &Value,
) -> Result<Fault, AllocError>
    ensures { IfOk result (λ f. failure_of f
        ≡ record { class = class.now; text = front.now ++ print (view value.now) }) }
{
    let mut text = String::from_str(alloc, front)?;
    print_into(alloc, value, &mut text)?;
    fault_with_text(alloc, class, text)
}

/// A result outside 64 signed bits.
pub fn integer_overflow(alloc: Global) -> Result<Fault, AllocError>
    ensures { IfOk result (λ f. failure_of f ≡ meant.integer_overflow) }
{
    fault(alloc, ARITHMETIC, "integer overflow")
}

/// A divisor of zero.
pub fn divide_by_zero(alloc: Global) -> Result<Fault, AllocError>
    ensures { IfOk result (λ f. failure_of f ≡ meant.divide_by_zero) }
{
    fault(alloc, ARITHMETIC, "Divide by zero")
}

/// `argument` is of a kind that the function of this name does not take.
pub fn wrong_argument(alloc: Global, function: &str, argument: &Value) -> Result<Fault, AllocError>
    ensures { IfOk result (λ f. failure_of f
        ≡ meant.wrong_argument function.now (view argument.now)) }
{
    let mut text = String::from_str(alloc, "Wrong argument to ")?;
    text.push_str(function)?;
    text.push_str(": ")?;
    print_into(alloc, argument, &mut text)?;
    fault_with_text(alloc, CLASS_CAST, text)
}

/// This value, or form, stands where a function has to.
pub fn not_a_function(alloc: Global, value: &Value) -> Result<Fault, AllocError>
    ensures { IfOk result (λ f. failure_of f ≡ meant.not_a_function (view value.now)) }
{
    fault_with_print(alloc, CLASS_CAST, "Not a function: ", value)
}

/// A function, as it is called, with a number of arguments that it does not take.
pub fn wrong_arity(alloc: Global, function: &str, arguments: usize) -> Result<Fault, AllocError>
    ensures { IfOk result (λ f. failure_of f ≡ meant.wrong_arity function.now arguments) }
{
    let mut digits = Buffer::new();
    let mut text = String::from_str(alloc, "Wrong number of args (")?;
    text.push_str(digits.format(arguments))?;
    text.push_str(") passed to: ")?;
    text.push_str(function)?;
    fault_with_text(alloc, "clojure.lang.ArityException", text)
}

/// An index outside a list or a vector.
pub fn out_of_bounds(alloc: Global) -> Result<Fault, AllocError>
    ensures { IfOk result (λ f. failure_of f ≡ meant.out_of_bounds) }
{
    fault(
        alloc,
        "java.lang.IndexOutOfBoundsException",
        "Index out of bounds",
    )
}

/// A value that weighs or nests more than the limits.
pub fn too_large(alloc: Global) -> Result<Fault, AllocError>
    ensures { IfOk result (λ f. failure_of f ≡ meant.too_large) }
{
    fault(alloc, ILLEGAL_ARGUMENT, "Value too large")
}

/// A print that would take the printed text past its limit.
pub fn output_too_long(alloc: Global) -> Result<Fault, AllocError>
    ensures { IfOk result (λ f. failure_of f ≡ meant.output_too_long) }
{
    fault(alloc, ILLEGAL_ARGUMENT, "Output too long")
}

/// A key of a map to which an equal one stands before.
pub fn duplicate_key(alloc: Global, key: &Value) -> Result<Fault, AllocError>
    ensures { IfOk result (λ f. failure_of f ≡ meant.duplicate_key (view key.now)) }
{
    fault_with_print(alloc, ILLEGAL_ARGUMENT, "Duplicate key: ", key)
}

/// The last of an odd number of keys and values.
pub fn no_value_supplied(alloc: Global, key: &Value) -> Result<Fault, AllocError>
    ensures { IfOk result (λ f. failure_of f ≡ meant.no_value_supplied (view key.now)) }
{
    fault_with_print(alloc, ILLEGAL_ARGUMENT, "No value supplied for key: ", key)
}

/// Another shape of the special form of this name.
pub fn bad_form(alloc: Global, name: &str) -> Result<Fault, AllocError>
    ensures { IfOk result (λ f. failure_of f ≡ meant.bad_form name.now) }
{
    fault_with_name(alloc, ILLEGAL_ARGUMENT, "Bad form: ", name)
}

/// A symbol that names nothing.
pub fn unresolved_symbol(alloc: Global, symbol: &str) -> Result<Fault, AllocError>
    ensures { IfOk result (λ f. failure_of f ≡ meant.unresolved_symbol symbol.now) }
{
    let mut text = String::from_str(alloc, "Unable to resolve symbol: ")?;
    text.push_str(symbol)?;
    text.push_str(" in this context")?;
    fault_with_text(alloc, RUNTIME, text)
}

/// The namespace of a symbol is not there.
pub fn no_such_namespace(alloc: Global, name: &str) -> Result<Fault, AllocError>
    ensures { IfOk result (λ f. failure_of f ≡ meant.no_such_namespace name.now) }
{
    fault_with_name(alloc, RUNTIME, "No such namespace: ", name)
}

/// A symbol with a namespace that does not bind its name.
pub fn no_such_var(alloc: Global, symbol: &str) -> Result<Fault, AllocError>
    ensures { IfOk result (λ f. failure_of f ≡ meant.no_such_var symbol.now) }
{
    fault_with_name(alloc, RUNTIME, "No such var: ", symbol)
}

/// A namespace that is the same for all, and that nobody enters or defines in.
pub fn namespace_is_fixed(alloc: Global, name: &str) -> Result<Fault, AllocError>
    ensures { IfOk result (λ f. failure_of f ≡ meant.namespace_is_fixed name.now) }
{
    fault_with_name(alloc, ILLEGAL_STATE, "Namespace is fixed: ", name)
}

/// A symbol that names a function, in a value's place.
pub fn not_a_value(alloc: Global, symbol: &str) -> Result<Fault, AllocError>
    ensures { IfOk result (λ f. failure_of f ≡ meant.not_a_value symbol.now) }
{
    fault_with_name(alloc, RUNTIME, "A function isn't a value: ", symbol)
}

/// A form called more functions than its budget has calls.
pub fn too_many_calls(alloc: Global) -> Result<Fault, AllocError>
    ensures { IfOk result (λ f. failure_of f ≡ meant.too_many_calls) }
{
    fault(alloc, RUNTIME, "Budget of 10000 calls is passed")
}

/// A form inside more forms than may be under way at once.
pub fn too_deep(alloc: Global) -> Result<Fault, AllocError>
    ensures { IfOk result (λ f. failure_of f ≡ meant.too_deep) }
{
    fault(
        alloc,
        "java.lang.StackOverflowError",
        "Depth of 200 is passed",
    )
}

/// A value that a program threw and that is no fault, by its text.
pub fn thrown_text(alloc: Global, text: String) -> Result<Fault, AllocError>
    ensures { IfOk result (λ f. failure_of f ≡ meant.thrown_text (string_bytes text)) }
{
    fault_with_text(alloc, "clojure.lang.ExceptionInfo", text)
}

/// The fault of a form that breaks this rule.
pub fn broken_rule(alloc: Global, rule: Rule) -> Result<Fault, AllocError>
    ensures { IfOk result (λ f. failure_of f ≡ meant.broken_rule rule) }
{
    match rule {
        Rule::ATransactionRuns => fault(alloc, ILLEGAL_STATE, "No transaction running"),
        Rule::NoSetAfterCommute => fault(alloc, ILLEGAL_STATE, "Can't set after commute"),
        Rule::NoIoInTransaction => fault(alloc, ILLEGAL_STATE, "I/O in transaction"),
        Rule::NoAwaitInTransaction => fault(alloc, ILLEGAL_STATE, "await in transaction"),
        Rule::NoAwaitInAction => fault(alloc, ILLEGAL_STATE, "Can't await in agent action"),
        Rule::SharedBoundsStay => fault(alloc, ILLEGAL_STATE, "Shared history can't be set"),
        Rule::SharedHistoryIsHidden => fault(
            alloc,
            ILLEGAL_STATE,
            "Shared history can't be read in a transaction",
        ),
        Rule::SharedTextDefinesAlone => {
            fault(alloc, ILLEGAL_STATE, "Not allowed in the shared namespace")
        }
        Rule::SharedRefsArePlain => fault(
            alloc,
            ILLEGAL_ARGUMENT,
            "Only plain data goes into a shared ref",
        ),
        Rule::CommutesAreOfCore => fault(alloc, ILLEGAL_ARGUMENT, "commute takes a core function"),
        Rule::AttemptsAreLimited => fault(
            alloc,
            RUNTIME,
            "Transaction failed after reaching retry limit",
        ),
        Rule::AgentHasNotFailed => fault(alloc, RUNTIME, "Agent is failed, needs restart"),
        Rule::AgentHasFailed => fault(alloc, RUNTIME, "Agent does not need a restart"),
    }
}
