// Values that are written as the reader reads them.
use repl_reader::read_all;
use repl_values::Value;
use std::alloc::{AllocError, Global};

// The last form of the text.
pub(crate) fn read(alloc: Global, text: &str) -> Result<Value, AllocError> {
    Ok(read_all(alloc, text)?.forms.pop().unwrap_or(Value::Nil))
}
