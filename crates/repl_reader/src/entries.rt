// The forms of a map, by turns.
use repl_values::Value;

/// The pairs of a map in order, and once more their keys, of which a fault may have to tell.
#[derive(Drop)]
pub(crate) struct MapEntries {
    pub keys: Vec<Value>,
    pub pairs: Vec<(Value, Value)>,
}
