// Which functions there are, and how many arguments each takes.
ghost use Rattle.std.specs.Prelude.{◌≡◌, Some};
ghost use Rattle.core_collections.specs.MapNames.{map_row, map_functions, map_function_named};
ghost use Rattle.core_collections.specs.MapNames.{name_of_map_function, fits_map_function};

use repl_values::{Arity, FunctionRow, HasRow, first_named};

/// A function of maps. `Get`, `Contains` and `Assoc` take vectors too.
#[derive(Clone, Copy, Debug, PartialEq, Eq)]
pub enum MapFunction {
    HashMap,
    Get,
    Contains,
    Assoc,
    Dissoc,
    Keys,
    Vals,
}

const MAP_FUNCTIONS: [MapFunction; 7] = [
    MapFunction::HashMap,
    MapFunction::Get,
    MapFunction::Contains,
    MapFunction::Assoc,
    MapFunction::Dissoc,
    MapFunction::Keys,
    MapFunction::Vals,
];

impl HasRow for MapFunction {
    ghost row_of = { map_row };

    ghost functions = { map_functions };

    fn row(self) -> FunctionRow {
        match self {
            MapFunction::HashMap => FunctionRow::new("hash-map", Arity::AnyNumber),
            MapFunction::Get => FunctionRow::new("get", Arity::FromTo(2, 3)),
            MapFunction::Contains => FunctionRow::new("contains?", Arity::Exactly(2)),
            MapFunction::Assoc => FunctionRow::new("assoc", Arity::OddFrom(3)),
            MapFunction::Dissoc => FunctionRow::new("dissoc", Arity::AtLeast(1)),
            MapFunction::Keys => FunctionRow::new("keys", Arity::Exactly(1)),
            MapFunction::Vals => FunctionRow::new("vals", Arity::Exactly(1)),
        }
    }
}

impl MapFunction {
    /// The function of this name, without a namespace. It takes no memory.
    pub fn named(name: &str) -> Option<MapFunction>
        ensures { result ≡ map_function_named name.now }
    {
        first_named(&MAP_FUNCTIONS, name)
    }

    /// Its name in `clojure.core`.
    pub fn name(self) -> &'static str
        ensures text { result.now ≡ name_of_map_function self }
        ensures known { map_function_named result.now ≡ Some self }
    {
        self.row().name
    }

    /// Whether it takes this many arguments. It takes no memory.
    pub fn takes(self, arguments: usize) -> bool
        ensures { result ≡ fits_map_function self arguments }
    {
        self.row().arity.takes(arguments)
    }
}
