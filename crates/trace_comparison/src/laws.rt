//! What holds of the first difference of any two traces. Each law is the contract of a function
//! that does nothing.
ghost use Rattle.std.specs.Prelude.{◌≡◌, ◌≢◌, ◌++◌, ◌∷◌, ℕ, List, length};
ghost use Rattle.repl_asks.specs.Exchange.{Exchanged};
ghost use Rattle.trace_comparison.specs.Difference.{DiffersFirstAt};

/// Two traces differ first at one place at most.
pub fn first_difference_is_unique()
    ensures { (m n : ℕ) (xs ys : List Exchanged)
        → DiffersFirstAt m xs ys → DiffersFirstAt n xs ys → m ≡ n }
{}

/// Equal traces differ at no place.
pub fn equal_traces_differ_nowhere()
    ensures { (n : ℕ) (xs ys : List Exchanged) → xs ≡ ys → ¬ DiffersFirstAt n xs ys }
{}

/// Where two unequal exchanges stand behind the same ones, the traces differ first at these.
pub fn traces_differ_at_unequal_exchanges()
    ensures { (xs : List Exchanged) (x y : Exchanged) (ys zs : List Exchanged) → x ≢ y
        → DiffersFirstAt (length xs) (xs ++ x ∷ ys) (xs ++ y ∷ zs) }
{}

/// Where a trace goes on behind another, they differ first where that one ends.
pub fn traces_differ_where_one_ends()
    ensures { (xs : List Exchanged) (y : Exchanged) (ys : List Exchanged)
        → DiffersFirstAt (length xs) xs (xs ++ y ∷ ys) }
{}
