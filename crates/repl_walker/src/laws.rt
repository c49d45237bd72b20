//! Laws of evaluations and their traces. The functions do nothing: what they ensure is proved.
ghost use Rattle.std.specs.Prelude.{◌≡◌, ◌↔◌, ◌⊎◌, ℕ, suc, List, [], ◌∷◌, ◌++◌};
ghost use Rattle.value_data.specs.Datum.{Datum, nil};
ghost use Rattle.repl_asks.specs.Exchange.{AnswerData, begin, Exchanged};
ghost use Rattle.repl_asks.specs.InteractionTree.{InteractionTree};
ghost use Rattle.repl_asks.specs.Leading.{Leads, tree_after, AreItsAsks};
ghost use Rattle.evaluation_rules.specs.Doing.{Kept, Exit, Doing, left};
ghost use Rattle.evaluation_rules.specs.Tree.{written_tree};
ghost use Rattle.evaluation_rules.specs.Places.{PlaceData};
ghost use Rattle.evaluation_rules.specs.Rows.{value_of_last};
ghost use Rattle.evaluation_rules.specs.Transactions.{body_of, after_body, attempts};
ghost use Rattle.evaluation_rules.specs.Evaluation.{value_at};
ghost use Rattle.repl_asks.specs.Accesses.{AccessData};
ghost use Rattle.repl_walker.specs.Standing.{standing_after, on_from};
ghost use Rattle.repl_walker.specs.Attempts.{IsUnderWay, IsDivided};
ghost use Rattle.repl_walker.specs.Agreeing.{AgreeingAttempts};
ghost use Rattle.repl_walker.specs.Values.{ValuesStay};
ghost use Rattle.repl_walker.specs.Retries.{RetriesLeave};

/// A trace leads an evaluation to one thing alone: to what it does after these answers, where each
/// ask of the trace is what the evaluation asks next.
pub fn exchanges_lead_to_what_comes_after()
    ensures { (start end : InteractionTree) (trace : List Exchanged)
        → (Leads start trace end ↔ AreItsAsks start trace × (tree_after start trace ≡ end)) }
{}

/// A trace that leads a transaction on begins an attempt, and then it is that of the attempt's
/// body. Once the body is left, what follows is the commit of what it did, or another attempt of as
/// many as are left; and so on, as long as an attempt is begun.
pub fn a_transaction_is_its_attempts()
    ensures { (more : ℕ) → (body : Doing) → (next : Datum → Kept → Doing) → (last : Kept)
        → (text : List ℕ)
        → (exchange : Exchanged) → (trace : List Exchanged) → (end : InteractionTree)
        → Leads (written_tree text (attempts (suc more) body next last)) (exchange ∷ trace) end
        → (exchange.ask ≡ begin)
        × (IsUnderWay (after_body (attempts more body next) next) (standing_after text [] body)
        trace end
        ⊎ IsDivided (after_body (attempts more body next) next) (standing_after text [] body)
        trace end) }
{}

/// With more answers, or with less text printed before, an attempt's body has the same values
/// first. So two runs of it agree up to the first answer in which they differ.
pub fn more_answers_keep_the_values()
    ensures { ValuesStay }
{}

/// Two attempts at one `dosync` with the same setting, in whatever runs: where shared refs told both
/// the same, and their own answers are equal one by one as far as both have one, the values that
/// one saw begin those that the other saw.
pub fn agreeing_attempts_see_the_same()
    ensures { AgreeingAttempts }
{}

/// With more answers a body goes on from where it stands. Where it is left, it takes no more: what
/// its attempt did stays as it is.
pub fn a_body_goes_on_from_where_it_stands()
    ensures goes_on { (text : List ℕ) (ops : List AccessData) (body : Doing)
        (answers more : List AnswerData)
        → standing_after text ops body (answers ++ more)
        ≡ on_from (standing_after text ops body answers) more }
    ensures stays { (text : List ℕ) (ops : List AccessData) (body : Doing)
        (answers more : List AnswerData) (exit : Exit) (kept : Kept)
        → (standing_after text ops body answers).rest ≡ left exit kept
        → standing_after text ops body (answers ++ more) ≡ standing_after text ops body answers }
{}

/// Whatever form makes a read in an attempt's body: where it is told to read again, the body is
/// left for another attempt, and what it printed and did stays.
pub fn a_retry_leaves_the_body()
    ensures { (room : ℕ) (p : PlaceData) (forms : List Datum) (begun : Kept) (text : List ℕ)
        (ops : List AccessData)
        → RetriesLeave (standing_after text ops
        (body_of (value_of_last (value_at room p) nil forms) begun)) }
{}
