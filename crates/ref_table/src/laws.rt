//! What a commit means, in the words of those who read refs. The functions do nothing: what they
//! ensure is proved.

ghost use Rattle.std.specs.Prelude.{◌≡◌, ◌≢◌, ℕ, Some, Ok, false, Contains};
ghost use Rattle.value_data.specs.Datum.{Datum};
ghost use Rattle.repl_asks.specs.Transactions.{RefNameData, ChangeData, CommutedData, IntentData};
ghost use Rattle.repl_asks.specs.Exchange.{verdict, committed};
ghost use Rattle.ref_table.specs.Store.{Store, ref_named, newest_value};
ghost use Rattle.ref_table.specs.Commit.{guarded_refs, changing_refs, is_newer_ref, folded_from};
ghost use Rattle.ref_table.specs.Commit.{commit_by};

/// What was committed met no version from after its read point of a ref that it set or ensured.
pub fn committed_met_nothing_newer()
    ensures { (s : Store) (seat point : ℕ) (intent : IntentData) (name : RefNameData)
        → (commit_by seat intent s (Some point)).told ≡ Some (verdict committed)
        → Contains (guarded_refs intent) name → is_newer_ref point (ref_named name s) ≡ false }
{}

/// Once it was committed, each ref that it set has the value that it was set to.
pub fn committed_is_read()
    ensures { (s : Store) (seat point : ℕ) (intent : IntentData) (change : ChangeData)
        → (commit_by seat intent s (Some point)).told ≡ Some (verdict committed)
        → Contains intent.sets change
        → newest_value change.name (commit_by seat intent s (Some point)).store ≡ Some change.now }
{}

/// Once it was committed, each ref that it commuted has what its commutes make, one after the
/// other, of the value that the ref had.
pub fn commuted_is_folded()
    ensures { (s : Store) (seat point : ℕ) (intent : IntentData) (c : CommutedData)
        → (commit_by seat intent s (Some point)).told ≡ Some (verdict committed)
        → Contains intent.commuted c
        → (now : Datum) × (folded_from c (newest_value c.name s) ≡ Ok now)
        × (newest_value c.name (commit_by seat intent s (Some point)).store ≡ Some now) }
{}

/// Whatever comes of a commit, the refs that it neither sets nor commutes stay as they were.
pub fn others_stay()
    ensures { (s : Store) (seat point : ℕ) (intent : IntentData) (name : RefNameData)
        → ((other : RefNameData) → Contains (changing_refs intent) other → other ≢ name)
        → ref_named name (commit_by seat intent s (Some point)).store ≡ ref_named name s }
{}

/// A commit that meets a conflict, that ends in a fault, or that is refused leaves all refs as
/// they were.
pub fn only_commits_set()
    ensures { (s : Store) (seat point : ℕ) (intent : IntentData) (name : RefNameData)
        → (commit_by seat intent s (Some point)).told ≢ Some (verdict committed)
        → ref_named name (commit_by seat intent s (Some point)).store ≡ ref_named name s }
{}
