//! Laws of journals. The functions do nothing: what they ensure is proved.
ghost use Rattle.std.specs.Prelude.{◌≡◌, List, ◌++◌};
ghost use Rattle.server_rules.specs.Ground.{Ground};
ghost use Rattle.server_rules.specs.Machine.World.{World, opened_world};
ghost use Rattle.journal_book.specs.Forms.{TellsForms};
ghost use Rattle.journal_book.specs.Journal.{EntryData, IsJournal};

/// A journal goes on where another begins.
pub fn journals_join()
    ensures { (g : Ground) (w between now : World) (first then : List EntryData)
        → IsJournal g w first between → IsJournal g between then now
        → IsJournal g w (first ++ then) now }
{}

/// A journal leads to one server.
pub fn a_journal_leads_to_one_server()
    ensures { (g : Ground) (w now other : World) (journal : List EntryData)
        → IsJournal g w journal now → IsJournal g w journal other → now ≡ other }
{}

/// A journal tells each form: its job, and what it asked and was answered, is what the entries of
/// its tenant's actor say since it began.
pub fn a_journal_tells_each_form()
    ensures { (g : Ground) (w : World) (journal : List EntryData)
        → IsJournal g (opened_world g) journal w → TellsForms g w journal }
{}
