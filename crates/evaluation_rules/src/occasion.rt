// On which occasions there is something to evaluate. The definitions name them.
ghost use Rattle.std.specs.Prelude.{◌≡◌};
ghost use Rattle.repl_asks.specs.Inside.Jobs.{work_view};
ghost use Rattle.evaluation_rules.specs.SharedText.{is_shared_text, occasion_of};

use repl_asks::Work;

/// On which occasion something is evaluated.
#[derive(Clone, Copy, Debug, PartialEq, Eq)]
pub enum Occasion {
    /// A tenant asked for it.
    Form,
    /// The text of the namespace that all tenants share is read.
    SharedText,
    /// An action of an agent runs.
    Action,
}

impl Occasion {
    /// On which occasion this is evaluated.
    pub fn of(work: &Work) -> Occasion
        ensures { result ≡ occasion_of (work_view work.now) }
    {
        match work {
            Work::Form(_) => Occasion::Form,
            Work::SharedForm(_) => Occasion::SharedText,
            Work::Action(_, _) => Occasion::Action,
        }
    }

    /// Whether that text is read, which may do less.
    pub fn is_shared_text(self) -> bool
        ensures { result ≡ is_shared_text self }
    {
        match self {
            Occasion::Form => false,
            Occasion::SharedText => true,
            Occasion::Action => false,
        }
    }
}
