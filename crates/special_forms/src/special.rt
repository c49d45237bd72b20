// The special forms, by their names.
ghost use Rattle.std.specs.Prelude.{◌≡◌};
ghost use Rattle.special_forms.specs.Names as meant;

/// The special forms, each by its name.
#[derive(Clone, Copy, PartialEq, Eq)]
pub enum SpecialForm {
    And,
    Def,
    Defn,
    Do,
    Dosync,
    If,
    InNs,
    Io,
    Let,
    Ns,
    Or,
    Quote,
    Throw,
    When,
}

impl SpecialForm {
    /// The special form of this name.
    pub fn named(name: &str) -> Option<SpecialForm>
        ensures { result ≡ meant.special_named name.now }
    {
        match name {
            "and" => Some(SpecialForm::And),
            "def" => Some(SpecialForm::Def),
            "defn" => Some(SpecialForm::Defn),
            "do" => Some(SpecialForm::Do),
            "dosync" => Some(SpecialForm::Dosync),
            "if" => Some(SpecialForm::If),
            "in-ns" => Some(SpecialForm::InNs),
            "io!" => Some(SpecialForm::Io),
            "let" => Some(SpecialForm::Let),
            "ns" => Some(SpecialForm::Ns),
            "or" => Some(SpecialForm::Or),
            "quote" => Some(SpecialForm::Quote),
            "throw" => Some(SpecialForm::Throw),
            "when" => Some(SpecialForm::When),
            _ => None,
        }
    }

    /// The name of the form, as it stands at the head of a list.
    pub fn name(self) -> &'static str
        ensures { result.now ≡ meant.special_name self }
    {
        match self {
            SpecialForm::And => "and",
            SpecialForm::Def => "def",
            SpecialForm::Defn => "defn",
            SpecialForm::Do => "do",
            SpecialForm::Dosync => "dosync",
            SpecialForm::If => "if",
            SpecialForm::InNs => "in-ns",
            SpecialForm::Io => "io!",
            SpecialForm::Let => "let",
            SpecialForm::Ns => "ns",
            SpecialForm::Or => "or",
            SpecialForm::Quote => "quote",
            SpecialForm::Throw => "throw",
            SpecialForm::When => "when",
        }
    }
}
