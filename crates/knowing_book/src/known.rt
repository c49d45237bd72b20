// A beginning of one history, as knowledge that lasts.
ghost use Rattle.std.specs.Prelude.{◌≡◌, ◌<◌, ◌^◌, ◌++◌, ◌∷◌, [], length, true};
ghost use mathlib.Core.List.{IsPrefix};
ghost use Rattle.knowing_book.specs.History.{head_of};

use logbook::{Gain, Offer, Plain, Play, Rule, Seen, Start, Word};
use std::marker::{Brand, Model, PhantomData};

/// The rule: the word is the length of the history.
pub struct Law;

impl<E> Rule<E, u64> for Law {
    ghost use Rattle.std.specs.Prelude.{[]};
    ghost use base.Fml.{ftrue};
    ghost use Rattle.knowing_book.specs.History.{IsLengthWord};

    ghost holds = { λ cells log. IsLengthWord cells log };

    ghost first = { [] };

    ghost hinted = { λ n log. Unit {0} };

    ghost shows = { λ log. [] };

    ghost keeps = { λ names log. ftrue };

    ghost moves = { λ ask before after answer. Unit {0} };
}

/// Callers trade nothing.
pub struct Nothing;

impl<E> Gain<E, u64> for Nothing {
    ghost use base.Fml.{ftrue};

    ghost after = { λ names about answer. ftrue };
}

/// A step that adds an entry.
pub struct Add;

impl<E> Play<E, u64> for Add {
    ghost use Rattle.knowing_book.specs.History.{AddsEntry};

    ghost then = { AddsEntry };
}

/// What a step asks for: the entry.
impl<E> Plain<E, E, u64> for Add {
    ghost use Rattle.std.specs.Prelude.{None};

    ghost ask = { λ entry. entry };

    ghost state = { λ entry. None };
}

/// Which history it is. Each call of a program picks it.
pub trait Naming {
    ghost use Rattle.logbook.specs.Pages.{Book};

    ghost book: { Book };
}

impl Naming for Brand {
    ghost book = { record { number = 0; log_name = 0; cells_name = 0 } };
}

/// A history with no entry, which has no name yet.
pub struct Opened<E> {
    head: Word<E, u64, Law>,
    seen: Seen<E, u64, Law>,
    pub ghost empty: { seen.log ≡ [] },
    pub ghost head_is: { head ≡ head_of seen.book },
}

impl<E> Opened<E> {
    pub fn new() -> Opened<E> {
        let (seen, mut first, _second) = Seen::open(Start::alone(), 0, 0);
        Opened {
            head: Word::tracked(0, &mut first),
            seen,
        }
    }

    /// The history under a name, and all that is known of it: it has no entry.
    pub fn named<J: Naming>(self) -> (Length<E, J>, Known<E, J>)
        requires { self.seen.book ≡ J.book }
        ensures { result.1 ≡ [] }
    {
        let Opened { head, seen } = self;
        (
            Length {
                head,
                of: PhantomData,
            },
            Known {
                seen,
                of: PhantomData,
            },
        )
    }
}

/// The word that says how long the history is.
#[derive(Drop)]
pub struct Length<E, J: Naming> {
    head: Word<E, u64, Law>,
    of: PhantomData<J>,
    ghost head_is: { head ≡ head_of J.book },
}

/// A beginning of the history, known for good: the history goes on, and no entry ever leaves it. It
/// has no bytes. Contracts see its entries.
#[derive(Drop)]
pub struct Known<E, J: Naming> {
    seen: Seen<E, u64, Law>,
    of: PhantomData<J>,
}

impl<E, J: Naming> Model for Known<E, J> {
    ghost use Rattle.std.specs.Prelude.{◌≡◌, List};

    ghost Value = { List E };

    ghost view = { λ f. f.seen.log };

    ghost invariant = { λ f. f.seen.book ≡ J.book };
}

impl<E, J: Naming> Known<E, J> {
    /// A copy.
    pub fn again(&self) -> Known<E, J>
        ensures { result ≡ self.now }
    {
        Known {
            seen: self.seen.again(),
            of: PhantomData,
        }
    }

    /// Afterwards it knows what both knew.
    pub fn learn(&mut self, other: &Known<E, J>)
        ensures mine { IsPrefix self.old self.new }
        ensures others { IsPrefix other.now self.new }
    {
        self.seen.learn(&other.seen);
    }

    /// Adds an entry to the history and to what is known of it, and says whether it did. It does
    /// where all of the history is known, but no proof knows that.
    pub fn add(&mut self, whole: &Length<E, J>, count: u64, entry: &E) -> bool
        requires count { count ≡ length self.old }
        requires room { count < 2 ^ 63 }
        ensures { result ≡ true → self.new ≡ self.old ++ entry.now ∷ [] }
    {
        let mut offer: Offer<E, u64, Law, Nothing> = self.seen.plain::<Nothing, E, Add>(entry);
        let mut pen = self.seen.no_pen();
        let found = whole
            .head
            .compare_exchange::<Add, Nothing>(
                count,
                count + 1,
                &mut self.seen,
                &mut offer,
                &mut pen,
            );
        found == count
    }
}
