// The book, what is known of its journal, and where the last entries of actors stand.
ghost use Rattle.std.specs.Prelude.{ℕ, ◌≡◌, ◌+◌, List, [], ◌∷◌, ◌++◌, true};
ghost use Rattle.std.specs.Prelude.{IfOk, IfErr, IfSome, Some, length};
ghost use Rattle.repl_asks.specs.Inside.Jobs.{job_view};
ghost use Rattle.repl_walker.specs.Ends.{ending_view};
ghost use Rattle.server_rules.specs.Plan.{starts, form_begun};
ghost use Rattle.server_rules.specs.Machine.World.{does, closes};
ghost use Rattle.server_rules.specs.Request.{Run};
ghost use Rattle.repl_core.specs.Forms.{form_by_step};
ghost use Rattle.repl_core.specs.Steps.{step_view, step_answer_view};
ghost use Rattle.knowing_book.specs.Lasts.{AreLasts};
ghost use Rattle.journal_book.specs.Beside.{SpellsStep};
ghost use Rattle.journal_book.specs.Forms.{form_of, form_told, EndsAsTold};
ghost use Rattle.journal_book.specs.Journal.{EntryData};
ghost use Rattle.journal_book.specs.Standing.{IsOwnStep, IsAdmitted, IsDeclined, IsMade};
ghost use Rattle.journal_book.specs.Standing.{Receives, GivesBack, AreSeatsOf, RefusesTenant};
ghost use Rattle.journal_book.specs.Standing.{entry_of};
ghost use Rattle.journal_book.specs.View.{entries};
ghost use Rattle.knowing_book.specs.Keys.{entry_key, last_by};
ghost use Rattle.knowing_book.specs.Knowledge.{Knows, Shares};
ghost use Rattle.knowing_book.specs.View.{MakesOne, TellsAnswer, question_step, finish_step};

use crate::forms::{Answered, Begun, Fact, Finish, Question};
use crate::keys::{actor_key, step_key};
use crate::known::{Known, Length, Naming, Opened};
use crate::lasts::Lasts;
use journal_book::{Beside, Book, JournalEntry, Places, Receipt, Seat};
use paged_list::Pages;
use repl_core::{Refused, Step, StepAnswer};
use repl_values::Value;
use server_rules::{Actor, Refusal};
use std::alloc::Global;
use std::marker::Model;
use std::sync::ledger::Ledger;

/// A book, and what whoever holds it knows of its journal for good. Contracts see the book.
pub struct KnowingBook<L: Ledger, N: Naming> {
    book: Book<L>,
    whole: Length<JournalEntry, N>,
    known: Option<Known<JournalEntry, N>>,
    lasts: Lasts,
}

impl<L: Ledger, N: Naming> Drop for KnowingBook<L, N> {
    fn drop(self) {
        let KnowingBook {
            book: _book,
            whole: _whole,
            known: _known,
            lasts: _lasts,
        } = self;
    }
}

impl<L: Ledger, N: Naming> Model for KnowingBook<L, N> {
    ghost use Rattle.std.specs.Prelude.{◌≡◌, IfSome};
    ghost use Rattle.std.specs.Coded.{codes};
    ghost use Rattle.knowing_book.specs.Lasts.{AreLasts};
    ghost use Rattle.journal_book.specs.contracts.entry.JournalEntry as kept;
    ghost use Rattle.journal_book.specs.View.{BookData, entries};
    ghost use Rattle.knowing_book.specs.Keys.{entry_key};

    ghost Value = { BookData };

    ghost coded = { Prim.hlevel (codes, kept.the_row.coded) };

    ghost view = { λ b. b.book };

    ghost invariant = { λ b. IfSome b.known (λ es. entries es ≡ entries b.book.journal)
        × AreLasts entry_key (entries b.book.journal) b.lasts };
}

/// An ask that was refused, and why.
#[derive(Drop)]
pub struct Unasked<N: Naming> {
    pub why: Refusal,
    pub question: Question<N>,
}

/// An ending that was refused, and why.
#[derive(Drop)]
pub struct Unended<N: Naming> {
    pub why: Refusal,
    pub finish: Finish<N>,
}

impl<L: Ledger, N: Naming> KnowingBook<L, N> {
    /// A book whose journal is empty, under a history of its own.
    pub fn new(alloc: Global, book: Book<L>, opened: Opened<JournalEntry>) -> KnowingBook<L, N>
        requires empty { book.journal ≡ [] }
        requires name { opened.seen.book ≡ N.book }
        ensures { result ≡ book }
    {
        let (whole, known) = opened.named::<N>();
        KnowingBook {
            book,
            whole,
            known: Some(known),
            lasts: Lasts::new(alloc),
        }
    }

    /// The book.
    pub fn book(&self) -> &Book<L>
        ensures { result.now ≡ self.now }
    {
        &self.book
    }

    /// The book, of which no more is known.
    pub fn into_book(self) -> Book<L>
        ensures { result ≡ self }
    {
        let KnowingBook {
            book,
            whole: _whole,
            known: _known,
            lasts: _lasts,
        } = self;
        book
    }

    /// Gives up what is known of the journal: from now on each ending is compared.
    pub fn forget(&mut self)
        ensures { self.new ≡ self.old }
    {
        self.known = None;
    }

    /// Whether this ending, handed in now from a seat of its tenant, would be believed.
    pub fn believes(&self, finish: &Finish<N>) -> bool
        ensures { result ≡ true → (t : ℕ)
            × (form_told t finish.now.actor (entries self.now.journal)
            ≡ Some (form_of (ending_view finish.now.ending))) }
    {
        let fact = &finish.fact;
        let kept = self.lasts.get(actor_key(fact.tenant, fact.actor));
        shares(&self.known, &fact.known, kept, fact.last)
    }

    /// Opens the next tenant, as the book does.
    pub fn admit(&mut self) -> Result<Places<L>, Refusal>
        ensures admitted { IfOk result (λ p. IsAdmitted self.old self.new p.tenant) }
        ensures seats { IfOk result (λ p.
            AreSeatsOf p.tenant p.reader p.worker p.other_worker p.writer p.runner) }
        ensures declined { IfErr result (λ why. (self.new ≡ self.old)
            × RefusesTenant self.old why) }
    {
        let place = self.book.journal().len();
        let places = self.book.admit()?;
        follow(&mut self.lasts, None, false, place);
        add(&self.whole, &mut self.known, self.book.journal(), place);
        Ok(places)
    }

    /// Makes a step of the seat's tenant, as the book does.
    pub fn act(&mut self, seat: &mut Seat<L>, step: Step) -> Result<Receipt, Refused>
        requires own { IsOwnStep seat.old (step_view step) }
        ensures made { IfOk result (Receives self.old self.new seat.old seat.new (step_view step)) }
        ensures declined { IfErr result (GivesBack self.old self.new seat.old seat.new step) }
    {
        self.make(seat, step, false, &mut Beside::nothing())
    }

    /// The seat's tenant goes.
    pub fn leave(&mut self, seat: &mut Seat<L>, beside: &mut Beside) -> Result<Receipt, Refused>
        ensures made { IfOk result (λ r. IsMade self.old self.new seat.old seat.new
            (closes seat.old.tenant) (step_answer_view r.answer)) }
        ensures declined { IfErr result (λ it. IsDeclined self.old self.new seat.old seat.new
            (closes seat.old.tenant) it.why) }
    {
        let tenant = seat.tenant();
        self.make(seat, Step::Bye(tenant), false, beside)
    }

    /// Drops refs of tenants that are gone, as the book does.
    pub fn drop_departed(&mut self, most: usize, values: &mut Vec<Value>) -> bool
        ensures { self.new ≡ self.old }
    {
        self.book.drop_departed(most, values)
    }

    /// An actor of the seat's tenant begins its next form, or takes up its next request. A form
    /// that begins is given with what is known of it.
    pub fn start(
        &mut self,
        seat: &mut Seat<L>,
        actor: Actor,
        beside: &mut Beside,
    ) -> Result<Option<Begun<N>>, Refusal>
        ensures made { IfOk result (λ it. MakesOne self.old self.new seat.old seat.new
            (does seat.old.tenant (starts actor)) (λ answer. IfSome it (λ begun.
            (begun.actor ≡ actor) × (answer ≡ form_begun (job_view begun.job))))) }
        ensures declined { IfErr result (IsDeclined self.old self.new seat.old seat.new
            (does seat.old.tenant (starts actor))) }
    {
        let tenant = seat.tenant();
        match self.make(seat, Step::Start(tenant, actor), false, beside) {
            Ok(receipt) => Ok(self.begun(tenant, actor, receipt.answer)),
            Err(Refused { why, step: _ }) => Err(why),
        }
    }

    // The form that began by the last entry, if one did.
    fn begun(&self, tenant: u64, actor: Actor, answer: StepAnswer) -> Option<Begun<N>>
        requires { (before : List EntryData) × (entries self.now.journal ≡ before
            ++ entry_of (does tenant (starts actor)) (step_answer_view answer) ∷ []) }
        ensures { IfSome result (λ begun. (begun.actor ≡ actor)
            × (step_answer_view answer ≡ form_begun (job_view begun.job))) }
    {
        match answer {
            StepAnswer::Begun(job) => {
                let fact = self.fact(tenant, actor);
                Some(Begun { fact, job })
            }
            _ => None,
        }
    }

    /// A form asks. It comes back with the answer, and with what is known of it then; or not, where
    /// it was interrupted. A question that is refused is given back.
    pub fn ask(
        &mut self,
        seat: &mut Seat<L>,
        question: Question<N>,
        beside: &mut Beside,
    ) -> Result<Option<Answered<N>>, Unasked<N>>
        ensures made { IfOk result (λ it. MakesOne self.old self.new seat.old seat.new
            (question_step seat.old.tenant question) (TellsAnswer question it)) }
        ensures declined { IfErr result (λ it. (it.question ≡ question) × IsDeclined self.old
            self.new seat.old seat.new (question_step seat.old.tenant question) it.why) }
    {
        let Question { fact, walk, ask } = question;
        let tenant = seat.tenant();
        let fact = fact.of(tenant);
        let actor = fact.actor;
        let kept = self.lasts.get(actor_key(tenant, actor));
        match self.make(seat, Step::Asked(tenant, actor, ask), false, beside) {
            Ok(
                Receipt {
                    place: _,
                    answer: StepAnswer::Answer(told),
                },
            ) => Ok(Some(Answered {
                fact: self.later(fact, kept),
                walk,
                answer: told,
            })),
            Ok(_) => {
                beside.walk = Some(walk);
                Ok(None)
            }
            Err(
                Refused {
                    why,
                    step: Step::Asked(_, _, ask),
                },
            ) => {
                let question = Question { fact, walk, ask };
                Err(Unasked { why, question })
            }
            Err(_) => unreachable!(),
        }
    }

    /// A form ends. Where its actor's last entry is the one that its worker knows of, two numbers
    /// are compared and nothing of its trace is; else the whole of it. No clause says which. An
    /// ending that is refused is given back, without its replies.
    pub fn end(
        &mut self,
        seat: &mut Seat<L>,
        finish: Finish<N>,
        beside: &mut Beside,
    ) -> Result<Receipt, Unended<N>>
        ensures made { IfOk result (Receives self.old self.new seat.old seat.new
            (finish_step seat.old.tenant finish)) }
        ensures declined { IfErr result (λ it. (it.finish ≡ finish) × IsDeclined self.old self.new
            seat.old seat.new (finish_step seat.old.tenant finish) it.why) }
    {
        let Finish {
            fact,
            ending,
            spelled,
        } = finish;
        beside.aside.spelled = spelled;
        let tenant = seat.tenant();
        let fact = fact.of(tenant);
        let actor = fact.actor;
        let kept = self.lasts.get(actor_key(tenant, actor));
        let is_known = shares(&self.known, &fact.known, kept, fact.last);
        match self.make(seat, Step::Ended(tenant, actor, ending), is_known, beside) {
            Ok(receipt) => Ok(receipt),
            Err(
                Refused {
                    why,
                    step: Step::Ended(_, _, ending),
                },
            ) => {
                let finish = Finish {
                    fact,
                    ending,
                    spelled: None,
                };
                Err(Unended { why, finish })
            }
            Err(_) => unreachable!(),
        }
    }

    // Makes a step. Where its form is known nothing of it is compared.
    fn make(
        &mut self,
        seat: &mut Seat<L>,
        step: Step,
        is_known: bool,
        beside: &mut Beside,
    ) -> Result<Receipt, Refused>
        requires own { IsOwnStep seat.old (step_view step) }
        requires as_told { is_known ≡ true
            → EndsAsTold (entries self.old.journal) (step_view step) }
        requires spelled { SpellsStep beside.old.aside.spelled (step_view step) }
        ensures made { IfOk result (Receives self.old self.new seat.old seat.new (step_view step)) }
        ensures declined { IfErr result (GivesBack self.old self.new seat.old seat.new step) }
    {
        let key = step_key(&step);
        let is_end = matches!(step, Step::Ended(_, _, _));
        let receipt = self.book.act_with(seat, step, is_known, beside)?;
        follow(&mut self.lasts, key, is_end, receipt.place);
        add(
            &self.whole,
            &mut self.known,
            self.book.journal(),
            receipt.place,
        );
        Ok(receipt)
    }

    // What is known now of the form of an actor.
    fn fact(&self, tenant: u64, actor: Actor) -> Fact<N>
        ensures tenant { result.tenant ≡ tenant }
        ensures actor { result.actor ≡ actor }
        ensures known { (form : Run) → form_told tenant actor (entries self.now.journal) ≡ Some form
            → Knows result.known tenant actor result.last form }
        ensures whole { IfSome result.known (λ es. entries es ≡ entries self.now.journal) }
    {
        let addressee = self.book.addressee(tenant, actor);
        match self.lasts.get(actor_key(tenant, actor)) {
            Some(last) => Fact {
                tenant,
                actor,
                last,
                known: again(&self.known),
                addressee,
            },
            None => Fact {
                tenant,
                actor,
                last: 0,
                known: None,
                addressee,
            },
        }
    }

    // What is known of a form behind one more entry of its actor, where this was known before, and
    // the actor's last entry then was the one with this number.
    fn later(&self, fact: Fact<N>, kept: Option<u64>) -> Fact<N>
        ensures tenant { result.tenant ≡ fact.tenant }
        ensures actor { result.actor ≡ fact.actor }
        ensures known { (before : List EntryData) (e : EntryData) (form now : Run)
            → entries self.now.journal ≡ before ++ e ∷ []
            → IfSome kept (λ n. n ≡ last_by fact.tenant fact.actor before)
            → Knows fact.known fact.tenant fact.actor fact.last form
            → form_by_step fact.tenant fact.actor e.step e.answer (Some form) ≡ Some now
            → Knows result.known fact.tenant fact.actor result.last now }
    {
        let Fact {
            tenant,
            actor,
            last: before,
            known: mine,
            addressee,
        } = fact;
        let now = self.fact(tenant, actor);
        if shares(&now.known, &mine, kept, before) {
            return now;
        }
        Fact {
            tenant,
            actor,
            last: 0,
            known: None,
            addressee,
        }
    }
}

// Follows an actor's entries, but not beyond the end of its form.
fn follow(lasts: &mut Lasts, key: Option<u64>, is_end: bool, place: u64)
    ensures { (before : List EntryData) (e : EntryData) → AreLasts entry_key before lasts.old
        → entry_key e ≡ key → length before ≡ place
        → AreLasts entry_key (before ++ e ∷ []) lasts.new }
{
    match key {
        Some(key) => follow_key(lasts, key, is_end, place),
        None => {}
    }
}

fn follow_key(lasts: &mut Lasts, key: u64, is_end: bool, place: u64)
    ensures { (before : List EntryData) (e : EntryData) → AreLasts entry_key before lasts.old
        → entry_key e ≡ Some key → length before ≡ place
        → AreLasts entry_key (before ++ e ∷ []) lasts.new }
{
    if is_end {
        lasts.forget(key);
        return;
    }
    if place >= 1 << 63 {
        lasts.forget(key);
        return;
    }
    lasts.note(key, place);
}

// The entry that was just written is added to what is known; or nothing is known any more.
fn add<N: Naming>(
    whole: &Length<JournalEntry, N>,
    known: &mut Option<Known<JournalEntry, N>>,
    journal: &Pages<JournalEntry>,
    place: u64,
)
    requires { IfSome known.old (λ es. place ≡ length es) }
    ensures { (e : EntryData) → IfSome known.old (λ es. entries journal.now.items
        ≡ entries es ++ e ∷ [])
        → IfSome known.new (λ es. entries es ≡ entries journal.now.items) }
{
    let longer = match known.take() {
        Some(known) => longer(whole, known, journal, place),
        None => None,
    };
    *known = longer;
}

fn longer<N: Naming>(
    whole: &Length<JournalEntry, N>,
    known: Known<JournalEntry, N>,
    journal: &Pages<JournalEntry>,
    place: u64,
) -> Option<Known<JournalEntry, N>>
    requires { place ≡ length known }
    ensures { (e : EntryData) → entries journal.now.items ≡ entries known ++ e ∷ []
        → IfSome result (λ es. entries es ≡ entries journal.now.items) }
{
    if place >= 1 << 63 {
        return None;
    }
    let (_, page) = journal.pages();
    let Some(entry) = page.last() else {
        return None;
    };
    let mut known = known;
    if known.add(whole, place, entry) {
        Some(known)
    } else {
        None
    }
}

fn again<N: Naming>(known: &Option<Known<JournalEntry, N>>) -> Option<Known<JournalEntry, N>>
    ensures { result ≡ known.now }
{
    match known {
        Some(known) => Some(known.again()),
        None => None,
    }
}

// Whether both are known, and the number that is kept of an actor is the one that its worker knows.
fn shares<N: Naming>(
    whole: &Option<Known<JournalEntry, N>>,
    known: &Option<Known<JournalEntry, N>>,
    kept: Option<u64>,
    last: u64,
) -> bool
    ensures { result ≡ true → Shares whole.now known.now kept last }
{
    let Some(all) = whole else {
        return false;
    };
    let Some(mine) = known else {
        return false;
    };
    let Some(kept) = kept else {
        return false;
    };
    if kept != last {
        return false;
    }
    let mut both = all.again();
    both.learn(mine);
    true
}
