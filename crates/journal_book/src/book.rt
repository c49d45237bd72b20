// The book: the journal, the machine that stands for it, and the count of all steps.
ghost use Rattle.std.specs.Prelude.{◌≡◌, ◌+◌, ◌*◌, ◌<◌, ◌≤◌, ◌^◌, ℕ, [], true, IfOk};
ghost use Rattle.std.specs.Prelude.{IfErr, IfSome, OnOk, length, vec_len};
ghost use Rattle.std.specs.Prelude.{option_and_then, option_copied, option_map};
ghost use Rattle.server_rules.specs.Ground.{Ground};
ghost use Rattle.server_rules.specs.Machine.Ready.{ready};
ghost use Rattle.server_rules.specs.Machine.World.{World, opened_world};
ghost use Rattle.server_rules.specs.Machine.Turns.{serve};
ghost use Rattle.repl_core.specs.Configured.{IsConfigured};
ghost use Rattle.repl_core.specs.Starting.{TellsFault};
ghost use Rattle.server_rules.specs.Inside.Wires.{wire_at};
ghost use Rattle.repl_core.specs.Standing.{open_in};
ghost use Rattle.repl_core.specs.Steps.{step_view};
ghost use Rattle.journal_book.specs.Ahead.{next_text_in, IsAddresseeIn};
ghost use Rattle.journal_book.specs.Alone.{bytes_to, NamesNoSharedIn, IsHonest, own_steps};
ghost use Rattle.journal_book.specs.Alone.{own_turns};
ghost use Rattle.journal_book.specs.Beside.{SpellsStep};
ghost use Rattle.journal_book.specs.Forms.{EndsAsTold};
ghost use Rattle.journal_book.specs.Journal.{IsJournal};
ghost use Rattle.journal_book.specs.View.{entries};
ghost use Rattle.journal_book.specs.Rows.{made_row, row_of, entries_of, counted_of, all_counted};
ghost use Rattle.journal_book.specs.Standing.{IsOwnStep, HoldsBehind, IsAdmitted, RefusesTenant};
ghost use Rattle.journal_book.specs.Standing.{Receives, GivesBack, AreSeatsOf};

use crate::beside::Beside;
use crate::entry::JournalEntry;
use crate::report::Report;
use crate::seat::Seat;
use crate::writing::{open, write};
use paged_list::Pages;
use repl_core::{Config, LoadError, Machine, Refused, Step, StepAnswer};
use repl_values::Value;
use server_rules::{Actor, Refusal, Wire};
use std::alloc::Global;
use std::marker::Model;
use std::sync::ledger;
use std::sync::ledger::{Blank, Ledger, Share};
use tenant_parts::Addressee;

/// How many tenants a book admits in all.
pub const TENANTS: u64 = 1_000_000;

/// How many seats a tenant gets.
pub const SEATS: u64 = 5;

/// Into how many parts a book's ledger is cut: one for each seat, and one that stays.
pub const PARTS: u64 = 5_000_001;

/// The journal of all steps that a server accepted, and the machine that made them. Whoever gets
/// a book has that its journal replays (`replays`).
pub struct Book<L: Ledger> {
    alloc: Global,
    config: Config,
    journal: Pages<JournalEntry>,
    machine: Machine,
    counts: ledger::Book<L>,
    rest: Share<L>,
    tenants: u64,
}

impl<L: Ledger> Drop for Book<L> {
    fn drop(self) {
        let Book {
            alloc: _alloc,
            config: _config,
            journal: _journal,
            machine: _machine,
            counts: _counts,
            rest: _rest,
            tenants: _tenants,
        } = self;
    }
}

impl<L: Ledger> Model for Book<L> {
    ghost use Rattle.std.specs.Prelude.{◌≡◌, ◌+◌, ◌*◌, ◌≤◌, length};
    ghost use Rattle.std.specs.Coded.{codes};
    ghost use Rattle.journal_book.specs.contracts.entry.JournalEntry as kept;
    ghost use Rattle.journal_book.specs.View.{BookData, entries};
    ghost use Rattle.journal_book.specs.Rows.{made_row, row_of, entries_of, counted_of};
    ghost use Rattle.journal_book.specs.Rows.{all_counted};
    ghost use Rattle.journal_book.specs.Standing.{KeepsFor};

    ghost Value = { BookData };

    ghost coded = { Prim.hlevel (codes, kept.the_row.coded) };

    ghost view = { λ b. record {
      config = b.config;
      journal = b.journal.items;
      tenants = b.tenants;
    } };

    ghost invariant = { λ b. KeepsFor b.config b.machine (entries b.journal.items)
        × (b.counts.total ≡ length b.journal.items)
        × (b.rest.parts + 5 * b.tenants ≡ 5000001) × (b.rest.amount ≡ 0)
        × (b.tenants ≤ 1000000) };
}

/// Where an accepted step stands in the journal, and its answer.
#[derive(Drop)]
pub struct Receipt {
    pub place: u64,
    pub answer: StepAnswer,
}

/// A new tenant, and the seats of its crew. The tenant's opening is counted on the reader's.
#[derive(Drop)]
pub struct Places<L: Ledger> {
    pub tenant: u64,
    pub reader: Seat<L>,
    pub worker: Seat<L>,
    pub other_worker: Seat<L>,
    pub writer: Seat<L>,
    pub runner: Seat<L>,
}

/// A book that could not be closed for want of memory, and the seats that were given back.
#[derive(Drop)]
pub struct Unclosed<L: Ledger> {
    pub book: Book<L>,
    pub seats: Vec<Seat<L>>,
}

impl<L: Ledger> Book<L> {
    /// An empty book of a server to which nobody came. There is none where the text that all share
    /// has a fault.
    pub fn new(blank: Blank, alloc: Global, config: Config) -> Result<Book<L>, LoadError>
        requires name { blank.name ≡ L.name }
        requires parts { (blank.parts ≡ L.parts) × (blank.parts ≡ 5000001) }
        ensures made { IfOk result (λ book.
            book ≡ record { config = config; journal = []; tenants = 0 }) }
        ensures grounded { OnOk result ((g : Ground) × IsConfigured g config) }
        ensures fault { IfErr result (TellsFault config) }
    {
        let machine = Machine::new(alloc, &config)?;
        let (counts, rest) = blank.open::<L>();
        Ok(Book {
            alloc,
            config,
            journal: Pages::new(alloc),
            machine,
            counts,
            rest,
            tenants: 0,
        })
    }

    /// The journal of a book replays: its steps are accepted one behind another by a server of its
    /// configuration, and answered so. There is such a server.
    pub fn replays(&self)
        ensures replays { (g : Ground) → IsConfigured g self.now.config
            → (w : World) × IsJournal g (opened_world g) (entries self.now.journal) w }
        ensures grounded { (g : Ground) × IsConfigured g self.now.config }
    {
        let _ = &self.config;
    }

    /// What the journal says that a tenant was given is what a server of its own gives it by its
    /// steps alone, if it names no shared ref. Where its starts, asks and ends are those of its
    /// evaluations, so do its turns alone, as `drive` makes them.
    pub fn serves_as_if_alone(&self)
        ensures steps { (g : Ground) (t : ℕ) → IsConfigured g self.now.config
            → let journal = entries self.now.journal in NamesNoSharedIn t journal
            → bytes_to t journal ≡ serve g (opened_world g) (own_steps t journal) t }
        ensures turns { (g : Ground) (t : ℕ) → IsConfigured g self.now.config
            → let journal = entries self.now.journal in NamesNoSharedIn t journal
            → IsHonest g (opened_world g) t journal
            → bytes_to t journal ≡ serve g (opened_world g) (own_turns t journal) t }
    {
        let _ = &self.config;
    }

    /// How many tenants were admitted.
    pub fn tenants(&self) -> u64
        ensures number { result ≡ self.now.tenants }
        ensures bound { result ≤ TENANTS }
    {
        self.tenants
    }

    /// The steps that were accepted, with their answers, in order.
    pub fn journal(&self) -> &Pages<JournalEntry>
        ensures { result.now.items ≡ self.now.journal }
    {
        &self.journal
    }

    /// The first of a tenant's sessions and its bare requests that has a form or a request to
    /// begin, if the tenant is open and one has. It never names the actor of agents. It looks at
    /// each that has something to do, and takes no memory.
    pub fn ready(&self, tenant: u64) -> Option<Actor>
        ensures { HoldsBehind self.now (λ _ w.
            result ≡ option_and_then (λ it. ready it.state) (open_in tenant w)) }
    {
        self.machine.ready(tenant)
    }

    /// What has come of a tenant's stream, if the tenant is open. It takes no memory.
    pub fn wire(&self, tenant: u64) -> Option<Wire>
        ensures { HoldsBehind self.now (λ g w. result
            ≡ option_map (λ it. wire_at (g.readings.stream it.state.heard).ending)
            (open_in tenant w)) }
    {
        Some(self.machine.tenant(tenant)?.wire())
    }

    /// The text of the request that an actor of a tenant takes up next, if nothing of it is in hand
    /// and one waits.
    pub fn next_text(&self, tenant: u64, actor: Actor) -> Option<&str>
        ensures { HoldsBehind self.now (λ _ w.
            option_copied result ≡ next_text_in actor (open_in tenant w)) }
    {
        self.machine.tenant(tenant)?.next_text(actor)
    }

    /// To whom and how it is told that the form of an actor of a tenant ended, if something of it
    /// is in hand. None also where a file's session was closed, and where 2^63 owners share the
    /// request.
    pub fn addressee(&self, tenant: u64, actor: Actor) -> Option<Addressee>
        ensures { HoldsBehind self.now (λ _ w.
            IfSome result (IsAddresseeIn actor (open_in tenant w))) }
    {
        self.machine.tenant(tenant)?.addressee(actor)
    }

    /// Opens the next tenant, which is counted on its reader's seat. Where it is refused nothing
    /// has changed.
    pub fn admit(&mut self) -> Result<Places<L>, Refusal>
        ensures admitted { IfOk result (λ p. IsAdmitted self.old self.new p.tenant) }
        ensures seats { IfOk result (λ p.
            AreSeatsOf p.tenant p.reader p.worker p.other_worker p.writer p.runner) }
        ensures declined { IfErr result (λ why. (self.new ≡ self.old)
            × RefusesTenant self.old why) }
    {
        if self.tenants == TENANTS {
            return Err(Refusal::Full);
        }
        let tenant = self.tenants;
        open(self.alloc, &mut self.machine, &mut self.journal, tenant)?;
        self.tenants += 1;
        let mut reader = Seat::taken_from(&mut self.rest, tenant);
        reader.count(&mut self.counts);
        let worker = Seat::taken_from(&mut self.rest, tenant);
        let other_worker = Seat::taken_from(&mut self.rest, tenant);
        let writer = Seat::taken_from(&mut self.rest, tenant);
        let runner = Seat::taken_from(&mut self.rest, tenant);
        Ok(Places {
            tenant,
            reader,
            worker,
            other_worker,
            writer,
            runner,
        })
    }

    /// Makes a step of the seat's tenant, writes it down, and counts it on the seat. A step that is
    /// refused changes nothing, and is given back.
    pub fn act(&mut self, seat: &mut Seat<L>, step: Step) -> Result<Receipt, Refused>
        requires own { IsOwnStep seat.old (step_view step) }
        ensures made { IfOk result (Receives self.old self.new seat.old seat.new (step_view step)) }
        ensures declined { IfErr result (GivesBack self.old self.new seat.old seat.new step) }
    {
        self.act_with(seat, step, false, &mut Beside::nothing())
    }

    /// Does what `act` does, with what was done for it beforehand. Where the step is known, and
    /// ends a form, the journal tells that it ends just the form that runs, and nothing of that is
    /// compared. What it leaves in `beside` is in no clause.
    pub fn act_with(
        &mut self,
        seat: &mut Seat<L>,
        step: Step,
        is_known: bool,
        beside: &mut Beside,
    ) -> Result<Receipt, Refused>
        requires own { IsOwnStep seat.old (step_view step) }
        requires as_told { is_known ≡ true
            → EndsAsTold (entries self.old.journal) (step_view step) }
        requires spelled { SpellsStep beside.old.aside.spelled (step_view step) }
        ensures made { IfOk result (Receives self.old self.new seat.old seat.new (step_view step)) }
        ensures declined { IfErr result (GivesBack self.old self.new seat.old seat.new step) }
    {
        let place = self.journal.len();
        let (machine, journal) = (&mut self.machine, &mut self.journal);
        let answer = write(self.alloc, machine, journal, step, is_known, beside)?;
        seat.count(&mut self.counts);
        Ok(Receipt { place, answer })
    }

    /// Drops so many refs, at the most, of tenants that are gone, and answers whether more are
    /// left, as the machine does (`Machine::drop_departed`). A tenant that goes leaves its refs to
    /// this, so that no step takes long for them.
    pub fn drop_departed(&mut self, most: usize, values: &mut Vec<Value>) -> bool
        ensures { self.new ≡ self.old }
    {
        self.machine.drop_departed(most, values)
    }

    /// Takes seats back, and tells of each tenant what was journalled and what its seats made.
    /// Where all seats came back, both come to the same.
    pub fn close(self, seats: Vec<Seat<L>>) -> Result<(Book<L>, Report), Unclosed<L>>
        requires whole { L.parts ≡ 5000001 }
        ensures book { IfOk result (λ r. r.0 ≡ self) }
        ensures rows { IfOk result (λ r. (t : ℕ) → row_of t r.1
            ≡ made_row (entries_of t (entries self.journal)) (counted_of t seats.items)) }
        ensures all { OnOk result (vec_len seats ≡ 5 * self.tenants
            → all_counted seats.items ≡ length self.journal) }
        ensures refused { IfErr result (λ it. (it.book ≡ self) × (it.seats ≡ seats)) }
    {
        let Ok(report) = Report::of(self.alloc, &self.journal, seats.as_slice()) else {
            return Err(Unclosed { book: self, seats });
        };
        let Book {
            alloc,
            config,
            journal,
            machine,
            mut counts,
            mut rest,
            tenants,
        } = self;
        let mut all = rest.empty();
        gather(&mut counts, &mut all, seats);
        let kept = PARTS - SEATS * tenants;
        rest.give(&mut all, kept, 0);
        counts.audit(&mut all);
        all.give(&mut rest, kept, 0);
        let book = Book {
            alloc,
            config,
            journal,
            machine,
            counts,
            rest,
            tenants,
        };
        Ok((book, report))
    }
}

// Puts the shares of all seats together.
fn gather<L: Ledger>(counts: &mut ledger::Book<L>, all: &mut Share<L>, seats: Vec<Seat<L>>)
    requires none { (all.old.parts ≡ 0) × (all.old.amount ≡ 0) }
    requires total { counts.old.total < 2 ^ 64 }
    ensures total { counts.new.total ≡ counts.old.total }
    ensures parts { all.new.parts ≡ vec_len seats }
    ensures amount { all.new.amount ≡ all_counted seats.items }
    ensures bound { all_counted seats.items < 2 ^ 64 }
{
    let mut seats = seats;
    while let Some(seat) = seats.pop() {
        all.merge(seat.into_share());
    }
    counts.audit(all);
}
