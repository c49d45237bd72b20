// A book admits tenants, writes down what they do, and counts it.
ghost use Rattle.std.specs.Prelude.{◌≡◌};

use crate::servers::fresh_config;
use bytes::Bytes;
use journal_book::{Book, PARTS, Places, Row, Seat};
use repl_asks::{Answer, Ask};
use repl_core::{Step, StepAnswer};
use repl_walker::{Ending, Job, Progress, Walk, start};
use server_rules::{Actor, Refusal};
use std::alloc::{AllocError, Global};
use std::boxed::Box;
use std::marker::Brand;
use std::process::Abort;
use std::sync::ledger::{Blank, Ledger};
use std::test::Fail;

const REQUEST: &[u8] = b"d4:code7:(+ 1 2)2:id1:72:op4:evale";

// 64 tenants have numbers from 0 on, and the next is refused.
fn expect_places<L: Ledger>(rt: &impl Abort, alloc: Global, blank: Blank) -> Result<(), Fail>
    requires name { blank.name ≡ L.name }
    requires parts { (blank.parts ≡ L.parts) × (blank.parts ≡ 5000001) }
{
    let Ok(mut book) = Book::<L>::new(blank, alloc, fresh_config()) else {
        panic!(rt; "there is no book");
    };
    for number in 0..64 {
        match book.admit() {
            Ok(places) => assert_eq!(rt; places.tenant, number, "the number"),
            Err(_why) => panic!(rt; "tenant {number} is refused"),
        }
    }
    match book.admit() {
        Ok(_places) => panic!(rt; "a 65th tenant is admitted"),
        Err(why) => assert_eq!(rt; why, Refusal::Full, "why the next is refused"),
    }
    Ok(())
}

fn act<L: Ledger>(
    rt: &impl Abort,
    book: &mut Book<L>,
    seat: &mut Seat<L>,
    step: Step,
) -> StepAnswer {
    assert!(rt;
        step.tenant() == seat.tenant(),
        "a step of the seat's tenant"
    );
    assert!(rt;
        !matches!(step, Step::Open(_)),
        "a step of a tenant that is open"
    );
    match book.act(seat, step) {
        Ok(receipt) => receipt.answer,
        Err(_refused) => panic!(rt; "the step is refused"),
    }
}

// How the next form of the requests without a session ends.
fn ending<L: Ledger>(
    rt: &impl Abort,
    alloc: Global,
    book: &mut Book<L>,
    seat: &mut Seat<L>,
) -> Result<Ending, AllocError> {
    let job = begun(rt, book, seat);
    let mut progress = start(alloc, &job)?;
    for _ in 0..10 {
        let walk = match progress {
            Progress::Asks(walk) => walk,
            Progress::Ends(ending) => return Ok(ending),
        };
        progress = gone_on(rt, alloc, book, seat, walk)?;
    }
    panic!(rt; "the form does not end");
}

fn begun<L: Ledger>(rt: &impl Abort, book: &mut Book<L>, seat: &mut Seat<L>) -> Job {
    let StepAnswer::Begun(job) = act(rt, book, seat, Step::Start(0, Actor::Bare)) else {
        panic!(rt; "no form begins");
    };
    job
}

fn gone_on<L: Ledger>(
    rt: &impl Abort,
    alloc: Global,
    book: &mut Book<L>,
    seat: &mut Seat<L>,
    walk: Walk,
) -> Result<Progress, AllocError> {
    let answer = answered(rt, alloc, book, seat, walk.ask())?;
    walk.resume(alloc, answer)
}

fn answered<L: Ledger>(
    rt: &impl Abort,
    alloc: Global,
    book: &mut Book<L>,
    seat: &mut Seat<L>,
    ask: &Ask,
) -> Result<Answer, AllocError> {
    let asked = Step::Asked(0, Actor::Bare, Box::new(alloc, ask.copy()?)?);
    let StepAnswer::Answer(answer) = act(rt, book, seat, asked) else {
        panic!(rt; "no answer");
    };
    Ok(answer)
}

fn given_back<L: Ledger>(alloc: Global, places: Places<L>) -> Result<Vec<Seat<L>>, AllocError> {
    let Places {
        tenant: _,
        reader,
        worker,
        other_worker,
        writer,
        runner,
    } = places;
    let mut seats = Vec::with_capacity(alloc, 5)?;
    seats.push(reader)?;
    seats.push(worker)?;
    seats.push(other_worker)?;
    seats.push(writer)?;
    seats.push(runner)?;
    Ok(seats)
}

// One request is heard, begun, asked for a name and ended; two replies are taken out, and the
// tenant goes. With the step that opened it that is eight entries, all made from its seats.
fn expect_counts<L: Ledger>(rt: &impl Abort, alloc: Global, blank: Blank) -> Result<(), Fail>
    requires name { blank.name ≡ L.name }
    requires parts { (blank.parts ≡ L.parts) × (blank.parts ≡ 5000001) }
{
    let Ok(mut book) = Book::<L>::new(blank, alloc, fresh_config()) else {
        panic!(rt; "there is no book");
    };
    let Ok(mut places) = book.admit() else {
        panic!(rt; "the tenant is refused");
    };
    let piece = Bytes::copy_from_slice(alloc, REQUEST)?;
    drop(act(rt, &mut book, &mut places.reader, Step::Hear(0, piece)));
    let ending = ending(rt, alloc, &mut book, &mut places.worker)?;
    drop(act(
        rt,
        &mut book,
        &mut places.worker,
        Step::Ended(0, Actor::Bare, Box::new(alloc, ending)?),
    ));
    for _ in 0..2 {
        drop(act(rt, &mut book, &mut places.writer, Step::Drain(0)));
    }
    drop(act(rt, &mut book, &mut places.reader, Step::Bye(0)));
    let Ok((_book, report)) = book.close(given_back(alloc, places)?) else {
        panic!(rt; "the book is not closed");
    };
    let wanted = Row {
        journalled: 8,
        made: 8,
    };
    assert_eq!(rt;
        report.rows.get(&0).copied(),
        Some(wanted),
        "what was counted"
    );
    Ok(())
}

#[test]
fn sixty_four_tenants_are_admitted(rt: HostRuntime) -> Result<(), Fail> {
    expect_places::<Brand>(&rt, rt.alloc(), Blank::new(PARTS))
}

#[test]
fn what_is_journalled_was_made_from_seats(rt: HostRuntime) -> Result<(), Fail> {
    expect_counts::<Brand>(&rt, rt.alloc(), Blank::new(PARTS))
}
