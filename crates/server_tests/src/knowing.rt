// A form that nobody else wrote entries of is believed at its end; else its trace is compared.
ghost use Rattle.std.specs.Prelude.{◌≡◌};

use crate::servers::fresh_config;
use bytes::Bytes;
use journal_book::{Beside, Book, JournalEntry, PARTS, Places, Seat};
use knowing_book::{Finish, KnowingBook, Naming, Opened, Stage};
use repl_core::{Step, StepAnswer};
use server_rules::Actor;
use std::alloc::Global;
use std::marker::Brand;
use std::process::Abort;
use std::sync::ledger::{Blank, Ledger};
use std::test::Fail;

const REQUEST: &[u8] = b"d4:code7:(+ 1 2)2:id1:72:op4:evale";

fn hear<L: Ledger, N: Naming>(
    rt: &impl Abort,
    alloc: Global,
    book: &mut KnowingBook<L, N>,
    seat: &mut Seat<L>,
) -> Result<(), Fail> {
    let piece = Bytes::copy_from_slice(alloc, REQUEST)?;
    assert!(rt; seat.tenant() == 0, "the first tenant's seat");
    match book.act(seat, Step::Hear(0, piece)) {
        Ok(_) => Ok(()),
        Err(_) => panic!(rt; "the piece is refused"),
    }
}

// The next form of the requests without a session, at its end.
fn finish<L: Ledger, N: Naming>(
    rt: &impl Abort,
    alloc: Global,
    book: &mut KnowingBook<L, N>,
    seat: &mut Seat<L>,
) -> Result<Finish<N>, Fail> {
    let Ok(Some(begun)) = book.start(seat, Actor::Bare, &mut Beside::nothing()) else {
        panic!(rt; "no form begins");
    };
    let mut stage = begun.evaluate(alloc)?;
    for _ in 0..10 {
        let question = match stage {
            Stage::Asks(question) => question,
            Stage::Ends(finish) => return Ok(finish),
        };
        let Ok(Some(reply)) = book.ask(seat, question, &mut Beside::nothing()) else {
            panic!(rt; "no answer");
        };
        stage = reply.resume(alloc)?;
    }
    panic!(rt; "the form does not end");
}

fn end<L: Ledger, N: Naming>(
    rt: &impl Abort,
    book: &mut KnowingBook<L, N>,
    seat: &mut Seat<L>,
    finish: Finish<N>,
) {
    match book.end(seat, finish, &mut Beside::nothing()) {
        Ok(receipt) => assert!(rt;
            matches!(receipt.answer, StepAnswer::Finished),
            "the form is finished"
        ),
        Err(_) => panic!(rt; "the ending is refused"),
    }
}

fn expect_belief<L: Ledger, N: Naming>(
    rt: &impl Abort,
    alloc: Global,
    blank: Blank,
    opened: Opened<JournalEntry>,
) -> Result<(), Fail>
    requires name { blank.name ≡ L.name }
    requires parts { (blank.parts ≡ L.parts) × (blank.parts ≡ 5000001) }
    requires book { opened.seen.book ≡ N.book }
{
    let Ok(book) = Book::<L>::new(blank, alloc, fresh_config()) else {
        panic!(rt; "there is no book");
    };
    let mut book = KnowingBook::<L, N>::new(alloc, book, opened);
    let Ok(mut places) = book.admit() else {
        panic!(rt; "the tenant is refused");
    };
    for _ in 0..4 {
        hear(rt, alloc, &mut book, &mut places.reader)?;
    }
    let first = finish(rt, alloc, &mut book, &mut places.worker)?;
    assert!(rt; book.believes(&first), "a form of which all is known");
    hear(rt, alloc, &mut book, &mut places.reader)?;
    assert!(rt; book.believes(&first), "behind what another thread made");
    end(rt, &mut book, &mut places.worker, first);
    let second = finish(rt, alloc, &mut book, &mut places.worker)?.forget();
    assert!(rt; !book.believes(&second), "a form of which nothing is known");
    end(rt, &mut book, &mut places.other_worker, second);
    let third = finish(rt, alloc, &mut book, &mut places.worker)?;
    assert!(rt; book.believes(&third), "the next form");
    book.forget();
    assert!(rt; !book.believes(&third), "a book that knows nothing");
    end(rt, &mut book, &mut places.worker, third);
    Ok(())
}

#[test]
fn a_form_of_which_all_is_known_is_believed(rt: HostRuntime) -> Result<(), Fail> {
    expect_belief::<Brand, Brand>(&rt, rt.alloc(), Blank::new(PARTS), Opened::new())
}
