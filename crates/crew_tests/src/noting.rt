// Two connections are served at once, and what each was given stands in the book.
ghost use Rattle.std.specs.Prelude.{◌≡◌};

use crate::client::{Client, DONE};
use connection_crews::{Gate, Options, ServeError, serve};
use journal_book::{Book, JournalEntry, PARTS, Report};
use repl_asks::Ask;
use repl_core::{Config, RETRIES, STEPS, SharedText};
use server_rules::Actor;
use std::alloc::{AllocError, Global};
use std::marker::Brand;
use std::net::{Ipv4Addr, Net, TcpListener, TcpStream};
use std::process::Abort;
use std::sync::ledger::{Blank, Ledger};
use std::sync::{Arc, Mutex, Wait};
use std::test::Fail;
use std::thread::Threads;
use std::{io, thread};

// A server as it is unless told otherwise.
pub(crate) fn usual_config() -> Config {
    Config {
        seed: [0; 32],
        retries: RETRIES,
        steps: STEPS,
        shared: SharedText::Empty,
    }
}

// Notes who asked.
#[derive(Drop)]
struct Noting<R: Wait + Drop> {
    rt: R,
    asks: Arc<Mutex<Vec<(u64, Actor)>>>,
}

impl<R: Wait + Drop> Gate for Noting<R> {
    fn pass(&self, tenant: u64, actor: Actor, _ask: &Ask) {
        let _ = self.asks.lock(&self.rt).push((tenant, actor));
    }
}

fn shared<T: Drop>(alloc: Global, value: T) -> Result<Arc<T>, AllocError> {
    Ok(Arc::new(alloc, value)?)
}

// What two clients are given that send these at once.
fn ask_both<R: Net<Stream = TcpStream>>(
    rt: &R,
    alloc: Global,
    port: u16,
) -> io::Result<(Vec<u8>, Vec<u8>)> {
    let mut one = Client::connect(rt, alloc, port)?;
    let mut other = Client::connect(rt, alloc, port)?;
    one.send(b"d4:code7:(+ 1 2)2:id1:72:op4:evale")?;
    other.send(b"d4:code7:(+ 1 2)2:id1:82:op4:evale")?;
    Ok((one.receive_to(alloc, DONE)?, other.receive_to(alloc, DONE)?))
}

// All that the book says a tenant was given.
fn drained<L: Ledger>(alloc: Global, book: &Book<L>, tenant: u64) -> Result<Vec<u8>, AllocError> {
    let mut all = Vec::new(alloc);
    let (full, last) = book.journal().pages();
    for page in full {
        add_drained(&mut all, page.as_slice(), tenant)?;
    }
    add_drained(&mut all, last, tenant)?;
    Ok(all)
}

// What these entries say that a tenant was given, behind the bytes that are there.
fn add_drained(all: &mut Vec<u8>, entries: &[JournalEntry], tenant: u64) -> Result<(), AllocError> {
    for entry in entries {
        if let JournalEntry::Drained(number, reply) = entry {
            if *number == tenant {
                all.extend_from_slice(reply.as_slice())?;
            }
        }
    }
    Ok(())
}

fn expect_both<
    L: Ledger + Send + Sync + 'static,
    R: Threads
        + Wait
        + Abort
        + Net<Listener = TcpListener, Stream = TcpStream>
        + Copy
        + Drop
        + Send
        + Sync
        + 'static,
>(rt: R, alloc: Global, blank: Blank) -> Result<(), Fail>
    requires name { blank.name ≡ L.name }
    requires parts { (blank.parts ≡ L.parts) × (blank.parts ≡ 5000001) }
{
    let listener = TcpListener::bind(&rt, (Ipv4Addr::LOCALHOST, 0))?;
    let port = listener.local_addr()?.port();
    let asks = shared(alloc, Mutex::new(Vec::new(alloc)))?;
    let gate = Noting {
        rt,
        asks: Arc::try_clone(&asks)?,
    };
    let options = Options {
        connections: 2,
        crews: 2,
    };
    let (asked, served) = thread::join(
        &rt,
        || ask_both(&rt, alloc, port),
        || -> Result<(Book<L>, Report), ServeError>
            requires name { blank.name ≡ L.name }
            requires parts { (blank.parts ≡ L.parts) × (blank.parts ≡ 5000001) }
        { serve::<L, R, Noting<R>>(rt, alloc, &listener, blank, usual_config(), options, gate) },
    );
    let (seven, eight) = asked?;
    let Ok((book, report)) = served else {
        panic!(rt; "not all was served");
    };
    assert_eq!(rt;
        seven.as_slice(),
        b"d2:id1:72:ns4:user5:value1:3ed2:id1:76:statusl4:doneee" as &[u8]
    );
    assert_eq!(rt;
        eight.as_slice(),
        b"d2:id1:82:ns4:user5:value1:3ed2:id1:86:statusl4:doneee" as &[u8]
    );
    for tenant in 0..2 {
        let Some(row) = report.rows.get(&tenant) else {
            panic!(rt; "no row of tenant {tenant}");
        };
        assert_eq!(rt; row.journalled, row.made, "tenant {tenant}");
        assert!(rt; 8 <= row.made, "tenant {tenant}");
        let given = drained(alloc, &book, tenant)?;
        assert!(rt;
            given == seven || given == eight,
            "what tenant {tenant} was given"
        );
    }
    let asks = asks.lock(&rt);
    assert_eq!(rt; asks.len(), 2, "how many asks passed the gate");
    for (_tenant, actor) in asks.as_slice() {
        assert_eq!(rt; *actor, Actor::Bare, "who asked");
    }
    Ok(())
}

#[test]
fn two_connections_are_served_from_one_book(rt: HostRuntime) -> Result<(), Fail> {
    expect_both::<Brand, HostRuntime>(rt, rt.alloc(), Blank::new(PARTS))
}
