// Evaluations overlap: while one is held back at its first ask, another is done.
ghost use Rattle.std.specs.Prelude.{◌≡◌};

use crate::client::{Client, DONE};
use crate::noting::usual_config;
use connection_crews::{Gate, Options, ServeError, serve};
use journal_book::{Book, PARTS, Report};
use repl_asks::Ask;
use server_rules::Actor;
use std::alloc::{AllocError, Global};
use std::marker::Brand;
use std::net::{Ipv4Addr, Net, TcpListener, TcpStream};
use std::process::Abort;
use std::sync::atomic::{AtomicBool, Ordering};
use std::sync::ledger::{Blank, Ledger};
use std::sync::{Arc, Wait};
use std::test::Fail;
use std::thread::Threads;
use std::time::{Clock, Duration};
use std::{io, thread};

// So many times a millisecond an evaluation is held back at most.
const MOST_ROUNDS: u64 = 10_000;

#[derive(Drop)]
struct OverlapSigns {
    is_released: AtomicBool,
    was_held_too_long: AtomicBool,
}

// Holds the first session of the first tenant back until it is released.
#[derive(Drop)]
struct Holding<R: Clock + Drop> {
    rt: R,
    signs: Arc<OverlapSigns>,
}

impl<R: Clock + Drop> Gate for Holding<R> {
    fn pass(&self, tenant: u64, actor: Actor, _ask: &Ask) {
        if tenant != 0 || actor != Actor::Session(0) {
            return;
        }
        for _ in 0..MOST_ROUNDS {
            if self.signs.is_released.load(Ordering::SeqCst) {
                return;
            }
            thread::yield_now();
            thread::sleep(&self.rt, Duration::from_millis(1));
        }
        self.signs.was_held_too_long.store(true, Ordering::SeqCst);
    }
}

fn shared<T: Drop>(alloc: Global, value: T) -> Result<Arc<T>, AllocError> {
    Ok(Arc::new(alloc, value)?)
}

// The id of a session that is made.
fn cloned(alloc: Global, client: &mut Client) -> io::Result<Vec<u8>> {
    client.send(b"d2:op5:clonee")?;
    let reply = client.receive_to(alloc, DONE)?;
    // d11:new-session36: and the id
    let id = reply.as_slice().get(18..54).unwrap_or(&[]);
    Vec::from_slice(alloc, id).map_err(io::Error::from)
}

fn eval_in(alloc: Global, client: &mut Client, session: &[u8]) -> io::Result<()> {
    let mut request = Vec::from_slice(alloc, b"d4:code7:(+ 1 2)2:op4:eval7:session36:")?;
    request.extend_from_slice(session)?;
    request.push(b'e')?;
    client.send(request.as_slice())
}

// Both ask, the first one first. What the second is given is read while the first one is held back.
fn ask_in_turn<R: Net<Stream = TcpStream>>(
    rt: &R,
    alloc: Global,
    port: u16,
    signs: &OverlapSigns,
    are_of_one_connection: bool,
) -> io::Result<()> {
    let mut one = Client::connect(rt, alloc, port)?;
    // once this is answered, it is the first tenant
    let held = cloned(alloc, &mut one)?;
    let mut other = Client::connect(rt, alloc, port)?;
    eval_in(alloc, &mut one, held.as_slice())?;
    if are_of_one_connection {
        // the second session's id comes while the first one's evaluation is held back
        let free = cloned(alloc, &mut one)?;
        eval_in(alloc, &mut one, free.as_slice())?;
        one.receive_to(alloc, DONE)?;
    } else {
        let free = cloned(alloc, &mut other)?;
        eval_in(alloc, &mut other, free.as_slice())?;
        other.receive_to(alloc, DONE)?;
    }
    signs.is_released.store(true, Ordering::SeqCst);
    one.receive_to(alloc, DONE)?;
    Ok(())
}

fn expect_overlap<
    L: Ledger + Send + Sync + 'static,
    R: Threads
        + Wait
        + Abort
        + Clock
        + Net<Listener = TcpListener, Stream = TcpStream>
        + Copy
        + Drop
        + Send
        + Sync
        + 'static,
>(rt: R, alloc: Global, blank: Blank, are_of_one_connection: bool) -> Result<(), Fail>
    requires name { blank.name ≡ L.name }
    requires parts { (blank.parts ≡ L.parts) × (blank.parts ≡ 5000001) }
{
    let listener = TcpListener::bind(&rt, (Ipv4Addr::LOCALHOST, 0))?;
    let port = listener.local_addr()?.port();
    let signs = shared(
        alloc,
        OverlapSigns {
            is_released: AtomicBool::new(false),
            was_held_too_long: AtomicBool::new(false),
        },
    )?;
    let gate = Holding {
        rt,
        signs: Arc::try_clone(&signs)?,
    };
    let options = Options {
        connections: 2,
        crews: 2,
    };
    let (asked, served) = thread::join(
        &rt,
        || ask_in_turn(&rt, alloc, port, &*signs, are_of_one_connection),
        || -> Result<(Book<L>, Report), ServeError>
            requires name { blank.name ≡ L.name }
            requires parts { (blank.parts ≡ L.parts) × (blank.parts ≡ 5000001) }
        { serve::<L, R, Holding<R>>(rt, alloc, &listener, blank, usual_config(), options, gate) },
    );
    asked?;
    assert!(rt; served.is_ok(), "all was served");
    assert!(rt;
        !signs.was_held_too_long.load(Ordering::SeqCst),
        "the other was answered only once this was released"
    );
    Ok(())
}

#[test]
fn evaluations_of_one_connection_overlap(rt: HostRuntime) -> Result<(), Fail> {
    expect_overlap::<Brand, HostRuntime>(rt, rt.alloc(), Blank::new(PARTS), true)
}

#[test]
fn evaluations_of_two_connections_overlap(rt: HostRuntime) -> Result<(), Fail> {
    expect_overlap::<Brand, HostRuntime>(rt, rt.alloc(), Blank::new(PARTS), false)
}
