//! The desk of a session over the desk of a server: each of its calls reaches the subject. And a worker on this one thread, which
//! serves what came to its box.

ghost use Rattle.std.specs.Prelude.{◌≡◌, ◌+◌, length, vec_len};

use crate::expectations::{expect_count, expect_that, expect_told};
use crate::servers::{Host, config_of, copy, started};
use crate::turns::{Everyone, Still};
use rx_heap::Heap;
use rx_mailbox::{Inbox, Port, open};
use rx_note::{Errors, Item, Note, Policy, Strategy, Text};
use rx_proto::{Name, Response, Version, Word};
use rx_pump::CallDesk;
use rx_server::{ClientSink, Config, Joined, Server, SessionDesk, Worker};
use rx_session::{Desk, Follow};
use std::io::{self, Read, Write};
use std::process::Abort;
use std::sync::{Arc, Mutex, Wait};
use test_kit::Told;

// A subject that holds one observer, another one, and one desk.
const ONE_PLACE: &[u8] =
    b"[[subject]]\nname = \"s\"\nkind = \"publish\"\nobservers = 1\n[[subject]]\nname = \"t\"\nkind = \"publish\"\n[pool]\nworkers = 1\n";

// Hands it out, so that who serves by it is proved without its bytes.
fn one_place() -> &'static [u8] {
    ONE_PLACE
}

/// Takes all that is written, and keeps nothing.
#[derive(Drop)]
struct Deaf;

impl Write for Deaf {
    fn write(&mut self, bytes: &[u8]) -> io::Result<usize> {
        Ok(bytes.len())
    }

    fn flush(&mut self) -> io::Result<()> {
        Ok(())
    }
}

type Session<'a, R> = SessionDesk<'a, R, Still, Deaf>;

// The next desk of a server, which has a port for each subject of this configuration.
fn desk_of(
    rt: &impl Abort,
    server: &mut Server<ClientSink<Deaf>>,
    config: &Config,
) -> CallDesk<ClientSink<Deaf>>
    ensures { length result.ports + length result.ended ≡ vec_len config.now.subjects }
{
    let desk = server.desk().expect(rt, "a desk");
    assert!(rt;
        desk.subjects() == config.subjects.len(),
        "a port for each subject"
    );
    desk
}

// Closes a server whose desk is not handed in.
fn close_without<R: Host>(rt: &R, heap: &Heap, server: Server<ClientSink<Deaf>>) {
    let closed = server.close(rt, Vec::new(copy(rt, heap)));
    expect_that(rt, closed.is_err(), "a desk is missing");
}

// What is told of a response: `.` for OK, `F` where the subject is full, and `?` for any other.
fn sign_of(response: Response) -> u8 {
    match response {
        Response::Done => b'.',
        Response::Refused(Word::Full) => b'F',
        Response::Refused(_) | Response::Joined(_) => b'?',
    }
}

// An item of one byte.
fn item(rt: &impl Abort, heap: &Heap) -> Note {
    let text = Text::new(copy(rt, heap), b"a").expect(rt, "a text");
    Note::Next(Item::new(text))
}

// Joins an observer. What is told of it: `J` where it was made.
fn told_join<R: Wait>(rt: &impl Abort, desk: &mut Session<R>, name: &Name) -> u8 {
    let policy = Policy::new(Strategy::Buffer, Errors::Delay).expect(rt, "a policy");
    match desk.follow(name, policy, Version::One, Deaf) {
        Follow::Taken => b'J',
        Follow::Back(response, Deaf) => sign_of(response),
    }
}

// Disposes of whom the last Join made.
fn told_dispose<R: Wait>(desk: &mut Session<R>, joined: Option<Joined>) -> u8 {
    let Some(observer) = joined else {
        return b'?';
    };
    desk.dispose(observer);
    b'-'
}

// Begins an item behind so many.
fn told_begin<R: Wait>(
    rt: &impl Abort,
    heap: &Heap,
    desk: &mut Session<R>,
    name: &Name,
    behind: u32,
) -> u8 {
    match desk.begin(name, item(rt, heap), behind) {
        Ok(()) => b'b',
        Err(_) => b'!',
    }
}

// What a desk answers, step by step: to a Join at `j`, a dispose of the first observer at `d`, an item at `e`, one that is begun at
// `b`, or for the other subject at `o`, and the answer to one that was begun at `a`.
fn told_steps<R: Wait>(rt: &impl Abort, heap: &Heap, desk: &mut Session<R>, steps: &[u8]) -> Told {
    let name = Name::new(b"s").expect(rt, "a name");
    let other = Name::new(b"t").expect(rt, "a name");
    let mut told = Told::new();
    let mut first = None;
    let mut behind = 0_u32;
    for step in steps {
        let sign = match *step {
            b'j' => told_join(rt, desk, &name),
            b'd' => told_dispose(desk, first),
            b'e' => sign_of(desk.emit(&name, item(rt, heap))),
            b'b' => told_begin(rt, heap, desk, &name, behind),
            b'o' => told_begin(rt, heap, desk, &other, behind),
            _ => sign_of(desk.answer()),
        };
        if *step == b'b' || *step == b'o' {
            behind = behind.saturating_add(1);
        }
        if first.is_none() {
            first = desk.joined();
        }
        told.put(sign);
    }
    told
}

// The place of one who is disposed of is free; items are admitted, those too that are begun together, for one subject or for two.
const STEPS: [(&str, &str); 6] = [
    ("jj", "JF"),
    ("jjdj", "JF-J"),
    ("ee", ".."),
    ("bbbaaae", "bbb...."),
    ("boboobaaaaaae", "bbbbbb......."),
    ("oooobaaaaae", "bbbbb......"),
];

#[test]
fn calls_of_a_session_reach_the_subject(rt: HostRuntime) {
    let heap = Heap::unlimited(rt.alloc());
    let config = config_of(&rt, &heap, one_place());
    for (steps, wanted) in &STEPS {
        let mut server: Server<ClientSink<Deaf>> = started(&rt, &heap, one_place());
        let calls = desk_of(&rt, &mut server, &config);
        let mut desk = SessionDesk::new(&rt, &heap, calls, &config, Still);
        let told = told_steps(&rt, &heap, &mut desk, steps.as_bytes());
        expect_told(&rt, told.as_bytes(), wanted, steps);
        expect_that(
            &rt,
            desk.into_desk().finish(&rt).is_ok(),
            "a desk that ends",
        );
        close_without(&rt, &heap, server);
    }
}

/// Asks for the end of its session.
#[derive(Drop)]
struct Quits {
    is_read: bool,
}

impl Read for Quits {
    fn read(&mut self, buf: &mut [u8]) -> io::Result<usize> {
        let bytes: &[u8] = if self.is_read { b"" } else { b"QUIT\n" };
        self.is_read = true;
        let count = bytes.len().min(buf.len());
        buf[..count].copy_from_slice(&bytes[..count]);
        Ok(count)
    }
}

// The box of a worker, to which so many connections came, and then the Bye.
fn box_with(rt: &(impl Wait + Abort), heap: &Heap, connections: u64) -> Inbox<(Quits, Deaf)> {
    let Ok((inbox, mut ports)) = open(copy(rt, heap), 16, 1) else {
        panic!(rt; "a box");
    };
    let mut port: Port<(Quits, Deaf)> = ports.pop().expect(rt, "a port");
    for _ in 0..connections {
        let sent = port.send(rt, (Quits { is_read: false }, Deaf));
        expect_that(rt, sent.is_ok(), "a connection");
    }
    expect_that(rt, port.finish(rt).is_ok(), "a Bye");
    inbox
}

#[test]
fn a_worker_serves_what_came(rt: HostRuntime) {
    let heap = Heap::unlimited(rt.alloc());
    for connections in [0, 1, 3] {
        let config = config_of(&rt, &heap, one_place());
        let mut server: Server<ClientSink<Deaf>> = started(&rt, &heap, one_place());
        let calls = desk_of(&rt, &mut server, &config);
        let inbox = box_with(&rt, &heap, connections);
        let config = Arc::new(copy(&rt, &heap), config).expect(&rt, "memory");
        let moments = Arc::new(copy(&rt, &heap), Mutex::new(Still)).expect(&rt, "memory");
        let readiness = Everyone::new(rt.alloc());
        let worker = Worker::new(
            copy(&rt, &heap),
            copy(&rt, &heap),
            config,
            moments,
            calls,
            inbox,
            readiness,
        );
        let end = worker.serve(&rt);
        expect_count(&rt, end.sessions, connections, "sessions");
        expect_that(&rt, end.desk.finish(&rt).is_ok(), "a desk that ends");
        close_without(&rt, &heap, server);
    }
}
