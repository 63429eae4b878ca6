//! Letters that a port holds back.

use crate::boxes::{copy, finish, first_of_two, hold, receive, send, unlimited};
use rx_mailbox::{Inbox, Port, Post};
use std::process::Abort;
use std::sync::Wait;

// So many bodies are held back in turn, which go into the box several at once: more of them than it has room for letters.
fn hold_many(rt: &(impl Wait + Abort), port: &mut Port<u32>, bodies: u32) {
    for body in 0..bodies {
        hold(rt, port, body);
    }
}

// The bodies 0, 1, 2 and so on come from port 0.
fn receive_many(rt: &(impl Wait + Abort), inbox: &mut Inbox<u32>, bodies: u32) {
    for body in 0..bodies {
        receive(rt, inbox, 0, Post::Body(body));
    }
}

#[test]
fn held_letters_come_in_order(rt: HostRuntime) {
    let alloc = unlimited(&rt);
    let (mut inbox, mut first) = first_of_two::<u32>(&rt, copy(&rt, &alloc), 64);
    hold_many(&rt, &mut first, 200);
    assert!(&rt; first.ring(&rt));
    assert!(&rt; !first.holds_back());
    receive_many(&rt, &mut inbox, 200);
    // A letter that is not held back comes behind those that are, and so does the end.
    hold_many(&rt, &mut first, 3);
    send(&rt, &mut first, 3);
    receive_many(&rt, &mut inbox, 4);
    hold_many(&rt, &mut first, 1);
    let _ended = finish(&rt, first);
    receive_many(&rt, &mut inbox, 1);
    receive(&rt, &mut inbox, 0, Post::Bye);
}

// Where the inbox is gone what was held back comes to nobody, and a body that can't be held back comes back.
#[test]
fn held_letters_without_an_inbox(rt: HostRuntime) {
    let alloc = unlimited(&rt);
    let (inbox, mut first) = first_of_two::<u32>(&rt, copy(&rt, &alloc), 8);
    hold_many(&rt, &mut first, 2);
    drop(inbox);
    assert!(&rt; !first.ring(&rt));
    assert!(&rt; first.holds_back());
    assert!(&rt; first.send(&rt, 2) == Err(2));
    assert!(&rt; first.finish(&rt).is_err());
}
