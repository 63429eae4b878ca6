//! What is told of letters. A letter is told by its signs and a space; a Bye is `.`. What a drainer receives is `+` with the
//! observer and its sink, `=` with the observer and the sign of its note, `-` with the observer that left. A reply is its
//! ticket, the signs of its answer, the sink that came back or `_`, and how many items its subject had.

use crate::expectations::expect_count;
use rx_mailbox::{Inbox, Post};
use rx_pump::{Out, Reply};
use std::process::Abort;
use std::sync::Wait;
use test_kit::{Told, sign_of};

/// A body of which something is told.
pub(crate) trait Tells: Drop {
    fn put(&self, told: &mut Told);
}

impl Tells for Out<u8> {
    fn put(&self, told: &mut Told) {
        told.put(match self {
            Out::Attach { who: _, sink: _ } => b'+',
            Out::Give { who: _, note: _ } => b'=',
            Out::Detach { who: _ } => b'-',
        });
        told.put_digit(self.who() as usize);
        match self {
            Out::Attach { who: _, sink } => told.put_digit(*sink as usize),
            Out::Give { who: _, note } => told.put(sign_of(note)),
            Out::Detach { who: _ } => (),
        }
    }
}

impl Tells for Reply<u8> {
    fn put(&self, told: &mut Told) {
        told.put_digit(self.ticket as usize);
        told.put_answer(self.result);
        match self.sink {
            Some(sink) => told.put_digit(sink as usize),
            None => told.put(b'_'),
        }
        told.put_digit(self.items as usize);
    }
}

fn put_post<B: Tells>(told: &mut Told, post: &Post<B>) {
    match post {
        Post::Body(body) => body.put(told),
        Post::Bye => told.put(b'.'),
    }
    told.put(b' ');
}

// No run here sends as many letters by one port.
const MAX_LETTERS: u32 = 100;

/// The letters up to the Bye, all of port 0.
pub(crate) fn told_of<B: Tells>(rt: &(impl Wait + Abort), inbox: &mut Inbox<B>) -> Told {
    let mut told = Told::new();
    for _ in 0..MAX_LETTERS {
        let letter = inbox.recv(rt).expect(rt, "a letter");
        expect_count(rt, u64::from(letter.from), 0, "the port of a letter");
        put_post(&mut told, &letter.post);
        if matches!(letter.post, Post::Bye) {
            break;
        }
    }
    told
}
