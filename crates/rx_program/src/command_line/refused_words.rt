//! Words that a command line may have and no server takes, so that nothing is sent.
ghost use Rattle.std.specs.Prelude.{IfSome, IsTrue};
ghost use Rattle.rx_proto.specs.Grammar.{IsText};
ghost use Rattle.rx_program.specs.Clients.{IfThere, IsBad, IsBadItem, IsBadSubscription, IsNoNumber, IsNoWithin};

use crate::command_line::subscription::Subscription;
use crate::command_line::task::Task;
use rx_client::{Unsaid, sub_line};
use rx_heap::Heap;
use rx_note::MAX_TEXT;
use rx_proto::Name;

const LF: u8 = b'\n';

const NO_NAME: &str = "a subject is 1 to 32 of a to z, 0 to 9 and -";

const NO_TEXT: &str = "a text has at most 1024 bytes, and no line feed";

const NO_POLICY: &str =
    "a subject is 1 to 32 of a to z, 0 to 9 and -; a strategy is BUFFER, DROP:n or BOUNDED:n with n up to 1024, or LATEST:n with n from 1 to 1024; an error mode is DELAY or AHEAD";

const NO_NUMBER: &str = "--from and --count take a number, from 0 on";

const NO_WITHIN: &str = "--within takes a number of seconds, from 0 to 3600";

// The most seconds for which a server waits before it stops.
const MAX_WITHIN: u16 = 3600;

/// Why no server takes what a task names. None: nothing is known against it.
pub(crate) fn refusal_of(heap: &Heap, task: Task<'_>) -> Option<&'static str>
    ensures { IfSome result (λ _. IsBad task.entry) }
{
    match task {
        Task::Publish(_, subject, text) => refusal_to_publish(subject, text),
        Task::Subscribe(_, subscription) => refusal_to_subscribe(heap, subscription),
        Task::Stop(_, within) => refusal_to_stop(within),
        Task::Script(_)
        | Task::Audit(_)
        | Task::Check(_, _)
        | Task::Serve(_, _)
        | Task::Stats(_, _) => None,
    }
}

fn refusal_to_publish(subject: &str, text: Option<&str>) -> Option<&'static str>
    ensures { IfSome result (λ _. IsBadItem subject.now text.entry) }
{
    if Name::new(subject.as_bytes()).is_none() {
        return Some(NO_NAME);
    }
    match text {
        Some(text) => refusal_of_text(text),
        None => None,
    }
}

fn refusal_of_text(text: &str) -> Option<&'static str>
    ensures { IfSome result (λ _. ¬ IsText text.now) }
{
    if text.len() > MAX_TEXT {
        return Some(NO_TEXT);
    }
    if text.as_bytes().contains(&LF) {
        return Some(NO_TEXT);
    }
    None
}

fn refusal_to_subscribe(heap: &Heap, subscription: Subscription<'_>) -> Option<&'static str>
    ensures { IfSome result (λ _. IsBadSubscription subscription.entry) }
{
    let Subscription {
        subject,
        strategy,
        errors,
        from,
        count,
        is_json: _,
    } = subscription;
    if let Err(Unsaid::Syntax) = sub_line(heap, subject, strategy, errors) {
        return Some(NO_POLICY);
    }
    if is_no_number(from) || is_no_number(count) {
        return Some(NO_NUMBER);
    }
    None
}

fn refusal_to_stop(within: Option<&str>) -> Option<&'static str>
    ensures { IfSome result (λ _. IfThere (λ t. IsNoWithin t.now) within.entry) }
{
    match within {
        Some(word) if is_no_within(word) => Some(NO_WITHIN),
        _ => None,
    }
}

// Whether a word is no number of seconds for which a server waits.
fn is_no_within(word: &str) -> bool
    ensures { IsTrue result → IsNoWithin word.now }
{
    match word.parse::<u16>() {
        Ok(within) => within > MAX_WITHIN,
        Err(_) => true,
    }
}

// Whether a word is there that is no number.
fn is_no_number(word: Option<&str>) -> bool
    ensures { IsTrue result → IfThere (λ t. IsNoNumber t.now) word.entry }
{
    match word {
        Some(word) => word.parse::<u64>().is_err(),
        None => false,
    }
}
