//! What a browser asks for, and what its reader is told by what is written. The functions do nothing, or only look: their
//! clauses are the laws.
ghost use Rattle.rx_http.specs.Accounts.{HeardIsKnown, IdIsAccount};
ghost use Rattle.rx_http.specs.Asking.{HeadAsksForOne};
ghost use Rattle.rx_http.specs.BodyLines.{LinesAreReadBack};
ghost use Rattle.rx_http.specs.Epochs.{IsEpoch};
ghost use Rattle.rx_http.specs.HeadGrammar.{GrammarEndsThere};
ghost use Rattle.rx_http.specs.Heads.{HeadIsTheSame};
ghost use Rattle.rx_http.specs.Examples.{AreReadAsTold};
ghost use Rattle.rx_http.specs.Laws.{CutStreamIsAFront, IsEvent, IsPlace, StreamIsReadBack, StreamIsUtf8};
ghost use Rattle.rx_http.specs.Resuming.{HeardAreItems, ReaderGoesOn};
ghost use Rattle.rx_http.specs.Responses.{AnswersAreRead, IsAnswer};

use crate::{Answer, Epoch, StreamEvent};

/// The standard's own examples are read as it says.
pub fn examples_are_read_as_told()
    ensures { AreReadAsTold }
{}

/// The reader of a stream is told just its events, in their order, each with its id, its kind and its text, in which a CR is
/// an LF.
pub fn stream_is_read_back()
    ensures { StreamIsReadBack }
{}

/// The reader of a stream that is cut behind any byte is told a front of its events, and comes again with the id of the last
/// that it was told, or with its own where it was told none.
pub fn cut_stream_is_a_front()
    ensures { CutStreamIsAFront }
{}

/// All that is written of a stream is UTF-8.
pub fn stream_is_utf8()
    ensures { StreamIsUtf8 }
{}

/// However the bytes of a connection come, the same of them are its head.
pub fn head_is_the_same()
    ensures { HeadIsTheSame }
{}

/// A head of the grammar is the head of its connection.
pub fn grammar_ends_there()
    ensures { GrammarEndsThere }
{}

/// A head asks for one thing, or is refused for one cause.
pub fn head_asks_for_one()
    ensures { HeadAsksForOne }
{}

/// Lines without an LF are read back of a body that has them, each with an LF behind it, and so is what stands behind the last LF.
pub fn lines_are_read_back()
    ensures { LinesAreReadBack }
{}

/// By the grammar of heads each answer is a head with just its fields, and behind it stands its body, which is as long as the head
/// says.
pub fn answers_are_read()
    ensures { AnswersAreRead }
{}

/// In all its connections a reader that says at each begin what it knows hears each item at most once and in order, and what it heard
/// and what it was told as missed are together, without a gap, its subject's items from the first that it asked for on.
pub fn reader_goes_on()
    ensures { ReaderGoesOn }
{}

/// Wherever a stream is cut whose events are counted from what is known at its begin, its reader comes again with the id of what
/// it knows by the events that it was told; and that is what they come to.
pub fn id_is_account()
    ensures account { IdIsAccount }
    ensures heard { HeardIsKnown }
{}

/// What is heard in a connection are items of its subject, in their order, each at most once.
pub fn heard_are_items()
    ensures { HeardAreItems }
{}

/// The laws speak of each event and each epoch that there is.
pub fn event_can_be_told(epoch: &Epoch, event: StreamEvent<'_>)
    ensures epoch { IsEpoch epoch.now }
    ensures event { IsEvent event.entry }
{
    let _ = epoch.as_bytes();
    match event {
        StreamEvent::Joined { who: _, known } | StreamEvent::Completed { known } => look(known),
        StreamEvent::Next(item) => {
            let _ = item.text.as_bytes();
            look(Some(item.place));
        }
        StreamEvent::Missed { count: _, last: _ } | StreamEvent::Overflowed => {}
        StreamEvent::Restarted { sent } => {
            let _ = sent.epoch.as_bytes();
            look(sent.place);
        }
        StreamEvent::Failed { text, known } => {
            let _ = text.as_bytes();
            look(known);
        }
    }
}

/// The law of answers speaks of each answer that there is.
pub fn answer_can_be_told(answer: &Answer)
    ensures { IsAnswer answer.now }
{
    match answer {
        Answer::Accepted {
            epoch,
            place,
            again: _,
        } => {
            let _ = epoch.as_bytes();
            look(*place);
        }
        Answer::Placed { epoch, places }
        | Answer::Cut {
            epoch,
            places,
            refusal: _,
        } => {
            let _ = epoch.as_bytes();
            let _ = places.as_slice();
        }
        Answer::Shown { form: _, body } => {
            let _ = body.as_bytes();
        }
        Answer::Events
        | Answer::Over
        | Answer::Well
        | Answer::Unwell
        | Answer::Requested
        | Answer::Stops
        | Answer::Refused(_) => {}
    }
}

// A place has 32 bits.
fn look(place: Option<u32>)
    ensures { IsPlace place }
{
    match place {
        Some(_) | None => {}
    }
}
