use rx_note::Note;
use rx_sink::{Flow, Sink, SinkFault};

/// One of two kinds of sink. A server has one type of sinks: this makes one of two, and one within another makes one of three. What
/// is left of it is what is left of the sink that it is.
#[derive(Drop, Clone, Copy, Debug, PartialEq, Eq)]
pub enum Either<A, B> {
    First(A),
    Second(B),
}

impl<A: Sink, B: Sink> Sink for Either<A, B> {
    type Rest = Either<A::Rest, B::Rest>;

    ghost use Rattle.rx_caller.specs.Eithers.{either_acts};

    ghost acts = { either_acts A.acts B.acts };

    fn start(&mut self, who: u32) -> Result<(), SinkFault> {
        match self {
            Either::First(sink) => sink.start(who),
            Either::Second(sink) => sink.start(who),
        }
    }

    fn take(&mut self, note: Note) -> Result<Flow, SinkFault> {
        match self {
            Either::First(sink) => sink.take(note),
            Either::Second(sink) => sink.take(note),
        }
    }

    fn flush(&mut self) -> Result<Flow, SinkFault> {
        match self {
            Either::First(sink) => sink.flush(),
            Either::Second(sink) => sink.flush(),
        }
    }

    fn finish(self) -> Either<A::Rest, B::Rest> {
        match self {
            Either::First(sink) => Either::First(sink.finish()),
            Either::Second(sink) => Either::Second(sink.finish()),
        }
    }
}
