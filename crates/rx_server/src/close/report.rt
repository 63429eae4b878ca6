ghost use Rattle.std.specs.Prelude.{◌≡◌};

use crate::close::settled_boxes::SettledBoxes;
use rx_heap::Heap;
use rx_sink::{Rests, Sink};

/// What became of one subject.
#[derive(Clone, Copy, Debug, PartialEq, Eq)]
pub struct SubjectReport {
    /// How many calls its pump took, those of drainers too, up to the greatest `u64`.
    pub calls: u64,
    /// How many of them were refused for want of memory, up to the greatest `u64`.
    pub refused: u64,
    /// How many observers joined.
    pub joins: u32,
}

/// What a server did that was closed: each box that it made has settled, and is empty. Contracts still see what each box
/// received.
pub struct Report<S: Sink> {
    /// In the order of the subjects.
    pub subjects: Vec<SubjectReport, Heap>,
    /// How many notes the sinks took, up to the greatest `u64`.
    pub taken: u64,
    /// Of each drainer what its sinks left, in the order in which they were put away: whole where the server was made by `start`.
    pub put_away: Vec<Rests<S::Rest>, Heap>,
    pub(crate) boxes: SettledBoxes<S>,
}

// By hand: rx_heap says why.
impl<S: Sink> Drop for Report<S> {
    fn drop(self) {
        let Report {
            subjects: _,
            taken: _,
            put_away: _,
            boxes: _,
        } = self;
    }
}

impl<S: Sink> Report<S> {
    /// What became of each subject, in their order.
    pub fn into_subjects(self) -> Vec<SubjectReport, Heap>
        ensures { result ≡ self.subjects }
    {
        let Report {
            subjects,
            taken: _,
            put_away: _,
            boxes: _,
        } = self;
        subjects
    }
}
