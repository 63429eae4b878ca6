use rx_note::{Answer, Refusal};

/// One step of a run.
#[derive(Clone, Copy, Debug, PartialEq, Eq)]
pub struct Step {
    /// What the event was answered.
    pub result: Result<Answer, Refusal>,
    /// How many of the run's outs were given up to this step, its own included.
    pub outs_to: usize,
}
