use rx_http::{Places, Refusal};

/// What became of the lines of a body, each of which is the text of an item.
#[derive(Drop)]
pub struct EmittedLines {
    /// The place of the item of each line that was accepted: the first ones, in their order.
    pub places: Places,
    /// Why the line behind them was refused; None where all were accepted.
    pub refusal: Option<Refusal>,
}
