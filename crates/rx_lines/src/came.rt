use crate::input_end::InputEnd;

/// What one read came to.
#[derive(Drop)]
pub enum Came {
    /// Some bytes.
    Bytes,
    /// No byte yet: the read would block.
    Nothing,
    /// The end of the input.
    End(InputEnd),
}
