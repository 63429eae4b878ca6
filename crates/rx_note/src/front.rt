// A text that is printed is copied by a fixed size. The bytes of one with up to 56 stand at the front of a block of 20 or 56,
// and a copy of the whole block is a few instructions, where one of the bytes that count is a call (`Text::front`,
// `Outbox::push_padded`): a tenth of the instructions of a short note. The bytes behind those that count are written over by
// what comes next.

/// The bytes of a text for one who copies them: those of a short one stand at the front of a block of fixed size, and a copy of
/// fixed size is quicker than one of the bytes that count.
pub enum Front<'a> {
    /// The first of these, so many.
    UpTo20(&'a [u8; 20], usize),
    /// The first of these, so many.
    UpTo56(&'a [u8; 56], usize),
    /// All of these.
    Whole(&'a [u8]),
}
