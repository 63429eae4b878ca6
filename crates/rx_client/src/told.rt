/// What a follower tells.
#[derive(Clone, Copy, Debug)]
pub enum Told<'a> {
    /// An item, its place and the port that it came by.
    Item {
        place: u32,
        from: u32,
        text: &'a [u8],
    },
    /// The seed of a Behavior.
    Seed(&'a [u8]),
    /// The items of these places, first and last, are not told: the subject had them no more when the follower came again, or
    /// the strategy let go of them.
    Missed {
        first: u64,
        last: u64,
    },
    /// The follower came again and was told the end at once. Nothing tells whether there were items from this place on.
    MissedFrom(u64),
    /// Another server began, whose places begin at 0. What the one before had from this place on is lost.
    Lost(u64),
    /// The follower was too slow for its strategy. It comes again.
    Overflow,
    /// The subject is completed.
    Done,
    /// The subject has failed.
    Failed(&'a [u8]),
}

/// What a follower tells of one line that it heard: a gap before it, and the line itself, of which either may be missing.
#[derive(Clone, Copy, Debug)]
pub struct Telling<'a> {
    pub gap: Option<Told<'a>>,
    pub note: Option<Told<'a>>,
}
