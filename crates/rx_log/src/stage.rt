/// How far a machine is with its log.
#[derive(Clone, Copy, Debug, PartialEq, Eq)]
pub enum Stage {
    /// It has not read as far as the log went when it began.
    Catching,
    /// It reads what comes, and appends.
    Up,
    /// Its connection broke: it appends nothing.
    Away,
    /// Another run of its node has a tenure that counts behind one of its own: it appends nothing any more.
    Replaced,
}
