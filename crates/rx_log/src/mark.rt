/// That a note counted at a place, and whether it ends its subject.
#[derive(Clone, Copy)]
pub(crate) struct Mark {
    pub(crate) place: u64,
    pub(crate) ends: bool,
}
