use crate::{Kind, Limits};

/// The rules of one subject.
#[derive(Drop, Debug, PartialEq, Eq)]
pub struct Rules {
    pub kind: Kind,
    pub limits: Limits,
}
