// A configuration, told to whoever wrote it: of one that was accepted what will be served, of one that was refused each key that
// is at fault.

pub(crate) mod advice;
pub(crate) mod known_keys;
pub(crate) mod lines;
pub(crate) mod place;
pub(crate) mod refusal;
pub(crate) mod right_value;
pub(crate) mod shown;
