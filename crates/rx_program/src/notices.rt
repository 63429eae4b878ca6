// What a server tells of its peers while it runs, in lines on standard error.
//
// Whoever decides something counts it (`Notices`), and waits for nobody: not for another who does, and not for who reads the
// lines. One thread writes them (`tell_all`), so that they never mix, and a standard error that takes nothing holds up that thread
// alone. Of a cause there is a line a second at most, which tells how many there were since the one before; so each event is told,
// by a line of its own or as one of those more.

pub(crate) mod about;
pub(crate) mod bound;
pub(crate) mod cause;
pub(crate) mod counted;
pub(crate) mod detail;
pub(crate) mod given_up;
pub(crate) mod notice_line;
pub(crate) mod patience;
pub(crate) mod rate;
pub(crate) mod stop_line;
pub(crate) mod stop_told;
pub(crate) mod subject_line;
pub(crate) mod subject_told;
pub(crate) mod teller;
pub(crate) mod telling;
pub(crate) mod warden;
