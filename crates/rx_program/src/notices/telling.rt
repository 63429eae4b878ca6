use crate::notices::about::About;
use crate::notices::cause::{CAUSES, Cause, EACH};
use crate::notices::counted::Notices;
use crate::notices::notice_line::write_due;
use crate::notices::patience::Patience;
use crate::notices::rate::Rate;
use rx_proto::Name;
use std::io::Write;

/// How far notices were told.
#[derive(Clone, Copy, Debug)]
pub struct Telling {
    patience: Patience,
    // By the place of the cause.
    rates: [Rate; CAUSES],
}

impl Telling {
    /// Nothing was told yet, of a server that waits for its peers for so long.
    pub fn new(patience: Patience) -> Telling {
        Telling {
            patience,
            rates: [Rate::new(); CAUSES],
        }
    }

    /// Writes the lines that are due at this moment, in milliseconds, of a server whose subjects have these names. It answers whether
    /// some events wait for theirs. A writer that fails changes nothing else.
    pub fn tell<E: Write>(
        &mut self,
        notices: &Notices,
        names: &[Name],
        now: u64,
        faults: &mut E,
    ) -> bool {
        let mut is_behind = false;
        for place in 0..CAUSES {
            let cause = EACH[place];
            let count = notices.counted(cause);
            let due = self.rates[place].look(count, now);
            let about = about_of(notices, names, cause);
            write_due(due, self.patience, cause, &about, faults);
            is_behind = is_behind || self.rates[place].is_behind(count);
        }
        is_behind
    }
}

// Which observer the last event of a cause was about, by the name of its subject.
fn about_of(notices: &Notices, names: &[Name], cause: Cause) -> Option<About> {
    let (observer, bytes) = notices.about(cause)?;
    let name = names.get(observer.subject)?;
    Some(About {
        observer: observer.who,
        subject: Name::of(name.as_bytes()),
        bytes,
    })
}
