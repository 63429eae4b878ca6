// Who waits looks 1,000 times, with a pause after each look, before it sleeps, and never lets other threads go first: that
// lasts about a tenth of a millisecond, in which a peer that is answered mostly sends its next lines; with a quarter of it a
// server that is sent 64 lines at a time sleeps and is woken between them, and brings a tenth to a fifth fewer notes to one
// observer. A drainer, whose waits are bounded, looks 200 times: it has just written to peers, and the system may have put
// one that it woke on its core, where that peer waits until it sleeps; with 1,000 looks a note after a rest came half as late
// again. On Linux 6.18, where it was measured, a thread that yields waits for whole slices of the others on its core. With 40
// looks and 30 yields, as it was once, a server beside as many busy threads as there are cores brought a twentieth of the
// notes, and an answer took 3.8 milliseconds for 28 microseconds; on free cores both bring the same.
//
// Where two waits ended in a sleep, who waits looks 16 times at most (`Patience`). Behind a rest all threads sleep, and each
// wakes the next one. The system puts that one often on the very core of the one that woke it, where it waits until this one
// sleeps as well: with all looks each time, the answer to a line after a rest came up to twice as late, and a note up to a
// third later. One wait of 64 has all looks then, so a thread sees it when letters come often again; one sleep alone, as
// there is among letters that come often, changes nothing. Nor does a letter that came within the few looks: a subject's
// thread waits for a call and then for what its observers ask, which comes sooner, and while that ended the short waits the
// slowest tenth of notes after a rest came nearly twice as late.

// How often who waits looks before it sleeps, where what it waits for comes seldom.
const SOON: u32 = 16;

// After so many waits that ended in a sleep it comes seldom.
const SELDOM: u32 = 2;

// Of so many such waits, one has as many looks as any other.
const SHORT_WAITS: u32 = 64;

/// How long who waits goes on looking before it sleeps. Where its last waits ended in a sleep, what it waits for comes seldom, and it
/// soon leaves its core: those whom it just woke may wait for that very core. Now and then it looks longer all the same, so that it
/// sees when what it waits for comes often again.
#[derive(Drop)]
pub(crate) struct Patience {
    // How many waits ended in a sleep since one that had all looks did not, counted from the first again after some.
    sleeps: u32,
}

impl Patience {
    pub(crate) fn new() -> Patience {
        Patience { sleeps: 0 }
    }

    /// How often it looks before it sleeps, of so many looks at most.
    pub(crate) fn looks(&self, most: u32) -> u32 {
        if self.sleeps < SELDOM {
            most
        } else {
            SOON.min(most)
        }
    }

    /// Learns of a wait whether it ended in a sleep. What came within few looks says nothing of the next wait, which may be for
    /// something else.
    pub(crate) fn learn(&mut self, slept: bool) {
        if !slept {
            if self.sleeps < SELDOM {
                self.sleeps = 0;
            }
        } else if self.sleeps < SHORT_WAITS {
            self.sleeps += 1;
        } else {
            self.sleeps = 1;
        }
    }
}
