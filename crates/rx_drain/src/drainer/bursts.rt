// How many letters come in one turn of a drainer.
//
// A drainer waits a tenth of a millisecond within a burst (`Bursts`). What it asks for behind one part of a burst brings the
// next, while a flush wakes a peer for each sink, which takes longer than all that a few letters take. So behind 64 letters or
// more, and four or more for each sink, it has the requests go and waits before it flushes; not behind as many letters as it
// last waited in vain, but once in 16 bursts. Behind a wait as many have to come again before the next, so that notes which come
// one by one go out. Where cores are few the subject sleeps until the drainer does: on one core 64
// lines at a time so bring 8 subscribers a third more, and 64 of them a half. Where each has a core of its own one write has
// three times as many notes to 8 subscribers, and a note takes a sixth less processor time.

// Fewer letters than these, or than so many for each sink, are no burst: what they gave goes out at once.
const FEWEST: u32 = 64;

const FEWEST_EACH: usize = 4;

// After so many bursts behind which it waited for nothing it waits again, however many letters came.
const SHORT_BURSTS: u32 = 16;

/// What a drainer learns of bursts. The requests that it owes for one part of a burst bring the next, so it waits for that before
/// it flushes, and a write has the notes of both; but not where a burst mostly ends.
#[derive(Drop)]
pub(crate) struct Bursts {
    // Behind so many letters it waited in vain.
    most: u32,
    // Behind how many bursts it waited for nothing since.
    short: u32,
    // How many letters of this turn had come when more came for which it waited.
    seen: u32,
}

impl Bursts {
    pub(crate) fn new() -> Bursts {
        Bursts {
            most: u32::MAX,
            short: 0,
            seen: 0,
        }
    }

    /// Whether more may come behind so many letters of this turn to so many sinks. Behind each wait as many have to come as make a
    /// burst before the next.
    pub(crate) fn may_go_on(&self, letters: u32, sinks: usize) -> bool {
        is_burst(letters.saturating_sub(self.seen), sinks) && letters < self.most
    }

    /// Learns that more came for which it waited behind so many letters.
    pub(crate) fn went_on(&mut self, letters: u32) {
        self.seen = letters;
    }

    /// Learns that it waited in vain behind so many letters.
    pub(crate) fn waited(&mut self, letters: u32) {
        self.most = letters;
        self.short = 0;
        self.seen = 0;
    }

    /// Learns that a turn ended behind so many letters to so many sinks, and did not wait.
    pub(crate) fn ended(&mut self, letters: u32, sinks: usize) {
        self.seen = 0;
        if !is_burst(letters, sinks) {
            return;
        }
        self.short = self.short.saturating_add(1);
        if self.short >= SHORT_BURSTS {
            self.most = u32::MAX;
            self.short = 0;
        }
    }
}

fn is_burst(letters: u32, sinks: usize) -> bool {
    letters >= FEWEST && letters as usize / FEWEST_EACH >= sinks
}
