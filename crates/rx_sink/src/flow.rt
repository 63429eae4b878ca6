// How many lines are ahead. A sink over a writer that gathers asks for the next items until 48 lines were written since nothing
// waited, unless it was found stuck. So one write can hold more notes than a window, and what is outside its subject for a slow
// peer is 64 notes at most. Where its last flush found that nothing waits, the one before did not find it stuck, and each line
// since has a short text, it asks until 160 were: a window's more are what one write of 4,096 bytes holds of notes of 16 bytes.
// With 48 alone, 64 lines at a time bring 8 subscribers a sixth fewer notes, and as many as are taken a third fewer. It asks
// behind each eighth line for those of eight, so that they go as one letter, and its flush pays for the rest.
ghost use Rattle.std.specs.Prelude.{◌≡◌};
ghost use Rattle.rx_sink.specs.Kinds.{flow_behind, most_ahead};

// How many lines a writer that gathers may hold and the sink still asks for more. What is outside its subject is this and a window
// at most.
const MOST_AHEAD: u32 = 48;

// The same of lines with short texts, where its peer keeps up.
const MOST_FAR_AHEAD: u32 = 160;

// Behind so many lines items are asked for in their place: half a window, so that others are on the way meanwhile.
const TOGETHER: u32 = 8;

/// How a sink stands once it took a note or was flushed.
#[derive(Clone, Copy, Debug, PartialEq, Eq)]
pub enum Flow {
    /// Nothing waits in it.
    Clear,
    /// Something waits in it, and it takes more.
    Ready,
    /// Something waits in it that can't go out now.
    Stuck,
    /// None is asked for yet in the place of those that it took: its reader asks for items itself, or several are to be asked for
    /// together. A flush answers so only where nothing waits.
    Held,
}

impl Flow {
    /// How a sink stands behind a line: by whether its writer gathers what it is given, whether a flush found it stuck, whether lines
    /// may be far ahead, and how many were written since nothing waited, this one counted.
    pub fn behind(gathers: bool, stuck: bool, far: bool, ahead: u32) -> Flow
        ensures { result ≡ flow_behind gathers stuck far ahead }
    {
        if !gathers {
            Flow::Clear
        } else if stuck || ahead > most_ahead(far) {
            Flow::Stuck
        } else if ahead % TOGETHER == 0 {
            Flow::Ready
        } else {
            Flow::Held
        }
    }
}

// How many lines may be ahead, and the next items are asked for all the same.
fn most_ahead(far: bool) -> u32
    ensures { result ≡ most_ahead far }
{
    if far { MOST_FAR_AHEAD } else { MOST_AHEAD }
}
