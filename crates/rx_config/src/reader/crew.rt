// How many threads there are, and how far a sink is ahead.
ghost use Rattle.std.specs.Prelude.{◌≡◌, ◌≤◌, IfSome};
ghost use Rattle.rx_config.specs.KeyTables.{members_in};

use crate::keys::section::Section;
use crate::keys::{DRAINERS, WINDOW, WORKERS};

/// How many threads there are, and how far a sink is ahead.
#[derive(Clone, Copy, Debug)]
pub(crate) struct Crew {
    pub(crate) drainers: u8,
    pub(crate) workers: u8,
    pub(crate) window: u8,
}

impl Crew {
    ghost use Rattle.rx_config.specs.Configurations.{crew_in};

    /// The crew of a pool's table. None: one of its numbers is refused.
    pub(crate) fn of(section: &Section) -> Option<Crew>
        ensures crew { result ≡ crew_in (members_in section.now) }
        ensures drainers { IfSome result (λ crew. (1 ≤ crew.drainers) × (crew.drainers ≤ 8)) }
        ensures workers { IfSome result (λ crew. (1 ≤ crew.workers) × (crew.workers ≤ 32)) }
        ensures window { IfSome result (λ crew. (1 ≤ crew.window) × (crew.window ≤ 16)) }
    {
        let Some(drainers) = DRAINERS.number_in(section) else {
            return None;
        };
        let Some(workers) = WORKERS.number_in(section) else {
            return None;
        };
        let Some(window) = WINDOW.number_in(section) else {
            return None;
        };
        Some(Crew {
            drainers: drainers as u8,
            workers: workers as u8,
            window: window as u8,
        })
    }
}
