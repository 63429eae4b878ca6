// What `pool` says: how many threads there are, and what they take on.
ghost use Rattle.std.specs.Prelude.{◌≡◌, ◌≤◌, IfSome};

use crate::keys::section::Section;
use crate::keys::{CONNECTIONS, IDLE, POOL, POOL_KEYS, STALL, TAKEOVER, WAITING};
use crate::reader::crew::Crew;

/// What `pool` says: how many threads there are, and what they take on.
#[derive(Clone, Copy, Debug)]
pub(crate) struct Pool {
    pub(crate) crew: Crew,
    pub(crate) connections: u32,
    pub(crate) stall: u16,
    pub(crate) waiting: u32,
    pub(crate) idle: Option<u64>,
    pub(crate) takeover: bool,
}

impl Pool {
    ghost use Rattle.rx_config.specs.Configurations.{IsInRange, pool_at, pool_in, pool_of_crew, standard_pool};
    ghost use Rattle.rx_config.specs.KeyTables.{members_in};

    /// The pool of a configuration that has none.
    pub(crate) fn standard() -> Pool
        ensures pool { result ≡ standard_pool }
        ensures in_range { IsInRange result }
    {
        let Some(pool) = Pool::of(&Section::missing()) else {
            unreachable!()
        };
        pool
    }

    /// The pool of a configuration's table, which may be missing. None: it is refused.
    pub(crate) fn at(section: &Section) -> Option<Pool>
        ensures pool { result ≡ pool_at (members_in section.now) }
        ensures in_range { IfSome result IsInRange }
    {
        match POOL.value_in(section) {
            None => Some(Pool::standard()),
            Some(value) => match value.as_table() {
                None => None,
                Some(table) => Pool::of(&Section::of(table)),
            },
        }
    }

    // The pool of a table.
    fn of(section: &Section) -> Option<Pool>
        ensures pool { result ≡ pool_in (members_in section.now) }
        ensures in_range { IfSome result IsInRange }
    {
        if !section.has_only(&POOL_KEYS, None) {
            return None;
        }
        let Some(crew) = Crew::of(section) else {
            return None;
        };
        Pool::of_crew(section, crew)
    }

    // The pool of a table that has this crew.
    fn of_crew(section: &Section, crew: Crew) -> Option<Pool>
        ensures pool { result ≡ pool_of_crew (members_in section.now) crew }
        ensures same { IfSome result (λ pool. pool.crew ≡ crew) }
        ensures connections { IfSome result (λ pool. 1 ≤ pool.connections) }
        ensures stall { IfSome result (λ pool. (1 ≤ pool.stall) × (pool.stall ≤ 3600)) }
    {
        let Some(connections) = CONNECTIONS.number_in(section) else {
            return None;
        };
        let Some(stall) = STALL.number_in(section) else {
            return None;
        };
        let Some(waiting) = WAITING.number_in(section) else {
            return None;
        };
        let Some(idle) = IDLE.bound_in(section) else {
            return None;
        };
        let Some(takeover) = TAKEOVER.flag_in(section) else {
            return None;
        };
        Some(Pool {
            crew,
            connections,
            stall: stall as u16,
            waiting,
            idle,
            takeover,
        })
    }
}
