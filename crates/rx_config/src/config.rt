// What a run is made of.
ghost use Rattle.std.specs.Prelude.{◌≡◌, ◌≤◌, IfOk, vec_len};

use crate::http::Http;
use crate::keys::section::Section;
use crate::reader::limits::limits_in;
use crate::reader::pool::Pool;
use crate::subject_config::SubjectConfig;
use rx_heap::{Heap, Memory};
use rx_note::{Kind, Rules};
use rx_proto::Name;

/// What a run is made of. The limits are this project's own.
#[derive(Drop, Debug)]
pub struct Config {
    /// The subjects, 1 to 16. Those that are read have each another name.
    pub subjects: Vec<SubjectConfig, Heap>,
    /// How many drainers hand notes to sinks, 1 to 8.
    pub drainers: u8,
    /// How many workers serve sessions, 1 to 32.
    pub workers: u8,
    /// The first request of an observer that is a session, 1 to 16 items.
    pub window: u8,
    /// How many connections are served, 1 to 4,294,967,295.
    pub connections: u32,
    /// How long the peer of an observer may take no byte while some wait for it, 1 to 3,600 seconds.
    pub stall: u16,
    /// How many bytes may wait for an observer at its subject before a server gives it up; 0 for as many as do.
    pub waiting: u32,
    /// How long a session may send nothing before it is ended, in seconds, of which 1 to 86,400 are read; as long as it likes, where
    /// there is none.
    pub idle: Option<u64>,
    /// Whether a socket at the path of the server on which nobody listens any more is removed.
    pub takeover: bool,
    /// Where events are told over HTTP, if they are.
    pub http: Option<Http>,
    ghost subjects_in_range: { (1 ≤ vec_len subjects) × (vec_len subjects ≤ 16) },
    ghost drainers_in_range: { (1 ≤ drainers) × (drainers ≤ 8) },
    ghost workers_in_range: { (1 ≤ workers) × (workers ≤ 32) },
    ghost window_in_range: { (1 ≤ window) × (window ≤ 16) },
    ghost some_connections: { 1 ≤ connections },
    ghost stall_in_range: { (1 ≤ stall) × (stall ≤ 3600) },
}

impl Config {
    ghost use Rattle.rx_config.specs.Configurations.{settings_of, standard_settings};

    /// One Publish subject `s`, with the greatest limits and no budget.
    ///
    /// # Errors
    ///
    /// `Memory`: there was none for the list of subjects.
    pub fn standard(alloc: Heap) -> Result<Config, Memory>
        ensures { IfOk result (λ config. settings_of config ≡ standard_settings) }
    {
        let Some(name) = Name::new(b"s") else {
            unreachable!()
        };
        let Some(limits) = limits_in(&Section::missing()) else {
            unreachable!()
        };
        let rules = Rules {
            kind: Kind::Publish,
            limits,
        };
        let mut subjects = Vec::new(alloc);
        subjects.push(SubjectConfig {
            name,
            rules,
            budget: None,
        })?;
        let pool = Pool::standard();
        Ok(Config {
            subjects,
            drainers: pool.crew.drainers,
            workers: pool.crew.workers,
            window: pool.crew.window,
            connections: pool.connections,
            stall: pool.stall,
            waiting: pool.waiting,
            idle: pool.idle,
            takeover: pool.takeover,
            http: None,
        })
    }
}
