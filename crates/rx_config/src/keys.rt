// The keys of a configuration: what may stand at each, what is taken where it is left out, and which kind of subject has it. By
// this table a configuration is read and checked, and whoever wrote one that is refused is told what is right. That it is the
// one of `specs/Configurations.antt` the contracts of the reading show: another limit or default is refused by the proof.

pub(crate) mod form;
pub(crate) mod key;
pub(crate) mod number;
pub(crate) mod section;

use crate::keys::form::Form;
use crate::keys::key::Key;

/// The keys at the top, in the order in which they are told.
pub(crate) static TOP_KEYS: [Key; 3] = [SUBJECT, POOL, HTTP];

/// The list of subjects.
pub(crate) const SUBJECT: Key = Key {
    name: "subject",
    form: Form::Tables,
    kind: None,
    wants: "a table",
    example: "[[subject]]",
};

/// What threads there are, and what they take on.
pub(crate) const POOL: Key = Key {
    name: "pool",
    form: Form::Table,
    kind: None,
    wants: "a table",
    example: "[pool]",
};

/// Where events are told over HTTP, and to how many at a time.
pub(crate) const HTTP: Key = Key {
    name: "http",
    form: Form::Table,
    kind: None,
    wants: "a table",
    example: "[http]",
};

/// The keys of the pool, in the order in which they are looked at.
pub(crate) static POOL_KEYS: [Key; 8] = [
    DRAINERS,
    WORKERS,
    WINDOW,
    CONNECTIONS,
    STALL,
    WAITING,
    IDLE,
    TAKEOVER,
];

pub(crate) const DRAINERS: Key = Key {
    name: "drainers",
    form: Form::Number {
        least: 1,
        most: 8,
        standard: 1,
    },
    kind: None,
    wants: "a number",
    example: "1",
};

pub(crate) const WORKERS: Key = Key {
    name: "workers",
    form: Form::Number {
        least: 1,
        most: 32,
        standard: 4,
    },
    kind: None,
    wants: "a number",
    example: "4",
};

pub(crate) const WINDOW: Key = Key {
    name: "window",
    form: Form::Number {
        least: 1,
        most: 16,
        standard: 16,
    },
    kind: None,
    wants: "a number",
    example: "16",
};

pub(crate) const CONNECTIONS: Key = Key {
    name: "connections",
    form: Form::Number {
        least: 1,
        most: u32::MAX,
        standard: u32::MAX,
    },
    kind: None,
    wants: "a number",
    example: "1000",
};

pub(crate) const STALL: Key = Key {
    name: "stall",
    form: Form::Number {
        least: 1,
        most: 3_600,
        standard: 60,
    },
    kind: None,
    wants: "seconds",
    example: "60",
};

pub(crate) const WAITING: Key = Key {
    name: "waiting",
    form: Form::Number {
        least: 0,
        most: u32::MAX,
        standard: 33_554_432,
    },
    kind: None,
    wants: "bytes",
    example: "33554432",
};

pub(crate) const IDLE: Key = Key {
    name: "idle",
    form: Form::Bound {
        least: 1,
        most: 86_400,
    },
    kind: None,
    wants: "seconds",
    example: "600",
};

pub(crate) const TAKEOVER: Key = Key {
    name: "takeover",
    form: Form::Flag { standard: false },
    kind: None,
    wants: "true or false",
    example: "true",
};

/// The keys of what is served over HTTP, in the order in which they are looked at.
pub(crate) static HTTP_KEYS: [Key; 5] = [SOCKET, HEARTBEAT, READERS, EMIT, STOP];

pub(crate) const SOCKET: Key = Key {
    name: "socket",
    form: Form::Path,
    kind: None,
    wants: "1 to 107 bytes without a line feed",
    example: "\"/run/events.sock\"",
};

pub(crate) const HEARTBEAT: Key = Key {
    name: "heartbeat",
    form: Form::Number {
        least: 1,
        most: 3_600,
        standard: 15,
    },
    kind: None,
    wants: "seconds",
    example: "15",
};

pub(crate) const READERS: Key = Key {
    name: "readers",
    form: Form::Number {
        least: 1,
        most: 4_096,
        standard: 256,
    },
    kind: None,
    wants: "a number",
    example: "256",
};

pub(crate) const EMIT: Key = Key {
    name: "emit",
    form: Form::Flag { standard: true },
    kind: None,
    wants: "true or false",
    example: "false",
};

pub(crate) const STOP: Key = Key {
    name: "stop",
    form: Form::Flag { standard: false },
    kind: None,
    wants: "true or false",
    example: "true",
};

/// The keys of a subject, in the order in which they are looked at.
pub(crate) static SUBJECT_KEYS: [Key; 9] = [
    NAME, KIND, OBSERVERS, JOINS, ITEMS, BUDGET, SEED, COUNT, AGE,
];

pub(crate) const NAME: Key = Key {
    name: "name",
    form: Form::Name,
    kind: None,
    wants: "1 to 32 letters a to z, digits and hyphens",
    example: "\"prices\"",
};

pub(crate) const KIND: Key = Key {
    name: "kind",
    form: Form::Kind,
    kind: None,
    wants: "\"publish\", \"behavior\", \"async\" or \"replay\"",
    example: "\"publish\"",
};

pub(crate) const OBSERVERS: Key = Key {
    name: "observers",
    form: Form::Number {
        least: 1,
        most: 64,
        standard: 64,
    },
    kind: None,
    wants: "a number",
    example: "64",
};

pub(crate) const JOINS: Key = Key {
    name: "joins",
    form: Form::Number {
        least: 1,
        most: u32::MAX,
        standard: u32::MAX,
    },
    kind: None,
    wants: "a number",
    example: "1000",
};

pub(crate) const ITEMS: Key = Key {
    name: "items",
    form: Form::Number {
        least: 1,
        most: u32::MAX,
        standard: u32::MAX,
    },
    kind: None,
    wants: "a number",
    example: "1000000",
};

/// At most what a heap counts.
pub(crate) const BUDGET: Key = Key {
    name: "budget",
    form: Form::Bound {
        least: 1,
        most: 281_474_976_710_656,
    },
    kind: None,
    wants: "bytes",
    example: "64000000",
};

pub(crate) const SEED: Key = Key {
    name: "seed",
    form: Form::Text,
    kind: Some(BEHAVIOR),
    wants: "bytes without a line feed",
    example: "\"none yet\"",
};

pub(crate) const COUNT: Key = Key {
    name: "count",
    form: Form::Bound {
        least: 1,
        most: 4_096,
    },
    kind: Some(REPLAY),
    wants: "a number",
    example: "16",
};

/// At most the greatest number of TOML.
pub(crate) const AGE: Key = Key {
    name: "age",
    form: Form::Bound {
        least: 1,
        most: 9_223_372_036_854_775_807,
    },
    kind: Some(REPLAY),
    wants: "milliseconds",
    example: "60000",
};

/// The names of the kinds.
pub(crate) const KINDS: [&str; 4] = ["publish", BEHAVIOR, "async", REPLAY];

pub(crate) const BEHAVIOR: &str = "behavior";

pub(crate) const REPLAY: &str = "replay";
