//! Each key of a configuration at its edges: what is told, or the cause for which it is refused.

use crate::expectations::expect_that;
use crate::readings::{FIRST, expect_reading, expect_readings, reading_of};
use std::alloc::Global;
use std::test::Fail;

const REPLAY: &str = "[[subject]]\nname = \"s\"\nkind = \"replay\"\n";

const UNNAMED: &str = "[[subject]]\nkind = \"publish\"\n";

const NO_KIND: &str = "[[subject]]\nname = \"s\"\n";

const HTTP: &str = "[[subject]]\nname = \"s\"\nkind = \"async\"\n[http]\nsocket = \"/e\"\n";

const NO_SOCKET: &str = "[[subject]]\nname = \"s\"\nkind = \"async\"\n[http]\n";

const POOL: &str = "[[subject]]\nname = \"s\"\nkind = \"async\"\n[pool]\n";

// Each key at its least and its greatest value, one below, one above, and of another type: what stands before it, its
// line, and what is told.
const EDGES: &[(&str, &str, &str)] = &[
    (
        FIRST,
        "observers = 1\n",
        "1 4 16 4294967295 60; s 1 4294967295 4294967295 publish",
    ),
    (
        FIRST,
        "observers = 64\n",
        "1 4 16 4294967295 60; s 64 4294967295 4294967295 publish",
    ),
    (FIRST, "observers = 0\n", "subject 0 is refused"),
    (FIRST, "observers = 65\n", "subject 0 is refused"),
    (FIRST, "observers = -1\n", "subject 0 is refused"),
    (FIRST, "observers = \"1\"\n", "subject 0 is refused"),
    (
        FIRST,
        "joins = 1\n",
        "1 4 16 4294967295 60; s 64 1 4294967295 publish",
    ),
    (
        FIRST,
        "joins = 4294967295\n",
        "1 4 16 4294967295 60; s 64 4294967295 4294967295 publish",
    ),
    (FIRST, "joins = 0\n", "subject 0 is refused"),
    (FIRST, "joins = 4294967296\n", "subject 0 is refused"),
    (FIRST, "joins = true\n", "subject 0 is refused"),
    (
        FIRST,
        "items = 1\n",
        "1 4 16 4294967295 60; s 64 4294967295 1 publish",
    ),
    (
        FIRST,
        "items = 4294967295\n",
        "1 4 16 4294967295 60; s 64 4294967295 4294967295 publish",
    ),
    (FIRST, "items = 0\n", "subject 0 is refused"),
    (FIRST, "items = 4294967296\n", "subject 0 is refused"),
    (FIRST, "items = \"1\"\n", "subject 0 is refused"),
    (
        FIRST,
        "budget = 1\n",
        "1 4 16 4294967295 60; s 64 4294967295 4294967295 1 bytes publish",
    ),
    (
        REPLAY,
        "budget = 281474976710656\n",
        "1 4 16 4294967295 60; s 64 4294967295 4294967295 281474976710656 bytes replay None None",
    ),
    (
        NO_KIND,
        "kind = \"behavior\"\nseed = \"\"\nbudget = 64000\n",
        "1 4 16 4294967295 60; s 64 4294967295 4294967295 64000 bytes behavior ",
    ),
    (FIRST, "budget = 0\n", "subject 0 is refused"),
    (FIRST, "budget = -1\n", "subject 0 is refused"),
    (FIRST, "budget = 281474976710657\n", "subject 0 is refused"),
    (FIRST, "budget = \"1\"\n", "subject 0 is refused"),
    (FIRST, "[pool]\nbudget = 1\n", "pool is refused"),
    (
        REPLAY,
        "count = 1\n",
        "1 4 16 4294967295 60; s 64 4294967295 4294967295 replay Some(1) None",
    ),
    (
        REPLAY,
        "count = 4096\n",
        "1 4 16 4294967295 60; s 64 4294967295 4294967295 replay Some(4096) None",
    ),
    (REPLAY, "count = 0\n", "subject 0 is refused"),
    (REPLAY, "count = 4097\n", "subject 0 is refused"),
    (REPLAY, "count = 1.0\n", "subject 0 is refused"),
    (
        REPLAY,
        "age = 1\n",
        "1 4 16 4294967295 60; s 64 4294967295 4294967295 replay None Some(1)",
    ),
    (
        REPLAY,
        "age = 9223372036854775807\n",
        "1 4 16 4294967295 60; s 64 4294967295 4294967295 replay None Some(9223372036854775807)",
    ),
    (REPLAY, "age = 0\n", "subject 0 is refused"),
    (REPLAY, "age = 9223372036854775808\n", "config is not TOML"),
    (REPLAY, "age = [1]\n", "subject 0 is refused"),
    (
        UNNAMED,
        "name = \"-\"\n",
        "1 4 16 4294967295 60; - 64 4294967295 4294967295 publish",
    ),
    (
        UNNAMED,
        "name = \"abcdefghijklmnopqrstuvwxyz012345\"\n",
        "1 4 16 4294967295 60; abcdefghijklmnopqrstuvwxyz012345 64 4294967295 4294967295 publish",
    ),
    (UNNAMED, "name = \"\"\n", "subject 0 is refused"),
    (
        UNNAMED,
        "name = \"abcdefghijklmnopqrstuvwxyz0123456\"\n",
        "subject 0 is refused",
    ),
    (UNNAMED, "name = 1\n", "subject 0 is refused"),
    (NO_KIND, "", "subject 0 is refused"),
    (NO_KIND, "kind = \"Publish\"\n", "subject 0 is refused"),
    (NO_KIND, "kind = 1\n", "subject 0 is refused"),
    (
        NO_KIND,
        "kind = \"behavior\"\nseed = \"\"\n",
        "1 4 16 4294967295 60; s 64 4294967295 4294967295 behavior ",
    ),
    (
        NO_KIND,
        "kind = \"behavior\"\nseed = 1\n",
        "subject 0 is refused",
    ),
    (
        NO_KIND,
        "kind = \"async\"\nseed = \"\"\n",
        "subject 0 is refused",
    ),
    (
        POOL,
        "drainers = 1\n",
        "1 4 16 4294967295 60; s 64 4294967295 4294967295 async",
    ),
    (
        POOL,
        "drainers = 8\n",
        "8 4 16 4294967295 60; s 64 4294967295 4294967295 async",
    ),
    (POOL, "drainers = 0\n", "pool is refused"),
    (POOL, "drainers = 9\n", "pool is refused"),
    (POOL, "drainers = \"1\"\n", "pool is refused"),
    (
        POOL,
        "workers = 1\n",
        "1 1 16 4294967295 60; s 64 4294967295 4294967295 async",
    ),
    (
        POOL,
        "workers = 32\n",
        "1 32 16 4294967295 60; s 64 4294967295 4294967295 async",
    ),
    (POOL, "workers = 0\n", "pool is refused"),
    (POOL, "workers = 33\n", "pool is refused"),
    (POOL, "workers = true\n", "pool is refused"),
    (
        POOL,
        "window = 1\n",
        "1 4 1 4294967295 60; s 64 4294967295 4294967295 async",
    ),
    (
        POOL,
        "window = 16\n",
        "1 4 16 4294967295 60; s 64 4294967295 4294967295 async",
    ),
    (POOL, "window = 0\n", "pool is refused"),
    (POOL, "window = 17\n", "pool is refused"),
    (POOL, "window = 1.0\n", "pool is refused"),
    (
        POOL,
        "connections = 1\n",
        "1 4 16 1 60; s 64 4294967295 4294967295 async",
    ),
    (
        POOL,
        "connections = 4294967295\n",
        "1 4 16 4294967295 60; s 64 4294967295 4294967295 async",
    ),
    (POOL, "connections = 0\n", "pool is refused"),
    (POOL, "connections = 4294967296\n", "pool is refused"),
    (POOL, "connections = {}\n", "pool is refused"),
    (
        POOL,
        "stall = 1\n",
        "1 4 16 4294967295 1; s 64 4294967295 4294967295 async",
    ),
    (
        POOL,
        "stall = 3600\n",
        "1 4 16 4294967295 3600; s 64 4294967295 4294967295 async",
    ),
    (POOL, "stall = 0\n", "pool is refused"),
    (POOL, "stall = 3601\n", "pool is refused"),
    (
        POOL,
        "waiting = 0\n",
        "1 4 16 4294967295 60 waiting 0; s 64 4294967295 4294967295 async",
    ),
    (
        POOL,
        "waiting = 4294967295\n",
        "1 4 16 4294967295 60 waiting 4294967295; s 64 4294967295 4294967295 async",
    ),
    (POOL, "waiting = -1\n", "pool is refused"),
    (POOL, "waiting = 4294967296\n", "pool is refused"),
    (
        POOL,
        "idle = 1\n",
        "1 4 16 4294967295 60 idle 1; s 64 4294967295 4294967295 async",
    ),
    (
        POOL,
        "idle = 86400\n",
        "1 4 16 4294967295 60 idle 86400; s 64 4294967295 4294967295 async",
    ),
    (POOL, "idle = 0\n", "pool is refused"),
    (POOL, "idle = 86401\n", "pool is refused"),
    (
        POOL,
        "takeover = true\n",
        "1 4 16 4294967295 60 takeover; s 64 4294967295 4294967295 async",
    ),
    (
        POOL,
        "takeover = false\n",
        "1 4 16 4294967295 60; s 64 4294967295 4294967295 async",
    ),
    (POOL, "takeover = 1\n", "pool is refused"),
    (
        HTTP,
        "",
        "1 4 16 4294967295 60 http /e 15 256 emit; s 64 4294967295 4294967295 async",
    ),
    (NO_SOCKET, "", "http is refused"),
    (
        NO_SOCKET,
        "socket = \"a\"\n",
        "1 4 16 4294967295 60 http a 15 256 emit; s 64 4294967295 4294967295 async",
    ),
    (
        NO_SOCKET,
        "socket = \"/pppppppppppppppppppppppppppppppppppppppppppppppppppppppppppppppppppppppppppppppppppppppppppppppppppppppppp\"\n",
        "1 4 16 4294967295 60 http /pppppppppppppppppppppppppppppppppppppppppppppppppppppppppppppppppppppppppppppppppppppppppppppppppppppppppp 15 256 emit; s 64 4294967295 4294967295 async",
    ),
    (NO_SOCKET, "socket = \"\"\n", "http is refused"),
    (
        NO_SOCKET,
        "socket = \"/ppppppppppppppppppppppppppppppppppppppppppppppppppppppppppppppppppppppppppppppppppppppppppppppppppppppppppp\"\n",
        "http is refused",
    ),
    (NO_SOCKET, "socket = \"a\\nb\"\n", "http is refused"),
    (NO_SOCKET, "socket = 1\n", "http is refused"),
    (
        HTTP,
        "heartbeat = 1\n",
        "1 4 16 4294967295 60 http /e 1 256 emit; s 64 4294967295 4294967295 async",
    ),
    (
        HTTP,
        "heartbeat = 3600\n",
        "1 4 16 4294967295 60 http /e 3600 256 emit; s 64 4294967295 4294967295 async",
    ),
    (HTTP, "heartbeat = 0\n", "http is refused"),
    (HTTP, "heartbeat = 3601\n", "http is refused"),
    (HTTP, "heartbeat = -1\n", "http is refused"),
    (HTTP, "heartbeat = \"1\"\n", "http is refused"),
    (
        HTTP,
        "readers = 1\n",
        "1 4 16 4294967295 60 http /e 15 1 emit; s 64 4294967295 4294967295 async",
    ),
    (
        HTTP,
        "readers = 4096\n",
        "1 4 16 4294967295 60 http /e 15 4096 emit; s 64 4294967295 4294967295 async",
    ),
    (HTTP, "readers = 0\n", "http is refused"),
    (HTTP, "readers = 4097\n", "http is refused"),
    (HTTP, "readers = true\n", "http is refused"),
    (
        HTTP,
        "emit = true\n",
        "1 4 16 4294967295 60 http /e 15 256 emit; s 64 4294967295 4294967295 async",
    ),
    (
        HTTP,
        "emit = false\n",
        "1 4 16 4294967295 60 http /e 15 256; s 64 4294967295 4294967295 async",
    ),
    (HTTP, "emit = 1\n", "http is refused"),
    (
        HTTP,
        "stop = true\n",
        "1 4 16 4294967295 60 http /e 15 256 emit stop; s 64 4294967295 4294967295 async",
    ),
    (
        HTTP,
        "stop = false\n",
        "1 4 16 4294967295 60 http /e 15 256 emit; s 64 4294967295 4294967295 async",
    ),
    (HTTP, "stop = 1\n", "http is refused"),
    (HTTP, "port = 80\n", "http is refused"),
];

// Hands the table out, so that what goes over it is proved without its rows.
fn edges_table() -> &'static [(&'static str, &'static str, &'static str)] {
    EDGES
}

#[test]
fn each_key_at_its_edges(rt: HostRuntime) -> Result<(), Fail> {
    for (front, line, wanted) in edges_table() {
        expect_readings(&rt, rt.alloc(), front, &[(*line, *wanted)])?;
    }
    Ok(())
}

// A subject with a seed of so many bytes.
fn text_of_seed(alloc: Global, len: usize) -> Result<Vec<u8>, Fail> {
    let mut text = Vec::new(alloc);
    text.extend_from_slice(NO_KIND.as_bytes())?;
    text.extend_from_slice(b"kind = \"behavior\"\nseed = \"")?;
    for _ in 0..len {
        text.push(b'z')?;
    }
    text.extend_from_slice(b"\"\n")?;
    Ok(text)
}

// Whether what is told ends with a seed's letters.
fn ends_with_seed(alloc: Global, text: &[u8]) -> Result<bool, Fail> {
    let reading = reading_of(alloc, text)?;
    Ok(reading.ends_with(b"zz"))
}

#[test]
fn seeds_at_their_edge(rt: HostRuntime) -> Result<(), Fail> {
    let text = text_of_seed(rt.alloc(), 1024)?;
    let greatest = ends_with_seed(rt.alloc(), text.as_slice())?;
    expect_that(&rt, greatest, &"the greatest seed");
    let above = text_of_seed(rt.alloc(), 1025)?;
    expect_reading(&rt, rt.alloc(), above.as_slice(), "subject 0 is refused")
}
