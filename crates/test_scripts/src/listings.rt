//! A configuration, told: the lines of one that is accepted, and of one that is refused the key at fault.

use crate::expectations::{expect_that, expect_told};
use rx_config::{Config, ConfigError, advise, config_lines, read_config};
use rx_heap::Heap;
use std::alloc::Global;
use std::io::Write;
use std::process::Abort;
use std::test::Fail;

// The lines of a configuration.
fn put_lines(told: &mut Vec<u8>, heap: &Heap, config: &Config) -> Result<(), Fail> {
    let lines = config_lines(heap, config)?;
    told.extend_from_slice(lines.as_slice())?;
    Ok(())
}

// What is told of the configuration that this text says.
fn told_of(alloc: Global, text: &str) -> Result<Vec<u8>, Fail> {
    let heap = Heap::unlimited(alloc);
    let mut told = Vec::new(alloc);
    match read_config(heap.clone()?, alloc, text.as_bytes()) {
        Ok(config) => put_lines(&mut told, &heap, &config)?,
        Err(cause) => advise(alloc, text.as_bytes(), cause, &mut told)?,
    }
    Ok(told)
}

// What is told of each text.
fn expect_each(rt: &impl Abort, alloc: Global, rows: &[(&str, &str)]) -> Result<(), Fail> {
    for (text, wanted) in rows {
        let told = told_of(alloc, text)?;
        expect_told(rt, told.as_slice(), wanted.as_bytes(), &text);
    }
    Ok(())
}

// Configurations, and their lines.
const ACCEPTED: [(&str, &str); 6] = [
    (
        "[[subject]]\nname = \"s\"\nkind = \"publish\"\n",
        "subject s publish observers 64 joins 4294967295 items 4294967295\npool drainers 1 workers 4 window 16 connections 4294967295 stall 60 waiting 33554432\n",
    ),
    (
        "[[subject]]\nname = \"r\"\nkind = \"replay\"\ncount = 16\nage = 60000\nobservers = 2\njoins = 30\nitems = 400\n[[subject]]\nname = \"a-1\"\nkind = \"async\"\n[pool]\ndrainers = 8\nworkers = 32\nwindow = 1\nconnections = 7\nstall = 9\nwaiting = 0\nidle = 600\ntakeover = true\n",
        "subject r replay count 16 age 60000 observers 2 joins 30 items 400\nsubject a-1 async observers 64 joins 4294967295 items 4294967295\npool drainers 8 workers 32 window 1 connections 7 stall 9 waiting 0 idle 600 takeover\n",
    ),
    (
        "[[subject]]\nname = \"b\"\nkind = \"behavior\"\nseed = \"none yet\"\n[[subject]]\nname = \"c\"\nkind = \"behavior\"\n[[subject]]\nname = \"d\"\nkind = \"replay\"\n",
        "subject b behavior observers 64 joins 4294967295 items 4294967295 seed none yet\nsubject c behavior observers 64 joins 4294967295 items 4294967295\nsubject d replay observers 64 joins 4294967295 items 4294967295\npool drainers 1 workers 4 window 16 connections 4294967295 stall 60 waiting 33554432\n",
    ),
    (
        "[[subject]]\nname = \"b\"\nkind = \"behavior\"\nseed = \"none yet\"\nbudget = 64000\n[[subject]]\nname = \"d\"\nkind = \"replay\"\nage = 1\nbudget = 281474976710656\n",
        "subject b behavior observers 64 joins 4294967295 items 4294967295 budget 64000 seed none yet\nsubject d replay age 1 observers 64 joins 4294967295 items 4294967295 budget 281474976710656\npool drainers 1 workers 4 window 16 connections 4294967295 stall 60 waiting 33554432\n",
    ),
    (
        "[[subject]]\nname = \"s\"\nkind = \"publish\"\n[http]\nsocket = \"/run/e.sock\"\n",
        "subject s publish observers 64 joins 4294967295 items 4294967295\npool drainers 1 workers 4 window 16 connections 4294967295 stall 60 waiting 33554432\nhttp heartbeat 15 readers 256 emit socket /run/e.sock\n",
    ),
    (
        "[http]\nreaders = 4096\nsocket = \"a b\"\nstop = true\nemit = false\nheartbeat = 3600\n[[subject]]\nname = \"s\"\nkind = \"async\"\n",
        "subject s async observers 64 joins 4294967295 items 4294967295\npool drainers 1 workers 4 window 16 connections 4294967295 stall 60 waiting 33554432\nhttp heartbeat 3600 readers 4096 stop socket a b\n",
    ),
];

#[test]
fn lines_of_configurations(rt: HostRuntime) -> Result<(), Fail> {
    expect_each(&rt, rt.alloc(), ACCEPTED.as_slice())
}

// Texts that are refused, and what is told of the key.
const REFUSED: [(&str, &str); 34] = [
    (
        "",
        "config has to have a subject at least, as in: [[subject]] and below it name = \"prices\" and kind = \"publish\"\n",
    ),
    (
        "subject = []\n",
        "config has to have a subject at least, as in: [[subject]] and below it name = \"prices\" and kind = \"publish\"\n",
    ),
    (
        "subject = 1\n",
        "config has to have a subject at least, as in: [[subject]] and below it name = \"prices\" and kind = \"publish\"\n",
    ),
    (
        "subjects = 1\n[[subject]]\nname = \"s\"\nkind = \"publish\"\n",
        "config: subjects is no key: there are subject, as in: [[subject]], pool, as in: [pool], and http, as in: [http]\n",
    ),
    (
        "pool = 1\n[[subject]]\nname = \"s\"\nkind = \"publish\"\n",
        "pool has to be a table, as in: [pool]\n",
    ),
    (
        "[[subject]]\nname = \"s\"\nkind = \"publish\"\n[pool]\nthreads = 1\n",
        "pool: threads is no key: a pool has drainers, workers, window, connections, stall, waiting, idle and takeover\n",
    ),
    (
        "[[subject]]\nname = \"s\"\nkind = \"publish\"\n[pool]\ndrainers = 9\n",
        "pool: drainers is wrong: a number from 1 to 8, as in: drainers = 1\n",
    ),
    (
        "[[subject]]\nname = \"s\"\nkind = \"publish\"\n[pool]\nworkers = 0\n",
        "pool: workers is wrong: a number from 1 to 32, as in: workers = 4\n",
    ),
    (
        "[[subject]]\nname = \"s\"\nkind = \"publish\"\n[pool]\nwindow = \"1\"\n",
        "pool: window is wrong: a number from 1 to 16, as in: window = 16\n",
    ),
    (
        "[[subject]]\nname = \"s\"\nkind = \"publish\"\n[pool]\nconnections = 0\n",
        "pool: connections is wrong: a number from 1 to 4294967295, as in: connections = 1000\n",
    ),
    (
        "[[subject]]\nname = \"s\"\nkind = \"publish\"\n[pool]\nstall = 3601\n",
        "pool: stall is wrong: seconds from 1 to 3600, as in: stall = 60\n",
    ),
    (
        "[[subject]]\nname = \"s\"\nkind = \"publish\"\n[pool]\nidle = 86401\n",
        "pool: idle is wrong: seconds from 1 to 86400, as in: idle = 600\n",
    ),
    (
        "[[subject]]\nname = \"s\"\nkind = \"publish\"\n[pool]\ntakeover = 1\n",
        "pool: takeover is wrong: true or false, as in: takeover = true\n",
    ),
    (
        "http = 1\n[[subject]]\nname = \"s\"\nkind = \"publish\"\n",
        "http has to be a table, as in: [http]\n",
    ),
    (
        "[[subject]]\nname = \"s\"\nkind = \"publish\"\n[http]\n",
        "http: socket is missing: 1 to 107 bytes without a line feed, as in: socket = \"/run/events.sock\"\n",
    ),
    (
        "[[subject]]\nname = \"s\"\nkind = \"publish\"\n[http]\nsocket = \"\"\nport = 80\n",
        "http: socket is wrong: 1 to 107 bytes without a line feed, as in: socket = \"/run/events.sock\"\nhttp: port is no key: http has socket, heartbeat, readers, emit and stop\n",
    ),
    (
        "[[subject]]\nname = \"s\"\nkind = \"publish\"\n[http]\nsocket = \"a\\nb\"\nheartbeat = true\nreaders = \"1\"\nemit = 1\nstop = 1\n",
        "http: socket is wrong: 1 to 107 bytes without a line feed, as in: socket = \"/run/events.sock\"\nhttp: heartbeat is wrong: seconds from 1 to 3600, as in: heartbeat = 15\nhttp: readers is wrong: a number from 1 to 4096, as in: readers = 256\nhttp: emit is wrong: true or false, as in: emit = false\nhttp: stop is wrong: true or false, as in: stop = true\n",
    ),
    // Of both the pool comes first, and then the subjects.
    (
        "[http]\nsocket = 1\n[pool]\ndrainers = 9\n[[subject]]\nname = \"s\"\nkind = \"hot\"\n",
        "pool: drainers is wrong: a number from 1 to 8, as in: drainers = 1\nhttp: socket is wrong: 1 to 107 bytes without a line feed, as in: socket = \"/run/events.sock\"\nsubject 0: kind is wrong: \"publish\", \"behavior\", \"async\" or \"replay\", as in: kind = \"publish\"\n",
    ),
    (
        "subject = [1]\n",
        "subject 0 has to be a table, as in: [[subject]]\n",
    ),
    (
        "[[subject]]\nkind = \"publish\"\n",
        "subject 0: name is missing: 1 to 32 letters a to z, digits and hyphens, as in: name = \"prices\"\n",
    ),
    (
        "[[subject]]\nname = \"S\"\nkind = \"publish\"\n",
        "subject 0: name is wrong: 1 to 32 letters a to z, digits and hyphens, as in: name = \"prices\"\n",
    ),
    (
        "[[subject]]\nname = \"s\"\nkind = \"Publish\"\n",
        "subject 0: kind is wrong: \"publish\", \"behavior\", \"async\" or \"replay\", as in: kind = \"publish\"\n",
    ),
    (
        "[[subject]]\nname = \"s\"\nkind = \"publish\"\nobservers = 65\n",
        "subject 0: observers is wrong: a number from 1 to 64, as in: observers = 64\n",
    ),
    (
        "[[subject]]\nname = \"s\"\nkind = \"replay\"\ncount = -1\n",
        "subject 0: count is wrong: with kind = \"replay\" alone, a number from 1 to 4096, as in: count = 16\n",
    ),
    (
        "[[subject]]\nname = \"s\"\nkind = \"async\"\n[[subject]]\nname = \"t\"\nkind = \"publish\"\nage = 5\n",
        "subject 1: age is wrong: with kind = \"replay\" alone, milliseconds from 1 to 9223372036854775807, as in: age = 60000\n",
    ),
    (
        "[[subject]]\nname = \"s\"\nkind = \"publish\"\nbudget = 0\n",
        "subject 0: budget is wrong: bytes from 1 to 281474976710656, as in: budget = 64000000\n",
    ),
    (
        "[[subject]]\nname = \"s\"\nkind = \"publish\"\nlimit = 100\n",
        "subject 0: limit is no key: a subject has name, kind, observers, joins, items and budget, a behavior also seed, a replay also count and age\n",
    ),
    (
        "[[subject]]\nname = \"s\"\nkind = \"async\"\n[[subject]]\nname = \"s\"\nkind = \"publish\"\n",
        "subject 1: name is wrong: no other subject may have it\n",
    ),
    // All that is wrong, in its order; of keys that are none in that of their bytes.
    (
        "extra = 1\n\"\\u001b[2J\\n\" = 1\n[pool]\ndrainers = 9\nthreads = 1\nwindow = 0\n[[subject]]\nname = \"s\"\nkind = \"publish\"\nage = 5\nseed = \"z\"\n[[subject]]\nname = \"s\"\nlimit = 100\n",
        "config: \\x1b[2J\\x0a is no key: there are subject, as in: [[subject]], pool, as in: [pool], and http, as in: [http]\nconfig: extra is no key: there are subject, as in: [[subject]], pool, as in: [pool], and http, as in: [http]\npool: drainers is wrong: a number from 1 to 8, as in: drainers = 1\npool: window is wrong: a number from 1 to 16, as in: window = 16\npool: threads is no key: a pool has drainers, workers, window, connections, stall, waiting, idle and takeover\nsubject 0: seed is wrong: with kind = \"behavior\" alone, up to 1024 bytes without a line feed, as in: seed = \"none yet\"\nsubject 0: age is wrong: with kind = \"replay\" alone, milliseconds from 1 to 9223372036854775807, as in: age = 60000\nsubject 1: kind is missing: \"publish\", \"behavior\", \"async\" or \"replay\", as in: kind = \"publish\"\nsubject 1: limit is no key: a subject has name, kind, observers, joins, items and budget, a behavior also seed, a replay also count and age\nsubject 1: name is wrong: no other subject may have it\n",
    ),
    // Of a name that stands twice the later, wherever the first stands.
    (
        "subject = [{ name = \"s\", kind = \"async\" }, { name = \"t\", kind = \"async\" }, { name = \"t\", kind = \"async\" }]\n",
        "subject 2: name is wrong: no other subject may have it\n",
    ),
    // The control characters of a key are those of ASCII and those above, by which a terminal is steered too.
    (
        "\"\\u007f\\u009b\" = 1\n[[subject]]\nname = \"s\"\nkind = \"publish\"\n",
        "config: \\x7f\\x9b is no key: there are subject, as in: [[subject]], pool, as in: [pool], and http, as in: [http]\n",
    ),
    // A value of another type.
    (
        "[[subject]]\nname = 1\nkind = \"behavior\"\nobservers = true\nseed = 1\n",
        "subject 0: name is wrong: 1 to 32 letters a to z, digits and hyphens, as in: name = \"prices\"\nsubject 0: observers is wrong: a number from 1 to 64, as in: observers = 64\nsubject 0: seed is wrong: with kind = \"behavior\" alone, up to 1024 bytes without a line feed, as in: seed = \"none yet\"\n",
    ),
    (
        "[[subject]]\nname = \"s\"\nkind = \"behavior\"\nseed = \"a\\nb\"\n",
        "subject 0: seed is wrong: with kind = \"behavior\" alone, up to 1024 bytes without a line feed, as in: seed = \"none yet\"\n",
    ),
    // Two that have no name have not the same.
    (
        "subject = [{ kind = \"async\" }, { kind = \"async\" }]\n",
        "subject 0: name is missing: 1 to 32 letters a to z, digits and hyphens, as in: name = \"prices\"\nsubject 1: name is missing: 1 to 32 letters a to z, digits and hyphens, as in: name = \"prices\"\n",
    ),
];

#[test]
fn keys_at_fault(rt: HostRuntime) -> Result<(), Fail> {
    expect_each(&rt, rt.alloc(), REFUSED.as_slice())
}

// Each key at its least value, and at its greatest; beside them one that is none.
const LEAST: &str =
    "[pool]\ndrainers = 1\nworkers = 1\nwindow = 1\nconnections = 1\nstall = 1\nwaiting = 0\nidle = 1\ntakeover = false\n[http]\nsocket = \"s\"\nheartbeat = 1\nreaders = 1\n[[subject]]\nname = \"s\"\nkind = \"replay\"\nobservers = 1\njoins = 1\nitems = 1\nbudget = 1\ncount = 1\nage = 1\n[[subject]]\nname = \"b\"\nkind = \"behavior\"\nseed = \"\"\nlimit = 1\n";

const GREATEST: &str =
    "[pool]\ndrainers = 8\nworkers = 32\nwindow = 16\nconnections = 4294967295\nstall = 3600\nwaiting = 4294967295\nidle = 86400\ntakeover = true\n[http]\nsocket = \"/pppppppppppppppppppppppppppppppppppppppppppppppppppppppppppppppppppppppppppppppppppppppppppppppppppppppppp\"\nheartbeat = 3600\nreaders = 4096\n[[subject]]\nname = \"abcdefghijklmnopqrstuvwxyz012345\"\nkind = \"replay\"\nobservers = 64\njoins = 4294967295\nitems = 4294967295\nbudget = 281474976710656\ncount = 4096\nage = 9223372036854775807\n[[subject]]\nname = \"b\"\nkind = \"behavior\"\nlimit = 1\n";

const NO_KEY: &str =
    "subject 1: limit is no key: a subject has name, kind, observers, joins, items and budget, a behavior also seed, a replay also count and age\n";

// Each number one below its least value, and one above its greatest; no number is above the greatest age.
const BELOW: &str =
    "[pool]\ndrainers = 0\nworkers = 0\nwindow = 0\nconnections = 0\nstall = 0\nwaiting = -1\nidle = 0\n[http]\nsocket = \"\"\nheartbeat = 0\nreaders = 0\n[[subject]]\nname = \"s\"\nkind = \"replay\"\nobservers = 0\njoins = 0\nitems = 0\nbudget = 0\ncount = 0\nage = 0\n";

const ABOVE: &str =
    "[pool]\ndrainers = 9\nworkers = 33\nwindow = 17\nconnections = 4294967296\nstall = 3601\nwaiting = 4294967296\nidle = 86401\n[http]\nsocket = \"/ppppppppppppppppppppppppppppppppppppppppppppppppppppppppppppppppppppppppppppppppppppppppppppppppppppppppppp\"\nheartbeat = 3601\nreaders = 4097\n[[subject]]\nname = \"s\"\nkind = \"replay\"\nobservers = 65\njoins = 4294967296\nitems = 4294967296\nbudget = 281474976710657\ncount = 4097\nage = 0\n";

const EACH_WRONG: &str =
    "pool: drainers is wrong: a number from 1 to 8, as in: drainers = 1\npool: workers is wrong: a number from 1 to 32, as in: workers = 4\npool: window is wrong: a number from 1 to 16, as in: window = 16\npool: connections is wrong: a number from 1 to 4294967295, as in: connections = 1000\npool: stall is wrong: seconds from 1 to 3600, as in: stall = 60\npool: waiting is wrong: bytes from 0 to 4294967295, as in: waiting = 33554432\npool: idle is wrong: seconds from 1 to 86400, as in: idle = 600\nhttp: socket is wrong: 1 to 107 bytes without a line feed, as in: socket = \"/run/events.sock\"\nhttp: heartbeat is wrong: seconds from 1 to 3600, as in: heartbeat = 15\nhttp: readers is wrong: a number from 1 to 4096, as in: readers = 256\nsubject 0: observers is wrong: a number from 1 to 64, as in: observers = 64\nsubject 0: joins is wrong: a number from 1 to 4294967295, as in: joins = 1000\nsubject 0: items is wrong: a number from 1 to 4294967295, as in: items = 1000000\nsubject 0: budget is wrong: bytes from 1 to 281474976710656, as in: budget = 64000000\nsubject 0: count is wrong: with kind = \"replay\" alone, a number from 1 to 4096, as in: count = 16\nsubject 0: age is wrong: with kind = \"replay\" alone, milliseconds from 1 to 9223372036854775807, as in: age = 60000\n";

#[test]
fn advice_at_the_edges(rt: HostRuntime) -> Result<(), Fail> {
    let rows = [
        (LEAST, NO_KEY),
        (GREATEST, NO_KEY),
        (BELOW, EACH_WRONG),
        (ABOVE, EACH_WRONG),
    ];
    expect_each(&rt, rt.alloc(), rows.as_slice())
}

// What is told of a Behavior with a seed of so many bytes, and a key that is none.
fn told_of_seed(alloc: Global, len: usize) -> Result<Vec<u8>, Fail> {
    let mut text = Vec::new(alloc);
    text.extend_from_slice(
        b"[[subject]]\nname = \"s\"\nkind = \"behavior\"\nlimit = 1\nseed = \"",
    )?;
    for _ in 0..len {
        text.push(b'z')?;
    }
    text.extend_from_slice(b"\"\n")?;
    advice_on(alloc, text.as_slice(), ConfigError::BadSubject(0))
}

// What is told of bytes that are refused by this cause.
fn advice_on(alloc: Global, bytes: &[u8], cause: ConfigError) -> Result<Vec<u8>, Fail> {
    let mut told = Vec::new(alloc);
    advise(alloc, bytes, cause, &mut told)?;
    Ok(told)
}

#[test]
fn advice_on_seeds_at_their_edge(rt: HostRuntime) -> Result<(), Fail> {
    for (len, is_wrong) in &[(1_024, false), (1_025, true)] {
        let told = told_of_seed(rt.alloc(), *len)?;
        let starts = told.starts_with(b"subject 0: seed is wrong".as_slice());
        expect_that(&rt, starts == *is_wrong, len);
        let ends = told.ends_with(
            b"a behavior also seed, a replay also count and age\n".as_slice(),
        );
        expect_that(&rt, ends, len);
    }
    Ok(())
}

// Puts so many subjects of a kind that is none, each with a name of its own.
fn put_subjects(text: &mut Vec<u8>, count: usize) -> Result<(), Fail> {
    for index in 0..count {
        write!(text, "[[subject]]\nname = \"s{index}\"\nkind = \"hot\"\n")?;
    }
    Ok(())
}

// Puts what is told of the first of them.
fn put_wrong_kinds(told: &mut Vec<u8>, count: usize) -> Result<(), Fail> {
    for index in 0..count {
        write!(
            told,
            "subject {index}: kind is wrong: \"publish\", \"behavior\", \"async\" or \"replay\", as in: kind = \"publish\"\n"
        )?;
    }
    Ok(())
}

// Of more than sixteen subjects the first sixteen are looked at.
#[test]
fn advice_on_sixteen_subjects(rt: HostRuntime) -> Result<(), Fail> {
    let mut wanted = Vec::new(rt.alloc());
    put_wrong_kinds(&mut wanted, 16)?;
    for count in [16, 17] {
        let mut text = Vec::new(rt.alloc());
        put_subjects(&mut text, count)?;
        let told = advice_on(rt.alloc(), text.as_slice(), ConfigError::TooManySubjects)?;
        expect_told(&rt, told.as_slice(), wanted.as_slice(), &count);
    }
    Ok(())
}

// Where there was no memory there is nothing to say, whatever else is wrong.
#[test]
fn no_advice_without_memory(rt: HostRuntime) -> Result<(), Fail> {
    let told = advice_on(rt.alloc(), b"[pool]\nthreads = 1\n", ConfigError::Memory)?;
    expect_told(&rt, told.as_slice(), b"", &"no memory");
    Ok(())
}

#[test]
fn text_that_is_no_toml(rt: HostRuntime) -> Result<(), Fail> {
    let told = told_of(rt.alloc(), "[[subject]]\nname = s\n")?;
    expect_that(
        &rt,
        told.starts_with(b"TOML parse error at line 2, column "),
        &"the line of the fault",
    );
    Ok(())
}
