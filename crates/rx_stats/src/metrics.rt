// What is seen, in the text format of Prometheus: the numbers of one kind stand together, each with the name of its subject or socket.

use crate::crowd::crowd_look::CrowdLook;
use crate::gauge::{EACH, GAUGES, Gauge};
use crate::pieces::{put, put_number};
use rx_config::SubjectConfig;
use rx_heap::{Heap, Memory};
use rx_hub::SubjectLook;

/// Puts what was seen of the connections and of each subject.
pub(crate) fn put_metrics(
    page: &mut Vec<u8, Heap>,
    crowd: CrowdLook,
    subjects: &[SubjectConfig],
    looks: &[Option<SubjectLook>],
) -> Result<(), Memory> {
    put_connections(page, crowd)?;
    for place in 0..GAUGES {
        let gauge = EACH[place];
        put_head(page, gauge.name(), gauge.head(), gauge.kind())?;
        for (subject, look) in subjects.iter().zip(looks.iter()) {
            if let Some(look) = look {
                put_line(page, gauge, subject, look)?;
            }
        }
    }
    Ok(())
}

fn put_connections(page: &mut Vec<u8, Heap>, crowd: CrowdLook) -> Result<(), Memory> {
    let CrowdLook { sessions, http } = crowd;
    let open = b"rxline_connections".as_slice();
    put_head(page, open, b" Connections that are open.\n", b"gauge")?;
    put_sockets(page, open, sessions.open, http.open)?;
    let accepted = b"rxline_connections_total".as_slice();
    put_head(
        page,
        accepted,
        b" Connections that were accepted.\n",
        b"counter",
    )?;
    put_sockets(page, accepted, sessions.accepted, http.accepted)
}

fn put_head(page: &mut Vec<u8, Heap>, name: &[u8], says: &[u8], kind: &[u8]) -> Result<(), Memory> {
    put(page, b"# HELP ")?;
    put(page, name)?;
    put(page, says)?;
    put(page, b"# TYPE ")?;
    put(page, name)?;
    put(page, b" ")?;
    put(page, kind)?;
    put(page, b"\n")
}

// The line of each socket.
fn put_sockets(
    page: &mut Vec<u8, Heap>,
    name: &[u8],
    sessions: u64,
    http: u64,
) -> Result<(), Memory> {
    put(page, name)?;
    put_number(page, b"{socket=\"sessions\"} ", sessions)?;
    put(page, b"\n")?;
    put(page, name)?;
    put_number(page, b"{socket=\"http\"} ", http)?;
    put(page, b"\n")
}

fn put_line(
    page: &mut Vec<u8, Heap>,
    gauge: Gauge,
    subject: &SubjectConfig,
    look: &SubjectLook,
) -> Result<(), Memory> {
    let Some(number) = gauge.number(subject, look) else {
        return Ok(());
    };
    put(page, gauge.name())?;
    put(page, b"{subject=\"")?;
    put(page, subject.name.as_bytes())?;
    put_number(page, b"\"} ", number)?;
    put(page, b"\n")
}
