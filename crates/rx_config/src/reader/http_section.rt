// What `http` says: what is served over HTTP.
ghost use Rattle.std.specs.Prelude.{◌≡◌, ◌≤◌, IfOk, length, option_map};
ghost use Rattle.rx_config.specs.Configurations.{Reads, ReadsAs, events_of_config, http_at, http_in, path_in, socket_in};
ghost use Rattle.rx_config.specs.KeyTables.{members_in};

use crate::http::{Http, MAX_PATH};
use crate::keys::section::Section;
use crate::keys::{EMIT, HEARTBEAT, HTTP, HTTP_KEYS, READERS, SOCKET, STOP};
use crate::reader::fault::Fault;
use crate::reader::texts::line_in;
use rx_heap::Heap;
use rx_note::Text;

/// The section of a configuration's table, which may be missing.
pub(crate) fn http_at(heap: &Heap, section: &Section) -> Result<Option<Http>, Fault>
    ensures { ReadsAs (option_map events_of_config) (http_at (members_in section.now)) result }
{
    let Some(value) = HTTP.value_in(section) else {
        return Ok(None);
    };
    match value.as_table() {
        None => Err(Fault::Refused),
        Some(table) => match http_in(heap, &Section::of(table)) {
            Ok(http) => Ok(Some(http)),
            Err(fault) => Err(fault),
        },
    }
}

// The section of this table. What takes memory is read last.
fn http_in(heap: &Heap, section: &Section) -> Result<Http, Fault>
    ensures { ReadsAs events_of_config (http_in (members_in section.now)) result }
{
    if !section.has_only(&HTTP_KEYS, None) {
        return Err(Fault::Refused);
    }
    let Some(heartbeat) = HEARTBEAT.number_in(section) else {
        return Err(Fault::Refused);
    };
    let Some(readers) = READERS.number_in(section) else {
        return Err(Fault::Refused);
    };
    let Some(emit) = EMIT.flag_in(section) else {
        return Err(Fault::Refused);
    };
    let Some(stop) = STOP.flag_in(section) else {
        return Err(Fault::Refused);
    };
    match socket_in(heap, section) {
        Ok(socket) => Ok(Http {
            socket,
            heartbeat: heartbeat as u16,
            readers: readers as u16,
            emit,
            stop,
        }),
        Err(fault) => Err(fault),
    }
}

// The path of the socket, which can't be left out.
fn socket_in(heap: &Heap, section: &Section) -> Result<Text, Fault>
    ensures reads { Reads (socket_in (members_in section.now)) result }
    ensures within { IfOk result (λ socket. (1 ≤ length socket) × (length socket ≤ 107)) }
{
    match SOCKET.text_in(section) {
        None => Err(Fault::Refused),
        Some(text) => path_in(heap, text.as_bytes()),
    }
}

// The path of these bytes.
fn path_in(heap: &Heap, bytes: &[u8]) -> Result<Text, Fault>
    ensures reads { Reads (path_in bytes.now) result }
    ensures within { IfOk result (λ path. (1 ≤ length path) × (length path ≤ 107)) }
{
    if bytes.is_empty() || bytes.len() > MAX_PATH {
        return Err(Fault::Refused);
    }
    line_in(heap, bytes)
}
