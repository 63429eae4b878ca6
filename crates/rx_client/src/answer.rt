// The body of an answer by HTTP, out of what a peer gives.
ghost use Rattle.std.specs.Prelude.{◌≡◌, ◌++◌, All, IfOk, IfSome, List, Some, codes, decimal, length, map, option_map, ℕ};
ghost use Rattle.std.specs.Io.KnownBytes.{Consumes};
ghost use Rattle.std.specs.Str.{str_to_ascii_lowercase};
ghost use Rattle.httparse.specs.Spans.{IsHeaderWithin, header_bytes};
ghost use Rattle.rx_client.specs.Looking.{HandsOn, IsAnswer, first_named};

use crate::LookFault;
use crate::decimals::decimal_of;
use crate::flushing::write_out;
use httparse::Status;
use httparse::spans::{EMPTY_HEADER_SPAN, HeaderSpan, parse_response};
use rx_heap::Heap;
use std::io::{Read, Write};

// The most bytes that a head has.
const MAX_HEAD: usize = 8192;

// The most fields that a head has.
const MAX_FIELDS: usize = 32;

// How many bytes one read has room for.
const BLOCK: usize = 8192;

// An answer, all of which has come.
#[derive(Clone, Copy)]
struct Answer<'a> {
    status: u16,
    body: &'a [u8],
}

/// Writes the body of the answer that a peer gives, once all of it has come and where it has the status that is wanted. The body of one
/// of another status goes to `why`.
///
/// # Errors
///
/// `Write`: a front of the body was written. After all others nothing was: `Refused`, by the status of the answer; `Strange`, what came
/// is no answer, or one of the status that is wanted that doesn't tell the length of its body, or its head has more than 8,192 bytes or
/// 32 fields; `Lost`, it ended before the body did, or could not be read; `Memory`.
pub fn hand_on<R: Read, W: Write, E: Write>(
    peer: &mut R,
    heap: &Heap,
    wanted: u16,
    writer: &mut W,
    why: &mut E,
) -> Result<(), LookFault>
    ensures { HandsOn wanted result (R.remaining peer.old) (R.remaining peer.new) (W.contents writer.old) (W.contents writer.new) }
{
    let Ok(alloc) = heap.clone() else {
        return Err(LookFault::Memory);
    };
    let mut came = Vec::new(alloc);
    for _ in 0..u64::MAX {
        match answer_in(came.as_slice(), wanted) {
            Ok(Some(Answer { status, body })) => {
                if status == wanted {
                    return write_out(writer, body, LookFault::Write);
                }
                let _ = why.write_all(body);
                return Err(LookFault::Refused(status));
            }
            Ok(None) => {}
            Err(fault) => return Err(fault),
        }
        match read_on(peer, &mut came) {
            Ok(0) => return Err(LookFault::Lost),
            Ok(_) => {}
            Err(fault) => return Err(fault),
        }
    }
    Err(LookFault::Lost)
}

// One read, behind what came. How many bytes it gave.
fn read_on<R: Read>(peer: &mut R, came: &mut Vec<u8, Heap>) -> Result<usize, LookFault>
    ensures { IfOk result (λ n. (read : List ℕ) × Consumes (R.remaining peer.old) (R.remaining peer.new) read × (came.new.items ≡ came.old.items ++ read)) }
{
    let mut block = [0; BLOCK];
    let Ok(count) = peer.read(&mut block) else {
        return Err(LookFault::Lost);
    };
    match came.extend_from_slice(&block[..count]) {
        Ok(()) => Ok(count),
        Err(_) => Err(LookFault::Memory),
    }
}

// The answer with which these bytes begin. None: not all of it has come. One of another status than is wanted may lack a length, and
// is refused for that status then.
fn answer_in(came: &[u8], wanted: u16) -> Result<Option<Answer<'_>>, LookFault>
    ensures { IfOk result (λ found. IfSome found (λ answer. IsAnswer answer.status came.now answer.body.now)) }
{
    let mut fields = [EMPTY_HEADER_SPAN; MAX_FIELDS];
    match parse_response(came, &mut fields) {
        Ok(Status::Complete(parts)) => {
            if parts.len > MAX_HEAD {
                return Err(LookFault::Strange);
            }
            let status = parts.code;
            let Some(size) = size_in(came, &fields[..parts.headers]) else {
                return Err(lacks_length(status, wanted));
            };
            let behind = &came[parts.len..];
            if behind.len() < size {
                return Ok(None);
            }
            let body = &behind[..size];
            Ok(Some(Answer { status, body }))
        }
        Ok(Status::Partial) => {
            if came.len() < MAX_HEAD {
                Ok(None)
            } else {
                Err(LookFault::Strange)
            }
        }
        Err(_) => Err(LookFault::Strange),
    }
}

// What is wrong with an answer of this status that doesn't tell the length of its body.
fn lacks_length(status: u16, wanted: u16) -> LookFault {
    if status == wanted {
        LookFault::Strange
    } else {
        LookFault::Refused(status)
    }
}

// How many bytes a body has, by the first field of its head that is to say so.
fn size_in(head: &[u8], fields: &[HeaderSpan]) -> Option<usize>
    requires within { All (IsHeaderWithin (length head.now)) fields.now }
    ensures { IfSome result (λ size. first_named (codes "content-length") (map (header_bytes head.now) fields.now) ≡ Some (decimal size)) }
{
    let Some(word) = first_named(head, fields, b"content-length") else {
        return None;
    };
    match decimal_of(word) {
        Some(size) => Some(size as usize),
        None => None,
    }
}

// The value of the first field of this name, which is told in small letters.
fn first_named<'a>(head: &'a [u8], fields: &[HeaderSpan], name: &[u8]) -> Option<&'a [u8]>
    requires small { str_to_ascii_lowercase name.now ≡ name.now }
    requires within { All (IsHeaderWithin (length head.now)) fields.now }
    ensures { option_map (λ value. value.now) result ≡ first_named name.now (map (header_bytes head.now) fields.now) }
{
    for field in fields {
        if field.name.of(head).eq_ignore_ascii_case(name) {
            return Some(field.value.of(head));
        }
    }
    None
}
