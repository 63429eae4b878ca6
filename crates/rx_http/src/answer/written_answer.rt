// The bytes of an answer.
ghost use Rattle.std.specs.Prelude.{◌≡◌, ◌<◌, ◌≤◌, ◌^◌, ◌++◌, codes, length};
ghost use Rattle.rx_http.specs.declared.answer.Answer.TheVariants.{Refused};
ghost use Rattle.rx_proto.specs.Bytes.{Writes};
ghost use Rattle.rx_http.specs.Answers.{accepted_body, again_member, answer_bytes, look_fields, look_kind, place_member, plain_kind, refusal_body, sized, sized_head};

use crate::answer::placed_body::{cut_body, placed_body};
use crate::{Answer, Epoch, LookForm, Refusal};
use rx_proto::{LineBytes, MAX_DIGITS, WriteFault, write_bytes, write_digits};
use std::io::Write;

// The bytes of a refusal's body around its name and its advice.
const BODY_AROUND: usize = 23;

// The type of a body in words, and of one in JSON.
const PLAIN: &[u8] = b"text/plain; charset=utf-8";

const JSON: &[u8] = b"application/json";

// The most bytes of the body of the answer to an emission, and some more.
const ACCEPTED: usize = 96;

/// Writes an answer, by several writes: its head, and its body, which for `Events` is still to come. It takes no memory of its
/// own. After a fault the writer has a prefix of it.
pub fn write_answer<W: Write>(writer: &mut W, answer: Answer) -> Result<(), WriteFault>
    ensures { Writes result (W.contents writer.old) (W.contents writer.new) (answer_bytes answer) }
{
    match answer {
        Answer::Events => write_bytes(
            writer,
            b"HTTP/1.1 200 OK\r\nContent-Type: text/event-stream\r\nCache-Control: no-store, no-transform\r\nX-Accel-Buffering: no\r\nContent-Encoding: identity\r\nVary: Accept, Origin\r\nConnection: close\r\n\r\n",
        ),
        Answer::Over | Answer::Requested => write_bytes(
            writer,
            b"HTTP/1.1 204 No Content\r\nCache-Control: no-store\r\nX-Content-Type-Options: nosniff\r\nConnection: close\r\n\r\n",
        ),
        Answer::Well => write_sized(writer, b"200 OK", PLAIN, b"", b"ok\n"),
        Answer::Unwell => write_sized(writer, b"503 Service Unavailable", PLAIN, b"", b"unwell\n"),
        Answer::Accepted {
            epoch,
            place,
            again,
        } => {
            let body = accepted_body(&epoch, place, again);
            write_sized(writer, b"200 OK", JSON, b"", body.as_bytes())
        }
        Answer::Placed { epoch, places } => {
            let body = placed_body(&epoch, &places);
            write_sized(writer, b"200 OK", JSON, b"", body.as_bytes())
        }
        Answer::Cut {
            epoch,
            places,
            refusal,
        } => {
            let body = cut_body(&epoch, &places, refusal);
            write_sized(
                writer,
                refusal.status(),
                JSON,
                refusal.fields(),
                body.as_bytes(),
            )
        }
        Answer::Shown { form, body } => {
            write_sized(
                writer,
                b"200 OK",
                kind_of(form),
                more_of(form),
                body.as_bytes(),
            )
        }
        Answer::Stops => write_sized(writer, b"202 Accepted", PLAIN, b"", b"stopping\n"),
        Answer::Refused(refusal) => write_refusal(writer, refusal),
    }
}

// The type of what is seen of a server.
fn kind_of(form: LookForm) -> &'static [u8]
    ensures { result.now ≡ look_kind form }
{
    match form {
        LookForm::Stats => JSON,
        LookForm::Metrics => b"text/plain; version=0.0.4",
        LookForm::Lines => PLAIN,
        LookForm::Page => b"text/html; charset=utf-8",
    }
}

// The fields that it has besides.
fn more_of(form: LookForm) -> &'static [u8]
    ensures { result.now ≡ look_fields form }
{
    match form {
        LookForm::Stats | LookForm::Metrics | LookForm::Lines => b"",
        LookForm::Page => b"Content-Security-Policy: frame-ancestors 'none'\r\n",
    }
}

// Writes an answer with its body.
fn write_sized<W: Write>(
    writer: &mut W,
    status: &[u8],
    kind: &[u8],
    fields: &[u8],
    body: &[u8],
) -> Result<(), WriteFault>
    requires { length body.now < 2 ^ 32 }
    ensures { Writes result (W.contents writer.old) (W.contents writer.new) (sized status.now kind.now fields.now body.now) }
{
    write_head(writer, status, kind, fields, body.len() as u32)?;
    write_bytes(writer, body)
}

// The body of the answer to an emission that was accepted.
fn accepted_body(epoch: &Epoch, place: Option<u32>, again: bool) -> LineBytes<ACCEPTED>
    ensures { result ≡ accepted_body epoch.now place again }
{
    let mut body = LineBytes::new();
    body.put(b"{\"epoch\":\"");
    body.put(epoch.as_bytes());
    body.put(b"\"");
    put_place_member(&mut body, place);
    body.put(again_member(again));
    body.put(b"}\n");
    body
}

// Puts where an item stands, if one was accepted.
fn put_place_member(body: &mut LineBytes<ACCEPTED>, place: Option<u32>)
    requires { length body.old ≤ 40 }
    ensures bytes { body.new ≡ body.old ++ place_member place }
    ensures few { length body.new ≤ 60 }
{
    if let Some(place) = place {
        let mut digits = [0; MAX_DIGITS];
        let start = write_digits(place, &mut digits);
        body.put(b",\"place\":");
        body.put(&digits[start..]);
    }
}

// What says that it was accepted before.
fn again_member(again: bool) -> &'static [u8]
    ensures bytes { result.now ≡ again_member again }
    ensures few { length result.now ≤ 20 }
{
    if again { b",\"again\":true" } else { b"" }
}

// Writes a refusal, with its body in JSON.
fn write_refusal<W: Write>(writer: &mut W, refusal: Refusal) -> Result<(), WriteFault>
    ensures { Writes result (W.contents writer.old) (W.contents writer.new) (answer_bytes (Refused refusal)) }
{
    write_head(
        writer,
        refusal.status(),
        JSON,
        refusal.fields(),
        body_len(refusal),
    )?;
    write_body(writer, refusal)
}

// How many bytes the body of a refusal has.
fn body_len(refusal: Refusal) -> u32
    ensures { result ≡ length (refusal_body refusal) }
{
    (BODY_AROUND + refusal.error().len() + refusal.advice().len()) as u32
}

// Writes the body of a refusal.
fn write_body<W: Write>(writer: &mut W, refusal: Refusal) -> Result<(), WriteFault>
    ensures { Writes result (W.contents writer.old) (W.contents writer.new) (refusal_body refusal) }
{
    write_three(writer, b"{\"error\":\"", refusal.error(), b"\",\"text\":\"")?;
    write_three(writer, refusal.advice(), b"\"}", b"\n")
}

// Writes the head of an answer whose body has so many bytes.
fn write_head<W: Write>(
    writer: &mut W,
    status: &[u8],
    kind: &[u8],
    fields: &[u8],
    len: u32,
) -> Result<(), WriteFault>
    ensures { Writes result (W.contents writer.old) (W.contents writer.new) (sized_head status.now kind.now fields.now len) }
{
    let mut digits = [0; MAX_DIGITS];
    let start = write_digits(len, &mut digits);
    write_three(writer, b"HTTP/1.1 ", status, b"\r\nContent-Type: ")?;
    write_three(writer, kind, b"\r\nContent-Length: ", &digits[start..])?;
    write_three(
        writer,
        b"\r\nCache-Control: no-store\r\nX-Content-Type-Options: nosniff\r\nConnection: close\r\n",
        fields,
        b"\r\n",
    )
}

// Writes three pieces, one behind the other.
fn write_three<W: Write>(
    writer: &mut W,
    first: &[u8],
    second: &[u8],
    third: &[u8],
) -> Result<(), WriteFault>
    ensures { Writes result (W.contents writer.old) (W.contents writer.new) (first.now ++ (second.now ++ third.now)) }
{
    write_bytes(writer, first)?;
    write_bytes(writer, second)?;
    write_bytes(writer, third)
}
