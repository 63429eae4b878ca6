ghost use Rattle.std.specs.Prelude.{◌≡◌, ◌≤◌, length};
ghost use Rattle.rx_http.specs.Answers.{advice_of, error_of, fields_of, status_of};

/// Why a request is refused. Those behind `LongHead` are not of its head: a server refuses for them what it read.
#[derive(Clone, Copy, Debug, PartialEq, Eq)]
pub enum Refusal {
    /// 400: it is no head of HTTP/1.0 or HTTP/1.1, or more than one.
    Head,
    /// 400: a word of its query is none of those that are read.
    Word,
    /// 400: what it says to know is no id that a server tells.
    LastEventId,
    /// 400: its query says of the lines of its body what none does.
    LinesWord,
    /// 400: its text has an LF.
    Lf,
    /// 400: by what it is named is no key, or it is several texts, which a key can't name.
    Key,
    /// 400: how many items it asks for is no number of them, or more than may be.
    Items,
    /// 400: how long a stop may take is no number of seconds, or more than may be.
    Within,
    /// 403: a page of another site sends it.
    Origin,
    /// 403: the configuration has no stop.
    NoStop,
    /// 403: readers alone are served.
    ReadOnly,
    /// 404: there is no subject of that name.
    Subject,
    /// 404: there is no such path.
    Path,
    /// 404: there is no such observer that asks for its items itself.
    Observer,
    /// 405: a subject is read by GET, and emitted to by POST.
    Method,
    /// 405: nothing is served there but by GET.
    OnlyGet,
    /// 405: nothing is served there but by POST.
    OnlyPost,
    /// 411: how long its body is isn't told by one number.
    Length,
    /// 413: a text of it has more than 1,024 bytes, or it has more than 8,192 with the head, or more than 256 lines.
    Long,
    /// 431: its head has more than 8,192 bytes or more than 32 fields.
    LongHead,
    /// 409: the subject has ended.
    Ended,
    /// 409: as many joins or items were accepted as may be.
    Spent,
    /// 500: the thread that owns the subject is gone.
    Gone,
    /// 503: as many observers are held as may be.
    Full,
    /// 503: the server stops.
    Stopping,
    /// 507: there was no memory for it.
    Memory,
}

impl Refusal {
    /// Its status, a code and its reason.
    pub(crate) fn status(self) -> &'static [u8]
        ensures { result.now ≡ status_of self }
    {
        match self {
            Refusal::Head
            | Refusal::Word
            | Refusal::LastEventId
            | Refusal::LinesWord
            | Refusal::Lf
            | Refusal::Key
            | Refusal::Items
            | Refusal::Within => b"400 Bad Request",
            Refusal::Origin | Refusal::NoStop | Refusal::ReadOnly => b"403 Forbidden",
            Refusal::Subject | Refusal::Path | Refusal::Observer => b"404 Not Found",
            Refusal::Method | Refusal::OnlyGet | Refusal::OnlyPost => b"405 Method Not Allowed",
            Refusal::Ended | Refusal::Spent => b"409 Conflict",
            Refusal::Length => b"411 Length Required",
            Refusal::Long => b"413 Content Too Large",
            Refusal::LongHead => b"431 Request Header Fields Too Large",
            Refusal::Gone => b"500 Internal Server Error",
            Refusal::Full | Refusal::Stopping => b"503 Service Unavailable",
            Refusal::Memory => b"507 Insufficient Storage",
        }
    }

    /// Its name.
    pub(crate) fn error(self) -> &'static [u8]
        ensures bytes { result.now ≡ error_of self }
        ensures few { length result.now ≤ 100 }
    {
        match self {
            Refusal::Head | Refusal::LongHead => b"head",
            Refusal::Word => b"strategy",
            Refusal::LastEventId => b"last-event-id",
            Refusal::LinesWord => b"lines",
            Refusal::Lf => b"lf",
            Refusal::Key => b"idempotency-key",
            Refusal::Items => b"request",
            Refusal::Within => b"within",
            Refusal::Origin => b"origin",
            Refusal::NoStop => b"stop",
            Refusal::ReadOnly => b"emit",
            Refusal::Subject => b"subject",
            Refusal::Path => b"path",
            Refusal::Observer => b"observer",
            Refusal::Method | Refusal::OnlyGet | Refusal::OnlyPost => b"method",
            Refusal::Length => b"length",
            Refusal::Long => b"long",
            Refusal::Ended => b"ended",
            Refusal::Spent => b"spent",
            Refusal::Gone => b"gone",
            Refusal::Full => b"full",
            Refusal::Stopping => b"stopping",
            Refusal::Memory => b"memory",
        }
    }

    /// What to do about it.
    pub(crate) fn advice(self) -> &'static [u8]
        ensures bytes { result.now ≡ advice_of self }
        ensures few { length result.now ≤ 200 }
    {
        match self {
            Refusal::Head => b"the head is not one of HTTP/1.1",
            Refusal::Word =>
                b"strategy is BUFFER, DROP:n, LATEST:n or BOUNDED:n, errors AHEAD or DELAY, window 1 to 16, credit asked or socket",
            Refusal::LastEventId => b"it is none that a server tells",
            Refusal::Subject => b"the configuration has no such subject",
            Refusal::Path => b"try /, /subjects/NAME, /stats, /metrics or /healthz",
            Refusal::Observer => b"there is none of that name that asks for its items itself",
            Refusal::LinesWord => b"lines is 1, where each line of the body is a text",
            Refusal::Lf => b"a text is one line",
            Refusal::Key => b"a key is 1 to 64 visible characters, and names one text",
            Refusal::Items => b"request is how many items more, at least 1",
            Refusal::Within => b"within is how many seconds, 0 to 3,600",
            Refusal::Origin => b"a page of another site sends it",
            Refusal::NoStop => b"the configuration has no stop",
            Refusal::ReadOnly => b"readers alone are served",
            Refusal::Method => b"try GET or POST",
            Refusal::OnlyGet => b"try GET",
            Refusal::OnlyPost => b"try POST",
            Refusal::Length => b"say Content-Length",
            Refusal::Long => b"a text has at most 1,024 bytes, and a request 8,192 and 256 lines",
            Refusal::Ended => b"the subject has ended",
            Refusal::Spent => b"the subject accepted as many joins or items as it may",
            Refusal::LongHead => b"a head has at most 8,192 bytes and 32 fields",
            Refusal::Gone => b"the thread of the subject ended by a fault",
            Refusal::Full => b"as many observers are held as may be",
            Refusal::Stopping => b"the server stops",
            Refusal::Memory => b"the budget of the subject is used up",
        }
    }

    /// The fields that it has besides.
    pub(crate) fn fields(self) -> &'static [u8]
        ensures { result.now ≡ fields_of self }
    {
        match self {
            Refusal::Method => b"Allow: GET, POST\r\n",
            Refusal::OnlyGet => b"Allow: GET\r\n",
            Refusal::OnlyPost => b"Allow: POST\r\n",
            Refusal::Full => b"Retry-After: 5\r\n",
            Refusal::Stopping => b"Retry-After: 2\r\n",
            _ => b"",
        }
    }
}
