/// How what is seen of a server is told.
#[derive(Clone, Copy, Debug, PartialEq, Eq)]
pub enum LookForm {
    /// As one object of JSON.
    Stats,
    /// In the text format of Prometheus, 0.0.4.
    Metrics,
    /// As plain lines, for who looks at a terminal.
    Lines,
    /// As a page for a browser, which looks again by itself.
    Page,
}
