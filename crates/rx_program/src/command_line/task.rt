use crate::command_line::subscription::Subscription;

/// What the words of a command line ask for.
#[derive(Clone, Copy, Debug, PartialEq, Eq)]
pub enum Task<'a> {
    /// To run a script over the configuration in the file of this path; None: over the standard one.
    Script(Option<&'a str>),
    /// To audit a script over the configuration in the file of this path.
    Audit(&'a str),
    /// To tell the configuration in the file of the first path, and where there is a second, what is in the way of serving there.
    Check(&'a str, Option<&'a str>),
    /// To serve the configuration in the file of the first path on a new Unix socket at the second.
    Serve(&'a str, &'a str),
    /// To emit items of the subject of the second word at the server whose socket is at the path: this text, or where there is
    /// none each line of the input.
    Publish(&'a str, &'a str, Option<&'a str>),
    /// To follow a subject at the server whose socket is at the path.
    Subscribe(&'a str, Subscription<'a>),
    /// To show what is seen of the server whose socket of `[http]` is at the path: as JSON, or in lines.
    Stats(&'a str, bool),
    /// To have the server stop whose socket of `[http]` is at the path: within so many seconds, where it is told.
    Stop(&'a str, Option<&'a str>),
}
