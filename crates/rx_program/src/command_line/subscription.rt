/// What a command line wants of a subject, in its words.
#[derive(Clone, Copy, Debug, PartialEq, Eq)]
pub struct Subscription<'a> {
    pub subject: &'a str,
    pub strategy: &'a str,
    pub errors: &'a str,
    /// The place from which on its items are wanted. None: those that there are for who comes anew, and the later ones.
    pub from: Option<&'a str>,
    /// How many items are wanted. None: all.
    pub count: Option<&'a str>,
    /// Whether what is told is printed as JSON.
    pub is_json: bool,
}
