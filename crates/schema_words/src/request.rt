//! What the command line asks for.

/// What is done with a payload.
#[derive(Clone, Copy, PartialEq, Eq)]
pub enum Action {
    /// Text to wire bytes.
    Encode,
    /// Wire bytes to text.
    Decode,
    /// Wire bytes to the one form in which the type's messages are written.
    Recode,
}

/// What a run is to do with the schema.
#[derive(Clone, Copy)]
pub enum Task<'a> {
    /// It translates a payload of the type of this name.
    Payload(Action, &'a str),
    /// It writes the schema's descriptor set.
    Set,
}

/// What the command line asks for.
#[derive(Clone, Copy)]
pub struct Request<'a> {
    pub task: Task<'a>,
    /// The file that declares the types of options.
    pub descriptor: Option<&'a str>,
    /// The file that holds a descriptor set.
    pub set: Option<&'a str>,
    pub root: &'a str,
    pub is_hex: bool,
    /// The names of the sources.
    pub names: &'a [&'a str],
}
