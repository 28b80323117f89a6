//! What a command line asks for.

/// What is made of a file.
#[derive(Clone, Copy, Debug, PartialEq, Eq)]
pub enum Job {
    /// The names and counts of its interfaces and worlds.
    Show,
    /// The package as a binary.
    Bin,
    /// The package as canonical text.
    Text,
    /// The layouts of its types and the core signatures of its functions.
    Layout,
}

/// What the words ask for. A file is named by its path, and `earlier` has those of the packages that
/// the file's own may use, in their order.
#[derive(Debug, PartialEq, Eq, Drop)]
pub enum Command {
    Convert {
        job: Job,
        earlier: Vec<String>,
        file: String,
    },
    /// One call of a function, with the arguments and the reply in JSON.
    Call {
        earlier: Vec<String>,
        file: String,
        interface: String,
        function: String,
        arguments: String,
        reply: String,
    },
}
