use crate::Name;

/// Where a stream of a program lies.
#[derive(Debug, Drop)]
pub enum Place {
    /// Nothing is read or written.
    Nothing,
    /// Standard input.
    Input,
    /// Standard output.
    Output,
    /// Standard error.
    Errors,
    /// The file of this name.
    File(Name),
}
