// Why a text has no JSON value.

/// Why no JSON value was read from a text.
#[derive(Clone, Copy, Debug, PartialEq, Eq)]
pub enum JsonFault {
    /// The text is longer than texts may be.
    TooLong,
    /// The text is not JSON in UTF-8.
    NotJson,
    /// Memory ran out.
    Memory,
}
