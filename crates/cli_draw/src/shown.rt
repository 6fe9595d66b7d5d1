// What a picture shows.

/// What a picture shows of a history.
#[derive(Drop)]
pub(crate) enum Choice {
    /// Only the calls are shown that were invoked at these events.
    Few(Vec<usize>),
    /// The part is shown that a view asks for.
    Part,
}
