// What calls are drawn.

/// What calls are drawn: how many of a hundred are of each kind, and the least and the greatest of their keys.
#[derive(Clone, Copy)]
pub struct Mix {
    /// Gets of a hundred calls.
    pub get: u32,
    /// Inserts of a hundred calls.
    pub insert: u32,
    /// Removes of a hundred calls.
    pub remove: u32,
    /// Scans of a hundred calls.
    pub scan: u32,
    /// The least key.
    pub lo: u32,
    /// The greatest key.
    pub hi: u32,
}
