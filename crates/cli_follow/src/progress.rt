// How far a stream was followed, for a user who waits.

/// A display that is called after each line. No contract says what it shows.
pub trait ProgressDisplay {
    /// Shows that so many calls were invoked.
    fn show(&mut self, calls: usize);
}
