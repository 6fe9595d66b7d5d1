// How far a call has come.
use events::Reply;

/// How far an open call has come.
#[derive(Drop)]
pub enum Progress {
    /// It was answered, and its response is in the log of its process.
    Done(Reply),
    /// All steps that it was given were made, and it is still open.
    Going,
}
