//! What became of the files of an office.
use sqlite::{FileStore, Files};
use sqlite_disk::Disk;

/// What became of the files at the path of an office.
#[derive(Drop)]
pub enum StoreAfter<F: Disk> {
    /// They were not opened.
    Untouched,
    /// They could not be opened as a database. Those that were opened are still locked, if any were.
    Unopened(Option<Files<F>>),
    /// They were closed, and the database file alone holds what the log held. They are still locked.
    Closed(Files<F>),
    /// The log could not be copied into the database file, and stays beside it. They are still locked.
    Left(FileStore<F>),
}
