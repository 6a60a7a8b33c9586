//! Rows of bt_version by the key that distinguishes versions, and as they are added.

/// The key that distinguishes versions of a table that begin at one moment: their values' bytes,
/// and the number of the first day of the period.
#[derive(PartialEq, Eq, PartialOrd, Ord, Debug, Drop)]
pub struct VersionKey {
    pub values: Vec<u8>,
    pub start: i64,
}

/// A row that is added: its key, and the number of the day before which its period ends.
#[derive(Debug, Drop)]
pub struct NewRow {
    pub key: VersionKey,
    pub end: i64,
}

/// The key of a version: that which it has at the moment at which its system time begins, and this
/// moment.
#[derive(Debug, Drop)]
pub struct RecordedKey {
    pub key: VersionKey,
    pub from: i64,
}
