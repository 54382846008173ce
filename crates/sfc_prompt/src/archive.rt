//! Where scripts are kept.

/// What came of keeping a script.
#[derive(Clone, Copy, Debug, PartialEq, Eq)]
pub enum Kept {
    /// It is kept.
    Kept,
    /// The file was there, and wasn't written here: it stays as it was.
    Foreign,
    /// The folder isn't there.
    NoFolder,
    /// There is no right to write there.
    NoRight,
    /// It can't be written for another reason.
    Failed,
}

/// Where scripts are kept, by the names of their files.
pub trait Archive {
    /// Keeps a script under this name, in place of one that was kept here before; of any file only where it may replace others. Where it
    /// isn't kept, what was there stays.
    fn keep(&mut self, name: &str, script: &[u8], may_replace: bool) -> Kept;

    /// Takes the script of all that was accepted so far, before what was answered is written: it begins with what it was before. It is for one
    /// who records a session as it goes.
    fn record(&mut self, script: &[u8]);
}
