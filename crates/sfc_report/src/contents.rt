//! What a report is of.

/// A file: its name, and what it holds.
#[derive(Clone, Copy, Debug)]
pub struct Source<'a> {
    /// The name by which it is told.
    pub name: &'a str,
    /// What it holds.
    pub text: &'a [u8],
}

/// A script on a chart, and what came of it.
#[derive(Drop)]
pub struct Run {
    /// What `replay` writes.
    pub replay: Vec<u8>,
    /// What `wave` writes.
    pub wave: Vec<u8>,
    /// The save file of the waveform.
    pub view: Vec<u8>,
    /// The program instances behind the script, in SVG.
    pub after: Vec<u8>,
}

/// What a report is of.
#[derive(Clone, Copy)]
pub struct Contents<'a> {
    /// The version of the program.
    pub version: &'a str,
    /// The chart.
    pub chart: Source<'a>,
    /// The scripts.
    pub scripts: &'a [Source<'a>],
    /// Of each script what came of it.
    pub runs: &'a [Run],
    /// The files of tests.
    pub tests: &'a [Source<'a>],
    /// What `test` prints of them.
    pub judged: &'a [u8],
    /// The program instances in SVG, before the first command.
    pub charts: &'a [u8],
    /// What `cover` prints of the scripts.
    pub coverage: &'a [u8],
    /// The program instances in SVG, with what the scripts never reach.
    pub unreached: &'a [u8],
}
