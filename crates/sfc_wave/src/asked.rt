//! What is asked of a waveform.

/// Which instants a waveform has.
#[derive(Clone, Copy, Debug, PartialEq, Eq)]
pub enum Instants {
    /// Run instants, so that a halt takes no time.
    Run,
    /// Those of the script, so that it does.
    Raw,
}

/// How a waveform is written.
#[derive(Clone, Copy, Debug, PartialEq, Eq)]
pub enum Form {
    /// As a Value Change Dump (IEEE 1364).
    Dump,
    /// As a picture, in SVG.
    Picture,
}

/// What is asked of a waveform.
#[derive(Clone, Copy, Debug)]
pub struct Asked<'a> {
    /// Its instants.
    pub instants: Instants,
    /// How it is written.
    pub form: Form,
    /// The names of the signals that are wanted, or of what they belong to; all are, where none is named.
    pub only: &'a [String],
}
