//! Instants of a test.

ghost use Rattle.std.specs.Prelude.{◌≡◌, option_map};
ghost use Rattle.sfc_tokens.specs.Lexing.DurationWords.{duration_value};
ghost use Rattle.sfc_cases.specs.declared.instant.Instant.TheVariants as instants;
ghost use Rattle.sfc_cases.specs.Lines as lines;

use sfc_tokens::duration::duration;

/// Where the test's clock stands, in microseconds.
#[derive(Clone, Copy, Debug, PartialEq, Eq)]
pub enum Instant {
    /// Where it stood.
    Same,
    /// At this instant.
    At(i64),
    /// So much later than it stood.
    Later(i64),
}

impl Instant {
    /// Where a clock stands then that stood so, as far as 64 bits go.
    pub fn after(self, clock: i64) -> i64
        ensures { result ≡ lines.instant_after clock self }
    {
        match self {
            Instant::Same => clock,
            Instant::At(instant) => instant,
            Instant::Later(micros) => clock.saturating_add(micros),
        }
    }
}

// That of a duration behind a plus.
fn later(word: &[u8]) -> Option<Instant>
    ensures { result ≡ option_map instants.Later (duration_value word.now) }
{
    let micros = duration(word)?;
    Some(Instant::Later(micros))
}

/// The instant that a word is: a duration, or a plus and a duration; None where it is neither. It takes no memory.
pub fn read_instant(word: &[u8]) -> Option<Instant>
    ensures { result ≡ lines.instant_of word.now }
{
    let (first, behind) = word.split_first()?;
    if *first == b'+' {
        return later(behind);
    }
    let micros = duration(word)?;
    Some(Instant::At(micros))
}
