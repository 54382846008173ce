//! Which stimulus comes next.

ghost use Rattle.std.specs.Prelude.{◌≡◌, None};
ghost use Rattle.sfc_judge.specs.Dues as specs;

use sfc_cases::stimulus::Stimulus;

/// A stimulus whose command comes next.
#[derive(Clone, Copy, Debug)]
pub struct Due {
    /// Which of the stimuli it is, from 0.
    pub place: usize,
    /// When its command is wanted, in microseconds of the test's clock.
    pub instant: i64,
    pub stimulus: Stimulus,
}

// The one of the earlier instant, the first of the same; one without a command that is left has none.
fn sooner(best: Option<Due>, due: Due) -> Option<Due>
    ensures { result ≡ specs.sooner best due }
{
    if !due.stimulus.is_left() {
        return best;
    }
    match best {
        Some(best) if best.instant <= due.instant => Some(best),
        _ => Some(due),
    }
}

/// The stimulus whose command comes first, if one has a command that is left, where the clock stands so.
pub fn first_due(stimuli: &[Stimulus], clock: i64) -> Option<Due>
    ensures { result ≡ specs.first_due clock None 0 stimuli.now }
{
    let mut best = None;
    let mut place = 0;
    let mut rest = stimuli;
    'stimuli: while let Some((stimulus, others)) = rest.split_first() {
        let due = Due {
            place,
            instant: stimulus.first.after(clock),
            stimulus: *stimulus,
        };
        best = sooner(best, due);
        place += 1;
        rest = others;
    }
    best
}
