//! What a scan did, and how that is written.

ghost use Rattle.std.specs.Prelude.{◌≡◌, OnOk};

use crate::kept_text::KeptText;
use sfc_base::ticks::Ticks;
use sfc_flags::flags::Flags;
use std::alloc::{AllocError, Global};

/// Which transitions a scan cleared, and which actions it executed, by their numbers.
#[derive(Clone, Copy)]
pub struct Sets<'a> {
    pub cleared: &'a Flags,
    pub executed: &'a Flags,
}

/// What a scan did, and the text of that; or nothing, where the text is empty.
pub struct Effects {
    cleared: Flags,
    executed: Flags,
    text: KeptText,
}

// By hand, so that a caller that drops one proves one call.
impl Drop for Effects {
    fn drop(self) {
        let Effects {
            cleared: _,
            executed: _,
            text: _,
        } = self;
    }
}

// Takes over a set, whatever size it has.
fn take_over(alloc: Global, kept: &mut Flags, flags: &Flags) -> Result<(), AllocError>
    ensures { OnOk result (kept.new ≡ flags.now) }
{
    if kept.count() != flags.count() {
        *kept = Flags::new(alloc, flags.count())?;
    }
    let mut ticks = Ticks::new();
    kept.copy_from(flags, &mut ticks);
    Ok(())
}

impl Effects {
    ghost use Rattle.std.specs.Prelude.{◌≡◌, IfOk, IfSome};
    ghost use Rattle.sfc_plant.specs.Spaces.{Space};
    ghost use Rattle.sfc_debug.specs.sfc_tables.Tables.{Tabled};
    ghost use Rattle.sfc_output.specs.Memories.{IsRight, effects_text, text_in};

    /// Nothing. The one error is that memory was refused.
    pub fn new(alloc: Global) -> Result<Effects, AllocError>
        ensures { (space : Space) (tables : Tabled) → IfOk result (λ effects. IsRight space tables effects) }
    {
        Ok(Effects {
            cleared: Flags::new(alloc, 0)?,
            executed: Flags::new(alloc, 0)?,
            text: KeptText::none(),
        })
    }

    /// The text, if it is this that the scan did, and the text is kept.
    #[inline(always)]
    pub fn text_of(&self, sets: &Sets<'_>) -> Option<&KeptText>
        ensures { (space : Space) (tables : Tabled) → IsRight space tables self.now →
            IfSome result (λ text. text_in text.now ≡ effects_text space tables sets.now.cleared.now sets.now.executed.now) }
    {
        if self.text.is_kept()
            && self.cleared.is_same(sets.cleared)
            && self.executed.is_same(sets.executed)
        {
            Some(&self.text)
        } else {
            None
        }
    }

    /// Keeps what a scan did and its text, where that isn't long; else nothing. The one error is that memory was refused; then
    /// nothing is kept.
    pub fn keep(&mut self, alloc: Global, sets: &Sets<'_>, text: &[u8]) -> Result<(), AllocError>
        ensures { (space : Space) (tables : Tabled) → text.now ≡ effects_text space tables sets.now.cleared.now sets.now.executed.now →
            IsRight space tables self.new }
    {
        self.text = KeptText::none();
        take_over(alloc, &mut self.cleared, sets.cleared)?;
        take_over(alloc, &mut self.executed, sets.executed)?;
        self.text = KeptText::of(text);
        Ok(())
    }
}
