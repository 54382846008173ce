//! The case of letters, which is not significant in words (2.1.2).

ghost use Rattle.std.specs.Prelude.{◌≡◌};
ghost use Rattle.sfc_base.specs.Case as case;

/// Whether the two are one word, which doesn't depend on the case of letters. It takes no memory.
#[tactic(auto, using(crate::proofs::SameWords::as_long), unfolding(crate::specs::Case::same_word))]
pub fn is_same_word(left: &[u8], right: &[u8]) -> bool
    ensures { result ≡ case.same_word left.now right.now }
{
    if left.len() != right.len() {
        return false;
    }
    let mut left_rest = left;
    let mut right_rest = right;
    'all: while let Some((a, left_after)) = left_rest.split_first() {
        let Some((b, right_after)) = right_rest.split_first() else {
            return false;
        };
        if a.to_ascii_uppercase() != b.to_ascii_uppercase() {
            return false;
        }
        left_rest = left_after;
        right_rest = right_after;
    }
    right_rest.is_empty()
}
