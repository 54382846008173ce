//! What holds of words themselves. Each law is a function with an empty body, whose contract is the law.

ghost use Rattle.std.specs.Prelude.{◌≡◌, ℕ, nat_eq, List};
ghost use Rattle.std.specs.Cmp.Lexicographic.{pointwise};
ghost use Rattle.std.specs.Str.{str_to_ascii_uppercase};
ghost use Rattle.sfc_base.specs.Case.{same_word};

/// Two words are one but for case where their capitals are byte for byte the same.
pub fn same_by_capitals()
    ensures { (v w : List ℕ) → same_word v w ≡ pointwise nat_eq (str_to_ascii_uppercase v) (str_to_ascii_uppercase w) }
{}
