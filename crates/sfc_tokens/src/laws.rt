//! What holds of the tokens and the TIME text themselves. Each law is a function with an empty body, whose contract is the
//! law.

ghost use Rattle.std.specs.Prelude.{◌≡◌, ◌≤◌, ◌<◌, ◌^◌, ◌↔◌, ℕ, ℤ, unsigned_abs, false, List, [], ◌∷◌, ◌++◌, length};
ghost use Rattle.std.specs.Prelude.{Ok, Some, codes};
ghost use Rattle.std.specs.Fmt.{decimal, signed_decimal};
ghost use Rattle.std.specs.List.{All, Contains};
ghost use Rattle.sfc_base.specs.Classes.{class_of, first_class};
ghost use Rattle.sfc_base.specs.Runs.{is_in, Ends};
ghost use Rattle.sfc_base.specs.Words.{reserved_words, keyword_of};
ghost use Rattle.sfc_base.specs.Names.{IsWord, IsName};
ghost use Rattle.sfc_base.specs.Durations.{greatest};
ghost use Rattle.sfc_base.specs.Locations.{AreNumbers};
ghost use Rattle.sfc_tokens.specs.Lexemes.{look_ahead, Tokens, Lexes, is_sharp_first, IsDuration, Piece};
ghost use Rattle.sfc_tokens.specs.Spelling.{CanStand, Spells, behind, sign_text};
ghost use Rattle.sfc_tokens.specs.Texts.{longest, TextLexes};
ghost use Rattle.sfc_tokens.specs.Tokens.{Kinds};
ghost use Rattle.sfc_base.specs.TimeText.{time_text};
ghost use Rattle.sfc_base.specs.LocationText.{location_text};
ghost use Rattle.sfc_tokens.specs.Lexing.DurationWords.{duration_value};
ghost use Rattle.sfc_base.specs.declared.class.Class.TheVariants as class;
ghost use Rattle.sfc_base.specs.declared.delimiter.Delimiter.{Delimiter};
ghost use Rattle.sfc_base.specs.declared.keyword.Keyword.{Keyword};
ghost use Rattle.sfc_base.specs.declared.location.Location.{Location};
ghost use Rattle.sfc_base.specs.declared.run.Alphabet.{Alphabet};
ghost use Rattle.sfc_base.specs.declared.run.Alphabet.TheVariants as alphabet;
ghost use Rattle.sfc_tokens.specs.declared.lex.Ahead.TheVariants.{Alone};
ghost use Rattle.sfc_tokens.specs.declared.token.TokenKind.{TokenKind};

/// A text has one outcome: its tokens, or that it is too long, or its first fault.
pub fn one_lexing()
    ensures { (text : List ℕ) (r s : Tokens) → TextLexes text r → TextLexes text s → r ≡ s }
{}

/// Each text has an outcome.
pub fn some_lexing()
    ensures { (text : List ℕ) → (r : Tokens) × TextLexes text r }
{}

/// A word that is one duration is lexed as that one token.
pub fn duration_lexed()
    ensures { (word : List ℕ) (z : ℤ) → IsDuration word z → Lexes word (Ok (TokenKind.Duration z ∷ [])) }
{}

/// A word is read as the duration that it is, and as none where it is none.
pub fn duration_read()
    ensures { (word : List ℕ) (z : ℤ) → (duration_value word ≡ Some z) ↔ IsDuration word z }
{}

/// A word is one duration at most.
pub fn one_duration()
    ensures { (word : List ℕ) (y z : ℤ) → IsDuration word y → IsDuration word z → y ≡ z }
{}

/// The TIME text of a value is one duration, and of that value.
pub fn time_text_read()
    ensures { (z : ℤ) → unsigned_abs z ≤ greatest → IsDuration (time_text z) z }
{}

/// A number of 32 bits in decimal digits is one integer, where no more of a number follows.
pub fn integer_spelled()
    ensures { (n : ℕ) (rest : List ℕ) → n < 2 ^ 32 → Ends alphabet.Number rest → Piece (decimal n) rest (Some (TokenKind.Integer n)) }
{}

/// `INT#` and a number of 32 bits with its sign is one token of type INT, where no more of a number follows.
pub fn int_spelled()
    ensures { (z : ℤ) (rest : List ℕ) → unsigned_abs z < 2 ^ 32 → Ends alphabet.Number rest
        → Piece (codes "INT#" ++ signed_decimal z) rest (Some (TokenKind.Int z)) }
{}

/// `DINT#` and a number of 32 bits with its sign is one token of type DINT, where no more of a number follows.
pub fn dint_spelled()
    ensures { (z : ℤ) (rest : List ℕ) → unsigned_abs z < 2 ^ 32 → Ends alphabet.Number rest
        → Piece (codes "DINT#" ++ signed_decimal z) rest (Some (TokenKind.Dint z)) }
{}

/// The TIME text of a value is one duration, and of that value, where no more of a duration follows.
pub fn time_spelled()
    ensures { (z : ℤ) (rest : List ℕ) → unsigned_abs z ≤ greatest → Ends alphabet.Interval rest
        → Piece (time_text z) rest (Some (TokenKind.Duration z)) }
{}

/// A name is one token, and that name, where neither more of a word nor a `#` follows.
pub fn name_spelled()
    ensures { (word rest : List ℕ) → IsName word → Ends alphabet.Word rest → is_sharp_first rest ≡ false
        → Piece word rest (Some (TokenKind.Name word)) }
{}

/// A reserved word in any case is one token, and what it stands for, where neither more of a word nor a `#` follows.
pub fn reserved_spelled()
    ensures { (word rest : List ℕ) (keyword : Keyword) → IsWord word → keyword_of word ≡ Some keyword → Ends alphabet.Word rest
        → is_sharp_first rest ≡ false → Piece word rest (Some (TokenKind.Keyword keyword)) }
{}

/// Each reserved word as the table spells it is one token, and what the table says, where neither more of a word nor a `#` follows.
pub fn reserved_word_spelled()
    ensures { (word rest : List ℕ) (keyword : Keyword) → Contains reserved_words (word, keyword) → Ends alphabet.Word rest
        → is_sharp_first rest ≡ false → Piece word rest (Some (TokenKind.Keyword keyword)) }
{}

/// The text of a location of numbers of 32 bits is one token, and that location, where no more of a location follows.
pub fn location_spelled()
    ensures { (location : Location) (rest : List ℕ) → AreNumbers location.numbers → All (λ n. n < 2 ^ 32) location.numbers
        → Ends alphabet.Location rest → Piece (location_text location) rest (Some (TokenKind.Location location)) }
{}

/// A delimiter is one token where the next byte makes neither a longer one nor the start of a comment of it.
/// It can do so of `:`, `<`, `>` and `(` alone.
pub fn sign_spelled()
    ensures { (sign : Delimiter) (rest : List ℕ) → look_ahead sign (first_class rest) ≡ Alone
        → Piece (sign_text sign) rest (Some (TokenKind.Delimiter sign)) }
{}

/// The spelling of tokens and then the spelling of others is the spelling of them all.
pub fn spellings_join()
    ensures { (a b rest : List ℕ) (ts us : List TokenKind) → Spells a ts (b ++ rest) → Spells b us rest → Spells (a ++ b) (ts ++ us) rest }
{}

/// Spelled tokens are lexed as these tokens, and then what follows.
pub fn spelling_lexes()
    ensures { (text rest : List ℕ) (ts : List TokenKind) (r : Tokens) → Spells text ts rest → Lexes rest r
        → Lexes (text ++ rest) (behind ts r) }
{}

/// Spelled tokens with nothing behind them are lexed as these tokens.
pub fn spelling_lexed()
    ensures { (text : List ℕ) (ts : List TokenKind) → Spells text ts [] → Lexes text (Ok ts) }
{}

/// A whole text that spells tokens, and is not too long, has these tokens.
pub fn spelled_text()
    ensures { (text : List ℕ) (ts : List TokenKind) → length text ≤ longest → Spells text ts [] → TextLexes text (Ok ts) }
{}

/// No run of bytes goes on with white space.
pub fn space_ends()
    ensures { (a : Alphabet) (space : ℕ) (rest : List ℕ) → class_of space ≡ class.Space → Ends a (space ∷ rest) }
{}

/// A token and a byte of white space behind it spell that token.
pub fn spaced_token()
    ensures { (text rest : List ℕ) (space : ℕ) (token : TokenKind) → class_of space ≡ class.Space → Piece text (space ∷ rest) (Some token)
        → Spells (text ++ space ∷ []) (token ∷ []) rest }
{}

/// A name and a byte of white space behind it spell that name, whatever follows.
pub fn spaced_name()
    ensures { (word rest : List ℕ) (space : ℕ) → IsName word → class_of space ≡ class.Space
        → Spells (word ++ space ∷ []) (TokenKind.Name word ∷ []) rest }
{}

/// A reserved word in any case and a byte of white space behind it spell what the word stands for, whatever follows.
pub fn spaced_reserved()
    ensures { (word rest : List ℕ) (space : ℕ) (keyword : Keyword) → IsWord word → keyword_of word ≡ Some keyword
        → class_of space ≡ class.Space → Spells (word ++ space ∷ []) (TokenKind.Keyword keyword ∷ []) rest }
{}

/// Each reserved word as the table spells it and a byte of white space behind it spell what the table says, whatever follows.
pub fn spaced_reserved_word()
    ensures { (word rest : List ℕ) (space : ℕ) (keyword : Keyword) → Contains reserved_words (word, keyword)
        → class_of space ≡ class.Space → Spells (word ++ space ∷ []) (TokenKind.Keyword keyword ∷ []) rest }
{}

/// A delimiter and a byte of white space behind it spell that delimiter, whatever follows.
pub fn spaced_sign()
    ensures { (sign : Delimiter) (rest : List ℕ) (space : ℕ) → class_of space ≡ class.Space
        → Spells (sign_text sign ++ space ∷ []) (TokenKind.Delimiter sign ∷ []) rest }
{}

/// A token spells itself.
pub fn token_spells()
    ensures { (text rest : List ℕ) (token : TokenKind) → Piece text rest (Some token) → Spells text (token ∷ []) rest }
{}

/// No run of bytes goes on with a delimiter that is not in its alphabet. Only `.` is in any.
pub fn sign_ends()
    ensures { (a : Alphabet) (sign : Delimiter) (rest : List ℕ) → is_in a (class.Sign sign) ≡ false → Ends a (sign_text sign ++ rest) }
{}

/// No delimiter begins with `#`.
pub fn sign_not_sharp()
    ensures { (sign : Delimiter) (rest : List ℕ) → is_sharp_first (sign_text sign ++ rest) ≡ false }
{}

/// White space is no `#`.
pub fn space_not_sharp()
    ensures { (space : ℕ) (rest : List ℕ) → class_of space ≡ class.Space → is_sharp_first (space ∷ rest) ≡ false }
{}

/// Each token of a text can stand in one.
pub fn lexed_tokens()
    ensures { (text : List ℕ) (ts : List TokenKind) → TextLexes text (Ok ts) → All CanStand ts }
{}
