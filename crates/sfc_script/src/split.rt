//! Lines and words of a script.

ghost use Rattle.std.specs.Prelude.{◌≡◌, ◌∷◌, ◌<◌, ◌-◌, [], length, take, MatchOption, IfSome, Some, None};
ghost use Rattle.sfc_script.specs.Arriving as arriving;
ghost use Rattle.sfc_script.specs.Arriving.{is_lf};
ghost use Rattle.sfc_script.specs.Lines as lines;
ghost use Rattle.sfc_script.specs.Lines.{split_before};
ghost use Rattle.sfc_script.specs.Private.Splitting as splitting;
ghost use Rattle.sfc_script.specs.Private.Splitting.{IsLine};

/// Whether the byte is a space or a tab, which part words.
pub fn is_blank(byte: u8) -> bool
    ensures { result ≡ lines.is_blank byte }
{
    byte == b' ' || byte == b'\t'
}

/// Whether the bytes begin with a space or a tab.
pub fn begins_with_blank(bytes: &[u8]) -> bool
    ensures { result ≡ splitting.begins_with_blank bytes.now }
{
    match bytes.first() {
        Some(byte) => is_blank(*byte),
        None => false,
    }
}

// The bytes before the first blank, and the rest.
#[tactic(auto, unfolding(crate::specs::Lines::split_before))]
fn split_word(bytes: &[u8]) -> (&[u8], &[u8])
    ensures { (result.0.now, result.1.now) ≡ split_before lines.is_blank bytes.now }
{
    let mut count = 0;
    'all: for byte in bytes {
        if is_blank(*byte) {
            break;
        }
        count += 1;
    }
    bytes.split_at(count)
}

/// The bytes before the first LF, and the rest.
#[tactic(auto, unfolding(crate::specs::Lines::split_before))]
pub fn split_line(bytes: &[u8]) -> (&[u8], &[u8])
    ensures { (result.0.now, result.1.now) ≡ split_before is_lf bytes.now }
{
    let mut count = 0;
    'all: for byte in bytes {
        if *byte == b'\n' {
            break;
        }
        count += 1;
    }
    bytes.split_at(count)
}

/// The line without a CR at its end.
pub fn without_cr(line: &[u8]) -> &[u8]
    ensures { result.now ≡ arriving.without_cr line.now }
{
    let Some((last, front)) = line.split_last() else {
        return line;
    };
    if *last == b'\r' { front } else { line }
}

/// The first line, and what stands behind its end; None where there are no bytes. Where more follows, the bytes before
/// it are that line in front of any others too.
pub fn next_line(bytes: &[u8]) -> Option<(&[u8], &[u8])>
    ensures first { MatchOption result (bytes.now ≡ [])
        (λ r. (lines.lines_of bytes.now ≡ r.0.now ∷ lines.lines_of r.1.now) × (length r.1.now < length bytes.now)) }
    ensures ended { IfSome result
        (λ r. 0 < length r.1.now → IsLine (take (length bytes.now - length r.1.now) bytes.now) r.0.now) }
{
    if bytes.is_empty() {
        return None;
    }
    let (line, behind) = split_line(bytes);
    match behind.split_first() {
        None => Some((line, behind)),
        Some((_, rest)) => Some((without_cr(line), rest)),
    }
}

/// The first word of a line, and what stands behind it; None where the line has no words.
pub fn first_word(line: &[u8]) -> Option<(&[u8], &[u8])>
    ensures { MatchOption result (lines.first_word line.now ≡ None)
        (λ w. lines.first_word line.now ≡ Some (w.0.now, w.1.now)) }
{
    let mut rest = line;
    'blanks: while let Some((byte, after)) = rest.split_first() {
        if !is_blank(*byte) {
            return Some(split_word(rest));
        }
        rest = after;
    }
    None
}

/// The word of a line that has just one; else None.
pub fn only_word(line: &[u8]) -> Option<&[u8]>
    ensures { MatchOption result (lines.only_word line.now ≡ None) (λ w. lines.only_word line.now ≡ Some w.now) }
{
    let (word, behind) = first_word(line)?;
    if first_word(behind).is_some() {
        return None;
    }
    Some(word)
}

/// The words of a line that has just two; else None.
pub fn two_words(line: &[u8]) -> Option<(&[u8], &[u8])>
    ensures { MatchOption result (lines.two_words line.now ≡ None)
        (λ w. lines.two_words line.now ≡ Some (w.0.now, w.1.now)) }
{
    let (first, behind) = first_word(line)?;
    let second = only_word(behind)?;
    Some((first, second))
}
