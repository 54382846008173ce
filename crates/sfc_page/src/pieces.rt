//! Bytes, put behind the first bytes of a slice in which they have room. Each call gives how many bytes stand then; what lies
//! behind them doesn't matter.

ghost use Rattle.std.specs.Prelude.{◌≡◌, ◌+◌, ◌<◌, ◌≤◌, ◌++◌, length, take};

// Puts bytes in the place of those behind the first `count`.
#[inline]
fn copy_all(bytes: &mut [u8], count: usize, text: &[u8])
    requires { count + length text.now ≤ length bytes.old }
    ensures { take (count + length text.now) bytes.new ≡ take count bytes.old ++ text.now }
{
    for (i, byte) in text.iter().enumerate() {
        bytes[count + i] = *byte;
    }
}

// The same of two bytes.
#[inline]
fn copy_two(bytes: &mut [u8], count: usize, text: &[u8])
    requires two { length text.now ≡ 2 }
    requires room { count + 2 ≤ length bytes.old }
    ensures { take (count + 2) bytes.new ≡ take count bytes.old ++ text.now }
{
    if let [a, b] = text {
        copy_all(bytes, count, &[*a, *b]);
    }
}

// The same of four bytes.
#[inline]
fn copy_four(bytes: &mut [u8], count: usize, text: &[u8])
    requires four { length text.now ≡ 4 }
    requires room { count + 4 ≤ length bytes.old }
    ensures { take (count + 4) bytes.new ≡ take count bytes.old ++ text.now }
{
    if let [a, b, c, d] = text {
        copy_all(bytes, count, &[*a, *b, *c, *d]);
    }
}

// The same of eight bytes.
#[inline]
fn copy_eight(bytes: &mut [u8], count: usize, text: &[u8])
    requires eight { length text.now ≡ 8 }
    requires room { count + 8 ≤ length bytes.old }
    ensures { take (count + 8) bytes.new ≡ take count bytes.old ++ text.now }
{
    if let [a, b, c, d, e, f, g, h] = text {
        copy_all(bytes, count, &[*a, *b, *c, *d, *e, *f, *g, *h]);
    }
}

// The same of less than four bytes: two and two that may be the same.
#[inline]
fn copy_below_four(bytes: &mut [u8], count: usize, text: &[u8])
    requires few { length text.now < 4 }
    requires room { count + length text.now ≤ length bytes.old }
    ensures { take (count + length text.now) bytes.new ≡ take count bytes.old ++ text.now }
{
    let length = text.len();
    if length >= 2 {
        copy_two(bytes, count, &text[..2]);
        copy_two(bytes, count + (length - 2), &text[length - 2..]);
    } else if let [a] = text {
        copy_all(bytes, count, &[*a]);
    }
}

// The same of four to eight bytes: four and four that may be the same.
#[inline]
fn copy_fours(bytes: &mut [u8], count: usize, text: &[u8])
    requires least { 4 ≤ length text.now }
    requires most { length text.now ≤ 8 }
    requires room { count + length text.now ≤ length bytes.old }
    ensures { take (count + length text.now) bytes.new ≡ take count bytes.old ++ text.now }
{
    let length = text.len();
    copy_four(bytes, count, &text[..4]);
    copy_four(bytes, count + (length - 4), &text[length - 4..]);
}

// The same of eight to sixteen bytes: eight and eight that may be the same.
#[inline]
fn copy_eights(bytes: &mut [u8], count: usize, text: &[u8])
    requires least { 8 ≤ length text.now }
    requires most { length text.now ≤ 16 }
    requires room { count + length text.now ≤ length bytes.old }
    ensures { take (count + length text.now) bytes.new ≡ take count bytes.old ++ text.now }
{
    let length = text.len();
    copy_eight(bytes, count, &text[..8]);
    copy_eight(bytes, count + (length - 8), &text[length - 8..]);
}

/// Puts bytes; fast where their number is a constant.
#[inline]
pub fn put_text(bytes: &mut [u8], count: usize, text: &[u8]) -> usize
    requires { count + length text.now ≤ length bytes.old }
    ensures count { result ≡ count + length text.now }
    ensures text { take result bytes.new ≡ take count bytes.old ++ text.now }
{
    copy_all(bytes, count, text);
    count + text.len()
}

/// Puts bytes; fast where there are few.
#[inline(always)]
pub fn put_name(bytes: &mut [u8], count: usize, name: &[u8]) -> usize
    requires { count + length name.now ≤ length bytes.old }
    ensures count { result ≡ count + length name.now }
    ensures text { take result bytes.new ≡ take count bytes.old ++ name.now }
{
    let length = name.len();
    if length < 4 {
        copy_below_four(bytes, count, name);
    } else if length <= 8 {
        copy_fours(bytes, count, name);
    } else if length <= 16 {
        copy_eights(bytes, count, name);
    } else {
        copy_all(bytes, count, name);
    }
    count + length
}
