// Text: words, hexadecimal and decimal numbers; single bytes of a buffer; in `out` printing, and in
// `shown` what is printed of bytes and counts.
#![tactic(auto)]

ghost use Rattle.std.specs.Prelude.{◌≡◌, ◌+◌, ◌-◌, ◌*◌, ◌≤◌, ◌^◌, length, get_or, drop, leb, not, position, is_some};
ghost use Rattle.std.specs.Iterator.{YieldsFirstRef, item_count};
ghost use Rattle.std.proofs.lemmas.List.Edits.{sets};
ghost use Rattle.refusal.specs.Outcome.{pick};
ghost use Rattle.words.specs.Words.{bytes_of};
ghost use Rattle.text.specs.Text.{stored, is_gap, past_word, word_at, words_in, IsCharacter, decimal, number_stored, list_stored, digit_stored, hex_stored, hex_number, sixteen_stored};

pub mod out;
pub mod shown;

/// Why hexadecimal text holds no bytes, or too many.
#[derive(Clone, Copy, Debug, PartialEq, Eq)]
pub enum HexError {
    /// a character that is neither a digit nor a gap, by its place in the text
    Strange(usize),
    /// an odd number of digits
    Odd,
    /// more bytes than there is room for
    Long,
}

/// Byte `i` from `at` on; 0 if there is none.
pub fn byte(bytes: &[u8], at: usize, i: usize) -> u8
    ensures { result ≡ get_or bytes.now (at + i) 0 }
{
    let place = at.saturating_add(i);
    bytes.get(place).copied().unwrap_or(0)
}

/// Stores byte `i` from `at` on; tells whether there is room, which most callers leave. Here and
/// below a place beside its buffer need not lie within.
pub fn set(out: &mut [u8], at: usize, i: usize, b: u8) -> bool
    ensures { (result, out.new) ≡ stored (at + i) b out.old }
{
    let place = at.saturating_add(i);
    if out.len() <= place {
        return false;
    }
    out[place] = b;
    true
}

// What parts words: the end of a line alone, or any space and `sep`.
#[tactic(auto, unfolding(crate::specs::Text::is_gap))]
fn is_gap(b: u8, sep: u8) -> bool
    ensures { result ≡ is_gap sep b }
{
    if sep == b'\n' {
        return b == sep;
    }
    match b {
        b' ' | b'\t' | b'\n' | b'\r' => true,
        _ => b == sep,
    }
}

// Where the first word of the text begins; none if it has none.
fn find_word(text: &[u8], sep: u8) -> Option<usize>
    ensures { result ≡ position (λ b. not (is_gap sep b)) text.now }
{
    text.iter().position(|b| !is_gap(*b, sep))
}

// Where the first gap of the text is; none if it has none.
fn find_gap(text: &[u8], sep: u8) -> Option<usize>
    ensures { result ≡ position (λ b. is_gap sep b) text.now }
{
    text.iter().position(|b| is_gap(*b, sep))
}

// The first word of the text, and what stands behind it.
fn split_word<'a>(text: &'a [u8], sep: u8) -> (&'a [u8], &'a [u8])
    ensures word { result.0.now ≡ word_at sep 0 text.now }
    ensures rest { result.1.now ≡ past_word sep text.now }
{
    let start = find_word(text, sep).unwrap_or(text.len());
    let (_, rest) = text.split_at(start);
    let end = find_gap(rest, sep).unwrap_or(rest.len());
    rest.split_at(end)
}

/// The words of a text that are still to come.
#[derive(Drop)]
pub struct Words<'a> {
    rest: &'a [u8],
    sep: u8,
}

impl<'a> Iterator for Words<'a> {
    type Item = &'a [u8];

    ghost next_gives = { YieldsFirstRef (λ words. words_in words.sep words.rest.now) };

    ghost remaining = { item_count (λ words. words_in words.sep words.rest.now) };

    #[tactic(auto, using(crate::proofs::Splits::no_word, crate::proofs::Splits::one_word))]
    fn next(&mut self) -> Option<&'a [u8]> {
        let (word, rest) = split_word(self.rest, self.sep);
        if word.is_empty() {
            return None;
        }
        self.rest = rest;
        Some(word)
    }
}

/// The words of a text, one after another. With the end of a line for `sep` its lines, those that
/// are not empty.
pub fn words_of<'a>(text: &'a [u8], sep: u8) -> Words<'a>
    ensures { (result.rest.now ≡ text.now) × (result.sep ≡ sep) }
{
    Words { rest: text, sep }
}

/// Word `k` of the text, counted from 0; empty if there are fewer.
pub fn word<'a>(text: &'a [u8], k: usize, sep: u8) -> &'a [u8]
    ensures { result.now ≡ word_at sep k text.now }
{
    words_of(text, sep).nth(k).unwrap_or(&[])
}

// What a character of hexadecimal text is.
enum Character {
    Digit(u8),
    Gap,
    Other,
}

#[tactic(auto, using(crate::proofs::Decimals::characters))]
fn character_of(b: u8) -> Character
    ensures { IsCharacter b result }
{
    match b {
        b'0'..=b'9' => Character::Digit(b - b'0'),
        b'a'..=b'f' => Character::Digit(b - b'a' + 10),
        b'A'..=b'F' => Character::Digit(b - b'A' + 10),
        _ if is_gap(b, b':') => Character::Gap,
        _ => Character::Other,
    }
}

// Stores the digit behind the `digits` before it; tells whether there is room, as `set` does.
#[tactic(auto, unfolding(crate::specs::Text::digit_stored))]
fn put_digit(out: &mut [u8], at: usize, room: usize, digits: usize, d: u8) -> bool
    ensures { (result, out.new) ≡ digit_stored at room digits d out.old }
{
    let k = digits / 2;
    if room <= k {
        return false;
    }
    if digits % 2 == 0 {
        return set(out, at, k, d << 4);
    }
    let high = byte(out, at, k);
    set(out, at, k, high | d)
}

/// Puts the bytes that hexadecimal text holds into `out` from `at` on, at most `room` of them, and
/// tells how many. Gaps and colons are skipped. What stands before an error may be stored.
pub fn parse_hex(text: &[u8], out: &mut [u8], at: usize, room: usize) -> Result<usize, HexError>
    ensures { (result, out.new) ≡ hex_stored text.now at room out.old }
{
    let mut digits: usize = 0;
    for (i, b) in text.iter().enumerate() {
        match character_of(*b) {
            Character::Digit(d) => {
                if !put_digit(out, at, room, digits, d) {
                    return Err(HexError::Long);
                }
                digits += 1;
            }
            Character::Gap => {}
            Character::Other => return Err(HexError::Strange(i)),
        }
    }
    if digits % 2 == 1 {
        return Err(HexError::Odd);
    }
    Ok(digits / 2)
}

// The number and one more digit. Whatever is not below 2^62 then may grow further: no operation
// takes it.
fn appended(value: u64, digit: u8) -> u64
    ensures { result ≡ pick (leb (2 ^ 60) value) (2 ^ 64 - 1) (10 * value + digit) }
{
    if 1 << 60 <= value {
        return u64::MAX;
    }
    10 * value + u64::from(digit)
}

/// The number of decimal digits, without a sign or gaps; none if it is none. From 2^62 on, which no
/// operation takes, it may be a larger one.
#[tactic(auto, using(crate::proofs::Decimals::strange, crate::proofs::Decimals::empty))]
pub fn parse_decimal(text: &[u8]) -> Option<u64>
    ensures { result ≡ decimal text.now }
{
    if text.is_empty() {
        return None;
    }
    let mut value: u64 = 0;
    for b in text {
        let b'0'..=b'9' = *b else {
            return None;
        };
        value = appended(value, *b - b'0');
    }
    Some(value)
}

// The number that one to eight hexadecimal digits make; none if it is none.
#[tactic(auto, using(crate::proofs::HexNumbers::start))]
fn parse_hex_number(digits: &[u8]) -> Option<u32>
    ensures { result ≡ hex_number digits.now }
{
    if digits.is_empty() || 8 < digits.len() {
        return None;
    }
    let mut value: u32 = 0;
    for b in digits {
        match character_of(*b) {
            Character::Digit(d) => value = 16 * value + u32::from(d),
            Character::Gap | Character::Other => return None,
        }
    }
    Some(value)
}

// Stores a number in `n` bytes, high byte first; of more than eight the first are zeros.
fn put_low_bytes(out: &mut [u8], at: usize, n: usize, x: u64)
    ensures { out.new ≡ sets out.old at (bytes_of n x) }
{
    let mut rest = x;
    for k in 0..n {
        set(out, at, n - 1 - k, (rest & 0xff) as u8);
        rest /= 256;
    }
}

/// A decimal number of at most `most`, in `n` bytes; none if it is none.
pub fn put_number(digits: &[u8], most: u64, out: &mut [u8], at: usize, n: usize) -> Option<()>
    ensures { (is_some result, out.new) ≡ number_stored most at n out.old (decimal digits.now) }
{
    match parse_decimal(digits) {
        Some(x) if x <= most => {
            put_low_bytes(out, at, n, x);
            Some(())
        }
        _ => None,
    }
}

/// The number of one to eight hexadecimal digits, in four bytes; none if it is none.
pub fn put_hex_number(digits: &[u8], out: &mut [u8], at: usize) -> Option<()>
    ensures { (is_some result, out.new)
        ≡ number_stored (2 ^ 32 - 1) at 4 out.old (hex_number digits.now) }
{
    let x = parse_hex_number(digits)?;
    put_low_bytes(out, at, 4, u64::from(x));
    Some(())
}

/// The words `from` to `to`, decimal numbers below 256, a byte for each; none if they are not
/// there, or a word behind them is.
pub fn put_list(
    text: &[u8],
    from: usize,
    to: usize,
    sep: u8,
    out: &mut [u8],
    at: usize,
) -> Option<()>
    ensures { (is_some result, out.new) ≡ list_stored text.now from to sep at out.old }
{
    // By number, and no chain: it would end at a word that is missing, which here is an answer.
    let mut words = words_of(text, sep);
    for _i in 0..from.min(to) {
        words.next();
    }
    for k in from..to {
        let x = parse_decimal(words.next()?)?;
        set(out, at, k - from, u8::try_from(x).ok()?);
    }
    words.next().is_none().then_some(())
}

/// Exactly 16 bytes, in hexadecimal; none if they are not.
pub fn put_16(digits: &[u8], out: &mut [u8], at: usize) -> Option<()>
    ensures { (is_some result, out.new) ≡ sixteen_stored (hex_stored digits.now at 16 out.old) }
{
    match parse_hex(digits, out, at, 16) {
        Ok(16) => Some(()),
        _ => None,
    }
}
