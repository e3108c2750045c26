// Small functions that several crates use: bytes of a slice as an array, and tests for zeros.
#![tactic(auto)]

ghost use Rattle.std.specs.Prelude.{◌≡◌, ◌+◌, ◌*◌, ◌/◌, ◌^◌, ◌≤◌, eqb, leb, length, take, drop, replicate};
ghost use Rattle.refusal.specs.Outcome.{pick};
ghost use Rattle.words.specs.Words.{zeros, Word};
ghost use Rattle.words.specs.WordLaws.{WordLaws};

/// The bytes of a slice from place `at` on, as an array; zeros where there are fewer. The compiler
/// makes one load of them.
pub fn bytes_at<const N: usize>(s: &[u8], at: usize) -> [u8; N]
    ensures { result ≡ pick (leb (at + N) (length s.now)) (take N (drop at s.now)) (replicate N 0) }
{
    let mut bytes = [0u8; N];
    if at <= s.len() && N <= s.len() - at {
        bytes.copy_from_slice(&s[at..at + N]);
    }
    bytes
}

// Eight bytes as a number, low byte first.
fn word_at(s: &[u8], at: usize) -> u64
    requires { at + 8 ≤ length s.now }
    ensures { Word (take 8 (drop at s.now)) result }
{
    u64::from_le_bytes(bytes_at(s, at))
}

// Whether 24 bytes, eight to a word, are zero from byte `n` on.
#[tactic(auto, using(crate::proofs::Laws::in_first, crate::proofs::Laws::in_second, crate::proofs::Laws::in_third, crate::proofs::Laws::in_none))]
fn words_zero_from(u: u64, v: u64, w: u64, n: usize) -> bool
    ensures { result ≡ eqb ((u + 2 ^ 64 * (v + 2 ^ 64 * w)) / 2 ^ (8 * n)) 0 }
{
    if n < 8 {
        return (u >> (8 * n)) | (v | w) == 0;
    }
    if n < 16 {
        return (v >> (8 * (n - 8))) | w == 0;
    }
    if n < 24 {
        return w >> (8 * (n - 16)) == 0;
    }
    true
}

// Whether the bytes of an array of at most 24 are zero from byte `n` on, eight at a time.
fn few_zero_from<const N: usize>(b: &[u8; N], n: usize) -> bool
    requires { N ≤ 24 }
    ensures { result ≡ zeros (drop n b.now) }
{
    let mut all = [0u8; 24];
    let bytes = &b[..];
    all[..N].copy_from_slice(bytes);
    let u = word_at(&all, 0);
    let v = word_at(&all, 8);
    let w = word_at(&all, 16);
    words_zero_from(u, v, w, n)
}

/// Whether the bytes of an array are zero from byte `n` on.
pub fn zero_from<const N: usize>(b: &[u8; N], n: usize) -> bool
    ensures { result ≡ zeros (drop n b.now) }
{
    if N <= 24 {
        return few_zero_from(b, n);
    }
    let bytes = &b[..];
    all_zero(&bytes[n.min(N)..])
}

/// Whether all bytes are zero.
#[tactic(auto, using(crate::proofs::Laws::zeros_drop, crate::proofs::Laws::zeros_end))]
pub fn all_zero(v: &[u8]) -> bool
    ensures { result ≡ zeros v.now }
{
    let mut met = 0u8;
    for &b in v {
        met |= b;
    }
    met == 0
}

/// Numbers of any width, one after another: they are read back from their bytes, bytes have those
/// of the numbers that they are read as, and zeros behind whole numbers change nothing.
#[tactic(auto, using(crate::proofs::WordLaws::word_laws))]
pub fn word_laws()
    ensures { WordLaws }
{}
