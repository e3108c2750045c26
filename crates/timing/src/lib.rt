// The operations as another crate of Rattle calls them, exported for the benchmark (bench/): a
// record stays a record, where the C interface makes its image. An answer is a count, or `REFUSED`
// and the number of the refusal.
#![tactic(auto)]

ghost use Rattle.std.specs.Prelude.{◌≡◌, get_or};
ghost use Rattle.refusal.specs.Answer.{outcome_of, value_or};
ghost use Rattle.record.specs.Record.{default_record};
ghost use Rattle.reader.specs.Reading.{read};
ghost use Rattle.writer.specs.Writing.{write};
ghost use Rattle.tidy.specs.Tidying.{tidy};
ghost use Rattle.image.specs.Image.{record_from};
ghost use Rattle.timing.specs.Timing.{code, code_of, last_of, counted, again, repeat, reads_of, written_from};

use record::TransportParameters;
use refusal::Refusal;
use rules::Side;

// No count is as large. The benchmark calls from C, which takes one number for either.
const REFUSED: usize = 1 << 32;

// A count, or what refuses.
fn code_of(answer: Result<usize, Refusal>) -> usize
    ensures { result ≡ code_of (outcome_of answer) }
{
    answer.unwrap_or_else(|refusal| REFUSED + usize::from(refusal.number()))
}

// Reading has more than one caller here, and writing is marked, so that the compiler keeps each a
// function of its own. Inlined, reading would leave out what its caller does not look at, and
// writing could test the record once for all calls of a loop.

// 0, or the number of the refusal.
fn read_once(src: &[u8]) -> u8
    ensures { result ≡ code (read Side.Client src.now) }
{
    reader::read(Side::Client, src)
        .err()
        .map_or(0, |refusal| refusal.number())
}

/// Reads so many times, and gives what the last gave. A loop of its own, and not the next one's
/// with one extension: what that does to find the next is no part of what is measured.
#[unsafe(no_mangle)]
#[tactic(auto, unfolding(crate::specs::Timing::last_of))]
pub extern "C" fn timing_read(src: &[u8], times: usize) -> u8
    ensures { result ≡ last_of times (code (read Side.Client src.now)) }
{
    let mut last = 0;
    for _ in 0..times {
        last = read_once(src);
    }
    last
}

/// The same for extensions of one size that stand one after another, from the first again after the
/// last. 0 where there is not one: C takes a number. By position: they may be of no bytes, and
/// `chunks_exact` has no such pieces.
#[unsafe(no_mangle)]
#[tactic(auto, unfolding(crate::specs::Timing::read_next, crate::specs::Timing::reads_of))]
pub extern "C" fn timing_reads(src: &[u8], size: usize, times: usize) -> u8
    ensures { result ≡ reads_of times size src.now }
{
    if src.len() < size {
        return 0;
    }
    let mut last = 0;
    let mut at = 0;
    for _ in 0..times {
        if src.len() - at < size {
            at = 0;
        }
        last = read_once(&src[at..at + size]);
        at += size;
    }
    last
}

// The record read; of a refused extension, the default record.
fn record_read(src: &[u8]) -> TransportParameters
    ensures { result ≡ value_or default_record (read Side.Client src.now) }
{
    reader::read(Side::Client, src).unwrap_or_default()
}

/// The number at a place of it, 0 from place 11 on.
#[unsafe(no_mangle)]
pub extern "C" fn timing_number(src: &[u8], place: usize) -> u64
    ensures { result
        ≡ get_or (value_or default_record (read Side.Client src.now)).numbers place 0 }
{
    let numbers = record_read(src).numbers;
    numbers.get(place).copied().unwrap_or(0)
}

#[inline(never)]
fn write_once(r: &TransportParameters, out: &mut [u8]) -> usize
    ensures { (result, out.new) ≡ counted (write r.now out.old) }
{
    code_of(writer::write(r, out))
}

#[tactic(auto, unfolding(crate::specs::Timing::again))]
fn write_times(r: &TransportParameters, times: usize, out: &mut [u8]) -> usize
    ensures { (result, out.new) ≡ repeat times (again r.now) (0, out.old) }
{
    let mut answer = 0;
    for _ in 0..times {
        answer = write_once(r, out);
    }
    answer
}

/// Writes the record of an image so many times, and gives the answer of the last.
#[unsafe(no_mangle)]
pub extern "C" fn timing_write(record: &[u8], times: usize, out: &mut [u8]) -> usize
    ensures { (result, out.new) ≡ written_from (record_from «record».now) times out.old }
{
    match imaged::record_from(record) {
        Ok(r) => write_times(&r, times, out),
        Err(refusal) => code_of(Err(refusal)),
    }
}

/// The same once. A function of its own, since its name is exported.
#[unsafe(no_mangle)]
pub extern "C" fn timing_written(record: &[u8], out: &mut [u8]) -> usize
    ensures { (result, out.new) ≡ written_from (record_from «record».now) 1 out.old }
{
    timing_write(record, 1, out)
}

/// Tidies once, as a client.
#[unsafe(no_mangle)]
pub extern "C" fn timing_tidy(src: &[u8], out: &mut [u8]) -> usize
    ensures { (result, out.new) ≡ counted (tidy Side.Client src.now out.old) }
{
    code_of(tidy::tidy(Side::Client, src, out))
}
