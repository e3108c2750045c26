// Replays recorded answers, quinn's but where docs/SCOPE.md gives another: standard input holds
// the list that `oracle/run record` wrote, and oracle/src/list.rs says how an entry is laid out.
// Each call goes through the C interface's functions; compared are refusal, number, bytes stored
// and bytes left alone.
#![tactic(auto)]

ghost use Rattle.std.specs.Prelude.{◌<◌};

mod operation;

use operation::{OPERATIONS, Operation};
use std::io;
use std::io::{Read, Stdin};
use tally::Counts;
use words::bytes_at;

// The longest output of an entry.
const MOST: usize = 512;

// The longest entry behind its head. Buffers are as long as these and no Vec: the list's bounds are
// known, and nothing can run out of memory.
const LONGEST: usize = 2048;

// What stands in an output and in a number before a call. No Option: the C interface stores through
// references, and that it leaves them alone is what is tested.
const FILL: u8 = 0xa7;

const UNTOUCHED: u64 = 0xa7a7a7a7a7a7a7a7;

// The head of an entry: a call, what is due, and where each part of what follows ends.
#[derive(Clone, Copy)]
struct Head {
    // none if it is not one of these operations
    operation: Option<Operation>,
    code: u8,
    x: usize,
    y: usize,
    z: usize,
    w: usize,
    due: usize,
    room: usize,
    number: u64,
    number_due: u64,
}

// The number of eight or of two bytes from `at` on, high byte first; 0 where there are none.
fn eight(b: &[u8], at: usize) -> u64 {
    u64::from_be_bytes(bytes_at(b, at))
}

fn two(b: &[u8], at: usize) -> usize {
    usize::from(u16::from_be_bytes(bytes_at(b, at)))
}

fn head_of(b: &[u8; 32]) -> Head {
    Head {
        operation: OPERATIONS.get(usize::from(b[0])).copied(),
        code: b[1],
        x: two(b, 2),
        y: two(b, 4),
        z: two(b, 6),
        w: two(b, 8),
        due: two(b, 10),
        room: two(b, 12),
        number: eight(b, 16),
        number_due: eight(b, 24),
    }
}

// A part of a slice, or all of it where there is no such part.
fn part<'a>(b: &'a [u8], from: usize, to: usize) -> &'a [u8] {
    b.get(from..to).unwrap_or(b)
}

// What a call gave: the refusal or 0; a count, a limit or a size, 0 where none is due, and none
// where one is stored that is not; and what number_read and report store besides, none where
// nothing is.
#[derive(Clone, Copy)]
struct Called {
    code: u8,
    number: Option<u64>,
    values: Option<[u64; 5]>,
}

// A call that stores a number; a refused one stores none.
fn storing(code: u8, number: u64) -> Called {
    Called {
        code,
        number: stored(code == 0, number),
        values: None,
    }
}

// The number that is stored, if one is due; 0 if none is and none is stored.
fn stored(is_due: bool, number: u64) -> Option<u64> {
    if is_due {
        return Some(number);
    }
    (number == UNTOUCHED).then_some(0)
}

// A call that stores a count.
fn counting<F: FnOnce(&mut usize) -> u8>(call: F) -> Called
    requires { F.IsAlwaysCallable call }
{
    let mut count = UNTOUCHED as usize;
    let code = call(&mut count);
    storing(code, count as u64)
}

// A call that stores no number.
fn plain(code: u8) -> Called {
    Called {
        code,
        number: Some(0),
        values: None,
    }
}

// The value and the bytes saved; zeros stand in for the others.
fn number_read(x: &[u8]) -> Called {
    let mut value = UNTOUCHED;
    let mut saved = UNTOUCHED as usize;
    let c = counting(|count| yuthpram::yuthpram_number_read(x, &mut value, count, &mut saved));
    let saved = saved as u64;
    Called {
        code: c.code,
        number: c.number,
        values: (value != UNTOUCHED || saved != UNTOUCHED).then_some([value, saved, 0, 0, 0]),
    }
}

fn reported(side: u8, x: &[u8]) -> Called {
    let untouched = UNTOUCHED as usize;
    let mut counts = Counts {
        tidied: untouched,
        skipped: untouched,
        restated: untouched,
        saved: untouched,
        named: untouched,
    };
    let code = yuthpram::yuthpram_report(side, x, &mut counts);
    let values = [
        counts.tidied as u64,
        counts.skipped as u64,
        counts.restated as u64,
        counts.saved as u64,
        counts.named as u64,
    ];
    Called {
        code,
        number: Some(0),
        values: (values != [UNTOUCHED; 5]).then_some(values),
    }
}

// 6 comes with a position; 0 stores none.
fn order_fault(x: &[u8]) -> Called {
    let mut position = UNTOUCHED as usize;
    let code = yuthpram::yuthpram_order_fault(x, &mut position);
    Called {
        code,
        number: stored(code != 0, position as u64),
        values: None,
    }
}

fn tidy(side: u8, x: &[u8], out: &mut [u8]) -> Called {
    counting(|count| yuthpram::yuthpram_tidy(side, x, out, count))
}

fn tidy_twice(side: u8, x: &[u8], out: &mut [u8]) -> Called {
    let mut once = [0u8; MOST];
    let first = tidy(side, x, &mut once);
    match first.number {
        Some(n) if first.code == 0 => tidy(side, part(&once, 0, n as usize), out),
        _ => first,
    }
}

fn issue_limit(x: &[u8]) -> Called {
    let mut limit = UNTOUCHED;
    let code = yuthpram::yuthpram_issue_cids_limit(x, &mut limit);
    storing(code, limit)
}

// The settings are as many as eight bytes of `x` make; where they are more than there are, nothing
// is built.
fn new(x: &[u8], cid: &[u8], draw: u64, payload: &[u8], order: &[u8], out: &mut [u8]) -> u8 {
    let mut settings = [0u64; 12];
    for (k, setting) in settings.iter_mut().enumerate() {
        *setting = eight(x, 8 * k);
    }
    let Some(given) = settings.get(..x.len() / 8) else {
        return 0;
    };
    yuthpram::yuthpram_new(given, cid, draw, payload, order, out)
}

// What is handed to a call.
#[derive(Clone, Copy)]
struct Input<'a> {
    number: u64,
    x: &'a [u8],
    y: &'a [u8],
    z: &'a [u8],
    w: &'a [u8],
}

// The flag of a Retry stands above the side.
fn authenticate_cids(side: u8, i: Input<'_>) -> u8 {
    let retry_seen = (i.number >> 8 & 0xff) as u8;
    yuthpram::yuthpram_authenticate_cids(side, i.x, i.y, i.z, retry_seen, i.w)
}

fn call(operation: Operation, i: Input<'_>, out: &mut [u8]) -> Called {
    let side = (i.number & 0xff) as u8;
    match operation {
        Operation::NumberSize => counting(|n| yuthpram::yuthpram_number_size(i.number, n)),
        Operation::NumberRead => number_read(i.x),
        Operation::NumberWrite => counting(|n| yuthpram::yuthpram_number_write(i.number, out, n)),
        Operation::CidRead => counting(|n| yuthpram::yuthpram_cid_read(i.x, out, n)),
        Operation::CidWrite => counting(|n| yuthpram::yuthpram_cid_write(i.x, out, n)),
        Operation::Default => plain(yuthpram::yuthpram_default(out)),
        Operation::Read => plain(yuthpram::yuthpram_read(side, i.x, out)),
        Operation::Write => counting(|n| yuthpram::yuthpram_write(i.x, out, n)),
        Operation::New => plain(new(i.x, i.y, i.number, i.z, i.w, out)),
        Operation::Resumption => plain(yuthpram::yuthpram_validate_resumption_from(i.x, i.y)),
        Operation::IssueLimit => issue_limit(i.x),
        Operation::Check => plain(yuthpram::yuthpram_check(i.x, side)),
        Operation::Tidy => tidy(side, i.x, out),
        Operation::TidyTwice => tidy_twice(side, i.x, out),
        Operation::CheckOrder => plain(yuthpram::yuthpram_check_order(i.x)),
        Operation::Length => counting(|n| yuthpram::yuthpram_length(i.x, n)),
        Operation::OrderFault => order_fault(i.x),
        Operation::Authentication => plain(authenticate_cids(side, i)),
        Operation::Report => reported(side, i.x),
    }
}

// The call of an entry; 255 where there is not so much room.
fn answer_of(operation: Operation, h: Head, body: &[u8], out: &mut [u8]) -> Called {
    let Some(room) = out.get_mut(..h.room) else {
        return plain(255);
    };
    let input = Input {
        number: h.number,
        x: part(body, 0, h.x),
        y: part(body, h.x, h.y),
        z: part(body, h.y, h.z),
        w: part(body, h.z, h.w),
    };
    call(operation, input, room)
}

// Whether `out` holds the bytes due, and what stood there behind them: by slices, which are
// compared eight bytes and more at a time.
fn holds(out: &[u8; MOST], due: &[u8]) -> bool {
    let before = [FILL; MOST];
    let n = due.len();
    if MOST < n {
        return false;
    }
    &out[..n] == due && &out[n..] == &before[n..]
}

// Five numbers of eight bytes each; 0 where there are none.
fn eights(b: &[u8]) -> [u64; 5] {
    [
        eight(b, 0),
        eight(b, 8),
        eight(b, 16),
        eight(b, 24),
        eight(b, 32),
    ]
}

// What number_read and report store stands where other operations have the bytes due.
fn agrees(operation: Operation, h: Head, body: &[u8]) -> bool {
    let mut out = [FILL; MOST];
    let c = answer_of(operation, h, body, &mut out);
    let due = part(body, h.w, h.due);
    let numbers = c.code == h.code && c.number == Some(h.number_due);
    let has_values = operation == Operation::NumberRead || operation == Operation::Report;
    if has_values && h.code == 0 {
        return numbers && c.values == Some(eights(due)) && holds(&out, b"");
    }
    numbers && c.values.is_none() && holds(&out, due)
}

// How many entries of an operation there were, and how many of them differ.
#[derive(Clone, Copy)]
struct Tally {
    cases: u64,
    differences: u64,
}

impl Tally {
    fn count(&mut self, agrees: bool) {
        self.cases = self.cases.wrapping_add(1);
        if !agrees {
            self.differences = self.differences.wrapping_add(1);
        }
    }
}

// The next bytes of the list; none where it ends before, or where they are not one of `buf`'s
// parts.
fn next<'a>(list: &mut Stdin, buf: &'a mut [u8], n: usize) -> Option<&'a [u8]> {
    let bytes = buf.get_mut(..n)?;
    list.read_exact(bytes).ok()?;
    Some(bytes)
}

// One entry; none where the list ends, with it or within it, or the entry is too long. One of
// another operation is passed over.
fn entry(list: &mut Stdin, tallies: &mut [Tally; OPERATIONS.len()]) -> Option<()> {
    let mut head = [0u8; 32];
    next(list, &mut head, 32)?;
    let h = head_of(&head);
    let mut body = [0u8; LONGEST];
    let is_whole = next(list, &mut body, h.due).is_some();
    if let Some(operation) = h.operation {
        if let Some(tally) = tallies.get_mut(operation as usize) {
            tally.count(is_whole && agrees(operation, h, &body));
        }
    }
    is_whole.then_some(())
}

// Goes through the list. The count of turns is for the proof that it ends: no list is so long.
fn replay(list: &mut Stdin, tallies: &mut [Tally; OPERATIONS.len()]) {
    for _ in 0..u64::MAX {
        if entry(list, tallies).is_none() {
            return;
        }
    }
}

fn main(rt: HostRuntime) -> io::Result<()> {
    let mut tallies = [Tally {
        cases: 0,
        differences: 0,
    }; OPERATIONS.len()];
    let mut list = rt.stdin();
    replay(&mut list, &mut tallies);
    for (operation, tally) in OPERATIONS.iter().zip(tallies) {
        let all = tally.cases;
        let different = tally.differences;
        println!(rt; "{operation}: {all} cases, {different} differences")?;
    }
    Ok(())
}
