// Shows where the bytes of an extension go: a bar for each part of a report, and the parameters
// that waste most.
#![tactic(auto)]

ghost use Rattle.std.specs.Prelude.{◌≡◌, ◌≤◌, length};
ghost use Rattle.text.specs.declared.out.Stream.{Stream};
ghost use Rattle.text.specs.Printing.{Becomes};
ghost use Rattle.picture.specs.Picture.{share_of, columns_of, part_of, parts_of};

use catalogue::NAMES;
use std::alloc::Global;
use std::fmt;
use std::fmt::Display;
use tally::Counts;
use text::out::Out;
use wasting::{Wasted, Waster};

// How many columns the bar of the whole has.
const COLUMNS: usize = 40;

// How many of the parameters that waste most are shown.
const SHOWN: usize = 10;

/// A part of the picture: its bytes, its share in percent, and how many columns its bar has.
#[derive(Clone, Copy)]
pub struct Part {
    pub bytes: usize,
    pub percent: usize,
    pub columns: usize,
}

// A bar of so many columns, up to that of the whole.
#[derive(Clone, Copy)]
struct Bar(usize);

impl Display for Bar {
    fn fmt<W: fmt::Write>(&self, f: &mut fmt::Formatter<W>) -> fmt::Result {
        for column in 0..COLUMNS {
            let mark = if column < self.0 { "#" } else { "." };
            write!(f, "{mark}")?;
        }
        Ok(())
    }
}

// The name of an identifier, or its digits if it is unknown.
#[derive(Clone, Copy)]
struct Name(u64);

impl Display for Name {
    fn fmt<W: fmt::Write>(&self, f: &mut fmt::Formatter<W>) -> fmt::Result {
        let id = self.0;
        match NAMES.get(catalogue::place_of(id)) {
            Some(name) => write!(f, "{name}"),
            None => write!(f, "0x{id:02x}"),
        }
    }
}

// The share of a part, of `n` for the whole.
#[tactic(auto, using(crate::proofs::Shares::room, crate::proofs::Shares::at_most, crate::proofs::Shares::of_nothing))]
fn share(n: usize, part: usize, whole: usize) -> usize
    requires { n ≤ 100 }
    ensures share { result ≡ share_of n part whole }
    ensures most { result ≤ n }
{
    if whole == 0 {
        return 0;
    }
    let all = whole as u128;
    let part = part.min(whole) as u128;
    ((n as u128 * part + all / 2) / all) as usize
}

/// How many columns the bar of a part of a whole, both in bytes, has.
pub fn columns(part: usize, whole: usize) -> usize
    ensures columns { result ≡ columns_of part whole }
    ensures most { result ≤ 40 }
{
    share(COLUMNS, part, whole).max(part.min(1))
}

fn part_of(whole: usize, part: usize) -> Part
    ensures { result ≡ part_of whole part }
{
    Part {
        bytes: part,
        percent: share(100, part, whole),
        columns: columns(part, whole),
    }
}

/// The parts of an extension, by the counts of its report: what is tidied, skipped, restated and
/// saved.
pub fn parts_of(src: &[u8], counts: Counts) -> [Part; 4]
    ensures { result ≡ parts_of (length src.now) counts }
{
    let whole = src.len();
    [
        part_of(whole, counts.tidied),
        part_of(whole, counts.skipped),
        part_of(whole, counts.restated),
        part_of(whole, counts.saved),
    ]
}

fn unit_of(bytes: usize) -> &'static str {
    if bytes == 1 { "byte" } else { "bytes" }
}

fn say_part(out: &mut Out, label: &str, part: Part)
    ensures { Becomes Stream.Output out.old.fate out.new.fate }
{
    let Part {
        bytes,
        percent,
        columns,
    } = part;
    let unit = unit_of(bytes);
    let bar = Bar(columns);
    out.say(format_args!("{label:<24}{bytes:>6} {unit:<5}{percent:>5}%  {bar}\n"));
}

// The parts, a bar for each; and all together.
#[tactic(auto, using(text::proofs::Printing::becomes_then))]
fn show_parts(out: &mut Out, src: &[u8], counts: Counts)
    ensures { Becomes Stream.Output out.old.fate out.new.fate }
{
    let [tidied, skipped, restated, saved] = parts_of(src, counts);
    say_part(out, "tidied", tidied);
    say_part(out, "skipped, unknown", skipped);
    say_part(out, "restated defaults", restated);
    say_part(out, "saved by shorter forms", saved);
    let label = "in all";
    let bytes = src.len();
    let unit = unit_of(bytes);
    let named = counts.named;
    out.say(format_args!("{label:<24}{bytes:>6} {unit}, known parameters named: {named}\n"));
}

fn say_waster(out: &mut Out, waster: Waster)
    ensures { Becomes Stream.Output out.old.fate out.new.fate }
{
    let Waster { id, len, wasted } = waster;
    let Wasted { bytes, reason } = wasted;
    let name = Name(id);
    out.say(format_args!("{bytes:>6} of {len:>5} bytes  {name}: {reason}\n"));
}

// The parameters that waste most, and how many more waste something.
#[tactic(auto, using(text::proofs::Printing::unchanged, text::proofs::Printing::becomes_then))]
fn show_wasters(out: &mut Out, wasters: &[Waster])
    ensures { Becomes Stream.Output out.old.fate out.new.fate }
{
    let all = wasters.len();
    if wasters.is_empty() {
        out.say("nothing is wasted\n");
        return;
    }
    out.say(format_args!("parameters that waste bytes: {all}, most first\n"));
    for waster in wasters.iter().take(SHOWN) {
        say_waster(out, *waster);
    }
    let more = wasters.len().saturating_sub(SHOWN);
    if 0 < more {
        out.say(format_args!("and {more} more\n"));
    }
}

/// Shows the picture of a report on an extension: its parts, and the ten parameters that waste
/// most.
#[tactic(auto, using(text::proofs::Printing::becomes_then, crate::proofs::Printing::becomes_output))]
pub fn show(out: &mut Out, alloc: Global, src: &[u8], counts: Counts)
    ensures { Becomes Stream.Output out.old.fate out.new.fate }
{
    show_parts(out, src, counts);
    match wasting::wasters(alloc, src) {
        Ok(found) => show_wasters(out, found.as_slice()),
        Err(_) => out.note("yuthpram: no memory is left for what wastes most\n"),
    }
}
