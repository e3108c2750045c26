// The command-line tool: a thin program over the library. It reads text, prints answers and decides
// nothing about extensions.
#![tactic(auto)]

ghost use Rattle.std.specs.Prelude.{◌≡◌};
ghost use Rattle.yuthpram_cli.specs.Statuses.{exit_status};

mod answers;
mod complaint;
mod help;
mod input;

use complaint::Complaint;
use input::{Args, ENTRY_ROOM, NAME_LIMIT, PATH_LIMIT, ROOM};
use std::process::ExitCode;
use text::out::{Fate, Out};

/// How a command ends.
#[derive(Clone, Copy)]
pub enum Status {
    /// the library has an answer, or help was asked for
    Answered,
    /// the library declines
    Refused,
    /// not called as it should be, or without an input that can be read
    Misused,
}

fn read(out: &mut Out, args: &Args<'_>) -> Result<Status, Complaint<'static>> {
    let side = args.side()?;
    let mut buffer = [0u8; ROOM];
    let src = args.bytes_at(3, &mut buffer)?;
    Ok(answers::read(out, side, src))
}

fn tidy(out: &mut Out, args: &Args<'_>) -> Result<Status, Complaint<'static>> {
    let side = args.side()?;
    let mut buffer = [0u8; ROOM];
    let src = args.bytes_at(3, &mut buffer)?;
    Ok(answers::tidy(out, side, src))
}

fn report(out: &mut Out, args: &Args<'_>) -> Result<Status, Complaint<'static>> {
    let side = args.side()?;
    let mut buffer = [0u8; ROOM];
    let src = args.bytes_at(3, &mut buffer)?;
    Ok(answers::report(out, args.alloc(), side, src))
}

fn check<'a>(
    out: &mut Out,
    args: &Args<'_>,
    path: &'a mut [u8; PATH_LIMIT],
) -> Result<Status, Complaint<'a>> {
    let side = args.side()?;
    let mut name = [0u8; NAME_LIMIT];
    if let b"--record" = args.name(3, &mut name) {
        let record = args.last_record_at(4, path)?;
        return Ok(answers::check_record(out, side, &record));
    }
    let mut buffer = [0u8; ROOM];
    let src = args.bytes_at(3, &mut buffer)?;
    Ok(answers::check(out, side, src))
}

fn order_fault(out: &mut Out, args: &Args<'_>) -> Result<Status, Complaint<'static>> {
    let mut buffer = [0u8; ENTRY_ROOM];
    let order = args.entries_at(2, &mut buffer)?;
    Ok(answers::order_fault(out, order))
}

fn validate_resumption_from<'a>(
    out: &mut Out,
    args: &Args<'_>,
    path: &'a mut [u8; PATH_LIMIT],
) -> Result<Status, Complaint<'a>> {
    if !args.is_given(2) {
        return Err(Complaint::NoRemembered);
    }
    if args.is_followed(3) {
        return Err(Complaint::Surplus);
    }
    let cached = match args.record_at(2, path) {
        Ok(cached) => cached,
        Err(complaint) => {
            let status = help::complain(out, args.alloc(), &complaint);
            out.note("yuthpram: that was the remembered record\n");
            return Ok(status);
        }
    };
    let record = args.record_at(3, path)?;
    Ok(answers::validate_resumption_from(out, &record, &cached))
}

fn authenticate_cids<'a>(
    out: &mut Out,
    args: &Args<'_>,
    path: &'a mut [u8; PATH_LIMIT],
) -> Result<Status, Complaint<'a>> {
    let side = args.side()?;
    let seen = args.seen()?;
    let record = args.last_record_at(6, path)?;
    Ok(answers::authenticate_cids(out, side, &record, &seen))
}

fn encode(out: &mut Out, args: &Args<'_>) -> Result<Status, Complaint<'static>> {
    if args.is_followed(3) {
        return Err(Complaint::Surplus);
    }
    let Some(x) = args.number(3) else {
        return Err(Complaint::NotDecimal);
    };
    Ok(answers::encode(out, x))
}

fn decode(out: &mut Out, args: &Args<'_>) -> Result<Status, Complaint<'static>> {
    let mut buffer = [0u8; ROOM];
    let src = args.bytes_at(2, &mut buffer)?;
    Ok(answers::decode(out, src))
}

fn number(out: &mut Out, args: &Args<'_>) -> Result<Status, Complaint<'static>> {
    let mut name = [0u8; NAME_LIMIT];
    match args.name(2, &mut name) {
        b"--write" => encode(out, args),
        _ => decode(out, args),
    }
}

// The command that word 1 names. A path goes into a buffer, which a complaint may speak of.
fn run<'a>(
    out: &mut Out,
    args: &Args<'_>,
    path: &'a mut [u8; PATH_LIMIT],
) -> Result<Status, Complaint<'a>> {
    if !args.is_given(1) {
        return Ok(help::say_help(out));
    }
    let mut name = [0u8; NAME_LIMIT];
    let status = match args.name(1, &mut name) {
        b"read" => read(out, args)?,
        b"tidy" => tidy(out, args)?,
        b"report" => report(out, args)?,
        b"check" => check(out, args, path)?,
        b"write" => answers::write(out, &args.last_record_at(2, path)?),
        b"length" => answers::length(out, &args.last_record_at(2, path)?),
        b"order_fault" => order_fault(out, args)?,
        b"validate_resumption_from" => validate_resumption_from(out, args, path)?,
        b"authenticate_cids" => authenticate_cids(out, args, path)?,
        b"number" => number(out, args)?,
        b"--help" | b"-h" => help::say_help(out),
        _ => return Err(Complaint::NoCommand),
    };
    Ok(status)
}

// Runs the command, and complains if it has no answer.
fn answer(rt: &HostRuntime, out: &mut Out) -> Status {
    let mut path = [0u8; PATH_LIMIT];
    let args = Args::read(rt);
    match run(out, &args, &mut path) {
        Ok(status) => status,
        Err(complaint) => help::complain(out, rt.alloc(), &complaint),
    }
}

// What a shell says of a program that was ended since nobody read on.
const UNREAD: u8 = 141;

// The exit status, once all is written.
fn code_of(status: Status, fate: Fate) -> u8
    ensures { result ≡ exit_status fate status }
{
    match (fate, status) {
        (Fate::Unread, _) => UNREAD,
        (Fate::Cut, _) => 3,
        (Fate::Written, Status::Answered) => 0,
        (Fate::Written, Status::Refused) => 1,
        (Fate::Written, Status::Misused) => 2,
    }
}

fn main(rt: HostRuntime) -> ExitCode {
    let mut out = Out::new(&rt);
    let status = answer(&rt, &mut out);
    ExitCode::from(code_of(status, out.fate()))
}
