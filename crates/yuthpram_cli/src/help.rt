// What --help says, the usage, and complaints.
ghost use Rattle.std.specs.Prelude.{◌≡◌};

use crate::Status;
use crate::complaint::Complaint;
use std::alloc::Global;
use text::out::Out;

const USAGE: &str =
    "yuthpram: the transport parameter extension of QUIC. SIDE is client or server: the side that reads it
  yuthpram read SIDE [HEX]             show what an extension says to SIDE
  yuthpram tidy SIDE [HEX]             write it anew in its shortest form
  yuthpram report SIDE [HEX]           show where its bytes go, and which parameters waste most
  yuthpram check SIDE [HEX]            tell whether SIDE accepts it
  yuthpram check SIDE --record [FILE]  tell whether a record in text form is legal for SIDE to read
  yuthpram write [FILE]                write the extension of a record in text form
  yuthpram length [FILE]               tell how long it will be, in every order
  yuthpram order_fault [PLACE ..]      tell whether an order is a permutation of 0 to 21, and if not, its first fault
  yuthpram validate_resumption_from CACHED [FILE]
                                       tell whether a record may be resumed to from the remembered one in CACHED, and if not, what is reduced
  yuthpram authenticate_cids SIDE INITIAL_SRC ORIGINAL_DST RETRY_SRC [FILE]
                                       tell SIDE whether the peer with this record is the one that packets came from, and if not, which IDs differ
  yuthpram number HEX                  decode a number: its value, how many bytes it takes, and how many its shortest form saves
  yuthpram number --write DECIMAL      encode a number in its shortest form
";

const DETAILS: &str = "
HEX may have spaces and colons in it. Without HEX, FILE or PLACE, standard input is read; --raw in the place of HEX takes the bytes of standard
input as they are. An extension, and a record in text form, may have 65536 bytes. The entries of an order are decimal, at most 255 of
them, and positions count from 0.

A report counts the whole of a parameter that is skipped or restates a default, and of the others what shorter forms would save. Its bars are shares
of the extension, 40 columns for all of it and at least one for a part that is there. Of the parameters that waste bytes it names ten.

The connection IDs that packets carried are hexadecimal or (empty): the Source Connection ID of the peer's first Initial, the Destination
Connection ID of the client's first Initial, and the Source Connection ID of the Retry, or none without one.

The text form of a record is what read shows: lines of a name and a value. Numbers are decimal, IDs and tokens hexadecimal, and what stands
behind the value of a number is ignored. Versions are hexadecimal, with or without 0x: the chosen one, then at most 16 available ones; names
in parentheses are ignored. A flag has no value, or set. What has no line has its default, or is absent. Lines that read does not show:
  reserved ID HEX                      the reserved parameter: its identifier and its payload
  order 21 20 .. 0                     the places of the catalogue in the order of writing
  # ..                                 a comment

Answers go to standard output; refusals, complaints, what tidying saved and the length of a record that is shown or written to standard
error. Exit status: 0 answered, 1 refused, 2 not called as it should be, 3 the answer could not be written, 141 nobody reads it.\n";

/// Answers with the usage and its details.
pub fn say_help(out: &mut Out) -> Status
    ensures { result ≡ Status.Answered }
{
    out.say(USAGE);
    out.say(DETAILS);
    Status::Answered
}

// The words of the system's complaint, without its number.
fn words_of(text: &str) -> &str {
    match text.split_once(" (os error ") {
        Some((words, _)) => words,
        None => text,
    }
}

// What could not be read, and why.
fn note_unread(out: &mut Out, alloc: Global, what: &str, complaint: &Complaint<'_>) {
    match format!(in alloc; "{complaint}") {
        Ok(text) => {
            let words = words_of(text.as_str());
            out.note(format_args!("{what}: {words}\n"));
        }
        Err(_) => out.note(format_args!("{what}: no memory is left\n")),
    }
}

/// Says why a command has no answer; if its words are why, with the usage.
pub fn complain(out: &mut Out, alloc: Global, complaint: &Complaint<'_>) -> Status
    ensures { result ≡ Status.Misused }
{
    match complaint {
        Complaint::Unread(what, _) => note_unread(out, alloc, what, complaint),
        Complaint::NotUtf8(path) => {
            out.note_bytes(path);
            out.note(format_args!(": {complaint}\n"));
        }
        _ => out.note(format_args!("yuthpram: {complaint}\n")),
    }
    if complaint.is_of_usage() {
        out.note(USAGE);
    }
    Status::Misused
}
