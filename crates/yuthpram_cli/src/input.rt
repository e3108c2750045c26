// The words of the command line, and a command's input. They go into buffers that are lent, and
// need no heap.
ghost use Rattle.std.specs.Prelude.{◌≡◌, ◌⊎◌, ◌+◌, ◌<◌, ◌≤◌, length, nat_lt, false};
ghost use Rattle.std.specs.Prelude.{IfOk, IfErr, IsErrOf};
ghost use Rattle.yuthpram_cli.specs.Complaints.{is_of_usage};

use crate::complaint::Complaint;
use differing::SeenImages;
use image::{CID_SIZE, RECORD_SIZE};
use rules::Side;
use std::alloc::Global;
use std::env::{Env, FillError};
use std::fs;
use std::io::{ErrorKind, Read};
use text::{parse_decimal, parse_hex, words_of};

// The limits, in bytes, in characters of hexadecimal text, and in entries of an order.
const LIMIT: usize = 65536;

const TEXT_LIMIT: usize = 262144;

const ENTRY_LIMIT: usize = 255;

/// The room for an input, in bytes: one over the limit. What fills it is too long.
pub const ROOM: usize = LIMIT + 1;

const TEXT_ROOM: usize = TEXT_LIMIT + 1;

/// The room for an order, in entries: one over the limit, too.
pub const ENTRY_ROOM: usize = ENTRY_LIMIT + 1;

/// The longest name of a command, an option or a side that is looked at, in bytes.
pub const NAME_LIMIT: usize = 32;

/// The longest path, in bytes. One that is longer is taken as empty.
pub const PATH_LIMIT: usize = 4096;

// The longest decimal number.
const DIGIT_LIMIT: usize = 32;

// Of how many words there are: the system counts them by an int.
const COUNT_BITS: usize = 32;

/// The words of the command line, counted from 0, which is the program's name: the system, which
/// has them and what they name, and how many there are.
#[derive(Drop)]
pub struct Args<'r> {
    rt: &'r HostRuntime,
    count: usize,
}

impl<'r> Args<'r> {
    /// The words that the program was called with. No clause: how many the system has is in no
    /// definition.
    pub fn read(rt: &'r HostRuntime) -> Args<'r> {
        // By its bits, the highest first: there may be a hundred thousand words.
        let mut count: usize = 0;
        for k in (0..COUNT_BITS).rev() {
            let more = count | (1 << k);
            if has_words(rt, more) {
                count = more;
            }
        }
        Args { rt, count }
    }

    /// The allocator of the system.
    pub fn alloc(&self) -> Global {
        self.rt.alloc()
    }

    /// Whether there is a word `i`.
    pub fn is_given(&self, i: usize) -> bool
        ensures { result ≡ nat_lt i self.now.count }
    {
        i < self.count
    }

    /// Whether there are words behind word `i`.
    pub fn is_followed(&self, i: usize) -> bool
        ensures { result ≡ nat_lt (i + 1) self.now.count }
    {
        i.saturating_add(1) < self.count
    }

    // Word `i`, in a buffer; empty if there is none, or no room for it.
    fn word<'b>(&self, i: usize, buffer: &'b mut [u8]) -> &'b [u8]
        ensures there { self.now.count ≤ i → length result.now ≡ 0 }
        ensures short { length result.now ≤ length buffer.old }
    {
        if !self.is_given(i) {
            return &[];
        }
        match self.rt.arg(i, buffer) {
            Ok(n) => &buffer[..n],
            Err(_) => &[],
        }
    }

    /// Word `i`, as the name of a command, an option or a side; empty if it is longer than any.
    pub fn name<'b>(&self, i: usize, buffer: &'b mut [u8; NAME_LIMIT]) -> &'b [u8]
        ensures there { self.now.count ≤ i → length result.now ≡ 0 }
        ensures short { length result.now ≤ 32 }
    {
        self.word(i, buffer)
    }

    /// The number that word `i` is, in decimal digits; none if it is none, or there is none.
    #[tactic(auto, using(text::proofs::Decimals::empty))]
    pub fn number(&self, i: usize) -> Option<u64>
        ensures { self.now.count ≤ i → result ≡ None }
    {
        let mut buffer = [0u8; DIGIT_LIMIT];
        parse_decimal(self.word(i, &mut buffer))
    }

    /// The side that word 2 names, client or server; `NoSide` for another word, or none.
    pub fn side(&self) -> Result<Side, Complaint<'static>>
        ensures { IfErr result (λ e. e ≡ Complaint.NoSide) }
    {
        let mut buffer = [0u8; NAME_LIMIT];
        match self.name(2, &mut buffer) {
            b"client" => Ok(Side::Client),
            b"server" => Ok(Side::Server),
            _ => Err(Complaint::NoSide),
        }
    }

    // The words from word `start` on, a space after each; they leave a byte of the buffer free.
    fn text_from<'b>(
        &self,
        start: usize,
        buffer: &'b mut [u8],
    ) -> Result<&'b [u8], Complaint<'static>> {
        let mut n: usize = 0;
        for i in start..self.count {
            match self.rt.arg(i, &mut buffer[n..]) {
                Ok(m) => n += m,
                Err(_) => return Err(Complaint::TooLong),
            }
            if buffer.len() - n < 2 {
                return Err(Complaint::TooLong);
            }
            buffer[n] = b' ';
            n += 1;
        }
        Ok(&buffer[..n])
    }

    // What standard input holds; it leaves a byte of the buffer free.
    fn standard_input<'b>(&self, buffer: &'b mut [u8]) -> Result<&'b [u8], Complaint<'static>>
        ensures within { IfOk result (λ bytes. length bytes.now < length buffer.old) }
        ensures input { IfErr result (λ e. is_of_usage e ≡ false) }
    {
        read_all(self.rt.stdin(), buffer)
    }

    // What the file that word `i` names holds, or standard input if there is no such word.
    fn file_at<'a, 'b>(
        &self,
        i: usize,
        path: &'a mut [u8; PATH_LIMIT],
        buffer: &'b mut [u8; ROOM],
    ) -> Result<&'b [u8], Complaint<'a>>
        ensures within { IfOk result (λ bytes. length bytes.now ≤ 65536) }
        ensures input { IfErr result (λ e. is_of_usage e ≡ false) }
    {
        if self.is_given(i) {
            file(self.rt, self.word(i, path), buffer)
        } else {
            self.standard_input(buffer)
        }
    }

    /// The record whose text form the file has that word `i` names, or standard input if there is
    /// no such word; by its image. A complaint may be about the path, which is put into a buffer.
    pub fn record_at<'a>(
        &self,
        i: usize,
        path: &'a mut [u8; PATH_LIMIT],
    ) -> Result<[u8; RECORD_SIZE], Complaint<'a>>
        ensures { IfErr result (λ e. is_of_usage e ≡ false) }
    {
        let mut buffer = [0u8; ROOM];
        let text = self.file_at(i, path, &mut buffer)?;
        let record = form::image_of(text)?;
        Ok(record)
    }

    /// The same of the last word: a word behind it is too many, and nothing is read.
    pub fn last_record_at<'a>(
        &self,
        i: usize,
        path: &'a mut [u8; PATH_LIMIT],
    ) -> Result<[u8; RECORD_SIZE], Complaint<'a>>
        ensures more { i + 1 < self.now.count → IsErrOf result Complaint.Surplus }
        ensures last { self.now.count ≤ i + 1
            → IfErr result (λ e. is_of_usage e ≡ false) }
    {
        if self.is_followed(i) {
            return Err(Complaint::Surplus);
        }
        self.record_at(i, path)
    }

    /// The connection ID that word `i` is, which is put into a buffer; by its image.
    pub fn cid_at(
        &self,
        i: usize,
        buffer: &mut [u8; TEXT_LIMIT],
    ) -> Result<[u8; CID_SIZE], Complaint<'static>>
        ensures none { self.now.count ≤ i → IsErrOf result Complaint.NoIds }
        ensures one { i < self.now.count
            → IfErr result (λ e. (e ≡ Complaint.NoId) ⊎ (e ≡ Complaint.TooLong)) }
    {
        if !self.is_given(i) {
            return Err(Complaint::NoIds);
        }
        match self.rt.arg(i, buffer) {
            Ok(n) => form::cid_image_of(&buffer[..n]).map_err(|_| Complaint::NoId),
            Err(_) => Err(Complaint::TooLong),
        }
    }

    /// The IDs that words 3 to 5 say packets carried: hexadecimal, or (empty); the third none
    /// without a Retry. `NoIds`, `NoId` or `TooLong` of the first that is amiss.
    pub fn seen(&self) -> Result<SeenImages, Complaint<'static>>
        ensures { IfOk result (λ seen. 5 < self.now.count) }
    {
        let mut digits = [0u8; TEXT_LIMIT];
        let initial_src_cid = self.cid_at(3, &mut digits)?;
        let original_dst_cid = self.cid_at(4, &mut digits)?;
        let mut buffer = [0u8; NAME_LIMIT];
        let retry_src_cid = match self.name(5, &mut buffer) {
            b"none" => None,
            _ => Some(self.cid_at(5, &mut digits)?),
        };
        Ok(SeenImages {
            initial_src_cid,
            original_dst_cid,
            retry_src_cid,
        })
    }

    // The words from word `start` on, or what standard input holds if there are none.
    fn text_at<'b>(
        &self,
        start: usize,
        buffer: &'b mut [u8],
    ) -> Result<&'b [u8], Complaint<'static>> {
        if self.is_given(start) {
            self.text_from(start, buffer)
        } else {
            self.standard_input(buffer)
        }
    }

    /// Bytes, in hexadecimal by the words from word `start` on or in standard input, or by --raw as
    /// standard input has them; in a buffer.
    pub fn bytes_at<'b>(
        &self,
        start: usize,
        buffer: &'b mut [u8; ROOM],
    ) -> Result<&'b [u8], Complaint<'static>>
        ensures { IfOk result (λ bytes. length bytes.now ≤ 65536) }
    {
        let mut name = [0u8; NAME_LIMIT];
        if let b"--raw" = self.name(start, &mut name) {
            if self.is_followed(start) {
                return Err(Complaint::Surplus);
            }
            return self.standard_input(buffer);
        }
        let mut room = [0u8; TEXT_ROOM];
        let text = self.text_at(start, &mut room)?;
        let bytes = &mut buffer[..LIMIT];
        let n = parse_hex(text, bytes, 0, LIMIT)?;
        Ok(bytes.get(..n).unwrap_or(bytes))
    }

    /// The entries of an order that the words from word `start` on are, or standard input lists:
    /// decimal numbers below 256; in a buffer.
    pub fn entries_at<'b>(
        &self,
        start: usize,
        entries: &'b mut [u8; ENTRY_ROOM],
    ) -> Result<&'b [u8], Complaint<'static>>
        ensures { IfOk result (λ entries. length entries.now ≤ 255) }
    {
        let mut room = [0u8; ROOM];
        let text = self.text_at(start, &mut room)?;
        let mut words = words_of(text, b' ');
        for k in 0..ENTRY_ROOM {
            let Some(digits) = words.next() else {
                return Ok(&entries[..k]);
            };
            match parse_decimal(digits) {
                Some(x) if x < 256 => entries[k] = x as u8,
                _ => return Err(Complaint::NoEntry(k)),
            }
        }
        Err(Complaint::ManyEntries)
    }
}

// Whether the system has `n` words or more.
fn has_words(rt: &HostRuntime, n: usize) -> bool {
    let mut buffer = [0u8; 1];
    !matches!(
        rt.arg(n.saturating_sub(1), &mut buffer),
        Err(FillError::NotPresent)
    )
}

// All that can be read of a source; it leaves a byte of the buffer free.
fn read_all<'b, R: Read + Drop>(
    mut source: R,
    buffer: &'b mut [u8],
) -> Result<&'b [u8], Complaint<'static>>
    ensures within { IfOk result (λ bytes. length bytes.now < length buffer.old) }
    ensures input { IfErr result (λ e. is_of_usage e ≡ false) }
{
    let mut n: usize = 0;
    for _ in 0..u64::MAX {
        if buffer.len() <= n {
            break;
        }
        match source.read(&mut buffer[n..]) {
            Ok(0) => return Ok(&buffer[..n]),
            Ok(m) => n += m,
            Err(e) if e.kind() == ErrorKind::Interrupted => {}
            Err(e) => return Err(Complaint::Unread("yuthpram: the input", e)),
        }
    }
    Err(Complaint::TooLong)
}

// What a file holds.
fn file<'a, 'b>(
    rt: &HostRuntime,
    path: &'a [u8],
    buffer: &'b mut [u8; ROOM],
) -> Result<&'b [u8], Complaint<'a>>
    ensures within { IfOk result (λ bytes. length bytes.now ≤ 65536) }
    ensures input { IfErr result (λ e. is_of_usage e ≡ false) }
{
    let Ok(name) = std::str::from_utf8(path) else {
        return Err(Complaint::NotUtf8(path));
    };
    match fs::open(rt, name) {
        Ok(source) => read_all(source, buffer),
        Err(e) => Err(Complaint::Unread(name, e)),
    }
}
