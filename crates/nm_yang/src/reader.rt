//! The text that is read, with the place and the column of what is left of it.

ghost use Rattle.std.specs.Prelude.{◌≡◌, ◌+◌, ◌*◌, ◌<◌, ◌≤◌, ◌^◌, length, drop};
ghost use Rattle.nm_yang.specs.Page.{next_column as next_column_of, column_from, place_of, at_end as at_end_of, bad as bad_at, front as front_of, column_of, Gives};

use crate::fault::{Fault, YangFault, YangKind};
use std::marker::Model;

/// The most bytes that a module's text may have: a limit of this project, far above the modules in use.
pub const LIMIT: usize = 262144;

/// A text, what cuts it off, and the last place whose column was asked for.
#[derive(Drop)]
pub struct Reader<'a> {
    text: &'a [u8],
    stop: Option<Fault>,
    strict: bool,
    marked: usize,
    column: u32,
}

impl<'a> Model for Reader<'a> {
    ghost use Rattle.std.specs.Prelude.{◌≡◌, ◌*◌, ◌≤◌, length, take};
    ghost use Rattle.nm_yang.specs.Page.{Page, column_from};

    ghost Value = { Page };

    ghost view = { λ r. record { text = r.text.now; stop = r.stop; strict = r.strict } };

    ghost invariant = { λ r. (length r.text.now ≤ 262144) × (r.marked ≤ length r.text.now)
        × (r.column ≡ column_from 0 (take r.marked r.text.now)) × (r.column ≤ 8 * r.marked) };
}

fn next_column(column: u32, byte: u8) -> u32
    requires { column + 8 < 2 ^ 32 }
    ensures value { result ≡ next_column_of column byte }
    ensures near { result ≤ column + 8 }
{
    if byte == b'\n' {
        0
    } else if byte == b'\t' {
        column + 8
    } else if 128 <= byte && byte < 192 {
        column
    } else {
        column + 1
    }
}

fn columns(start: u32, bytes: &[u8]) -> u32
    requires { start + 8 * length bytes.now < 2 ^ 32 }
    ensures value { result ≡ column_from start bytes.now }
    ensures near { result ≤ start + 8 * length bytes.now }
{
    let mut column = start;
    let mut rest = bytes;
    while let [byte, after @ ..] = rest {
        column = next_column(column, *byte);
        rest = after;
    }
    column
}

impl<'a> Reader<'a> {
    pub fn new(text: &'a [u8], stop: Option<Fault>, strict: bool) -> Reader<'a>
        requires { length text.now ≤ 262144 }
        ensures { result ≡ record { text = text.now; stop = stop; strict = strict } }
    {
        Reader {
            text,
            stop,
            strict,
            marked: 0,
            column: 0,
        }
    }

    pub fn text(&self) -> &'a [u8]
        ensures { result.now ≡ self.now.text }
    {
        self.text
    }

    pub fn is_strict(&self) -> bool
        ensures { result ≡ self.now.strict }
    {
        self.strict
    }

    /// What is wrong where the text is cut off.
    pub fn stop(&self) -> Option<Fault>
        ensures { result ≡ self.now.stop }
    {
        self.stop
    }

    /// How many bytes stand before the rest.
    pub fn place(&self, rest: &[u8]) -> u32
        ensures { result ≡ place_of self.now rest.now }
    {
        self.text.len().saturating_sub(rest.len()) as u32
    }

    /// A fault at the first byte of the rest.
    pub fn bad(&self, rest: &[u8], kind: YangKind) -> Fault
        ensures { result ≡ bad_at (place_of self.now rest.now) kind }
    {
        Fault {
            place: self.place(rest),
            kind,
        }
    }

    /// What is wrong where the text ends, which would be `fault` if nothing cut it off.
    pub fn at_end(&self, fault: Fault) -> Fault
        ensures { result ≡ at_end_of self.now fault }
    {
        self.stop.unwrap_or(fault)
    }

    /// The column of the first byte of the rest, from 0.
    pub fn column(&mut self, rest: &[u8]) -> u32
        ensures value { result ≡ column_of self.old rest.now }
        ensures small { result < 2 ^ 31 }
        ensures same { self.new ≡ self.old }
    {
        let place = self.text.len().saturating_sub(rest.len());
        let (from, start) = if self.marked <= place {
            (self.marked, self.column)
        } else {
            (0, 0)
        };
        let column = columns(start, &self.text[from..place]);
        self.marked = place;
        self.column = column;
        column
    }
}

/// The bytes before the rest.
pub fn front<'a>(bytes: &'a [u8], rest: &[u8]) -> &'a [u8]
    ensures { result.now ≡ front_of bytes.now rest.now }
{
    &bytes[..bytes.len().saturating_sub(rest.len())]
}

/// All bytes but the first.
pub fn tail(bytes: &[u8]) -> &[u8]
    ensures value { result.now ≡ drop 1 bytes.now }
    ensures shorter { length result.now ≤ length bytes.now }
{
    match bytes {
        [] => bytes,
        [_, rest @ ..] => rest,
    }
}

/// The error that a fault is.
pub fn refused(fault: Fault) -> YangFault
    ensures { result ≡ YangFault.Bad fault.place fault.kind }
{
    YangFault::Bad {
        place: fault.place,
        kind: fault.kind,
    }
}
