//! The parts of a session: each is what was written up to a semicolon, and is run by itself; or the
//! line of a command.

ghost use Rattle.std.specs.Prelude.{◌≡◌, ◌≢◌, ◌==◌, ◌&&◌, ◌||◌, ◌<◌, ◌≤◌, ◌⊎◌, ◌++◌, ◌∷◌, ℕ, []};
ghost use Rattle.std.specs.Prelude.{All, Bool, IfErr, IfOk, IfSome, List, Option, None, OnOk};
ghost use Rattle.std.specs.Prelude.{length, true};
ghost use Rattle.std.specs.Io.KnownBytes.{Consumes, IsAtEnd, Keeps};
ghost use Rattle.sql_statements.specs.Lexis as lexis;
ghost use Rattle.command_line.specs.declared.fault.RunFault.TheVariants.{Memory, Unfinished};
ghost use Rattle.script_engine.specs.script.Script.{most_bytes};
ghost use Rattle.bitemporal_file.specs.declared.parts.Place.TheVariants.{AfterDash};
ghost use Rattle.bitemporal_file.specs.Parts.{EndsAtSemicolon, HasNoCommand, HasNoToken};
ghost use Rattle.bitemporal_file.specs.Parts.{IsBegun, IsKeptOf, IsPart, IsPartOf};
ghost use Rattle.bitemporal_file.specs.Parts.{IsRestOfLine, IsUnfinished, IsUnread, dot};
ghost use Rattle.bitemporal_file.specs.Parts.{is_blank_at, is_command, outside_after, place_after};

use command_line::{RunFault, Tracked};
use script_engine::MOST_BYTES;
use sql_statements::scan::{byte_order_mark_size, is_blank};
use std::alloc::Global;
use std::io::{ErrorKind, Read};

// The number of reads of one byte that are tried, all but the last interrupted.
const MOST_READS: usize = 1001;

/// The place in a script after some of its bytes.
#[derive(Clone, Copy, PartialEq)]
pub(crate) enum Place {
    /// Outside of texts and comments.
    Outside,
    /// Outside of them, after one dash: a second one begins a comment.
    AfterDash,
    /// In a comment, which ends with its line.
    InComment,
    /// In a text.
    InText,
    /// After the first semicolon outside of texts and comments.
    Ended,
}

impl Place {
    // The place after this byte.
    fn after(self, byte: u8) -> Place
        ensures { result ≡ place_after self byte }
    {
        match self {
            Place::Outside => after_outside(Place::AfterDash, byte),
            Place::AfterDash => after_outside(Place::InComment, byte),
            Place::InComment if byte == b'\n' => Place::Outside,
            Place::InText if byte == b'\'' => Place::Outside,
            other => other,
        }
    }

    // Whether a byte is of a blank or a comment, or a dash that may begin one.
    fn is_blank_at(self, byte: u8) -> bool
        ensures { result ≡ is_blank_at self byte }
    {
        match self {
            Place::Outside => is_blank(byte) || byte == b'-',
            Place::AfterDash => byte == b'-',
            Place::InComment => true,
            Place::InText | Place::Ended => false,
        }
    }
}

// The place after a byte that is outside of texts and comments, if a dash leads to this one.
fn after_outside(dash: Place, byte: u8) -> Place
    ensures { result ≡ outside_after dash byte }
{
    match byte {
        b'\'' => Place::InText,
        b';' => Place::Ended,
        b'-' => dash,
        _ => Place::Outside,
    }
}

/// A part of a session.
#[derive(Drop)]
pub(crate) enum Part {
    /// The bytes of a part, with its semicolon.
    Whole(Vec<u8>),
    /// More bytes than a script may have: how many.
    TooLarge(usize),
    /// The line of a command, with the blanks and comments before it.
    Command(CommandLine),
}

/// The line of a command.
#[derive(Drop)]
pub(crate) struct CommandLine {
    /// All after the dot but the line feed; nothing if that is longer than a script may be.
    pub(crate) bytes: Vec<u8>,
    /// The number of bytes of the part.
    pub(crate) count: usize,
}

impl Part {
    /// The number of its bytes.
    pub(crate) fn len(&self) -> usize
        ensures { (bytes : List ℕ) → IsPartOf bytes self.now → result ≡ length bytes }
    {
        match self {
            Part::Whole(bytes) => bytes.len(),
            Part::TooLarge(count) => *count,
            Part::Command(line) => line.count,
        }
    }

    /// Whether it is the line of a command.
    pub(crate) fn is_command(&self) -> bool
        ensures { result ≡ is_command self.now }
    {
        matches!(self, Part::Command(_))
    }
}

// The next byte of the input; nothing at its end. A read that is interrupted is tried again, up to
// 1,000 times in all.
fn next_byte<R: Read>(input: &mut Tracked<R>) -> Result<Option<u8>, RunFault>
    ensures some { IfOk result (λ next. IfSome next (λ byte.
        Consumes (R.remaining input.old.inner) (R.remaining input.new.inner) (byte ∷ []))) }
    ensures none { IfOk result (λ next. next ≡ None
        → Consumes (R.remaining input.old.inner) (R.remaining input.new.inner) []
        × IsAtEnd (R.remaining input.new.inner)) }
    ensures kept { IfErr result (λ _.
        Keeps (R.remaining input.old.inner) (R.remaining input.new.inner)) }
    ensures fault { IfErr result (λ fault. IsUnread input.new.has_failed fault) }
{
    let mut buffer = [0u8; 1];
    'reads: for _ in 0..MOST_READS {
        match input.read(&mut buffer) {
            Ok(0) => return Ok(None),
            Ok(_) => return Ok(Some(buffer[0])),
            Err(error) => {
                if error.kind() != ErrorKind::Interrupted {
                    return Err(RunFault::Read);
                }
            }
        }
    }
    Err(RunFault::Read)
}

// Keeps a byte of a part of which so many were read before, if a script may have as many.
fn keep(bytes: &mut Vec<u8>, before: usize, byte: u8) -> Result<(), RunFault>
    ensures kept { OnOk result (before < most_bytes
        → bytes.new.items ≡ bytes.old.items ++ byte ∷ []) }
    ensures fault { IfErr result (λ fault. fault ≡ Memory) }
{
    if before < MOST_BYTES && bytes.push(byte).is_err() {
        return Err(RunFault::Memory);
    }
    Ok(())
}

// Whether all bytes of a part are blank up to this one, which is at a place, if the rest are
// or are not. A byte order mark counts as none of them.
fn is_blank_after(is_blank: bool, place: Place, kept: &[u8], before: usize, byte: u8) -> bool
    ensures { result ≡ (((before == 2) && (lexis.byte_order_mark_size kept.now == 3))
        || (is_blank && is_blank_at place byte)) }
{
    before == 2 && byte_order_mark_size(kept) == 3 || is_blank && place.is_blank_at(byte)
}

// The part of so many bytes, which are held if a script may have as many.
fn part_of(bytes: Vec<u8>, count: usize) -> Part
    ensures { (starts : Bool) (all : List ℕ) (left : Option (List ℕ)) → count ≡ length all
        → (count ≤ most_bytes → bytes.items ≡ all) → EndsAtSemicolon all
        → HasNoCommand starts all → IsPart starts all left result }
{
    if count <= MOST_BYTES {
        Part::Whole(bytes)
    } else {
        Part::TooLarge(count)
    }
}

// The end of an input after bytes without a semicolon.
fn end_at(place: Place, is_blank: bool) -> Result<Option<Part>, RunFault>
    ensures none { result ≡ Ok None → (is_blank ≡ true) × (place ≢ AfterDash) }
    ensures unfinished { result ≡ Err Unfinished
        → ((is_blank ≡ true) × (place ≢ AfterDash) → ⊥) }
    ensures end { (result ≡ Ok None) ⊎ (result ≡ Err Unfinished) }
{
    if is_blank && place != Place::AfterDash {
        Ok(None)
    } else {
        Err(RunFault::Unfinished)
    }
}

// Whether a byte begins the line of a command, after bytes that are blank or are not, at the
// beginning of a line or not.
fn begins_command(is_blank: bool, is_line_start: bool, byte: u8) -> bool
    ensures { result ≡ (is_blank && (is_line_start && (byte == dot))) }
{
    is_blank && is_line_start && byte == b'.'
}

// The line of a command, which has so many bytes, in a part of so many.
fn line_of(alloc: Global, bytes: Vec<u8>, size: usize, count: usize) -> CommandLine
    ensures kept { (line : List ℕ) → size ≡ length line
        → (size ≤ most_bytes → bytes.items ≡ line) → IsKeptOf line result.bytes.items }
    ensures count { result.count ≡ count }
{
    if size <= MOST_BYTES {
        CommandLine { bytes, count }
    } else {
        CommandLine {
            bytes: Vec::new(alloc),
            count,
        }
    }
}

// Reads the line of a command after its dot, up to and with its line feed, or to the end of the
// input. So many bytes of the part were read before.
fn read_line<R: Read>(
    alloc: Global,
    input: &mut Tracked<R>,
    before: usize,
) -> Result<CommandLine, RunFault>
    ensures line { IfOk result
        (IsRestOfLine before (R.remaining input.old.inner) (R.remaining input.new.inner)) }
    ensures unread { IfErr result (λ fault. fault ≡ RunFault.Read → (line : List ℕ)
        × Consumes (R.remaining input.old.inner) (R.remaining input.new.inner) line
        × All (λ byte. byte ≢ lexis.line_feed) line) }
    ensures fault { IfErr result (λ fault. (fault ≡ Memory)
        ⊎ IsUnread input.new.has_failed fault) }
{
    let mut bytes = Vec::new(alloc);
    'reads: for size in 0..usize::MAX - before {
        let Some(byte) = next_byte(input)? else {
            return Ok(line_of(alloc, bytes, size, before + size));
        };
        if byte == b'\n' {
            return Ok(line_of(alloc, bytes, size, before + size + 1));
        }
        keep(&mut bytes, size, byte)?;
    }
    Err(RunFault::Memory)
}

/// Reads the next part of a session, whose first byte begins a line or does not, and nothing after
/// its semicolon or its line. Of one that has more bytes than a script may have no more than that
/// is held. Nothing if only blanks and comments are left.
pub(crate) fn read_part<R: Read>(
    alloc: Global,
    input: &mut Tracked<R>,
    starts_line: bool,
) -> Result<Option<Part>, RunFault>
    ensures part { IfOk result (λ next. IfSome next (λ part. (bytes : List ℕ)
        × Consumes (R.remaining input.old.inner) (R.remaining input.new.inner) bytes
        × IsPart starts_line bytes (R.remaining input.new.inner) part)) }
    ensures none { result ≡ Ok None → IfSome (R.remaining input.old.inner) HasNoToken }
    ensures unfinished { result ≡ Err Unfinished → IfSome (R.remaining input.old.inner)
        (λ rest. IsUnfinished rest × HasNoCommand starts_line rest) }
    ensures unread { result ≡ Err RunFault.Read → (bytes : List ℕ)
        × Consumes (R.remaining input.old.inner) (R.remaining input.new.inner) bytes
        × IsBegun starts_line bytes }
    ensures fault { IfErr result (λ fault. (fault ≡ Memory)
        ⊎ (IsUnread input.new.has_failed fault ⊎ (fault ≡ Unfinished))) }
{
    let mut bytes = Vec::new(alloc);
    let mut place = Place::Outside;
    let mut is_blank = true;
    let mut is_line_start = starts_line;
    // The input ends the loop. Its bound shows that it ends in any case.
    'reads: for before in 0..usize::MAX {
        let Some(byte) = next_byte(input)? else {
            return end_at(place, is_blank);
        };
        if begins_command(is_blank, is_line_start, byte) {
            let line = read_line(alloc, input, before + 1)?;
            return Ok(Some(Part::Command(line)));
        }
        keep(&mut bytes, before, byte)?;
        is_blank = is_blank_after(is_blank, place, bytes.as_slice(), before, byte);
        place = place.after(byte);
        if place == Place::Ended {
            return Ok(Some(part_of(bytes, before + 1)));
        }
        is_line_start = byte == b'\n';
    }
    Err(RunFault::Memory)
}
