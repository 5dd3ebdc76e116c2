//! Cuts what a reader gives into lines, in memory for one piece and one line.
ghost use Rattle.std.specs.Prelude.{◌≡◌, ◌==◌, ℕ, ◌+◌, ◌-◌, ◌*◌, ◌^◌, ◌<◌, ◌≤◌, ◌↔◌, List, [], ◌∷◌};
ghost use Rattle.std.specs.Prelude.{◌++◌, length, position, take, drop, slice_range, true, IfOk};
ghost use Rattle.std.specs.Prelude.{IfSome, IsSome, OnErr, OnOk};
ghost use Rattle.std.specs.Bool.{OnFalse, OnTrue};
ghost use Rattle.std.specs.Io.KnownBytes.{IsAtEnd, prepend_known};
ghost use Rattle.streams.specs.declared.lines.TheConstants.{MAX_PIECE_LENGTH};
ghost use Rattle.streams.specs.declared.watched.TheConstants.{MAX_READS};
ghost use Rattle.streams.specs.Lines.{Cut, CutsLine, CutsRest, HasNoLineFeed, Takes, line_feed};
ghost use Rattle.streams.specs.Lines.{work_left};
ghost use Rattle.streams.specs.{Within.Extends, Watched.IsFaulted};

use crate::watched::{MAX_READS, ReadFault, Watched};
use std::io::Read;
use std::marker::Model;

/// The most bytes that one read takes.
pub const MAX_PIECE_LENGTH: usize = 4096;

/// What ends a line: LF.
pub const LINE_FEED: u8 = b'\n';

/// What was cut off: a line that ended in a line feed, or what stood after the last one.
#[derive(Clone, Copy)]
pub enum Next {
    Line,
    End,
}

/// Cuts what a reader gives into lines. It holds one piece of the reader's bytes, and of one line
/// the first `MAX_LENGTH` bytes.
#[derive(Drop)]
pub struct Lines<const MAX_LENGTH: usize> {
    piece: [u8; MAX_PIECE_LENGTH],
    start: usize,
    end: usize,
    held: [u8; MAX_LENGTH],
    line_length: u64,
    taken: u64,
}

impl<const MAX_LENGTH: usize> Model for Lines<MAX_LENGTH> {
    ghost Value = { Cut };

    ghost view = { λ s. record {
      unread = slice_range s.piece s.start s.end;
      line = take s.line_length s.held;
      line_length = s.line_length;
      taken = s.taken;
    } };

    ghost invariant = { λ s. record {
      ordered : s.start ≤ s.end;
      in_piece : s.end ≤ MAX_PIECE_LENGTH;
      counted : s.line_length + (s.end - s.start) ≤ s.taken;
      fits : s.taken < 2 ^ 64;
    } };
}

impl<const MAX_LENGTH: usize> Lines<MAX_LENGTH> {
    /// Begins with nothing taken.
    pub fn new() -> Self
        ensures { result ≡ record { unread = []; line = []; line_length = 0; taken = 0 } }
    {
        Lines {
            piece: [0; MAX_PIECE_LENGTH],
            start: 0,
            end: 0,
            held: [0; MAX_LENGTH],
            line_length: 0,
            taken: 0,
        }
    }

    /// The line that was cut off last, unless it is longer than `MAX_LENGTH` bytes.
    pub fn line(&self) -> Option<&[u8]>
        ensures short { IsSome result ↔ (self.now.line_length ≤ MAX_LENGTH) }
        ensures value { IfSome result (λ line. line.now ≡ self.now.line) }
    {
        if self.line_length <= MAX_LENGTH as u64 {
            Some(&self.held[..self.line_length as usize])
        } else {
            None
        }
    }

    /// How many bytes the line that was cut off last has, or at the end the rest.
    pub fn length(&self) -> u64
        ensures { result ≡ self.now.line_length }
    {
        self.line_length
    }

    /// How many bytes were taken from the reader.
    pub fn bytes_taken(&self) -> u64
        ensures { result ≡ self.now.taken }
    {
        self.taken
    }

    /// Cuts off the next line, or at the reader's end what is left. A line may have any length, but
    /// of one longer than `MAX_LENGTH` bytes no more than its start is held.
    pub fn next<R: Read>(&mut self, reader: &mut Watched<R>) -> Result<Next, ReadFault>
        // The bytes that were taken fit a `u64`, since each turn takes at most a piece.
        requires { self.old.taken ≤ MAX_PIECE_LENGTH * reader.old.turns }
        ensures within { self.new.taken ≤ MAX_PIECE_LENGTH * reader.new.turns }

        ensures line { IfOk result (λ next. next ≡ Next.Line → (line : List ℕ)
            × CutsLine MAX_LENGTH (prepend_known self.old.unread (R.remaining reader.old.inner))
            (prepend_known self.new.unread (R.remaining reader.new.inner)) self.new line) }
        ensures end { IfOk result (λ next. next ≡ Next.End → (rest : List ℕ)
            × CutsRest (prepend_known self.old.unread (R.remaining reader.old.inner))
            (prepend_known self.new.unread (R.remaining reader.new.inner)) self.new rest) }
        ensures at_end { IfOk result (λ next.
            next ≡ Next.End → IsAtEnd (R.remaining reader.new.inner)) }

        // No byte is taken without being counted, whatever comes of it.
        ensures taken { (bytes : List ℕ)
            × Takes (R.remaining reader.old.inner) (R.remaining reader.new.inner)
            self.old self.new bytes }

        // Lines do not go on forever.
        ensures less { IfOk result (λ next. next ≡ Next.Line →
            work_left reader.new.turns self.new.unread
            < work_left reader.old.turns self.old.unread) }
        ensures turns { reader.old.turns ≤ reader.new.turns }
        ensures bounded { reader.old.turns ≤ MAX_READS → reader.new.turns ≤ MAX_READS }

        ensures err { OnErr result (IsFaulted reader.new.failed MAX_READS reader.new.turns) }
        ensures sound { OnOk result (reader.new.failed ≡ reader.old.failed) }
        ensures failed { reader.old.failed ≡ true → reader.new.failed ≡ true }
    {
        self.clear_line();
        loop {
            if self.take_to_line_feed() {
                return Ok(Next::Line);
            }
            if self.refill(reader)? == 0 {
                return Ok(Next::End);
            }
        }
    }

    // Begins a new line.
    fn clear_line(&mut self)
        ensures { self.new ≡ record self.old { line = []; line_length = 0 } }
    {
        self.line_length = 0;
    }

    fn unread_bytes(&self) -> &[u8]
        ensures { result.now ≡ self.now.unread }
    {
        &self.piece[self.start..self.end]
    }

    // Moves this many unread bytes to the line.
    fn move_bytes_to_line(&mut self, count: usize)
        requires { count ≤ length self.old.unread }
        ensures unread { self.new.unread ≡ drop count self.old.unread }
        ensures line { Extends MAX_LENGTH self.old self.new (take count self.old.unread) }
    {
        let Lines {
            piece,
            start,
            end: _,
            held,
            line_length,
            taken: _,
        } = self;
        let piece: &[u8; MAX_PIECE_LENGTH] = piece;
        append_within_room(held, *line_length, &piece[*start..*start + count]);
        *line_length += count as u64;
        *start += count;
    }

    // Drops an unread byte.
    fn skip_byte(&mut self)
        requires { 0 < length self.old.unread }
        ensures { self.new ≡ record self.old { unread = drop 1 self.old.unread } }
    {
        self.start += 1;
    }

    // Reads the next piece, when nothing of the last one is unread. Returns how many bytes it has.
    fn refill<R: Read>(&mut self, reader: &mut Watched<R>) -> Result<usize, ReadFault>
        requires empty { self.old.unread ≡ [] }
        requires within { self.old.taken ≤ MAX_PIECE_LENGTH * reader.old.turns }
        ensures line { (self.new.line ≡ self.old.line)
            × (self.new.line_length ≡ self.old.line_length) }
        ensures taken { Takes (R.remaining reader.old.inner) (R.remaining reader.new.inner)
            self.old self.new self.new.unread }
        ensures count { IfOk result (λ n. n ≡ length self.new.unread) }
        ensures end { IfOk result (λ n. n ≡ 0 → IsAtEnd (R.remaining reader.new.inner)) }
        ensures short { length self.new.unread ≤ MAX_PIECE_LENGTH }
        ensures within { self.new.taken ≤ MAX_PIECE_LENGTH * reader.new.turns }
        ensures later { OnOk result
            ((reader.old.turns < reader.new.turns) × (reader.new.turns ≤ MAX_READS)) }
        ensures bounded { reader.old.turns ≤ MAX_READS → reader.new.turns ≤ MAX_READS }
        ensures sound { OnOk result (reader.new.failed ≡ reader.old.failed) }
        ensures err { OnErr result (IsFaulted reader.new.failed MAX_READS reader.new.turns) }
        ensures turns { reader.old.turns ≤ reader.new.turns }
        ensures failed { reader.old.failed ≡ true → reader.new.failed ≡ true }
    {
        let count = reader.read_piece(MAX_READS, &mut self.piece)?;
        self.start = 0;
        self.end = count;
        self.taken += count as u64;
        Ok(count)
    }

    // Moves the unread bytes to the line, up to a line feed, which is dropped. Returns whether
    // there was one.
    fn take_to_line_feed(&mut self) -> bool
        ensures found { OnTrue result ((part : List ℕ) × HasNoLineFeed part
            × (self.old.unread ≡ part ++ line_feed ∷ self.new.unread)
            × Extends MAX_LENGTH self.old self.new part) }
        ensures none { OnFalse result (HasNoLineFeed self.old.unread
            × (self.new.unread ≡ []) × Extends MAX_LENGTH self.old self.new self.old.unread) }
    {
        match find_line_feed(self.unread_bytes()) {
            Some(at) => {
                self.move_bytes_to_line(at);
                self.skip_byte();
                true
            }
            None => {
                let all = self.unread_bytes().len();
                self.move_bytes_to_line(all);
                false
            }
        }
    }
}

// Where the first line feed stands.
fn find_line_feed(bytes: &[u8]) -> Option<usize>
    ensures { result ≡ position (λ byte. byte == line_feed) bytes.now }
{
    bytes.iter().position(|byte| *byte == LINE_FEED)
}

// Puts `part` after the first `count` bytes of `held`, as far as there is room.
fn append_within_room(held: &mut [u8], count: u64, part: &[u8])
    ensures { take (count + length part.now) held.new
        ≡ take (length held.old) (take count held.old ++ part.now) }
{
    let filled = count.min(held.len() as u64) as usize;
    let more = part.len().min(held.len() - filled);
    held[filled..filled + more].copy_from_slice(&part[..more]);
}
