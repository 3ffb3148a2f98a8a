// Files: the run file in pieces, and a ROM.
ghost use Rattle.std.specs.Prelude.{◌≡◌, ◌≤◌, length};
ghost use Rattle.replay.specs.Parts.{between, on_from};
ghost use Rattle.replay.specs.declared.source.TheConstants.{LONGEST_ROM, PIECE};

use crate::stop::Stop;
use lines::Line;
use std::fs::{self, File};
use std::io::{self, Error, ErrorKind, IsTerminal, Read, Stderr};
use std::rt::Files;
use std::str;

// How much of the run file is held at a time.
const PIECE: usize = 65536;

const LONGEST_ROM: usize = 65536;

// The run file as far as it is read.
#[derive(Drop)]
pub struct Source {
    file: File,
    // an array, so that a read has nothing to clear first
    text: [u8; PIECE],
    // the part of the text that is not yet obeyed
    from: usize,
    to: usize,
    // no more comes
    is_over: bool,
    // the number of the line at hand
    line: u32,
    ghost ordered: { from ≤ to },
    ghost inside: { to ≤ PIECE },
}

// The bytes from a place to another. None where they are not all there, as its promise says, though they are here.
#[tactic(auto, unfolding(crate::specs::Parts::between))]
fn within(text: &[u8], from: usize, to: usize) -> &[u8]
    ensures { result.now ≡ between text.now from to }
{
    text.get(from..to).unwrap_or_default()
}

// So many bytes on, and no further than an end.
#[tactic(auto, unfolding(crate::specs::Parts::on_from))]
fn onward(from: usize, n: usize, end: usize) -> usize
    ensures value { result ≡ on_from from n end }
    ensures in_range { result ≤ end }
{
    from.saturating_add(n).min(end)
}

impl Source {
    pub fn new(file: File) -> Source
        ensures { result.line ≡ 0 }
    {
        Source {
            file,
            text: [0; PIECE],
            from: 0,
            to: 0,
            is_over: false,
            line: 0,
        }
    }

    pub fn line(&self) -> u32
        ensures { result ≡ self.now.line }
    {
        self.line
    }

    // The next line, once so much is read that all of it is there.
    pub fn next_line(&mut self, stderr: Stderr) -> Result<Option<&[u8]>, Stop> {
        self.line = self.line.wrapping_add(1);
        // As for the lines: more turns than a line needs reads.
        for _ in 0..u64::MAX {
            match lines::cut(within(&self.text, self.from, self.to), self.is_over) {
                Line::Whole { length, passed } => return Ok(Some(self.pass(length, passed))),
                Line::Long => return Err(Stop::LongLine),
                Line::Part => self.read_on(stderr)?,
                Line::End => return Ok(None),
            }
        }
        Ok(None)
    }

    // Steps over a line and gives it.
    fn pass(&mut self, length: usize, passed: usize) -> &[u8]
        ensures line { result.now ≡ between self.old.text self.old.from (on_from self.old.from length self.old.to) }
    {
        let from = self.from;
        let to = onward(from, length, self.to);
        self.from = onward(from, passed, self.to);
        within(&self.text, from, to)
    }

    // Moves what is left to the front and reads on behind it.
    fn read_on(&mut self, stderr: Stderr) -> Result<(), Stop> {
        self.text.copy_within(self.from..self.to, 0);
        let left = self.to - self.from;
        let count = self.file.read(&mut self.text[left..]);
        self.tell_progress(stderr);
        let count = count.map_err(Stop::UnreadableRun)?;
        self.from = 0;
        self.to = left + count;
        self.is_over = count == 0;
        Ok(())
    }

    // A terminal is told how far the run is.
    fn tell_progress(&self, stderr: Stderr) {
        let line = self.line;
        if 1 < line && stderr.is_terminal() {
            let _ = eprint!(stderr; "line {line}\r");
        }
    }
}

// Opens a file to read it. std takes a path as text, and has no way to one that is none.
pub fn open<R: Files>(rt: &R, path: &[u8]) -> io::Result<R::File> {
    match str::from_utf8(path) {
        Ok(name) => fs::open(rt, name),
        Err(_) => Err(Error::new(ErrorKind::InvalidInput, "the path is not UTF-8 text")),
    }
}

// Reads until the buffer is full, the file ends or a read fails: how many bytes came.
fn read_full(file: &mut impl Read, buffer: &mut [u8]) -> usize
    ensures { result ≤ length buffer.new }
{
    let mut done = 0;
    for _ in 0..buffer.len() {
        match file.read(&mut buffer[done..]) {
            Ok(0) | Err(_) => return done,
            Ok(n) => done += n,
        }
    }
    done
}

// The ROM, in a room of one length for good, so that a read has nothing to clear first. One that cannot be read leaves other bytes there; the
// run stops at its line.
#[derive(Drop)]
pub struct Rom {
    room: [u8; 65537],
    length: usize,
    ghost short: { length ≤ LONGEST_ROM },
}

impl Rom {
    // None is read yet.
    pub fn new() -> Rom
        ensures { result.length ≡ 0 }
    {
        Rom {
            room: [0; 65537],
            length: 0,
        }
    }

    #[tactic(auto, unfolding(crate::specs::Parts::between))]
    pub fn bytes(&self) -> &[u8]
        ensures rom { result.now ≡ between self.now.room 0 self.now.length }
        ensures short { length result.now ≤ LONGEST_ROM }
    {
        within(&self.room, 0, self.length)
    }

    // Reads a whole ROM, which ends where a read behind the first fails.
    pub fn read<R: Files>(&mut self, rt: &R, path: &[u8]) -> Result<(), Stop>
        ensures { self.new.length ≤ LONGEST_ROM }
    {
        let mut file = open(rt, path).map_err(|_| Stop::UnreadableRom)?;
        let Ok(first) = file.read(&mut self.room) else {
            return Err(Stop::UnreadableRom);
        };
        let length = first + read_full(&mut file, &mut self.room[first..]);
        if LONGEST_ROM < length {
            return Err(Stop::LongRom);
        }
        self.length = length;
        Ok(())
    }
}
