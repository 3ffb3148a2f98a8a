// Standard output, gathered on a page that is written out when it is full; and standard error.
ghost use Rattle.std.specs.Prelude.{◌≡◌, ◌+◌, ◌<◌, ◌≤◌, [], ◌++◌, length, Ok, IsOk, None};
ghost use Rattle.std.specs.Io.{WritesAtMost};
ghost use Rattle.std.specs.Io.KnownBytes.{Keeps, WriteAppends};
ghost use Rattle.arrayvec.specs.ArrayVec.{array_vec_len};

use arrayvec::ArrayVec;
use std::alloc::Global;
use std::io::{self, ErrorKind, Print, Stderr, Stdout, Write};

const CAPACITY: usize = 65536;

// Why not all of the output was taken.
#[derive(Clone, Copy, Debug, PartialEq, Eq)]
pub enum Loss {
    // Whoever reads it wants no more.
    Unread,
    Unwritten,
}

// Standard output. A write that fails is kept in mind and loses its bytes, so that the run comes to the end of its line. A `Write`, as what it
// promises of its bytes is said in std's words.
#[derive(Drop)]
pub struct Output {
    stdout: Stdout,
    loss: Option<Loss>,
}

impl Output {
    // All of it, whatever becomes of it, as `write` promises.
    fn take(&mut self, text: &[u8]) {
        let _ = self.write(text);
    }

    fn note(&mut self, error: io::Error) {
        self.loss = match error.kind() {
            ErrorKind::BrokenPipe => Some(Loss::Unread),
            _ => self.loss.or(Some(Loss::Unwritten)),
        };
    }

    pub fn loss(&self) -> Option<Loss>
        ensures { result ≡ self.now.loss }
    {
        self.loss
    }
}

impl Write for Output {
    fn write(&mut self, text: &[u8]) -> io::Result<usize>
        ensures bound { WritesAtMost result text.now }
        ensures bytes { WriteAppends None None result text.now }
        ensures all { result ≡ Ok (length text.now) }
    {
        if let Err(error) = self.stdout.write_all(text) {
            self.note(error);
        }
        Ok(text.len())
    }

    fn flush(&mut self) -> io::Result<()>
        ensures bytes { Keeps None None }
        ensures ok { IsOk result }
    {
        Ok(())
    }
}

// What is not written out yet. Its room lies in the page, so that no line asks for memory.
#[derive(Drop)]
pub struct Page {
    output: Output,
    text: ArrayVec<u8, CAPACITY>,
}

impl Page {
    pub fn new(stdout: Stdout) -> Page
        ensures text { result.text.items ≡ [] }
        ensures loss { result.output.loss ≡ None }
    {
        Page {
            output: Output { stdout, loss: None },
            text: ArrayVec::new(),
        }
    }

    pub fn loss(&self) -> Option<Loss>
        ensures { result ≡ self.now.output.loss }
    {
        self.output.loss()
    }

    // A text for which there is no room begins the next page; one that is longer than a page is written at once.
    pub fn write(&mut self, text: &[u8])
        ensures on { array_vec_len self.old.text + length text.now ≤ CAPACITY → self.new.text.items ≡ self.old.text.items ++ text.now }
        ensures kept { array_vec_len self.old.text + length text.now ≤ CAPACITY → self.new.output ≡ self.old.output }
        ensures next { CAPACITY < array_vec_len self.old.text + length text.now → length text.now ≤ CAPACITY → self.new.text.items ≡ text.now }
        ensures none { CAPACITY < length text.now → self.new.text.items ≡ [] }
    {
        if self.text.remaining_capacity() < text.len() {
            self.flush();
        }
        if self.text.try_extend_from_slice(text).is_err() {
            self.output.take(text);
        }
    }

    pub fn flush(&mut self)
        ensures { self.new.text.items ≡ [] }
    {
        self.output.take(&self.text);
        self.text.clear();
    }
}

// A text and a number behind it. A blank goes with its text, as a full page is cut between two writes.
pub fn put(page: &mut Page, text: &str, number: u32) {
    page.write(text.as_bytes());
    page.write(texts::decimal(number).as_bytes());
}

// A line of them.
pub fn tell(page: &mut Page, parts: &[(&str, u32)]) {
    for (text, number) in parts {
        put(page, text, *number);
    }
    page.write(b"\n");
}

// A name and answers behind it.
pub fn tell_answers(page: &mut Page, name: &str, answers: &[u16]) {
    page.write(name.as_bytes());
    for answer in answers {
        put(page, " ", u32::from(*answer));
    }
    page.write(b"\n");
}

// Says what failed and the system's reason, without the number that std puts behind it. Standard error has nobody to tell where it fails.
pub fn say_failure(alloc: Global, stderr: Stderr, what: &[u8], error: io::Error) {
    let _ = Print::write_all(&stderr, what);
    let _ = match format!(in alloc; "{error}") {
        Ok(text) => eprintln!(stderr; ": {}", reason(text.as_str())),
        Err(_) => eprintln!(stderr; ": {error}"),
    };
}

fn reason(text: &str) -> &str {
    match text.split_once(" (os error ") {
        Some((reason, _)) => reason,
        None => text,
    }
}
