// The lines of a text.
#![tactic(auto)]

ghost use Rattle.std.specs.Prelude.{◌≡◌, ◌≤◌, length};
ghost use Rattle.lines.specs.Lines.{line_end, line_of, shorn};

// What stands at the start of a text.
#[derive(Clone, Copy, Debug, PartialEq, Eq)]
pub enum Line {
    // A line: how many bytes it has, and how many are passed with its end. Numbers and no slices, as `line_of` gives them.
    Whole { length: usize, passed: usize },
    // A line of more than 4,096 bytes.
    Long,
    // A line whose end is not there yet.
    Part,
    // Nothing, and nothing comes.
    End,
}

// The bytes before the first LF.
fn line_end(text: &[u8]) -> usize
    ensures { result ≡ line_end text.now }
{
    text.iter()
        .position(|byte| *byte == b'\n')
        .unwrap_or(text.len())
}

// The bytes of a line of `n` once a CR at its end is dropped.
#[tactic(auto, unfolding(crate::specs::Lines::shorn))]
fn shear(text: &[u8], n: usize) -> usize
    requires { n ≤ length text.now }
    ensures { result ≡ shorn text.now n }
{
    match text[..n].last() {
        Some(b'\r') => n - 1,
        _ => n,
    }
}

// The first line of a text, of which no more comes where `whole` says so.
#[tactic(auto, unfolding(crate::specs::Lines::line_of, crate::specs::Lines::last_of))]
pub fn cut(text: &[u8], whole: bool) -> Line
    ensures { result ≡ line_of text.now whole }
{
    let n = line_end(text);
    if 4096 < n {
        return Line::Long;
    }
    if n < text.len() {
        return Line::Whole {
            length: shear(text, n),
            passed: n + 1,
        };
    }
    if !whole {
        return Line::Part;
    }
    if n == 0 {
        return Line::End;
    }
    Line::Whole {
        length: n,
        passed: n,
    }
}
