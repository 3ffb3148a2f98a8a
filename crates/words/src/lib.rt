// The words of a line.
#![tactic(auto)]

ghost use Rattle.std.specs.Prelude.{◌≡◌, ◌+◌, ℕ, Bool, drop};
ghost use Rattle.lines.specs.Bytes.{run};
ghost use Rattle.words.specs.Words.{Computes, blank, letter, word_after, word_of, text_of, filled_at, same_text};

// Where a word starts and ends; nothing stands between where there is none.
// No `Option`: `find` promises a place for a word that is not there, too.
#[derive(Clone, Copy, Debug, PartialEq, Eq)]
pub struct Word {
    pub from: usize,
    pub to: usize,
}

fn is_blank(byte: u8) -> bool
    ensures { result ≡ blank byte }
{
    matches!(byte, b' ' | b'\t')
}

fn is_letter(byte: u8) -> bool
    ensures { result ≡ letter byte }
{
    !is_blank(byte) && byte != b'#'
}

// What stands from a place on.
fn rest(line: &[u8], at: usize) -> &[u8]
    ensures { result.now ≡ drop at line.now }
{
    line.get(at..).unwrap_or_default()
}

// Past the bytes of a kind from a place on.
fn end_of<F: Fn(u8) -> bool>(line: &[u8], at: usize, is_of: F) -> usize
    requires { F.IsAlwaysCallable is_of }
    ensures { (p : ℕ → Bool) → Computes (F.post is_of) p → result ≡ at + run p (drop at line.now) }
{
    at + rest(line, at)
        .iter()
        .take_while(|byte| is_of(**byte))
        .count()
}

// The next word from a place on.
#[tactic(auto, unfolding(crate::specs::Words::word_after))]
fn word_after(line: &[u8], at: usize) -> Word
    ensures { result ≡ word_after line.now at }
{
    let from = end_of(line, at, is_blank);
    let to = end_of(line, from, is_letter);
    Word { from, to }
}

// Word `n` of a line, from 0.
#[tactic(auto, using(crate::proofs::Within::word_next), unfolding(crate::specs::Words::word_of))]
pub fn find(line: &[u8], n: usize) -> Word
    ensures { result ≡ word_of line.now n }
{
    let mut w = word_after(line, 0);
    for _ in 0..n {
        w = word_after(line, w.to);
    }
    w
}

// The bytes of word `n` of a line.
#[tactic(auto, using(crate::proofs::Within::word_in))]
pub fn text(line: &[u8], n: usize) -> &[u8]
    ensures { result.now ≡ text_of line.now n }
{
    let w = find(line, n);
    &line[w.from..w.to]
}

// Whether a line has a word `n`.
pub fn filled(line: &[u8], n: usize) -> bool
    ensures { result ≡ filled_at line.now n }
{
    let w = find(line, n);
    w.from < w.to
}

// Whether two texts are the same.
#[tactic(auto, using(crate::proofs::Sames::same_pointwise, crate::proofs::Sames::same_length, crate::proofs::Sames::same_tells))]
pub fn same(a: &[u8], b: &[u8]) -> bool
    ensures { result ≡ same_text a.now b.now }
{
    a == b
}
