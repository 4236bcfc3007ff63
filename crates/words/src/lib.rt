// The words of a line: what stands between blanks, up to a `#`.
#![tactic(auto)]

ghost use Rattle.std.specs.Prelude.{◌≡◌, ◌<◌, ◌≤◌, [], map, IfOk};
ghost use Rattle.words.specs.Words.{blank, uncommented, parted, same, words_of};

use std::alloc::{AllocError, Global};
use std::marker::Model;

// Words one after another, as those of a line or of what is left of one. A contract sees their bytes.
#[derive(Drop)]
pub struct Words<'a> {
    texts: &'a [&'a [u8]],
}

impl<'a> Model for Words<'a> {
    ghost use Rattle.std.specs.Prelude.{List, ℕ, map};

    ghost Value = { List (List ℕ) };

    ghost view = { λ s. map (λ w. w.now) s.texts.now };
}

impl<'a> Words<'a> {
    pub fn new(texts: &'a [&'a [u8]]) -> Words<'a>
        ensures { result ≡ map (λ w. w.now) texts.now }
    {
        Words { texts }
    }

    pub fn texts(&self) -> &'a [&'a [u8]]
        ensures { map (λ w. w.now) result.now ≡ self.now }
    {
        self.texts
    }
}

// Whether a byte parts words.
fn is_blank(byte: u8) -> bool
    ensures { result ≡ blank byte }
{
    matches!(byte, b' ' | b'\t' | b'\r' | b'\n')
}

// What stands before the comment.
fn before_comment(line: &[u8]) -> &[u8]
    ensures { result.now ≡ uncommented line.now }
{
    match line.iter().position(|b| *b == b'#') {
        Some(end) => &line[..end],
        None => line,
    }
}

// The pieces between blanks, but for empty ones.
fn pieces<'a>(heap: Global, text: &'a [u8]) -> Result<Vec<&'a [u8]>, AllocError>
    ensures { IfOk result (λ v. map (λ w. w.now) v.items ≡ parted [] text.now) }
{
    text.split(|b| is_blank(*b))
        .filter(|piece| !piece.is_empty())
        .collect(heap)
}

// The words of a line, without its comment.
pub fn words_of<'a>(heap: Global, line: &'a [u8]) -> Result<Vec<&'a [u8]>, AllocError>
    ensures { IfOk result (λ v. map (λ w. w.now) v.items ≡ words_of line.now) }
{
    pieces(heap, before_comment(line))
}

// Whether a text is this word, which may be a literal: `==` alone takes two slices.
#[tactic(auto, using(crate::proofs::Comparing::bytes_eq_is_same))]
pub fn is_word(text: &[u8], word: &[u8]) -> bool
    ensures { result ≡ same text.now word.now }
{
    text == word
}
