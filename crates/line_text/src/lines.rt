//! The lines of a text, and the words of a line.
ghost use Rattle.std.specs.Prelude.{◌≡◌, ◌==◌};
ghost use Rattle.std.specs.List.{position};

use std::marker::Model;

/// The lines of a text that are left, which contracts see as their list.
#[derive(Drop)]
pub struct Lines<'a> {
    rest: &'a [u8],
}

impl<'a> Model for Lines<'a> {
    ghost use Rattle.std.specs.Prelude.{List, ℕ};
    ghost use Rattle.line_text.specs.Lines.{lines_of};

    ghost Value = { List (List ℕ) };

    ghost view = { λ l. lines_of l.rest.now };
}

/// The words of a line that are left, which contracts see as their list.
#[derive(Drop)]
pub struct Words<'a> {
    rest: Option<&'a [u8]>,
}

impl<'a> Model for Words<'a> {
    ghost use Rattle.std.specs.Prelude.{List, ℕ};
    ghost use Rattle.std.specs.Option.{option_copied};
    ghost use Rattle.line_text.specs.Lines.{words_left};

    ghost Value = { List (List ℕ) };

    ghost view = { λ w. words_left (option_copied w.rest) };
}

/// Where the first of this byte is.
fn find_byte(text: &[u8], byte: u8) -> Option<usize>
    ensures { result ≡ position (λ b. b == byte) text.now }
{
    text.iter().position(|b| *b == byte)
}

impl<'a> Lines<'a> {
    ghost use Rattle.std.specs.Prelude.{◌≡◌, ◌<◌, ◌^◌, ◌∷◌, [], length, MatchOption};
    ghost use Rattle.line_text.specs.Lines.{lines_of};

    /// The lines of a text.
    #[tactic(auto, using(crate::proofs::LineLemmas::few_lines))]
    pub fn new(text: &'a [u8]) -> Self
        ensures lines { result ≡ lines_of text.now }
        ensures few { length result < 2 ^ 64 }
    {
        Lines { rest: text }
    }

    /// The next line, without its end.
    pub fn next_line(&mut self) -> Option<&'a [u8]>
        ensures { MatchOption result ((self.old ≡ []) × (self.new ≡ [])) (λ line. self.old ≡ line.now ∷ self.new) }
    {
        let text = self.rest;
        if text.is_empty() {
            return None;
        }
        match find_byte(text, b'\n') {
            Some(end) => {
                self.rest = &text[end + 1..];
                Some(&text[..end])
            }
            None => {
                self.rest = &[];
                Some(text)
            }
        }
    }
}

impl<'a> Words<'a> {
    ghost use Rattle.std.specs.Prelude.{◌≡◌, ◌∷◌, [], ◌↔◌, IsTrue, MatchOption};
    ghost use Rattle.line_text.specs.Lines.{words_of};

    /// The words of a line.
    pub fn new(line: &'a [u8]) -> Self
        ensures { result ≡ words_of line.now }
    {
        Words { rest: Some(line) }
    }

    /// The next word.
    pub fn next_word(&mut self) -> Option<&'a [u8]>
        ensures { MatchOption result ((self.old ≡ []) × (self.new ≡ [])) (λ word. self.old ≡ word.now ∷ self.new) }
    {
        let text = self.rest?;
        match find_byte(text, b' ') {
            Some(end) => {
                self.rest = Some(&text[end + 1..]);
                Some(&text[..end])
            }
            None => {
                self.rest = None;
                Some(text)
            }
        }
    }

    /// Whether no word is left.
    pub fn is_empty(&self) -> bool
        ensures { IsTrue result ↔ (self.now ≡ []) }
    {
        self.rest.is_none()
    }
}
