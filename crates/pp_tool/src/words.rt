// The words of a command line.
ghost use Rattle.std.specs.Prelude.{◌≡◌, ◌++◌, ◌∷◌, [], ◌↔◌, IsTrue, MatchOption, OnOk, OnErr};
ghost use Rattle.pp_tool.specs.Words.{AreCommand, words_of};

use std::alloc::{AllocError, Global};
use std::marker::Model;

/// What the words can ask for.
#[derive(Clone, Copy, Debug, PartialEq, Eq)]
pub(crate) enum Command {
    /// The report of a graph's run on a capture.
    Trace,
    /// Whether a graph has loops, and whether its spans fit.
    Check,
    /// The printed form of a graph text.
    Print,
}

/// Why there are no words.
#[derive(Clone, Copy, Debug, PartialEq, Eq)]
pub enum WordsFault {
    /// A word is no text, so the words are no command.
    NoText,
    /// Memory ran out.
    NoMemory,
}

/// The words behind the program's name, in order. Contracts see it as the list of its words, each a list of bytes.
#[derive(Drop)]
pub struct WordList {
    alloc: Global,
    words: Vec<String>,
}

impl Model for WordList {
    ghost use Rattle.std.specs.Prelude.{List, ℕ, map, string_bytes};

    ghost Value = { List (List ℕ) };

    ghost view = { λ w. map string_bytes w.words.items };
}

impl WordList {
    /// No words. Takes no memory.
    pub fn new(alloc: Global) -> WordList
        ensures { result ≡ [] }
    {
        WordList {
            alloc,
            words: Vec::new(alloc),
        }
    }

    /// Puts a word last. A refused call changes nothing.
    pub fn add(&mut self, word: &str) -> Result<(), AllocError>
        ensures added { OnOk result (self.new ≡ self.old ++ word.now ∷ []) }
        ensures unchanged { OnErr result (self.new ≡ self.old) }
    {
        let word = String::from_str(self.alloc, word)?;
        self.words.push(word)?;
        Ok(())
    }

    /// The command that the words are.
    pub(crate) fn command(&self) -> Option<Command>
        ensures { MatchOption result (¬ (AreCommand self.now)) (λ command. self.now ≡ words_of command) }
    {
        if self.are("trace") {
            Some(Command::Trace)
        } else if self.are("check") {
            Some(Command::Check)
        } else if self.are("print") {
            Some(Command::Print)
        } else {
            None
        }
    }

    // Whether the words are this one alone.
    fn are(&self, word: &str) -> bool
        ensures { IsTrue result ↔ (self.now ≡ word.now ∷ []) }
    {
        match self.words.as_slice() {
            [only] => only.as_str() == word,
            _ => false,
        }
    }
}
