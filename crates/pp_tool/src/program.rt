// What a program does with its words and its streams.
ghost use Rattle.std.specs.Prelude.{◌≡◌, ◌≢◌, List, ℕ, Some, Ok, IfErr};
ghost use Rattle.pp_tool.specs.declared.status.Status.{Status as StatusOf};
ghost use Rattle.pp_tool.specs.Words.{trace_words, Asked};
ghost use Rattle.pp_tool.specs.Answers.{number_of, fault_status, IsErrorLine, Tells, Adds};
ghost use Rattle.pp_tool.specs.Verdict.{Concludes};
ghost use Rattle.pp_tool.specs.Trace.{HasReport};
ghost use Rattle.pp_tool.specs.Commands.{Decides};

use crate::command::{tell_no_command, tool};
use crate::status::Status;
use crate::stop::Stop;
use crate::words::{WordList, WordsFault};
use pp_outside::{Sink, Source, Steps};
use std::alloc::Global;
use std::sync::ledger::Ledger;

/// Runs the command that the words name, over the program's streams, and gives the number with which the program ends.
///
/// Where there are no words, nothing is read, and the errors sink gets the line for it.
pub fn run_program<S: Source, K: Sink, E: Sink, L: Ledger>(
    alloc: Global,
    words: Result<WordList, WordsFault>,
    input: &mut S,
    output: &mut K,
    errors: &mut E,
    steps: &mut Steps<L>,
) -> u8
    // The number and the line on the errors sink are those of one answer, which is that of the command.
    ensures answer { (answer : StatusOf) × (result ≡ number_of answer)
        × ((line : List ℕ) × IsErrorLine answer line × Tells (E.written errors.old) (E.written errors.new) (E.faults errors.old) (E.faults errors.new) line)
        × ((named : List (List ℕ)) → words ≡ Ok named → Asked named (S.left input.old) (λ command bytes.
        Concludes (Decides command bytes) answer (K.written output.old) (K.written output.new))) }
    // The program ends with 0 where the report is written.
    ensures report { result ≡ 0 → words ≡ Ok trace_words → (bytes : List ℕ) → S.left input.old ≡ Some bytes →
        Adds (HasReport bytes) (K.written output.old) (K.written output.new) }
    ensures no_words { IfErr words (λ fault. (result ≡ number_of (fault_status fault)) × (input.new ≡ input.old)) }
    ensures nothing_written { result ≢ 0 → result ≢ 8 → output.new ≡ output.old }
{
    match words {
        Ok(words) => tool(alloc, &words, input, output, errors, steps).number(),
        Err(fault) => conclude_without_words(errors, fault).number(),
    }
}

// Tells on the errors sink why there are no words.
fn conclude_without_words<E: Sink>(errors: &mut E, fault: WordsFault) -> Status
    ensures status { result ≡ fault_status fault }
    ensures line { (line : List ℕ) × IsErrorLine result line × Tells (E.written errors.old) (E.written errors.new) (E.faults errors.old) (E.faults errors.new) line }
{
    match fault {
        WordsFault::NoText => {
            tell_no_command(errors);
            Status::Words
        }
        WordsFault::NoMemory => {
            Stop::NoMemory.tell(errors);
            Status::NoMemory
        }
    }
}
