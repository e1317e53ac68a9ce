// Running a command.
ghost use Rattle.std.specs.Prelude.{◌≡◌, ◌≢◌, ◌↔◌, ◌⊎◌, List, ℕ, Some, [], IfErr, OnErr, OnOk};
ghost use Rattle.pp_outside.specs.Faults.{Rose};
ghost use Rattle.pp_outside.specs.Sink.{Adds as SinkAdds, AddsSome as SinkAddsSome};
ghost use Rattle.pp_tool.specs.declared.refusal.Refusal.{Refusal};
ghost use Rattle.pp_tool.specs.declared.stop.Stop.TheVariants as stop;
ghost use Rattle.pp_tool.specs.declared.words.Command.{Command as CommandOf};
ghost use Rattle.pp_tool.specs.declared.words.Command.TheVariants.{Trace};
ghost use Rattle.pp_tool.specs.Words.{trace_words, words_of, AreCommand, Asked};
ghost use Rattle.pp_tool.specs.Answers.{Tells, Adds, IsErrorLine, words_line};
ghost use Rattle.pp_tool.specs.Verdict.{Verdict, Answers, Ends, Concludes, IsFault, status_by, lines_by, line_by};
ghost use Rattle.pp_tool.specs.Trace.{HasReport, IsTraced};
ghost use Rattle.pp_tool.specs.Commands.{Decides, CanRefuse, IsAnswerOf};
ghost use Rattle.pp_tool.specs.steps.Stops.{StopsReading, IsNoRefusal, status_after, line_after};

use crate::check::check;
use crate::print::print;
use crate::status::Status;
use crate::stop::Stop;
use crate::trace::trace;
use crate::words::{Command, WordList};
use pp_outside::{Sink, Source, Steps, write_whole};
use std::alloc::Global;
use std::sync::ledger::Ledger;

/// Runs the command that the words name, from the input to the output, and tells a refusal on the errors sink.
///
/// `trace` reads a graph text, then a capture of connection 0, and writes the report of the graph's run on the joined
/// parts; `check` reads a graph text and tells how many nodes it has, the most moves in a row that take no byte, and the
/// most spans that may be open at one node; `print` reads a graph text and writes its printed form. The words are judged
/// first, and nothing is read where they are no command. Then the front of the input is taken, 4,194,305 bytes or up to
/// its end, and the graph text in it is judged. In `trace` the graph is checked next, then at most 262,144 bytes behind
/// the text are taken, then the capture is judged. In `check` and `print` nothing may stand behind the text; `check` then
/// checks the graph, and `print` checks nothing. Nothing is written to the output before all this. An error line that
/// can't be written changes no status. `steps` counts the states of a program that are read: none, since a graph is run
/// whole.
pub fn tool<S: Source, K: Sink, E: Sink, L: Ledger>(
    alloc: Global,
    words: &WordList,
    input: &mut S,
    output: &mut K,
    errors: &mut E,
    steps: &mut Steps<L>,
) -> Status
    // Where the input and the output tell their bytes, the report is that of the graph's run on the joined parts,
    // however they were cut.
    ensures report { result ≡ Status.Ok → words.now ≡ trace_words → (bytes : List ℕ) → S.left input.old ≡ Some bytes →
        Adds (HasReport bytes) (K.written output.old) (K.written output.new) }

    // Over an input that tells its bytes, a command answers and writes as its verdict on them says, which is the only one,
    // or the outside or memory fails.
    ensures words { result ≡ Status.Words ↔ ¬ (AreCommand words.now) }
    ensures verdict { Asked words.now (S.left input.old) (λ command bytes.
        Concludes (Decides command bytes) result (K.written output.old) (K.written output.new)) }
    ensures front { Asked words.now (S.left input.old) (λ command bytes. (v : Verdict) → Decides command bytes v →
        SinkAddsSome (K.written output.old) (K.written output.new) (lines_by v)) }
    ensures completeness { Asked words.now (S.left input.old) (λ command bytes. (v : Verdict) → Decides command bytes v →
        ¬ (Rose (S.faults input.old) (S.faults input.new)) → ¬ (Rose (K.faults output.old) (K.faults output.new)) →
        (result ≡ status_by v) ⊎ (result ≡ Status.NoMemory)) }
    // An input of `trace` in order is never refused.
    ensures in_order { words.now ≡ trace_words → (bytes : List ℕ) → S.left input.old ≡ Some bytes → IsTraced bytes →
        ¬ (Rose (S.faults input.old) (S.faults input.new)) → ¬ (Rose (K.faults output.old) (K.faults output.new)) →
        (result ≡ Status.Ok) ⊎ (result ≡ Status.NoMemory) }
    ensures read_to_end { result ≡ Status.Ok → (bytes : List ℕ) → S.left input.old ≡ Some bytes → S.left input.new ≡ Some [] }

    // Over any input and output, a command has its own answers alone, and a fault has its cause.
    ensures answers { (command : CommandOf) → words.now ≡ words_of command → IsAnswerOf command result }
    ensures read_fault { result ≡ Status.ReadFault → Rose (S.faults input.old) (S.faults input.new) }
    ensures write_fault { result ≡ Status.WriteFault → Rose (K.faults output.old) (K.faults output.new) }

    // What an answer leaves.
    ensures nothing_read { result ≡ Status.Words → input.new ≡ input.old }
    ensures nothing_written { result ≢ Status.Ok → result ≢ Status.WriteFault → output.new ≡ output.old }
    ensures no_steps { steps.new ≡ steps.old }
    // The line tells the status, and where the input tells its bytes it is that of the verdict.
    ensures error_line { (line : List ℕ) × IsErrorLine result line × Tells (E.written errors.old) (E.written errors.new) (E.faults errors.old) (E.faults errors.new) line
        × Asked words.now (S.left input.old) (λ command bytes. (v : Verdict) → Decides command bytes v → IsFault result ⊎ (line ≡ line_by v)) }
{
    let _ = steps;
    match words.command() {
        Some(command) => {
            let done = run(alloc, command, input, output);
            conclude(errors, done)
        }
        None => {
            tell_no_command(errors);
            Status::Words
        }
    }
}

// Runs a command, without the line on the errors sink.
fn run<S: Source, K: Sink>(
    alloc: Global,
    command: Command,
    input: &mut S,
    output: &mut K,
) -> Result<(), Stop>
    ensures ends { (bytes : List ℕ) → S.left input.old ≡ Some bytes →
        Ends (Decides command bytes) result (K.written output.old) (K.written output.new) }
    ensures in_order { command ≡ Trace → (bytes : List ℕ) → S.left input.old ≡ Some bytes → IsTraced bytes → IfErr result IsNoRefusal }
    ensures refusals { (why : Refusal) → result ≡ Err (stop.Refused why) → CanRefuse command why }
    ensures read_to_end { (bytes : List ℕ) → S.left input.old ≡ Some bytes → OnOk result (S.left input.new ≡ Some []) }
    ensures read_fault { result ≡ Err stop.ReadFault → Rose (S.faults input.old) (S.faults input.new) }
    ensures write_fault { result ≡ Err stop.WriteFault → Rose (K.faults output.old) (K.faults output.new) }
    ensures nothing_written { IfErr result (λ s. s ≢ stop.WriteFault → output.new ≡ output.old) }
{
    let lines = lines_of(alloc, command, input)?;
    write_lines(output, &lines)
}

// What a command writes.
fn lines_of<S: Source>(alloc: Global, command: Command, input: &mut S) -> Result<Vec<u8>, Stop>
    ensures verdict { (bytes : List ℕ) → S.left input.old ≡ Some bytes → Answers (Decides command bytes) (λ v. v.items) result }
    ensures in_order { command ≡ Trace → (bytes : List ℕ) → S.left input.old ≡ Some bytes → IsTraced bytes → IfErr result IsNoRefusal }
    ensures read_to_end { (bytes : List ℕ) → S.left input.old ≡ Some bytes → OnOk result (S.left input.new ≡ Some []) }
    ensures stops { IfErr result (StopsReading (CanRefuse command) (S.faults input.old) (S.faults input.new)) }
{
    match command {
        Command::Trace => trace(alloc, input),
        Command::Check => check(alloc, input),
        Command::Print => print(alloc, input),
    }
}

// Writes the lines of a command.
fn write_lines<K: Sink>(output: &mut K, lines: &[u8]) -> Result<(), Stop>
    ensures only { IfErr result (λ s. s ≡ stop.WriteFault) }
    ensures whole { OnOk result (SinkAdds (K.written output.old) (K.written output.new) lines.now) }
    ensures failed { OnErr result (Rose (K.faults output.old) (K.faults output.new)) }
    ensures front { OnErr result (SinkAddsSome (K.written output.old) (K.written output.new) lines.now) }
{
    match write_whole(output, lines) {
        Ok(()) => Ok(()),
        Err(_) => Err(Stop::WriteFault),
    }
}

// Tells an early end on the errors sink. A line that can't be written changes no status.
fn conclude<E: Sink>(errors: &mut E, done: Result<(), Stop>) -> Status
    ensures status { result ≡ status_after done }
    ensures line { Tells (E.written errors.old) (E.written errors.new) (E.faults errors.old) (E.faults errors.new) (line_after done) }
{
    match done {
        Ok(()) => Status::Ok,
        Err(stop) => {
            stop.tell(errors);
            stop.status()
        }
    }
}

/// Tells on the errors sink that the words are no command.
pub(crate) fn tell_no_command<E: Sink>(errors: &mut E)
    ensures { Tells (E.written errors.old) (E.written errors.new) (E.faults errors.old) (E.faults errors.new) words_line }
{
    let _ = write_whole(errors, b"words: no such command\n");
}
