// The program: the words behind its name and its standard streams, handed to the commands.
#![tactic(auto)]

ghost use Rattle.std.specs.Prelude.{◌≡◌, ◌<◌};

use pp_outside::{ReadSource, Steps, WriteSink};
use pp_tool::{WordList, WordsFault, run_program};
use std::env;
use std::io::ErrorKind;
use std::marker::Brand;
use std::process::ExitCode;
use std::sync::ledger::{Blank, Ledger};

fn main(rt: HostRuntime) -> ExitCode {
    ExitCode::from(run::<Brand>(&rt, Blank::new(1)))
}

// Runs the program over its words and its standard streams, with a count of steps of its own.
fn run<L: Ledger>(rt: &HostRuntime, blank: Blank) -> u8
    requires name { blank.name ≡ L.name }
    requires parts { blank.parts ≡ L.parts }
    requires some { 0 < blank.parts }
{
    run_program(
        rt.alloc(),
        read_words(rt),
        &mut ReadSource::new(rt.stdin()),
        &mut WriteSink::new(rt.stdout()),
        &mut WriteSink::new(rt.stderr()),
        &mut Steps::<L>::new(blank),
    )
}

// The words behind the program's name.
fn read_words(rt: &HostRuntime) -> Result<WordList, WordsFault> {
    let mut words = WordList::new(rt.alloc());
    match env::args(rt) {
        Ok(arguments) => {
            for word in arguments.skip(1) {
                if words.add(word.as_str()).is_err() {
                    return Err(WordsFault::NoMemory);
                }
            }
            Ok(words)
        }
        Err(error) => match error.kind() {
            ErrorKind::OutOfMemory => Err(WordsFault::NoMemory),
            // A word that is no text is no word of a command.
            _ => Err(WordsFault::NoText),
        },
    }
}
