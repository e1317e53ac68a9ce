// The command `trace`.
ghost use Rattle.std.specs.Prelude.{◌≡◌, ◌≤◌, List, ℕ, Some, [], length, OnOk, IfOk, IfErr};
ghost use Rattle.pp_event.specs.Run.{RunResult};
ghost use Rattle.pp_mean.specs.Loops.{IsLoopFree};
ghost use Rattle.pp_mean.specs.Plain.{IsPlain};
ghost use Rattle.pp_mean.specs.Whole.{Shows};
ghost use Rattle.pp_tool.specs.Verdict.{Answers};
ghost use Rattle.pp_tool.specs.Capture.{IsCapture};
ghost use Rattle.pp_tool.specs.Trace.{Traces, IsTraced, OnShort, RunsTo};
ghost use Rattle.pp_tool.specs.steps.Stops.{StopsReading, IsQuiet, IsNoRefusal};

use crate::capture::{CaptureFault, read_capture};
use crate::checks::check_graph;
use crate::input::take_rest;
use crate::refusal::{CheckReason, Refusal};
use crate::report::report;
use crate::stop::Stop;
use crate::text::take_text;
use pp_event::Script;
use pp_graph::Graph;
use pp_mean::{MeanFault, WholeRun, is_plain, run_whole};
use pp_outside::Source;
use std::alloc::{AllocError, Global};

/// The report of the run that the input asks for.
pub(crate) fn trace<S: Source>(alloc: Global, input: &mut S) -> Result<Vec<u8>, Stop>
    ensures verdict { (bytes : List ℕ) → S.left input.old ≡ Some bytes → Answers (Traces bytes) (λ v. v.items) result }
    ensures in_order { (bytes : List ℕ) → S.left input.old ≡ Some bytes → IsTraced bytes → IfErr result IsNoRefusal }
    ensures read_to_end { (bytes : List ℕ) → S.left input.old ≡ Some bytes → OnOk result (S.left input.new ≡ Some []) }
    ensures stops { IfErr result (StopsReading (λ why. Unit {0}) (S.faults input.old) (S.faults input.new)) }
{
    let (front, graph, used) = take_text(alloc, input)?;
    check_graph(alloc, &graph)?;
    if !is_plain(&graph) {
        return Err(Stop::Refused(Refusal::Check(CheckReason::NotYet)));
    }
    let rest = take_rest(alloc, input, &front[used..])?;
    report_on(alloc, &graph, &rest)
}

// The report of the graph's run on the capture that the rest is.
fn report_on(alloc: Global, graph: &Graph, rest: &[u8]) -> Result<Vec<u8>, Stop>
    requires loop_free { IsLoopFree graph.now }
    ensures verdict { Answers (OnShort (graph.now, rest.now)) (λ v. v.items) result }
    ensures in_order { (parts : List (List ℕ)) → IsCapture rest.now parts → IfErr result IsNoRefusal }
    ensures stops { IfErr result IsQuiet }
{
    let string = match read_capture(alloc, rest) {
        Ok(string) => string,
        Err(CaptureFault::Refused) => return Err(Stop::Refused(Refusal::Capture)),
        Err(CaptureFault::NoMemory) => return Err(Stop::NoMemory),
    };
    let run = run_on(alloc, graph, &string)?;
    Ok(report(alloc, graph, &run)?)
}

// The run of the graph on a connection's whole string.
fn run_on(alloc: Global, graph: &Graph, string: &[u8]) -> Result<WholeRun, AllocError>
    requires loop_free { IsLoopFree graph.now }
    ensures { IfOk result (λ run. (r : RunResult) × RunsTo graph.now string.now r × Shows r run) }
{
    let script = Script::new(alloc, &[])?;
    match run_whole(alloc, graph, &[], &script, 0, string) {
        Ok(run) => Ok(run),
        Err(MeanFault::Loop { .. }) => unreachable!(),
        Err(MeanFault::NoMemory) => Err(AllocError),
    }
}
