// A run at some moment, and its moves.
ghost use Rattle.std.specs.Prelude.{◌≡◌, ◌<◌, ◌≤◌, ◌++◌, ◌∷◌, [], Some, IfOk, OnOk, length, map};
ghost use Rattle.pp_bytes.specs.Fold.{folded};
ghost use Rattle.pp_event.specs.declared.item.Item.TheVariants.{Call};
ghost use Rattle.pp_event.specs.Answers.{by_script};
ghost use Rattle.pp_event.specs.Chain.{On};
ghost use Rattle.pp_event.specs.Codes.{effect_of, answered};
ghost use Rattle.pp_event.specs.Effects.{Uses};
ghost use Rattle.pp_event.specs.Run.{Oracle, move_by, pass, telling, start};
ghost use Rattle.pp_event.specs.Turns.{effect_turn, consume_turn, open_turn, close_turn};
ghost use Rattle.pp_mean.specs.declared.whole.End.TheVariants.{Waits};
ghost use Rattle.pp_mean.specs.Nodes.{kind_turn, match_turn};
ghost use Rattle.pp_mean.specs.Mean.{entry_with, values_by, SetsFit};
ghost use Rattle.pp_mean.specs.Whole.{open_from};
ghost use Rattle.pp_mean.specs.Steps.{Made, UsesKind, ShowsStage, took, waited};

use crate::items::Items;
use crate::matching::edge_at;
use crate::whole::{End, WholeRun};
use pp_bytes::{Fold, Listed};
use pp_event::{Effect, Props, Script, Spans, answered, effect_of};
use pp_graph::{Answer, Code, Graph, Key, Kind, Other, Peek};
use std::alloc::{AllocError, Global};
use std::marker::Model;

/// Where a run over these bytes stands: at a node, at a place, with the number that the edge carried; the properties and
/// the open spans; what it has told, and how many pauses it may still pass. Contracts see it as a stage of the run.
#[derive(Drop)]
pub(crate) struct Run<'b> {
    node: u32,
    at: usize,
    carried: u32,
    props: Props,
    spans: Spans,
    items: Items,
    resumes: u64,
    bytes: &'b [u8],
}

impl<'b> Model for Run<'b> {
    ghost use Rattle.std.specs.Prelude.{◌≤◌, length, drop};
    ghost use Rattle.pp_event.specs.Run.{Stage};

    ghost Value = { Stage };

    ghost view = { λ r. record { config = record { node = r.node; at = r.at; carried = r.carried; values = r.props; spans = r.spans }; rest = drop r.at r.bytes.now; items = r.items; resumes = r.resumes } };

    ghost invariant = { λ r. r.at ≤ length r.bytes.now };
}

impl<'b> Run<'b> {
    /// The beginning of the run of a graph.
    pub(crate) fn begin(
        alloc: Global,
        graph: &Graph,
        sets: &[(u32, u64)],
        resumes: u64,
        bytes: &'b [u8],
    ) -> Run<'b>
        requires { SetsFit graph.now sets.now }
        ensures { result ≡ start (entry_with graph.now (values_by graph.now sets.now)) bytes.now resumes }
    {
        Run {
            node: graph.entry(),
            at: 0,
            carried: 0,
            props: values_by(graph, sets),
            spans: Spans::shut(graph.spans().len() as u32),
            items: Items::new(alloc),
            resumes,
            bytes,
        }
    }

    /// The node where it stands, by its place in the graph.
    pub(crate) fn node(&self) -> u32
        ensures { result ≡ self.now.config.node }
    {
        self.node
    }

    /// The place where it stands, in bytes from 0.
    pub(crate) fn at(&self) -> usize
        ensures { result ≡ self.now.config.at }
    {
        self.at
    }

    /// Makes the move of a node of this kind, and tells how the run ended, if it did.
    pub(crate) fn advance(
        &mut self,
        kind: &Kind,
        script: &Script,
    ) -> Result<Option<End>, AllocError>
        requires { UsesKind self.old.config kind.now }
        ensures { IfOk result (λ end. Made self.new end (move_by (by_script script.now) self.old (kind_turn kind.now self.old.config self.old.rest))) }
    {
        match kind {
            Kind::Match {
                fold,
                keys,
                peeks,
                other,
            } => Ok(self.compare(*fold, keys.items(), peeks.items(), *other)),
            Kind::Invoke {
                code,
                answers,
                other,
            } => {
                self.invoke(*code, answers.items(), *other, script)?;
                Ok(None)
            }
            Kind::Consume { prop, next } => Ok(self.consume(*prop, *next)),
            Kind::SpanOpen { span, next } => {
                self.open(*span, *next);
                Ok(None)
            }
            Kind::SpanClose { span, next } => {
                self.close(*span, *next)?;
                Ok(None)
            }
            Kind::Pause { code, next, .. } => self.pause(*code, *next),
            Kind::Fail { code, .. } => Ok(Some(End::Failed {
                node: self.node,
                code: *code,
            })),
        }
    }

    // The bytes that are left.
    fn rest(&self) -> &'b [u8]
        ensures { result.now ≡ self.now.rest }
    {
        &self.bytes[self.at..]
    }

    // Goes on to a node.
    fn enter(&mut self, node: u32, number: u32)
        ensures { self.new ≡ record self.old { config = record self.old.config { node = node; carried = number } } }
    {
        self.node = node;
        self.carried = number;
    }

    // Takes bytes.
    fn take(&mut self, taken: usize)
        requires { taken ≤ length self.old.rest }
        ensures { self.new ≡ took self.old taken }
    {
        self.at += taken;
    }

    // Takes all bytes that are left, and waits for more.
    fn wait(&mut self) -> Option<End>
        ensures new { self.new ≡ waited self.old }
        ensures end { result ≡ Some (Waits self.old.config.node) }
    {
        self.carried = 0;
        self.at = self.bytes.len();
        Some(End::Waits { node: self.node })
    }

    // Compares the bytes that come with the keys and peeks of a match node.
    fn compare(&mut self, fold: Fold, keys: &[Key], peeks: &[Peek], other: Other) -> Option<End>
        ensures { (oracle : Oracle) → Made self.new result (move_by oracle self.old (match_turn self.old.config self.old.rest keys.now peeks.now other (map (folded fold) self.old.rest))) }
    {
        match edge_at(fold, keys, peeks, other, self.rest()) {
            Some(edge) => {
                self.take(edge.taken);
                self.enter(edge.target, edge.number);
                None
            }
            None => self.wait(),
        }
    }

    // Runs a code.
    fn invoke(
        &mut self,
        code: Code,
        answers: &[Answer],
        other: u32,
        script: &Script,
    ) -> Result<(), AllocError>
        requires props { Uses (length self.old.config.values) code }
        ensures { OnOk result (move_by (by_script script.now) self.old (effect_turn self.old.config (answered answers.now other) (effect_of self.old.config.values self.old.config.carried code)) ≡ On self.new) }
    {
        match effect_of(&self.props, self.carried, code) {
            Effect::AsksHost { host } => {
                let answer = self.ask(host, script)?;
                self.enter(answered(answers, other, u64::from(answer)), 0);
            }
            Effect::Answers { answer } => self.enter(answered(answers, other, answer), 0),
            Effect::Sets { prop, value } => {
                self.props.set(prop, value);
                self.enter(answered(answers, other, 0), 0);
            }
        }
        Ok(())
    }

    // Asks a host code.
    fn ask(&mut self, host: u32, script: &Script) -> Result<u32, AllocError>
        requires { host < 64 }
        ensures answer { IfOk result (λ answer. answer ≡ by_script script.now self.old.items host) }
        ensures told { IfOk result (λ answer. self.new ≡ telling self.old (Call host self.old.config.carried self.old.config.at self.old.config.values answer ∷ []) self.old.config self.old.rest) }
    {
        let answer = self.items.answer(script, host);
        self.items.call(
            host,
            u64::from(self.carried),
            self.at as u64,
            self.props.copy(),
            answer,
        )?;
        Ok(answer)
    }

    // Takes as many bytes as a property says, or waits for them.
    fn consume(&mut self, prop: u32, next: u32) -> Option<End>
        requires { prop < length self.old.config.values }
        ensures { (oracle : Oracle) → Made self.new result (move_by oracle self.old (consume_turn self.old.config self.old.rest prop next)) }
    {
        let wanted = self.props.get(prop);
        let left = self.bytes.len() - self.at;
        if wanted <= left as u64 {
            self.props.set(prop, 0);
            self.take(wanted as usize);
            self.enter(next, 0);
            None
        } else {
            self.props.set(prop, wanted - left as u64);
            self.wait()
        }
    }

    // Opens a span.
    fn open(&mut self, span: u32, next: u32)
        requires { span < length self.old.config.spans }
        ensures { (oracle : Oracle) → move_by oracle self.old (open_turn self.old.config span next) ≡ On self.new }
    {
        self.spans.set(span, Some(self.at as u64));
        self.enter(next, 0);
    }

    // Closes a span and tells it.
    fn close(&mut self, span: u32, next: u32) -> Result<(), AllocError>
        requires { span < length self.old.config.spans }
        ensures { OnOk result ((oracle : Oracle) → move_by oracle self.old (close_turn self.old.config span next) ≡ On self.new) }
    {
        let at = self.at as u64;
        let from = self.spans.get(span).unwrap_or(at);
        self.items.span(span, from, at)?;
        self.spans.set(span, None);
        self.enter(next, 0);
        Ok(())
    }

    // Tells a pause, and passes it or ends there.
    fn pause(&mut self, code: u32, next: u32) -> Result<Option<End>, AllocError>
        ensures { IfOk result (λ end. Made self.new end (pass self.old code (record self.old.config { node = next; carried = 0 }) self.old.resumes)) }
    {
        self.items.pause(code, self.at as u64)?;
        if self.resumes == 0 {
            return Ok(Some(End::PausedAt {
                node: self.node,
                code,
            }));
        }
        self.resumes -= 1;
        self.enter(next, 0);
        Ok(None)
    }

    /// What the run gave, where it ended so.
    pub(crate) fn ended(self, alloc: Global, end: End) -> Result<WholeRun, AllocError>
        ensures { IfOk result (λ w. ShowsStage self.entry end w) }
    {
        let spans = open_spans(alloc, &self.spans)?;
        Ok(WholeRun {
            items: self.items.listed(),
            end,
            props: self.props,
            at: self.at as u64,
            spans: Listed::of(spans),
        })
    }
}

// The values that a run begins with: 0 for each property, and then these sets.
fn values_by(graph: &Graph, sets: &[(u32, u64)]) -> Props
    requires { SetsFit graph.now sets.now }
    ensures { result ≡ values_by graph.now sets.now }
{
    let mut values = Props::zeros(graph.props().len() as u32);
    for (prop, value) in sets {
        values.set(*prop, *value);
    }
    values
}

// The open spans in order, each with its start.
fn open_spans(alloc: Global, spans: &Spans) -> Result<Vec<(u32, u64)>, AllocError>
    ensures { IfOk result (λ slots. slots.items ≡ open_from 0 spans.now) }
{
    let mut found: Vec<(u32, u64)> = Vec::new(alloc);
    for span in 0..spans.len() {
        push_open(&mut found, span, spans.get(span))?;
    }
    Ok(found)
}

// One span more, if it is open.
fn push_open(found: &mut Vec<(u32, u64)>, span: u32, from: Option<u64>) -> Result<(), AllocError>
    ensures { OnOk result (found.new.items ≡ found.old.items ++ open_from span (from ∷ [])) }
{
    if let Some(from) = from {
        found.push((span, from))?;
    }
    Ok(())
}
