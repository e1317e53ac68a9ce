// Where declarations stand among those of their sort.
ghost use Rattle.std.specs.Prelude.{◌≡◌, ◌+◌, ◌<◌, ◌^◌, ◌++◌, ◌∷◌, [], ℕ, List, length, IfOk, OnOk};
ghost use Rattle.pp_rules.specs.declared.call.BuilderCall.{BuilderCall as Call};
ghost use Rattle.pp_rules.specs.declared.call.Sort.TheVariants as sorts;
ghost use Rattle.pp_rules.specs.Calls.{names_of};
ghost use Rattle.pp_rules.specs.Declarations.{greatest_of as greatest_in, tables_of};
ghost use Rattle.pp_graph.specs.Built.{place_of};
ghost use Rattle.pp_graph.specs.steps.Places.{HasPlaces, HaveRoom, ArePlaces};

use pp_rules::{BuilderCall, Declared, Name, NameTable};
use std::alloc::{AllocError, Global};
use std::marker::Model;

/// The places of declarations. Contracts see it as the list of the calls.
#[derive(Drop)]
pub(crate) struct Places<'d, 'c> {
    declared: &'d Declared<'c>,
    sorts: SortPlaces<'c>,
}

// The places of the declarations of each sort, by name.
#[derive(Drop)]
struct SortPlaces<'c> {
    props: NamePlaces<'c>,
    hosts: NamePlaces<'c>,
    spans: NamePlaces<'c>,
    nodes: NamePlaces<'c>,
}

// The place of the first declaration of each name, and how many declarations there are.
#[derive(Drop)]
struct NamePlaces<'c> {
    first: NameTable<'c, u32>,
    count: u32,
}

impl<'d, 'c> Model for Places<'d, 'c> {
    ghost use Rattle.std.specs.Prelude.{List};
    ghost use Rattle.pp_rules.specs.declared.call.BuilderCall.{BuilderCall};
    ghost use Rattle.pp_graph.specs.steps.Places.{ArePlaces};

    ghost Value = { List BuilderCall };

    ghost view = { λ p. p.declared.now };

    ghost invariant = { λ p. ArePlaces p.sorts p.declared.now };
}

impl<'d, 'c> Places<'d, 'c> {
    /// The places of these declarations.
    pub(crate) fn of(
        alloc: Global,
        declared: &'d Declared<'c>,
    ) -> Result<Places<'d, 'c>, AllocError>
        requires { length declared.now < 2 ^ 32 }
        ensures { IfOk result (λ places. places ≡ declared.now) }
    {
        let sorts = SortPlaces::of(alloc, declared.calls())?;
        Ok(Places { declared, sorts })
    }

    /// The calls.
    pub(crate) fn calls(&self) -> &'c [BuilderCall]
        ensures { result.now ≡ self.now }
    {
        self.declared.calls()
    }

    /// The place of the property of this name, or the count of all where there is none.
    pub(crate) fn prop(&self, name: &Name) -> u32
        ensures { result ≡ place_of (names_of sorts.Prop self.now) name.now }
    {
        self.sorts.props.place(name)
    }

    /// The place of the host of this name, or the count of all where there is none.
    pub(crate) fn host(&self, name: &Name) -> u32
        ensures { result ≡ place_of (names_of sorts.Host self.now) name.now }
    {
        self.sorts.hosts.place(name)
    }

    /// The place of the span of this name, or the count of all where there is none.
    pub(crate) fn span(&self, name: &Name) -> u32
        ensures { result ≡ place_of (names_of sorts.Span self.now) name.now }
    {
        self.sorts.spans.place(name)
    }

    /// The place of the node of this name, or the count of all where there is none.
    pub(crate) fn node(&self, name: &Name) -> u32
        ensures { result ≡ place_of (names_of sorts.Node self.now) name.now }
    {
        self.sorts.nodes.place(name)
    }

    /// The greatest value of the property of this name, or of all where there is none.
    pub(crate) fn greatest_of(&self, name: &Name) -> u64
        ensures { result ≡ greatest_in (tables_of self.now) name.now }
    {
        self.declared.greatest_of(name)
    }
}

impl<'c> SortPlaces<'c> {
    // The places of the declarations among these calls.
    fn of(alloc: Global, calls: &'c [BuilderCall]) -> Result<SortPlaces<'c>, AllocError>
        requires { length calls.now < 2 ^ 32 }
        ensures { IfOk result (λ places. ArePlaces places calls.now) }
    {
        let mut places = SortPlaces {
            props: NamePlaces::new(alloc),
            hosts: NamePlaces::new(alloc),
            spans: NamePlaces::new(alloc),
            nodes: NamePlaces::new(alloc),
        };
        for call in calls {
            places.add(call)?;
        }
        Ok(places)
    }

    // Adds what one more call declares.
    fn add(&mut self, call: &'c BuilderCall) -> Result<(), AllocError>
        requires { HaveRoom self.old }
        ensures { OnOk result ((before : List Call) → ArePlaces self.old before → ArePlaces self.new (before ++ call.now ∷ [])) }
    {
        match call {
            BuilderCall::Prop { name, .. } => self.props.add(name),
            BuilderCall::Host { name, .. } => self.hosts.add(name),
            BuilderCall::Span { name } => self.spans.add(name),
            BuilderCall::Node { name, .. } => self.nodes.add(name),
            BuilderCall::Entry { .. } => Ok(()),
            BuilderCall::Finish { .. } => Ok(()),
            BuilderCall::Edge { .. } => Ok(()),
        }
    }
}

impl<'c> NamePlaces<'c> {
    // No declarations. Takes no memory.
    fn new(alloc: Global) -> NamePlaces<'c>
        ensures { HasPlaces result [] }
    {
        NamePlaces {
            first: NameTable::new(alloc),
            count: 0,
        }
    }

    // Adds a declaration behind the others.
    fn add(&mut self, name: &'c Name) -> Result<(), AllocError>
        requires { self.old.count + 1 < 2 ^ 32 }
        ensures { OnOk result ((names : List (List ℕ)) → HasPlaces self.old names → HasPlaces self.new (names ++ name.now ∷ [])) }
    {
        self.first.add_first(name, self.count)?;
        self.count += 1;
        Ok(())
    }

    // The place of the first declaration of this name, or the count of all where there is none.
    fn place(&self, name: &Name) -> u32
        ensures { (names : List (List ℕ)) → HasPlaces self.now names → result ≡ place_of names name.now }
    {
        self.first.get(name).unwrap_or(self.count)
    }
}
