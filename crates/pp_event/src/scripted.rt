// A host that answers by a script.
ghost use Rattle.std.specs.Prelude.{◌≡◌};
ghost use Rattle.pp_event.specs.Script.{uncounted, one_counted};

use crate::host::{Host, Reply};
use crate::props::Props;
use crate::script::{Script, ScriptTo};
use std::marker::Model;

/// Answers the k-th question of each code and of each span by the script's k-th entry for it.
///
/// It takes no memory, keeps no log and never refuses. Contracts see it as the script and the number of questions so
/// far for each code and span, which stay at the greatest 64-bit number.
#[derive(Debug, Drop)]
pub struct Scripted<'s> {
    script: &'s Script,
    codes: [u64; 64],
    spans: [u64; 32],
}

impl<'s> Model for Scripted<'s> {
    ghost use Rattle.pp_event.specs.Script.{Counted};

    ghost Value = { Counted };

    ghost view = { λ s. record { script = s.script.now; codes = s.codes; spans = s.spans } };
}

impl<'s> Scripted<'s> {
    /// A host by this script, which was asked nothing yet.
    pub fn new(script: &'s Script) -> Scripted<'s>
        ensures { result ≡ uncounted script.now }
    {
        Scripted {
            script,
            codes: [0; 64],
            spans: [0; 32],
        }
    }
}

impl<'a, 's> Host<'a> for Scripted<'s> {
    ghost use Rattle.std.specs.Prelude.{None};
    ghost use Rattle.pp_event.specs.Script.{Counted, IsScripted, count_on};

    ghost View = { Counted };

    ghost shown = { λ s. record { log = None; refusals = 0; view = s } };

    ghost allows = { IsScripted };

    ghost next = { count_on };

    fn call(&mut self, code: u32, _value: u64, _at: u64, _props: &Props) -> Reply {
        let k = self.codes[code as usize];
        self.codes[code as usize] = k.saturating_add(1);
        Reply::Is(self.script.answer(ScriptTo::Code(code), k))
    }

    fn piece(&mut self, span: u32, _part: &'a [u8], _at: u64, _last: bool) -> Reply {
        let k = self.spans[span as usize];
        self.spans[span as usize] = k.saturating_add(1);
        Reply::Is(self.script.answer(ScriptTo::Span(span), k))
    }
}
