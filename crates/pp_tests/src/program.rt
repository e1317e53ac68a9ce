// Programs of states.
ghost use Rattle.std.specs.Prelude.{◌≤◌, length};

use pp_bytes::Listed;
use pp_graph::{Name, Reason};
use pp_program::{
    Instr, Program, State, Verified, VerifyFault, VerifyRule, at_most_one_run, goes_on,
    lies_in_its_string, longer_strings, one_run, rank_table, verify,
};
use std::alloc::Global;
use std::test::Fail;

#[test]
fn laws_are_called() {
    at_most_one_run();
    goes_on();
    lies_in_its_string();
    longer_strings();
    one_run();
    rank_table();
}

// A program of one state, an error.
fn fails_at_once(
    alloc: Global,
    entry: u32,
    name: &[u8],
    reason: &[u8],
) -> Result<Result<Verified, VerifyFault>, Fail>
    requires name { length name.now ≤ 255 }
    requires reason { length reason.now ≤ 255 }
{
    let mut names = Vec::new(alloc);
    names.push(Name::new(alloc, name)?)?;
    let instr = Instr::Fail {
        code: 7,
        reason: Reason::new(alloc, reason)?,
    };
    let mut states = Vec::new(alloc);
    states.push(State { origin: 0, instr })?;
    let program = Program {
        props: Listed::of(Vec::new(alloc)),
        hosts: Listed::of(Vec::new(alloc)),
        spans: Listed::of(Vec::new(alloc)),
        names: Listed::of(names),
        states: Listed::of(states),
        entry,
        finish: None,
    };
    Ok(verify(alloc, program))
}

#[test]
fn a_verified_program_tells_its_parts(rt: HostRuntime) -> Result<(), Fail> {
    let verified = fails_at_once(rt.alloc(), 0, b"bad", b"no")??;
    assert_eq!(rt;
        (
            verified.states(),
            verified.names(),
            verified.gap(),
            verified.entry()
        ),
        (1, 1, 0, 0)
    );
    assert_eq!(rt;
        (verified.props(), verified.hosts(), verified.spans()),
        (0, 0, 0)
    );
    assert!(rt; verified.finish_rule().is_none());
    Ok(())
}

#[test]
fn the_first_rule_that_fails_is_told(rt: HostRuntime) -> Result<(), Fail> {
    for (entry, name, reason, rule, place) in [
        (
            1,
            b"bad".as_slice(),
            b"no".as_slice(),
            VerifyRule::Target,
            1,
        ),
        (0, b"1".as_slice(), b"no".as_slice(), VerifyRule::Names, 0),
        (0, b"bad".as_slice(), b"".as_slice(), VerifyRule::Names, 1),
    ] {
        let fault = fails_at_once(rt.alloc(), entry, name, reason)?
            .err()
            .ok_or("it is verified")?;
        assert_eq!(rt; fault, VerifyFault::Broken { rule, at: place });
    }
    Ok(())
}
