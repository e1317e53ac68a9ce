// Reading the file of a program.
ghost use Rattle.std.specs.Prelude.{◌≡◌, ◌≢◌, ℕ, ◌↔◌, ◌≤◌, length, IfOk, IfErr, IfSome, IsNone, IsErrOf, IsTrue, Ok};
ghost use Rattle.pp_program.specs.declared.program.Program.{Program};
ghost use Rattle.pp_file.specs.declared.fault.FileFault.TheVariants as faults;
ghost use Rattle.pp_file.specs.declared.fault.FileFault.{FileFault};
ghost use Rattle.pp_file.specs.Parts.{parts_at};
ghost use Rattle.pp_file.specs.Held.{IsHeld};
ghost use Rattle.pp_file.specs.Reading.{BeginWith, HasMark, HasOther, stated, all_at, Refuses, IsRead, IsRefused};
ghost use Rattle.pp_file.specs.steps.Readers.{Gives, Fails, IsHeadOf, IsAnswer};

use crate::cursor::Cursor;
use crate::declarations::{
    read_counts, read_finish, read_hosts, read_names, read_props, read_spans,
};
use crate::fault::FileFault;
use crate::kinds::{MARK, VERSION};
use crate::states::read_states;
use pp_program::{Program, Verified, VerifyFault, verify};
use std::alloc::Global;

/// The least length of a file.
const LEAST_LENGTH: u32 = 19;

/// The greatest length of a file.
const MOST_LENGTH: u32 = 16_777_216;

/// How long the head of a file is: the mark, the version and the length.
const HEAD: usize = 9;

// All parts behind the head.
#[tactic(auto, unfolding(crate::specs::Parts::parts_at))]
fn read_parts(alloc: Global, cursor: &mut Cursor<'_>) -> Result<Program, FileFault>
    ensures { Gives result cursor.new (parts_at cursor.old) }
{
    let counts = read_counts(cursor)?;
    let finish = read_finish(cursor)?;
    let props = read_props(alloc, cursor, counts.props)?;
    let hosts = read_hosts(alloc, cursor, counts.hosts)?;
    let spans = read_spans(alloc, cursor, counts.spans)?;
    let names = read_names(alloc, cursor, counts.names)?;
    let states = read_states(alloc, cursor, counts.states)?;
    Ok(Program {
        props,
        hosts,
        spans,
        names,
        states,
        entry: counts.entry as u32,
        finish,
    })
}

// All parts behind the head, and nothing behind them.
#[tactic(auto, unfolding(crate::specs::Reading::all_at))]
fn read_all(alloc: Global, cursor: &mut Cursor<'_>) -> Result<Program, FileFault>
    ensures ok { IfOk result (λ program. all_at cursor.old ≡ Ok program) }
    ensures err { IfErr result (λ fault. Fails fault (all_at cursor.old)) }
{
    let program = read_parts(alloc, cursor)?;
    if !cursor.is_at_end() {
        return Err(FileFault::Form {
            offset: cursor.place(),
        });
    }
    Ok(program)
}

// Whether the bytes begin as every file does, as far as there are bytes.
fn has_mark(bytes: &[u8]) -> bool
    ensures { IsTrue result ↔ HasMark bytes.now }
{
    let there = bytes.len().min(MARK.len());
    bytes[..there] == MARK[..there]
}

// The version, if it is there and another one.
fn other_version(bytes: &[u8]) -> Option<u8>
    ensures some { IfSome result (HasOther bytes.now) }
    ensures none { IsNone result → (found : ℕ) → HasOther bytes.now found → ⊥ }
{
    match bytes.get(MARK.len()) {
        Some(found) if *found != VERSION => Some(*found),
        _ => None,
    }
}

// The length that the bytes state.
fn stated_length(bytes: &[u8]) -> u32
    requires { HEAD ≤ length bytes.now }
    ensures { result ≡ stated bytes.now }
{
    u32::from_be_bytes([bytes[5], bytes[6], bytes[7], bytes[8]])
}

// The length of the file, where all of it is there.
fn whole_length(bytes: &[u8]) -> Result<u32, FileFault>
    ensures ok { IfOk result (IsHeadOf bytes.now) }
    ensures err { IfErr result (Refuses bytes.now) }
    ensures memory { IfErr result (λ fault. fault ≢ faults.NoMemory) }
{
    if !has_mark(bytes) {
        return Err(FileFault::Magic);
    }
    if let Some(found) = other_version(bytes) {
        return Err(FileFault::Version { found });
    }
    if bytes.len() < HEAD {
        return Err(FileFault::Short);
    }
    let length = stated_length(bytes);
    if length < LEAST_LENGTH || MOST_LENGTH < length {
        return Err(FileFault::Form { offset: 5 });
    }
    if bytes.len() < length as usize {
        return Err(FileFault::Short);
    }
    Ok(length)
}

// The program and its length, or the first thing that is wrong.
fn read_whole(alloc: Global, bytes: &[u8]) -> Result<(Verified, usize), FileFault>
    ensures { IsAnswer bytes.now result }
{
    let length = whole_length(bytes)?;
    let mut cursor = Cursor::new(length, &bytes[HEAD..length as usize]);
    let program = read_all(alloc, &mut cursor)?;
    match verify(alloc, program) {
        Ok(verified) => Ok((verified, length as usize)),
        Err(VerifyFault::Broken { rule, at }) => Err(FileFault::Verify { rule, at }),
        Err(VerifyFault::NoMemory) => Err(FileFault::NoMemory),
    }
}

/// The program whose file the bytes begin with, and the length of the file. Bytes may follow it.
///
/// Memory is taken as the file's parts are met, never by a count that it states.
pub fn read_program(alloc: Global, bytes: &[u8]) -> Result<(Verified, usize), FileFault>
    ensures ok { IfOk result (λ found. BeginWith bytes.now found.0.program found.1) }
    ensures only { (p : Program) (len : ℕ) → IsHeld p → BeginWith bytes.now p len → IsRead p len result }
    ensures fault { IfErr result (Refuses bytes.now) }
    ensures first { (fault : FileFault) → fault ≢ faults.NoMemory → Refuses bytes.now fault → IsRefused fault result }
    ensures magic { IsErrOf result faults.Magic ↔ Refuses bytes.now faults.Magic }
    ensures version { (found : ℕ) → IsErrOf result (faults.Version found) ↔ Refuses bytes.now (faults.Version found) }
    ensures short { IsErrOf result faults.Short ↔ Refuses bytes.now faults.Short }
{
    read_whole(alloc, bytes)
}
