//! Writes what the program has to say at its end.
ghost use Rattle.std.specs.Prelude.{◌≡◌, ◌⊎◌, ◌≤◌, ◌<◌, ◌+◌, ◌++◌, [], codes, OnOk};
ghost use Rattle.nr_outside.specs.Calls.{CallsAtMost, next_count};
ghost use Rattle.nr_outside.specs.Causes.{HasCause, Rose};
ghost use Rattle.nr_outside.specs.Bytes.{AddsPart};
ghost use Rattle.nr_cli.specs.Ending.{SaysPart, calls_for, line, printed_of, result_of, status_of, out_of, err_of};

use crate::ending::End;
use crate::spelling::spell;
use nr_outside::{Fault, Sink};
use std::alloc::Global;

const SINK_FAILED: u8 = 11;

const NO_MEMORY: u8 = 12;

// Writes the text, if there is any.
fn put<S: Sink>(sink: &mut S, text: &[u8]) -> Result<(), Fault>
    ensures ok { S.Tells → OnOk result (S.bytes sink.new ≡ S.bytes sink.old ++ text.now) }
    ensures part { S.Tells → AddsPart (S.bytes sink.old) (S.bytes sink.new) text.now }
    ensures nothing { text.now ≡ [] → result ≡ Ok tt }
    ensures no_call { S.Tells → text.now ≡ [] → S.writes sink.new ≡ S.writes sink.old }
    ensures call { S.Tells → (text.now ≡ [] → ⊥) → S.writes sink.new ≡ next_count (S.writes sink.old) }
    ensures cause { HasCause (S.faults sink.old) (S.faults sink.new) result }
{
    if text.is_empty() {
        return Ok(());
    }
    sink.write(text)
}

// Writes two texts, the second where the first was written.
fn put_two<S: Sink>(sink: &mut S, first: &[u8], second: &[u8]) -> Result<(), Fault>
    ensures ok { S.Tells → OnOk result (S.bytes sink.new ≡ S.bytes sink.old ++ (first.now ++ second.now)) }
    ensures part { S.Tells → AddsPart (S.bytes sink.old) (S.bytes sink.new) (first.now ++ second.now) }
    ensures calls { S.Tells → CallsAtMost (calls_for first.now + calls_for second.now) (S.writes sink.old) (S.writes sink.new) }
    ensures cause { HasCause (S.faults sink.old) (S.faults sink.new) result }
{
    put(sink, first)?;
    put(sink, second)
}

// Writes the text; the status is this one, unless the sink refuses.
fn put_last<S: Sink>(sink: &mut S, text: &[u8], status: u8) -> u8
    ensures status { (result ≡ status) ⊎ (result ≡ 11) ⊎ (result ≡ 12) }
    ensures text { S.Tells → (Rose (S.faults sink.old) (S.faults sink.new) → ⊥) → (result ≡ 12 → ⊥)
        → S.bytes sink.new ≡ S.bytes sink.old ++ text.now }
    ensures whole { S.Tells → (result ≡ 11 → ⊥) → (result ≡ 12 → ⊥)
        → S.bytes sink.new ≡ S.bytes sink.old ++ text.now }
    ensures part { S.Tells → AddsPart (S.bytes sink.old) (S.bytes sink.new) text.now }
    ensures nothing { text.now ≡ [] → result ≡ status }
    ensures no_call { S.Tells → text.now ≡ [] → S.writes sink.new ≡ S.writes sink.old }
    ensures call { S.Tells → (text.now ≡ [] → ⊥) → S.writes sink.new ≡ next_count (S.writes sink.old) }
    ensures faults { S.faults sink.old ≤ S.faults sink.new }
    ensures failed { S.faults sink.old < S.faults sink.new → result ≡ 11 }
    ensures sink { (status ≡ 11 → ⊥) → result ≡ 11 → Rose (S.faults sink.old) (S.faults sink.new) }
    ensures memory { status ≡ 12 → result ≡ 11 → Rose (S.faults sink.old) (S.faults sink.new) }
{
    match put(sink, text) {
        Ok(()) => status,
        Err(Fault::Failed) => SINK_FAILED,
        Err(Fault::NoMemory) => NO_MEMORY,
    }
}

// Writes what was printed and its result, and then the line.
fn put_all<O: Sink, E: Sink>(
    status: u8,
    printed: &[u8],
    result_line: &[u8],
    err_text: &[u8],
    out: &mut O,
    err: &mut E,
) -> u8
    requires { status ≡ 11 → ⊥ }
    ensures status { (result ≡ status) ⊎ (result ≡ 11) ⊎ (result ≡ 12) }
    ensures out { O.Tells → (result ≡ 11 → ⊥) → (result ≡ 12 → ⊥)
        → O.bytes out.new ≡ O.bytes out.old ++ (printed.now ++ result_line.now) }
    ensures part { O.Tells → AddsPart (O.bytes out.old) (O.bytes out.new) (printed.now ++ result_line.now) }
    ensures out_calls { O.Tells → CallsAtMost (calls_for printed.now + calls_for result_line.now) (O.writes out.old) (O.writes out.new) }
    ensures quiet { E.Tells → err_text.now ≡ [] → (result ≡ 11 → ⊥) → (result ≡ 12 → ⊥) → E.writes err.new ≡ E.writes err.old }
    ensures said_once { E.Tells → (err_text.now ≡ [] → ⊥) → E.writes err.new ≡ next_count (E.writes err.old) }
    ensures told_once { E.Tells → (result ≡ status → ⊥) → E.writes err.new ≡ next_count (E.writes err.old) }
    ensures err { E.Tells → (result ≡ 11 → ⊥) → (result ≡ 12 → ⊥)
        → E.bytes err.new ≡ E.bytes err.old ++ err_text.now }
    ensures line { E.Tells → result ≡ 11 → (Rose (E.faults err.old) (E.faults err.new) → ⊥)
        → E.bytes err.new ≡ E.bytes err.old ++ line (codes "sink") }
    ensures said { E.Tells → SaysPart (E.bytes err.old) (E.bytes err.new) err_text.now ⊥
        (Rose (O.faults out.old) (O.faults out.new)) }
    ensures sink { result ≡ 11
        → Rose (O.faults out.old) (O.faults out.new) ⊎ Rose (E.faults err.old) (E.faults err.new) }
    ensures failed { (O.faults out.old < O.faults out.new) ⊎ (E.faults err.old < E.faults err.new)
        → (result ≡ 11) ⊎ (result ≡ 12) }
{
    match put_two(out, printed, result_line) {
        Ok(()) => put_last(err, err_text, status),
        Err(Fault::Failed) => put_last(err, b"nrmi: sink\n", SINK_FAILED),
        Err(Fault::NoMemory) => put_last(err, b"nrmi: memory\n", NO_MEMORY),
    }
}

// What a run printed before this end.
fn printed(end: &End) -> &[u8]
    ensures { result.now ≡ printed_of end.now }
{
    match end {
        End::Run(printed, _) => printed.as_slice(),
        _ => b"",
    }
}

/// Writes what an end of the program says, and gives its status.
pub fn end_with<O: Sink, E: Sink>(alloc: Global, end: &End, out: &mut O, err: &mut E) -> u8
    ensures status { (result ≡ status_of end.now) ⊎ (result ≡ 11) ⊎ (result ≡ 12) }
    ensures out { O.Tells → (result ≡ 11 → ⊥) → (result ≡ 12 → ⊥)
        → O.bytes out.new ≡ O.bytes out.old ++ out_of end.now }
    ensures part { O.Tells → AddsPart (O.bytes out.old) (O.bytes out.new) (out_of end.now) }
    ensures out_calls { O.Tells → CallsAtMost (calls_for (printed_of end.now) + calls_for (result_of end.now)) (O.writes out.old) (O.writes out.new) }
    ensures quiet { E.Tells → result ≡ 0 → E.writes err.new ≡ E.writes err.old }
    ensures told { E.Tells → (result ≡ 0 → ⊥) → E.writes err.new ≡ next_count (E.writes err.old) }
    ensures err { E.Tells → (result ≡ 11 → ⊥) → (result ≡ 12 → ⊥)
        → E.bytes err.new ≡ E.bytes err.old ++ err_of end.now }
    ensures line { E.Tells → result ≡ 11 → (Rose (E.faults err.old) (E.faults err.new) → ⊥)
        → E.bytes err.new ≡ E.bytes err.old ++ line (codes "sink") }
    ensures said { E.Tells → SaysPart (E.bytes err.old) (E.bytes err.new) (err_of end.now) ⊥
        (Rose (O.faults out.old) (O.faults out.new)) }
    ensures sink { result ≡ 11
        → Rose (O.faults out.old) (O.faults out.new) ⊎ Rose (E.faults err.old) (E.faults err.new) }
    ensures failed { (O.faults out.old < O.faults out.new) ⊎ (E.faults err.old < E.faults err.new)
        → (result ≡ 11) ⊎ (result ≡ 12) }
{
    match spell(alloc, end) {
        Ok(spelled) => put_all(
            spelled.status,
            printed(end),
            &spelled.result,
            &spelled.err,
            out,
            err,
        ),
        Err(_) => put_all(NO_MEMORY, printed(end), b"", b"nrmi: memory\n", out, err),
    }
}
