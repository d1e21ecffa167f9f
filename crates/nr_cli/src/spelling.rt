//! What the program writes at its end.
ghost use Rattle.std.specs.Prelude.{◌≡◌, ◌++◌, codes, IfOk};
ghost use Rattle.std.specs.Fmt.{decimal};
ghost use Rattle.nr_cli.specs.Spelling.{spelled, spelled_fault, spelled_limit};
ghost use Rattle.nr_cli.specs.Refusals.{spelled_link};
ghost use Rattle.nr_cli.specs.Ending.{line, status_of, result_of, err_of, stop_line, stop_result, stop_status};

mod link;
mod load;
mod parts;
mod verify;

use crate::ending::{End, LoadFault, Stop};
use link::put_link;
use load::put_load;
use nr_base::Put;
use nr_linkrules::LinkFault;
use nr_run::Limit;
use parts::put_name;
use std::alloc::{AllocError, Global};
pub use verify::spell_verify;

/// The status of an end, the line with the result of its run, and the line on the sink for errors. A line that isn't
/// there is empty.
#[derive(Debug, Drop)]
pub struct Spelled {
    pub status: u8,
    pub result: Vec<u8>,
    pub err: Vec<u8>,
}

// A line of one word.
fn word_line(alloc: Global, word: &[u8]) -> Result<Vec<u8>, AllocError>
    ensures { IfOk result (λ text. text.items ≡ line word.now) }
{
    let mut text = Put::new(alloc);
    text.bytes(b"nrmi: ")?;
    text.bytes(word)?;
    text.bytes(b"\n")?;
    Ok(text.done())
}

fn class_line(alloc: Global, path: &[u8], fault: LoadFault) -> Result<Vec<u8>, AllocError>
    ensures { IfOk result (λ text. text.items
        ≡ line (codes "class " ++ spelled path.now ++ codes " " ++ spelled_fault fault)) }
{
    let mut text = Put::new(alloc);
    text.bytes(b"class ")?;
    put_name(&mut text, path)?;
    text.bytes(b" ")?;
    put_load(alloc, &mut text, fault)?;
    word_line(alloc, &text.done())
}

fn link_line(alloc: Global, fault: &LinkFault) -> Result<Vec<u8>, AllocError>
    ensures { IfOk result (λ text. text.items ≡ line (codes "link " ++ spelled_link fault.now)) }
{
    let mut text = Put::new(alloc);
    text.bytes(b"link ")?;
    put_link(alloc, &mut text, fault)?;
    word_line(alloc, &text.done())
}

fn verify_line(alloc: Global, fault: &[u8]) -> Result<Vec<u8>, AllocError>
    ensures { IfOk result (λ text. text.items ≡ line (codes "verify " ++ fault.now)) }
{
    let mut text = Put::new(alloc);
    text.bytes(b"verify ")?;
    text.bytes(fault)?;
    word_line(alloc, &text.done())
}

fn budget_line(alloc: Global, budget: u32) -> Result<Vec<u8>, AllocError>
    ensures { IfOk result (λ text. text.items ≡ line (codes "budget " ++ decimal budget)) }
{
    word_line(alloc, format!(in alloc; "budget {budget}")?.as_bytes())
}

fn thrown_line(alloc: Global, name: &[u8]) -> Result<Vec<u8>, AllocError>
    ensures { IfOk result (λ text. text.items ≡ line (codes "thrown " ++ spelled name.now)) }
{
    let mut text = Put::new(alloc);
    text.bytes(b"thrown ")?;
    put_name(&mut text, name)?;
    word_line(alloc, &text.done())
}

fn limit_line(alloc: Global, limit: Limit) -> Result<Vec<u8>, AllocError>
    ensures { IfOk result (λ text. text.items ≡ line (codes "limit " ++ spelled_limit limit)) }
{
    match limit {
        Limit::Cells => word_line(alloc, b"limit cells"),
        Limit::Depth => word_line(alloc, b"limit depth"),
        Limit::Output => word_line(alloc, b"limit output"),
    }
}

// The line where a run stopped so, empty for none.
fn stop_line(alloc: Global, stop: &Stop) -> Result<Vec<u8>, AllocError>
    ensures { IfOk result (λ text. text.items ≡ stop_line stop.now) }
{
    match stop {
        Stop::Returned(_) => Ok(Vec::new(alloc)),
        Stop::Thrown(name) => thrown_line(alloc, name.as_slice()),
        Stop::Budget(budget) => budget_line(alloc, *budget),
        Stop::Limit(limit) => limit_line(alloc, *limit),
        Stop::Memory => word_line(alloc, b"memory"),
    }
}

// The line on the sink for errors, empty for none.
fn err_text(alloc: Global, end: &End) -> Result<Vec<u8>, AllocError>
    ensures { IfOk result (λ text. text.items ≡ err_of end.now) }
{
    match end {
        End::Words => word_line(alloc, b"words"),
        End::Folder => word_line(alloc, b"folder"),
        End::Class(path, fault) => class_line(alloc, path.as_slice(), *fault),
        End::Link(fault) => link_line(alloc, fault),
        End::Verify(fault) => verify_line(alloc, fault.as_slice()),
        End::Run(_, stop) => stop_line(alloc, stop),
        End::Memory => word_line(alloc, b"memory"),
    }
}

// The line with the result where a run stopped so, empty for none.
fn stop_result(alloc: Global, stop: &Stop) -> Result<Vec<u8>, AllocError>
    ensures { IfOk result (λ text. text.items ≡ stop_result stop.now) }
{
    let mut text = Put::new(alloc);
    if let Stop::Returned(value) = stop {
        text.bytes(format!(in alloc; "result {value}\n")?.as_bytes())?;
    }
    Ok(text.done())
}

// The line with the result, empty for none.
fn result_text(alloc: Global, end: &End) -> Result<Vec<u8>, AllocError>
    ensures { IfOk result (λ text. text.items ≡ result_of end.now) }
{
    match end {
        End::Run(_, stop) => stop_result(alloc, stop),
        _ => Ok(Vec::new(alloc)),
    }
}

fn stop_status(stop: &Stop) -> u8
    ensures { result ≡ stop_status stop.now }
{
    match stop {
        Stop::Returned(_) => 0,
        Stop::Thrown(_) => 1,
        Stop::Budget(_) => 9,
        Stop::Limit(_) => 10,
        Stop::Memory => 12,
    }
}

fn status(end: &End) -> u8
    ensures { result ≡ status_of end.now }
{
    match end {
        End::Words => 2,
        End::Folder => 3,
        End::Class(..) => 4,
        End::Link(_) => 5,
        End::Verify(_) => 6,
        End::Run(_, stop) => stop_status(stop),
        End::Memory => 12,
    }
}

/// What an end of the program writes beside what its run printed. The error comes only for want of memory.
pub fn spell(alloc: Global, end: &End) -> Result<Spelled, AllocError>
    ensures status { IfOk result (λ s. s.status ≡ status_of end.now) }
    ensures result { IfOk result (λ s. s.result.items ≡ result_of end.now) }
    ensures err { IfOk result (λ s. s.err.items ≡ err_of end.now) }
{
    Ok(Spelled {
        status: status(end),
        result: result_text(alloc, end)?,
        err: err_text(alloc, end)?,
    })
}
