//! The code of methods as lines of text.

use nr_base::{Desc, DescBase};
use nr_prog::{Args, Body, FrameMap, Instr, MapType};
use std::alloc::{AllocError, Global};

fn list_look(
    out: &mut String,
    keys: &[i32],
    targets: &[u16],
    other: u16,
) -> Result<(), AllocError> {
    for (key, target) in keys.iter().zip(targets) {
        write!(out, " {key}:{target}")?;
    }
    writeln!(out, " default:{other}")
}

fn list_instr(out: &mut String, instr: &Instr) -> Result<(), AllocError> {
    write!(out, "{} {}", instr.at, instr.row.code)?;
    match &instr.args {
        Args::Empty => writeln!(out, ""),
        Args::Local(n) => writeln!(out, " local {n}"),
        Args::Num(n) => writeln!(out, " number {n}"),
        Args::Pool(n) => writeln!(out, " pool {n}"),
        Args::Branch(to) => writeln!(out, " to {to}"),
        Args::Inc(n, by) => writeln!(out, " local {n} by {by}"),
        Args::Prim(n) => writeln!(out, " primitive {n}"),
        Args::Dims(n, dims) => writeln!(out, " pool {n} dimensions {dims}"),
        Args::Switch {
            other,
            low,
            targets,
        } => {
            let targets = targets.as_slice();
            writeln!(out, " from {low} to {targets:?} default:{other}")
        }
        Args::Look {
            other,
            keys,
            targets,
        } => list_look(out, keys.as_slice(), targets.as_slice(), *other),
        Args::Wide(code, n) => writeln!(out, " {code} local {n}"),
        Args::WideInc(n, by) => writeln!(out, " 132 local {n} by {by}"),
    }
}

fn list_desc(out: &mut String, desc: &Desc) -> Result<(), AllocError> {
    write!(out, " ")?;
    for _ in 0..desc.dims {
        write!(out, "[")?;
    }
    match &desc.base {
        DescBase::Object(name) => write!(out, "{}", name.as_bytes().escape_ascii()),
        base => write!(out, "{base:?}"),
    }
}

fn list_types(out: &mut String, types: &[MapType]) -> Result<(), AllocError> {
    for map_type in types {
        match map_type {
            MapType::Object(desc) => list_desc(out, desc.get())?,
            other => write!(out, " {other:?}")?,
        }
    }
    Ok(())
}

fn list_map(out: &mut String, map: &FrameMap) -> Result<(), AllocError> {
    write!(out, "map {} locals", map.at)?;
    list_types(out, map.locals.as_slice())?;
    write!(out, " stack")?;
    list_types(out, map.stack.as_slice())?;
    writeln!(out, "")
}

/// A line for each body, instruction, handler and frame map, in their order.
pub fn list_bodies(alloc: Global, bodies: &[Option<Body>]) -> Result<String, AllocError> {
    let mut out = String::new(alloc);
    for body in bodies {
        let Some(body) = body else {
            writeln!(out, "none")?;
            continue;
        };
        writeln!(out, "body")?;
        for instr in body.instrs.as_slice() {
            list_instr(&mut out, instr)?;
        }
        for h in body.handlers.as_slice() {
            let (start, end) = (h.start, h.end);
            writeln!(out, "handler {start} {end} {} {}", h.handler, h.catch_type)?;
        }
        for map in body.maps.as_slice() {
            list_map(&mut out, map)?;
        }
    }
    Ok(out)
}
