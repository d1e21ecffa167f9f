//! Code, written (JVM Specification 4.7.3).

ghost use Rattle.std.specs.Prelude.{◌≡◌, ◌<◌, ◌^◌, ◌++◌, length, OnOk};
ghost use Rattle.std.specs.List.{AllByRecursion};
ghost use Rattle.nr_classwrite.specs.Fits.{HandlerFits, ContentsFit, CodeFits, HasRoom, IsRoomy, MapsFit};
ghost use Rattle.nr_classwrite.specs.Text.{two, four, list_text, handler_text, maps_text, contents_text, code_text};

use crate::check::contents_len;
use crate::names::AttrNames;
use crate::write::attribute::put_attribute;
use crate::write::number::{put_four, put_two};
use nr_base::{Items, Put};
use nr_prog::{Code, Handler};
use std::alloc::AllocError;

fn put_handler(put: &mut Put, handler: Handler) -> Result<(), AllocError>
    ensures text { OnOk result (put.new ≡ put.old ++ handler_text handler) }
    ensures fits { OnOk result (HandlerFits handler) }
{
    put_two(put, handler.start)?;
    put_two(put, handler.end)?;
    put_two(put, handler.handler)?;
    put_two(put, handler.catch_type)
}

fn put_handlers(put: &mut Put, handlers: &[Handler]) -> Result<(), AllocError>
    requires { length handlers.now < 2 ^ 16 }
    ensures text { OnOk result (put.new ≡ put.old ++ list_text handler_text handlers.now) }
    ensures fits { OnOk result (AllByRecursion HandlerFits handlers.now) }
{
    put_two(put, handlers.len() as u16)?;
    for handler in handlers {
        put_handler(put, *handler)?;
    }
    Ok(())
}

/// Writes the attributes of a `Code`: its frame maps, where it has some.
fn put_maps(put: &mut Put, names: AttrNames, maps: &Option<Items<u8>>) -> Result<(), AllocError>
    requires { MapsFit maps.now }
    ensures { OnOk result (put.new ≡ put.old ++ maps_text names maps.now) }
{
    match maps {
        None => put_two(put, 0),
        Some(maps) => {
            put_attribute(put, names.maps, maps.len() as u32)?;
            put.bytes(maps.as_slice())
        }
    }
}

/// Writes what stands before the handlers.
fn put_instructions(put: &mut Put, code: &Code) -> Result<(), AllocError>
    requires { HasRoom code.now }
    ensures text { OnOk result (put.new ≡ put.old ++ (two code.now.max_stack ++ (two code.now.max_locals ++ (four (length code.now.bytes) ++ code.now.bytes)))) }
    ensures stack { OnOk result (code.now.max_stack < 2 ^ 16) }
    ensures locals { OnOk result (code.now.max_locals < 2 ^ 16) }
{
    put_two(put, code.max_stack)?;
    put_two(put, code.max_locals)?;
    put_four(put, code.bytes.len() as u32)?;
    put.bytes(code.bytes.as_slice())
}

fn put_contents(put: &mut Put, names: AttrNames, code: &Code) -> Result<(), AllocError>
    requires room { HasRoom code.now }
    requires maps { MapsFit code.now.maps }
    ensures text { OnOk result (put.new ≡ put.old ++ contents_text names code.now) }
    ensures fits { OnOk result (ContentsFit code.now) }
{
    put_instructions(put, code)?;
    put_handlers(put, code.handlers.as_slice())?;
    put_maps(put, names, &code.maps)
}

/// Writes the attributes of a method: its code, where it has some.
pub fn put_code(put: &mut Put, names: AttrNames, code: &Option<Code>) -> Result<(), AllocError>
    requires { IsRoomy code.now }
    ensures text { OnOk result (put.new ≡ put.old ++ code_text names code.now) }
    ensures fits { OnOk result (CodeFits code.now) }
{
    match code {
        None => put_two(put, 0),
        Some(code) => {
            put_attribute(put, names.code, contents_len(code) as u32)?;
            put_contents(put, names, code)
        }
    }
}
