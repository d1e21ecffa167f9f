//! The code of one method.

use crate::{CodeFault, decode};
use nr_classread::read_class;
use nr_prog::{Args, Class};
use std::alloc::Global;
use std::process::Abort;
use std::test::Fail;

// A class of one static method, `main`, with the code 05 06 60 AC.
const M: &[u8] = b"\
\xCA\xFE\xBA\xBE\0\0\02\0\x08\x01\0\x01M\x07\0\x01\x01\0\x10java/lang/Object\x07\0\x03\x01\0\x04main\x01\
\0\x05([I)I\x01\0\x04Code\0!\0\x02\0\x04\0\0\0\0\0\x01\0\x09\0\x05\0\x06\0\x01\0\x07\0\0\0\x10\0\x02\0\
\x01\0\0\0\x04\x05\x06`\xAC\0\0\0\0\0\0";

fn codes(alloc: Global, class: &Class) -> Result<Vec<(u16, u8)>, CodeFault> {
    let mut codes = Vec::new(alloc);
    let parts = class.parts();
    if let Some(method) = parts.methods.as_slice().get(0) {
        if let Some(code) = &method.code {
            if code.maps.is_none() {
                let body = decode(alloc, class, 0)?;
                for instr in body.instrs.as_slice() {
                    if instr.args == Args::Empty {
                        codes.push((instr.at, instr.row.code))?;
                    }
                }
            }
        }
    }
    Ok(codes)
}

#[test]
fn one_method(rt: HostRuntime) -> Result<(), Fail> {
    let class = read_class(rt.alloc(), M).ok().ok_or("a class")?;
    let told = codes(rt.alloc(), &class).ok().ok_or("code")?;
    assert_eq!(rt;
        told.as_slice(),
        [(0u16, 5u8), (1, 6), (2, 96), (3, 172)].as_slice()
    );
    Ok(())
}
