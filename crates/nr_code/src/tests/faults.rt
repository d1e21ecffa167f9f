//! Each fault at its place.

use crate::load_class;
use std::alloc::{AllocError, Global};
use std::process::Abort;
use std::test::Fail;

// A class file as far as the name of its method's attribute. Its pool has, from index 1, a class M
// and its super, the name and descriptor of `main`, the names of the attributes (8), an int, a
// float, a long and a double (9, 10, 11, 13), a string (15), a name and type, a field, a method and
// an interface's method of M (16 to 19), the classes [[I (21) and one by no name (23), a field of
// that one (24), an interface's method of 5 slots (27) and one by no descriptor (29), an array of
// 255 dimensions (31) and one of floats (33).
const FRONT: &str = "\
CAFEBABE0000003200220100014D0700010100106A6176612F6C616E672F4F626A6563740700030100046D61\
696E010005285B492949010004436F646501000D537461636B4D61705461626C650300000007040000000005\
00000000000000000600000000000000000800010C0005000609000200100A000200100B000200100100035B\
5B4907001401000361C0800700160900170010010007284A5B495A29560C000500190B0002001A0C00050001\
0B0002001C0101005B5B5B5B5B5B5B5B5B5B5B5B5B5B5B5B5B5B5B5B5B5B5B5B5B5B5B5B5B5B5B5B5B5B5B5B\
5B5B5B5B5B5B5B5B5B5B5B5B5B5B5B5B5B5B5B5B5B5B5B5B5B5B5B5B5B5B5B5B5B5B5B5B5B5B5B5B5B5B5B5B\
5B5B5B5B5B5B5B5B5B5B5B5B5B5B5B5B5B5B5B5B5B5B5B5B5B5B5B5B5B5B5B5B5B5B5B5B5B5B5B5B5B5B5B5B\
5B5B5B5B5B5B5B5B5B5B5B5B5B5B5B5B5B5B5B5B5B5B5B5B5B5B5B5B5B5B5B5B5B5B5B5B5B5B5B5B5B5B5B5B\
5B5B5B5B5B5B5B5B5B5B5B5B5B5B5B5B5B5B5B5B5B5B5B5B5B5B5B5B5B5B5B5B5B5B5B5B5B5B5B5B5B5B5B5B\
5B5B5B5B5B5B5B5B5B5B5B5B5B5B5B5B5B5B5B5B5B5B5B5B5B5B5B5B5B5B5B5B5B5B5B5B5B5B5B5B5B5B5B49\
07001E0100025B4607002000210002000400000000000100090005000600010007\
";

// Code; handlers; the contents of StackMapTable | what loading tells.
const ROWS: &str = "\
BA 00 01 AC;;|Code(0, OutOfProfile(0, 186))
CA AC;;|Code(0, UnknownOp(0))
A7 00 02 AC;;|Code(0, Target(0, 2))
12 01 AC;;|Code(0, PoolUse(0))
B2 00 00 AC;;|Code(0, OutOfProfile(0, 178))
FF;;|Code(0, UnknownOp(0))
C9 00 00 00 00;;|Code(0, OutOfProfile(0, 201))
00 10;;|Code(0, Short(1))
00 11 00;;|Code(0, Short(1))
00 00 12;;|Code(0, Short(2))
13 00;;|Code(0, Short(0))
A7 00;;|Code(0, Short(0))
C8 00 00 00;;|Code(0, Short(0))
84 00;;|Code(0, Short(0))
BC;;|Code(0, Short(0))
B9 00 1B 05;;|Code(0, Short(0))
C5 00 15;;|Code(0, Short(0))
C4;;|Code(0, Short(0))
C4 15 00;;|Code(0, Short(0))
C4 84 00 00 00;;|Code(0, Short(0))
C4 00;;|Code(0, OutOfProfile(0, 196))
00 C4 A9 00 00;;|Code(0, OutOfProfile(1, 196))
12 09 AC;;|Ok
12 0A AC;;|Code(0, OutOfProfile(0, 18))
13 00 0A AC;;|Code(0, OutOfProfile(0, 19))
12 0B AC;;|Code(0, PoolUse(0))
12 0F AC;;|Code(0, OutOfProfile(0, 18))
12 02 AC;;|Code(0, OutOfProfile(0, 18))
12 17 AC;;|Code(0, PoolUse(0))
12 00 AC;;|Code(0, PoolUse(0))
12 22 AC;;|Code(0, PoolUse(0))
14 00 0B AC;;|Ok
14 00 0D AC;;|Code(0, OutOfProfile(0, 20))
14 00 09 AC;;|Code(0, PoolUse(0))
B4 00 11 AC;;|Ok
B5 00 11 AC;;|Ok
B4 00 12 AC;;|Code(0, PoolUse(0))
B4 00 18 AC;;|Code(0, PoolUse(0))
B6 00 12 AC;;|Ok
B7 00 13 AC;;|Code(0, PoolUse(0))
B8 00 11 AC;;|Code(0, PoolUse(0))
B9 00 1B 05 00 AC;;|Ok
B9 00 1B 04 00 AC;;|Code(0, PoolUse(0))
B9 00 1B 05 01 AC;;|Code(0, PoolUse(0))
B9 00 12 05 00 AC;;|Code(0, PoolUse(0))
B9 00 1D 01 00 AC;;|Code(0, PoolUse(0))
BB 00 02 AC;;|Ok
BB 00 01 AC;;|Code(0, PoolUse(0))
BB 00 21 AC;;|Ok
BD 00 02 AC;;|Ok
BD 00 1F AC;;|Code(0, PoolUse(0))
BB 00 1F AC;;|Ok
C0 00 17 AC;;|Code(0, PoolUse(0))
C1 00 15 AC;;|Ok
C5 00 15 00 AC;;|Code(0, PoolUse(0))
C5 00 15 02 AC;;|Ok
C5 00 15 03 AC;;|Code(0, PoolUse(0))
C5 00 02 01 AC;;|Code(0, PoolUse(0))
C5 00 21 01 AC;;|Code(0, PoolUse(0))
BC 04 AC;;|Ok
BC 06 AC;;|Code(0, OutOfProfile(0, 188))
BC 0C AC;;|Code(0, OutOfProfile(0, 188))
99 00 03 AC;;|Ok
99 FF FF AC;;|Code(0, Target(0, -1))
00 00 A7 FF FE AC;;|Ok
00 00 A7 FF FF AC;;|Ok
00 C8 FF FF FF FF AC;;|Ok
C8 00 01 00 00 AC;;|Code(0, Target(0, 65536))
A7 00 04 AC;;|Code(0, Target(0, 4))
A7 00 02 12 01 AC;;|Code(0, PoolUse(3))
AA 000000 00000010 00000000 00000000 00000010 AC;;|Code(0, Target(0, 16))
AA 010203 00000014 00000000 00000000 00000014 AC;;|Ok
00 AA 0000 00000013 00000000 00000000 00000013 AC;;|Ok
000000 AA 00000012 00000000 00000000 00000012 AC;;|Code(0, Target(3, 21))
AA 000000 00000014 00000001 00000000 00000014 AC;;|Code(0, SwitchOrder(0))
AA 000000 00000018 FFFFFFFF 00000000 00000018 00000018 AC;;|Ok
AA 000000 00000018 FFFFFFFF 00000000 00000018 000000;;|Code(0, Short(0))
AA 000000 00000014 80000000 7FFFFFFF 00000014 AC;;|Code(0, Short(0))
AA 000000 00000003 00000000 00000000 00000004 AC;;|Code(0, Target(0, 3))
AB 000000 0000000C 00000000 AC;;|Ok
AB 000000 0000000C 80000000 AC;;|Code(0, SwitchOrder(0))
AB 000000 0000001C 00000002 00000005 0000001C 00000005 0000001C AC;;|Code(0, SwitchOrder(0))
AB 000000 0000001C 00000002 FFFFFFFF 0000001C 00000001 0000001C AC;;|Ok
AB 000000 0000001C 00000002 00000001 0000001C FFFFFFFF 0000001C AC;;|Code(0, SwitchOrder(0))
AB 000000 0000001C 00000002 00000005 0000001C 00000005 000000;;|Code(0, Short(0))
AB 0000;;|Code(0, Short(0))
C4 15 01 00 C4 84 01 00 FF FF AC;;|Ok
2A AC;0000 0001 0001 0000;|Ok
2A AC;0000 0002 0000 0002;|Ok
2A AC;0000 0003 0000 0000;|Code(0, HandlerRange(0))
2A AC;0000 0002 0002 0000;|Code(0, HandlerRange(0))
2A AC;0001 0001 0000 0000;|Code(0, HandlerRange(0))
2A AC;0000 0001 0000 0000 0001 0000 0000 0000;|Code(0, HandlerRange(1))
2A AC;0000 0001 0000 0001;|Code(0, HandlerRange(0))
2A AC;0000 0001 0000 0017;|Code(0, HandlerRange(0))
10 00 AC;0001 0002 0000 0000;|Code(0, HandlerRange(0))
10 00 AC;0000 0001 0000 0000;|Code(0, HandlerRange(0))
99 00 02 AC;0000 0009 0000 0000;|Code(0, Target(0, 2))
00 00 AC;;00|Code(0, Short(0))
00 00 AC;;0000|Ok
00 00 AC;;0001|Code(0, Short(2))
00 00 AC;;0001 00|Ok
00 00 AC;;0002 00 00|Ok
00 00 AC;;0001 03|Code(0, MapOrder(2))
10 00 AC;;0001 01|Code(0, MapOrder(2))
00 00 AC;;0002 01 01|Code(0, MapOrder(3))
00 00 AC;;0001 80|Code(0, MapTag(2))
00 00 AC;;0001 F6|Code(0, MapTag(2))
00 00 AC;;0001 00 00|Code(0, MapTag(3))
00 00 AC;;0001 40|Code(0, Short(3))
00 00 AC;;0001 40 01|Ok
00 00 AC;;0001 40 02|Code(0, MapTag(3))
00 00 AC;;0001 40 03|Code(0, MapTag(3))
00 00 AC;;0001 40 09|Code(0, MapTag(3))
00 00 AC;;0001 43 02|Code(0, MapOrder(2))
00 00 AC;;0001 40 07 0002|Ok
00 00 AC;;0001 40 07 0015|Ok
00 00 AC;;0001 40 07 0021|Code(0, MapTag(3))
00 00 AC;;0001 40 07 0001|Code(0, MapTag(3))
00 00 AC;;0001 40 07 00|Code(0, Short(4))
00 00 AC;;0001 40 08 0000|Code(0, MapTag(3))
00 BB 00 02 AC;;0001 40 08 0001|Ok
00 00 AC;;0001 F7 00|Code(0, Short(3))
00 00 AC;;0001 F7 0001 04|Ok
00 00 AC;;0001 FA 0001|Ok
00 00 AC;;0001 F9 0009|Code(0, MapTag(2))
00 00 AC;;0002 FA 0000 FA 0000|Code(0, MapTag(5))
00 00 AC;;0002 FC 0000 04 F9 0000|Ok
00 00 AC;;0001 FB 0002|Ok
00 00 AC;;0001 FB 0003|Code(0, MapOrder(2))
00 00 AC;;0001 FE 0000 00 01 05|Ok
00 00 AC;;0001 FE 0000 00 01|Code(0, Short(7))
00 00 AC;;0001 FF 0000 0001 01 0002 05 06|Ok
00 00 AC;;0001 FF 0000 0001 01 00|Code(0, Short(8))
00 00 AC;0001 0001 0000 0000;80|Code(0, HandlerRange(0))
";

// The bytes that the digits spell.
fn bytes_of(alloc: Global, digits: &str) -> Result<Vec<u8>, AllocError> {
    let mut bytes = Vec::new(alloc);
    let mut high = None;
    for letter in digits.chars() {
        let Some(digit) = letter.to_digit(16) else {
            continue;
        };
        high = match high {
            None => Some(digit),
            Some(first) => {
                bytes.push(u8::try_from(first << 4 | digit).unwrap_or(0))?;
                None
            }
        };
    }
    Ok(bytes)
}

fn put_number(bytes: &mut Vec<u8>, number: usize) -> Result<(), AllocError> {
    for shift in [24u32, 16, 8, 0] {
        bytes.push(u8::try_from(number >> shift & 0xFF).unwrap_or(0))?;
    }
    Ok(())
}

// The contents of a Code attribute.
fn code_of(
    alloc: Global,
    code: &[u8],
    handlers: &[u8],
    maps: &[u8],
) -> Result<Vec<u8>, AllocError> {
    let mut bytes = Vec::from_slice(alloc, b"\0\x02\0\x01".as_slice())?;
    put_number(&mut bytes, code.len())?;
    bytes.extend_from_slice(code)?;
    bytes.push(0)?;
    bytes.push(u8::try_from(handlers.len() / 8).unwrap_or(0))?;
    bytes.extend_from_slice(handlers)?;
    if maps.is_empty() {
        bytes.extend_from_slice(b"\0\0".as_slice())?;
        return Ok(bytes);
    }
    bytes.extend_from_slice(b"\0\x01\0\x08".as_slice())?;
    put_number(&mut bytes, maps.len())?;
    bytes.extend_from_slice(maps)?;
    Ok(bytes)
}

fn told(alloc: Global, bytes: &[u8]) -> Result<String, Fail> {
    if bytes.len() >= 2000 {
        return Err("a long file".into());
    }
    Ok(match load_class(alloc, bytes) {
        Ok(_) => format!(in alloc; "Ok")?,
        Err(fault) => format!(in alloc; "{fault:?}")?,
    })
}

fn expect<R: AllocGlobal + Abort>(rt: &R, front: &[u8], row: &str) -> Result<(), Fail> {
    let alloc: Global = rt.alloc();
    let mut parts = row.split('|');
    let digits = parts.next().ok_or("digits")?;
    let want = parts.next().ok_or("an answer")?;
    let mut digits = digits.split(';');
    let code = bytes_of(alloc, digits.next().ok_or("code")?)?;
    let handlers = bytes_of(alloc, digits.next().ok_or("handlers")?)?;
    let maps = bytes_of(alloc, digits.next().ok_or("maps")?)?;
    let contents = code_of(alloc, &code, &handlers, &maps)?;
    let mut file = Vec::from_slice(alloc, front)?;
    put_number(&mut file, contents.len())?;
    file.extend_from_slice(&contents)?;
    file.extend_from_slice(b"\0\0".as_slice())?;
    assert_eq!(rt; told(alloc, &file)?.as_str(), want, "{row}");
    Ok(())
}

#[test]
fn each_fault(rt: HostRuntime) -> Result<(), Fail> {
    let front = bytes_of(rt.alloc(), FRONT)?;
    for row in ROWS.lines() {
        expect(&rt, &front, row)?;
    }
    Ok(())
}
