//! Each fault at its place.

use super::files::M;
use crate::read_class;
use std::alloc::{AllocError, Global};
use std::process::Abort;
use std::test::Fail;

// Files from their first byte, and the fault.
const FRONTS: &str = "\
|Short(0)
CAFEBA|Short(0)
CAFEBABF|BadMagic
CAFEBABE 00|Short(4)
CAFEBABE 0000 00|Short(6)
CAFEBABE 0001 0032|Version(1, 50)
CAFEBABE 0000 0033|Version(0, 51)
CAFEBABE 0000 0032 00|Short(8)
CAFEBABE 0000 0032 0002|Short(10)
CAFEBABE 0000 0032 0002 00|PoolTag(10, 0)
CAFEBABE 0000 0032 0002 02|PoolTag(10, 2)
CAFEBABE 0000 0032 0002 0D|PoolTag(10, 13)
CAFEBABE 0000 0032 0002 01 00|Short(11)
CAFEBABE 0000 0032 0002 01 0002 41|Short(11)
CAFEBABE 0000 0032 0002 03 000000|Short(11)
CAFEBABE 0000 0032 0002 04 000000|Short(11)
CAFEBABE 0000 0032 0002 05 00000000000000|Short(11)
CAFEBABE 0000 0032 0002 06 00000000000000|Short(11)
CAFEBABE 0000 0032 0002 07 00|Short(11)
CAFEBABE 0000 0032 0002 08 00|Short(11)
CAFEBABE 0000 0032 0002 09 00|Short(11)
CAFEBABE 0000 0032 0002 0A 0001 00|Short(13)
CAFEBABE 0000 0032 0002 0B 0001|Short(13)
CAFEBABE 0000 0032 0002 0C 0001 00|Short(13)
CAFEBABE 0000 0032 0003 01 0001 41 0D|PoolTag(14, 13)
CAFEBABE 0000 0032 0003 05 0000000000000001 0D|Short(19)
CAFEBABE 0000 0032 0004 05 0000000000000001 0D|PoolTag(19, 13)
CAFEBABE 0000 0032 0004 06 0000000000000001 0D|PoolTag(19, 13)
CAFEBABE 0000 0032 0004 03 00000001 0D|PoolTag(15, 13)
CAFEBABE 0000 0032 0002 05 0000000000000001 0021 0000 0000 0000 0000 0000 0000|Form(PoolKind(1))
CAFEBABE 0000 0032 0000 0D|Short(10)
CAFEBABE 0000 0032 0001 0D|Short(10)
CAFEBABE 0000 0032 0001 0021 00|Short(12)
CAFEBABE 0000 0032 0001 0021 0000|Short(14)
CAFEBABE 0000 0032 0001 0021 0000 0000|Short(16)
CAFEBABE 0000 0032 0001 0021 0000 0000 0001|Short(18)
CAFEBABE 0000 0032 0001 0021 0000 0000 0002 0000 00|Short(20)
CAFEBABE 0000 0032 0001 0021 0000 0000 0000 0000 0000 0000|Form(BadName(0))
";

// The first 57 bytes of a file: up to the interfaces, with the texts Code, ConstantValue and StackMapTable at the
// indices 1, 2 and 3.
const BASE: &[u8] =
    b"\xCA\xFE\xBA\xBE\0\0\0\x32\0\x04\x01\0\x04Code\x01\0\x0DConstantValue\x01\0\x0DStackMapTable\0\x21\0\0\0\0\0\0";

// What stands behind them, and the fault.
const MEMBERS: &str = "\
|Short(57)
0001|Short(59)
0001 0000 00|Short(61)
0001 0000 0000|Short(63)
0001 0000 0000 0000|Short(65)
0001 0000 0000 0000 0001|Short(67)
0001 0000 0000 0000 0001 0002 000000|Short(69)
0001 0000 0000 0000 0001 0002 00000002 00|Short(73)
0001 0000 0000 0000 0001 0002 00000001 00|Short(73)
0001 0000 0000 0000 0001 0002 00000001 0007|AttrLength(67)
0001 0000 0000 0000 0001 0002 00000003 0007|AttrLength(67)
0001 0000 0000 0000 0001 0001 00000002 00|Short(73)
0001 0000 0000 0000 0001 0000 00000003 0000|Short(73)
0001 0000 0000 0000 0001 0009 000000|Short(69)
0001 0000 0000 0000 0002 0002 00000002 0007 00|Short(75)
0001 0000 0000 0000 0002 0002 00000002 0007 0002|DoubledAttr(75)
0001 0000 0000 0000 0003 0002 00000002 0007 0003 00000001 FF 0002|DoubledAttr(82)
0001 0000 0000 0000 0002 0003 00000003 FFFFFF 0002 00000004 0007|AttrLength(76)
0000|Short(59)
0000 0001|Short(61)
0000 0001 0000|Short(63)
0000 0001 0000 0000 00|Short(65)
0000 0001 0000 0000 0000|Short(67)
0000 0001 0000 0000 0000 0001|Short(69)
0000 0001 0000 0000 0000 0001 0001|Short(71)
0000 0001 0000 0000 0000 0001 0001 00000000|Short(75)
0000 0001 0000 0000 0000 0001 0001 00000000 0001|Short(77)
0000 0001 0000 0000 0000 0001 0001 00000000 0001 0001 000000|Short(79)
0000 0001 0000 0000 0000 0001 0001 00000000 0001 0001 00000002 B1|Short(83)
0000 0001 0000 0000 0000 0001 0001 00000000 0001 0001 00000001 B1|Short(84)
0000 0001 0000 0000 0000 0001 0001 00000000 0001 0001 00000001 B1 0001|Short(86)
0000 0001 0000 0000 0000 0001 0001 00000000 0001 0001 00000001 B1 0001 0000|Short(88)
0000 0001 0000 0000 0000 0001 0001 00000000 0001 0001 00000001 B1 0001 0000 0000|Short(90)
0000 0001 0000 0000 0000 0001 0001 00000000 0001 0001 00000001 B1 0001 0000 0000 0000 00|Short(92)
0000 0001 0000 0000 0000 0001 0001 00000000 0001 0001 00000001 B1 0001 0000 0000 0000 0000|Short(94)
0000 0001 0000 0000 0000 0001 0001 0000000C 0001 0001 00000001 B1 0000 0000|AttrLength(69)
0000 0001 0000 0000 0000 0001 0001 0000000E 0001 0001 00000001 B1 0000 0000 00|AttrLength(69)
0000 0001 0000 0000 0000 0001 0001 0000000D 0001 0001 00000001 B1 0000 0000|Short(88)
0000 0001 0000 0000 0000 0001 0001 00000000 0001 0001 00000001 B1 0000 0001|Short(88)
0000 0001 0000 0000 0000 0001 0001 00000000 0001 0001 00000001 B1 0000 0001 0003|Short(90)
0000 0001 0000 0000 0000 0001 0001 00000000 0001 0001 00000001 B1 0000 0001 0003 00000002 00|Short(94)
0000 0001 0000 0000 0000 0001 0001 00000000 0001 0001 00000001 B1 0000 0001 0002 00000002 00|Short(94)
0000 0001 0000 0000 0000 0001 0001 00000000 0001 0001 00000001 B1 0000 0002 0003 00000001 FF 0003|DoubledAttr(95)
0000 0001 0000 0000 0000 0001 0001 00000000 0001 0001 00000001 B1 0000 0001 0003 00000001 FF|AttrLength(69)
0000 0001 0000 0000 0000 0002 0001 0000000D 0001 0001 00000001 B1 0000 0000 0001|DoubledAttr(88)
0000 0001 0000 0000 0000 0002 0001 0000000D 0001 0001 00000001 B1 0000 0000 0002 000000|Short(90)
0000 0001 0000 0000 0000 0002 0002 00000001 FF 0001 00000000 0001|Short(84)
0000 0000|Short(61)
0000 0000 0001|Short(63)
0000 0000 0001 0001|Short(65)
0000 0000 0001 0001 00000002 00|Short(69)
0000 0000 0001 0001 00000001 FF 00|Trailing(70)
0000 0000 0000 FF|Trailing(63)
0000 0000 0000|Form(BadName(0))
";

// Whole files whose pool has the texts M, N, I, J and I at the indices 1, 3, 5, 6 and 7, and the fault. Two fields have
// the same name and descriptor by the same indices, and by others of the same texts; before them stand fields of which
// just one of the two is the same.
const DOUBLED_FIELDS: &str = "\
0002 0000 0005 0005 0000 0000 0005 0005 0000 0000 0000|Form(Doubled(5))
0002 0000 0005 0005 0000 0000 0007 0007 0000 0000 0000|Form(Doubled(7))
0004 0000 0005 0005 0000 0000 0005 0006 0000 0000 0001 0005 0000 0000 0007 0006 0000 0000 0000|Form(Doubled(7))
";

// The bytes before the fields of these files.
const BEFORE_FIELDS: &[u8] =
    b"\xCA\xFE\xBA\xBE\0\0\0\x32\0\x08\x01\0\x01M\x07\0\x01\x01\0\x01N\x07\0\x03\x01\0\x01I\x01\0\x01J\x01\0\x01I\0\x21\0\x02\0\x04\0\0";

// What stands behind the fields' count of the stored class, 71 bytes, and the fault.
const DOUBLED_METHODS: &str = "\
0002 0401 0005 0006 0000 0401 0005 0006 0000 0000|Form(Doubled(5))
0003 0401 0005 0006 0000 0401 0001 0006 0000 0401 0001 0006 0000 0000|Form(Doubled(1))
";

// Of the stored class: how many of its bytes there are, and the fault.
const CUTS: &str = "\
0|Short(0)
9|Short(8)
12|Short(11)
38|Short(37)
60|Short(55)
99|Short(99)
104|Short(103)
";

// Of the stored class: the offset of a byte, the byte that is put there, and the fault.
const CHANGES: &str = "\
7|51|Version(0, 51)
14|2|PoolTag(14, 2)
16|2|Form(PoolKind(2))
64|1|Form(BadName(1))
66|0|Form(PoolKind(0))
73|1|Form(OutOfProfile(0))
76|2|Form(BadName(2))
78|5|Form(BadDesc(5))
82|5|Form(CodePresence(0))
86|15|AttrLength(81)
94|5|AttrLength(81)
104|1|Short(105)
";

// The bytes in front and those that the digits spell.
fn bytes_of(alloc: Global, front: &[u8], digits: &str) -> Result<Vec<u8>, AllocError> {
    let mut bytes = Vec::from_slice(alloc, front)?;
    let mut high = None;
    for letter in digits.chars() {
        let Some(digit) = letter.to_digit(16) else {
            continue;
        };
        high = match high {
            None => Some(digit),
            Some(first) => {
                bytes.push(u8::try_from(first << 4 | digit).unwrap_or(0))?;
                None
            }
        };
    }
    Ok(bytes)
}

fn expect<R: AllocGlobal + Abort>(rt: &R, bytes: &[u8], row: &str) -> Result<(), Fail> {
    assert!(rt; bytes.len() < 1000);
    let want = row.rsplit('|').next().ok_or("a fault")?;
    let fault = read_class(rt.alloc(), bytes).err().ok_or("no class")?;
    let told = format!(in rt.alloc(); "{fault:?}")?;
    assert_eq!(rt; told.as_str(), want, "{row}");
    Ok(())
}

fn expect_behind<R: AllocGlobal + Abort>(rt: &R, front: &[u8], table: &str) -> Result<(), Fail> {
    for row in table.lines() {
        let digits = row.split('|').next().ok_or("digits")?;
        let bytes = bytes_of(rt.alloc(), front, digits)?;
        expect(rt, &bytes, row)?;
    }
    Ok(())
}

#[test]
fn each_fault(rt: HostRuntime) -> Result<(), Fail> {
    expect_behind(&rt, &[], FRONTS)?;
    expect_behind(&rt, BASE, MEMBERS)?;
    expect_behind(&rt, BEFORE_FIELDS, DOUBLED_FIELDS)?;
    expect_behind(&rt, M.get(..71).ok_or("bytes")?, DOUBLED_METHODS)
}

fn expect_change<R: AllocGlobal + Abort>(rt: &R, row: &str) -> Result<(), Fail> {
    let mut parts = row.split('|');
    let at = parts.next().ok_or("an offset")?.parse::<usize>()?;
    let byte = parts.next().ok_or("a byte")?.parse::<u8>()?;
    let mut bytes = Vec::from_slice(rt.alloc(), M)?;
    *bytes.get_mut(at).ok_or("a place")? = byte;
    expect(rt, &bytes, row)
}

#[test]
fn faults_of_the_stored_class(rt: HostRuntime) -> Result<(), Fail> {
    for row in CUTS.lines() {
        let len = row.split('|').next().ok_or("a length")?.parse::<usize>()?;
        expect(&rt, M.get(..len).ok_or("bytes")?, row)?;
    }
    for row in CHANGES.lines() {
        expect_change(&rt, row)?;
    }
    let longer = bytes_of(rt.alloc(), M, "00")?;
    expect(&rt, &longer, "Trailing(105)")
}
