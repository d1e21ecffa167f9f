//! Bodies with what they say or their first fault, at places that were counted by hand.

use crate::{
    ReplyBody, ServeFault, call_bytes, hello_bytes, read_call, read_hello, read_reply, reply_bytes,
};
use std::alloc::{AllocError, Global};
use std::process::Abort;
use std::test::Fail;

// Hellos: version, last byte of the digest, service.
const HELLOS: &str = "\
|Short(0)
00|Short(0)
0001|Short(2)
0001 000102030405060708090A0B0C0D0E0F101112|Short(2)
0001 000102030405060708090A0B0C0D0E0F101112FF|Short(22)
0001 000102030405060708090A0B0C0D0E0F101112FF 00|Short(22)
0001 000102030405060708090A0B0C0D0E0F101112FF 0003 4142|Short(22)
0001 000102030405060708090A0B0C0D0E0F101112FF 0001 00|NameBad(22)
0001 000102030405060708090A0B0C0D0E0F101112FF 0002 C080|NameBad(22)
0001 000102030405060708090A0B0C0D0E0F101112FF 0001 FF 00|NameBad(22)
0001 000102030405060708090A0B0C0D0E0F101112FF 0001 41 00|Trailing(25)
0001 000102030405060708090A0B0C0D0E0F101112FF 0000 00 00|Trailing(24)
0001 000102030405060708090A0B0C0D0E0F101112FF 0008 64656D6F2F537663|1 255 demo/Svc
0002 000102030405060708090A0B0C0D0E0F101112FF 0000|2 255 
FFFF 000102030405060708090A0B0C0D0E0F101112FF 0001 61|65535 255 a
";

// Calls: number, budget, name, descriptor, arguments, how long the stream is.
const CALLS: &str = "\
|Short(0)
000000|Short(0)
00000001|Short(4)
00000001 00000000000003|Short(4)
00000001 0000000000000000 FF|BudgetBad(0)
00000001 000000003B9ACA01|BudgetBad(1000000001)
00000001 FFFFFFFFFFFFFFFF|BudgetBad(18446744073709551615)
00000001 00000000000003E8|Short(12)
00000001 00000000000003E8 00|Short(12)
00000001 00000000000003E8 0003 696E|Short(12)
00000001 00000000000003E8 0003 69C063|NameBad(12)
00000001 00000000000003E8 0001 00|NameBad(12)
00000001 00000000000003E8 0003 696E63|Short(17)
00000001 00000000000003E8 0003 696E63 0005 285B4929|Short(17)
00000001 00000000000003E8 0003 696E63 0001 80|NameBad(17)
00000001 00000000000003E8 0003 696E63 0005 285B492956|Short(24)
00000001 00000000000003E8 0003 696E63 0005 285B492956 01|Short(25)
00000001 00000000000003E8 0003 696E63 0005 285B492956 01 00|ArgKind(25)
00000001 00000000000003E8 0003 696E63 0005 285B492956 01 04 ACED|ArgKind(25)
00000001 00000000000003E8 0003 696E63 0005 285B492956 02 FF 03|ArgKind(25)
00000001 00000000000003E8 0003 696E63 0005 285B492956 01 01 000000|Short(26)
00000001 00000000000003E8 0003 696E63 0005 285B492956 01 02 00000000000000|Short(26)
00000001 00000000000003E8 0003 696E63 0005 285B492956 02 03|Short(26)
00000001 00000000000003E8 0003 696E63 0005 285B492956 02 01 00000007 09|ArgKind(30)
00000001 00000000000003E8 0003 696E63 0005 285B492956 01 03 ACED0005 7572 0002 5B49 0000000000000000 02 0000 7870 00000001 00000001|1 1000 inc ([I)V [Reference] 31 bytes
00000000 0000000000000001 0000 0002 2829 00|0 1  () [] 0 bytes
FFFFFFFF 000000003B9ACA00 0001 61 0001 62 06 01 FFFFFFFE 02 FFFFFFFFFFFFFFFE 03 03 01 7FFFFFFF 02 000000012A05F200 FF|4294967295 1000000000 a b [Int(-2), Long(-2), Reference, Reference, Int(2147483647), Long(5000000000)] 1 bytes
";

// Replies: number, printed bytes, result, count, how long the stream is; or number and fault.
const REPLIES: &str = "\
|Short(0)
000000|Short(0)
00000001|Short(4)
00000001 FF|Outcome(4)
00000001 0B 00|Outcome(4)
00000001 00 000000|Short(5)
00000001 00 00000003 4142|Short(9)
00000001 00 00000000|Short(9)
00000001 00 00000000 04|Outcome(9)
00000001 00 00000002 4142 FF 00|Outcome(11)
00000001 00 00000000 00 000000|Short(10)
00000001 00 00000000 01 000000|Short(10)
00000001 00 00000000 02 00000000000000|Short(10)
00000001 00 00000000 01 00000007|Short(14)
00000001 00 00000000 00 00000001 ACED0005 7572 0002 5B49 0000000000000000 02 0000 7870 00000001 00000002|1 [] Void 1 31 bytes
00000001 00 00000002 410A 01 80000000 00000000|1 [65, 10] Int(-2147483648) 0 0 bytes
00000001 00 00000000 02 FFFFFFFFFFFFFFFF FFFFFFFF 00|1 [] Long(-1) 4294967295 1 bytes
00000000 00 00000000 03 00000000 ACED000570|0 [] Reference 0 5 bytes
00000001 01|1 NoSuchMethod
00000001 01 00|Trailing(5)
00000001 02|Short(5)
00000001 02 0002 41|Short(5)
00000001 02 0001 00|NameBad(5)
00000001 02 001D 6A6176612F6C616E672F41726974686D65746963457863657074696F6E|1 Thrown java/lang/ArithmeticException
00000001 02 001D 6A6176612F6C616E672F41726974686D65746963457863657074696F6E 00|Trailing(36)
00000001 03|1 BudgetSpent
00000001 04|1 TooDeep
00000001 05|1 HeapFull
00000001 06 0008 64656D6F2F44696D|1 NotSendable demo/Dim
00000001 06 0003 EDA041 00|NameBad(5)
00000001 07|1 ReplyTooLong
00000001 08|1 OutputTooLong
00000001 09|Short(5)
00000000 09 01|0 BadRequest 1
00000001 09 FF|1 BadRequest 255
00000001 09 01 00|Trailing(6)
00000001 0A|1 NoMemory
00000001 0A 0A|Trailing(5)
";

// The bytes that the digits spell.
fn bytes_of(alloc: Global, digits: &str) -> Result<Vec<u8>, AllocError> {
    let mut bytes = Vec::new(alloc);
    let mut high = None;
    for letter in digits.chars() {
        let Some(digit) = letter.to_digit(16) else {
            continue;
        };
        high = match high {
            None => Some(digit),
            Some(first) => {
                bytes.push(u8::try_from(first << 4 | digit).unwrap_or(0))?;
                None
            }
        };
    }
    Ok(bytes)
}

/// What a hello says, or its fault. One that is read is written to the same bytes.
fn hello_told<R: AllocGlobal + Abort>(rt: &R, bytes: &[u8]) -> Result<String, Fail> {
    assert!(rt; bytes.len() < 1000);
    let m = match read_hello(rt.alloc(), bytes) {
        Ok(m) => m,
        Err(fault) => return Ok(format!(in rt.alloc(); "{fault:?}")?),
    };
    assert_eq!(rt; hello_bytes(rt.alloc(), &m)?.as_slice(), bytes);
    let service = m.service.as_bytes().escape_ascii();
    let last = m.digest[19];
    Ok(format!(in rt.alloc(); "{} {last} {service}", m.version)?)
}

fn call_told<R: AllocGlobal + Abort>(rt: &R, bytes: &[u8]) -> Result<String, Fail> {
    assert!(rt; bytes.len() < 1000);
    let m = match read_call(rt.alloc(), bytes) {
        Ok(m) => m,
        Err(fault) => return Ok(format!(in rt.alloc(); "{fault:?}")?),
    };
    assert!(rt; m.is_writable());
    assert_eq!(rt; call_bytes(rt.alloc(), &m)?.as_slice(), bytes);
    let name = m.name.as_bytes().escape_ascii();
    let desc = m.desc.as_bytes().escape_ascii();
    let args = m.args.as_slice();
    let left = m.stream.len();
    Ok(format!(in rt.alloc();
        "{} {} {name} {desc} {args:?} {left} bytes",
        m.number, m.budget
    )?)
}

fn fault_told(alloc: Global, fault: &ServeFault) -> Result<String, AllocError> {
    match fault {
        ServeFault::Thrown(class) => {
            format!(in alloc; "Thrown {}", class.as_bytes().escape_ascii())
        }
        ServeFault::NotSendable(class) => {
            format!(in alloc; "NotSendable {}", class.as_bytes().escape_ascii())
        }
        ServeFault::BadRequest(code) => format!(in alloc; "BadRequest {code}"),
        fault => format!(in alloc; "{fault:?}"),
    }
}

fn body_told(alloc: Global, body: &ReplyBody) -> Result<String, AllocError> {
    match body {
        ReplyBody::Refused(fault) => fault_told(alloc, fault),
        ReplyBody::Returned {
            printed,
            result,
            count,
            stream,
        } => {
            let output = printed.as_slice();
            let left = stream.len();
            format!(in alloc; "{output:?} {result:?} {count} {left} bytes")
        }
    }
}

fn reply_told<R: AllocGlobal + Abort>(rt: &R, bytes: &[u8]) -> Result<String, Fail> {
    assert!(rt; bytes.len() < 1000);
    let m = match read_reply(rt.alloc(), bytes) {
        Ok(m) => m,
        Err(fault) => return Ok(format!(in rt.alloc(); "{fault:?}")?),
    };
    assert!(rt; m.body.is_writable());
    assert_eq!(rt; reply_bytes(rt.alloc(), &m)?.as_slice(), bytes);
    let body = body_told(rt.alloc(), &m.body)?;
    Ok(format!(in rt.alloc(); "{} {body}", m.number)?)
}

#[test]
fn bodies(rt: HostRuntime) -> Result<(), Fail> {
    for row in HELLOS.lines() {
        let (digits, want) = row.split_once('|').ok_or("a row")?;
        assert_eq!(rt;
            hello_told(&rt, &bytes_of(rt.alloc(), digits)?)?.as_str(),
            want,
            "{row}"
        );
    }
    for row in CALLS.lines() {
        let (digits, want) = row.split_once('|').ok_or("a row")?;
        assert_eq!(rt;
            call_told(&rt, &bytes_of(rt.alloc(), digits)?)?.as_str(),
            want,
            "{row}"
        );
    }
    for row in REPLIES.lines() {
        let (digits, want) = row.split_once('|').ok_or("a row")?;
        assert_eq!(rt;
            reply_told(&rt, &bytes_of(rt.alloc(), digits)?)?.as_str(),
            want,
            "{row}"
        );
    }
    Ok(())
}
