//! Programs that are refused: by loading, by linking, by the look-up of `main` and by verifying.
use crate::tests::run::{expect, number};
use crate::tests::scene::{M_CLASS, Scene};
use std::process::Abort;

// An offset, the bytes that are put there, the status and the line: programs that are refused, by the
// JVM Specification (4.10.1, 5.3.5) and the spelling of faults.
const REFUSALS: &str = "\
66|2|5|link Cycle M
74|8|5|link NoMain M
76|6|4|class M.class BadName 6
88|1|6|verify Op M main([I)I 1 StackOver
90|0|6|verify Op M main([I)I 0 LocalRange 0
95|172|6|verify Op M main([I)I 0 StackShort 0
96|0|6|verify Op M main([I)I 2 StackShort 1
98|96|6|verify Op M main([I)I 3 StackShort 1
95|96 96 96 172|6|verify Op M main([I)I 0 StackShort 0
95|167 0 0 172|6|verify NoMap M main([I)I 0
95|178 0 0 172|4|class M.class Code 0 OutOfProfile 0 178
95|5 6 96 87|6|verify FallsOff M main([I)I 3
95|42 172 0 0|6|verify Op M main([I)I 1 NeedsKind 0 int [I
95|1 172 0 0|6|verify Op M main([I)I 1 NeedsKind 0 int null
95|9 172 0 0|6|verify Op M main([I)I 1 NeedsKind 0 int long
95|4 176 0 0|6|verify Op M main([I)I 1 ReturnKind
95|4 191 0 0|6|verify Op M main([I)I 1 NeedsKind 0 java/lang/Throwable int
95|4 190 172 0|6|verify Op M main([I)I 1 NeedsKind 0 reference int
";

// A program that is refused.
fn expect_refusal<R: AllocGlobal + Abort>(rt: &R, row: &str) {
    let mut parts = row.split('|');
    let mut at = number(rt, parts.next());
    let mut class = M_CLASS;
    let bytes = parts.next().expect(rt, "bytes");
    for byte in bytes.split(' ') {
        let byte = number(rt, Some(byte));
        assert!(rt; at < class.len() && byte < 256);
        class[at] = byte as u8;
        at += 1;
    }
    let status = parts.next().expect(rt, "a status");
    let status = status.parse::<u8>().expect(rt, "a status");
    let fault = parts.next().expect(rt, "a fault");
    let line = format!(in rt.alloc(); "nrmi: {fault}\n").expect(rt, "a line");
    let words = ["run", "d", "M", "4"];
    expect(rt, &words, &class, Scene::SOUND, (status, "", &line))
}

#[test]
fn programs_that_are_refused(rt: HostRuntime) {
    for row in REFUSALS.lines() {
        expect_refusal(&rt, row);
    }
}
