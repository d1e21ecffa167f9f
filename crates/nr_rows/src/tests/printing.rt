//! What is printed of chars: UTF-8, in which a surrogate pair is one character, and a half alone a question mark.
use crate::tests::runs::expect;
use std::process::Abort;

// `main` prints its numbers as the chars of one array.
const AT_ONCE: &str = "\
A 33 java/lang/Object r|10|nrmi/Out|print|([C)V r|10|nrmi/Out|print|(C)V r|10|nrmi/Out|print|(I)V r|10|nrmi/Out|print|(J)V r|10|nrmi/Out|line|()V c|[I c|[C m|9|main|([I)I|2a.be.bc.05.4c.03.3d.1c.2a.be.a2.00.0f.2b.1c.2a.1c.2e.55.84.02.01.a7.ff.f1.2b.b8.$0.03.ac|00.02.ff.00.07.00.03.07.$5.07.$6.01.00.00.ff.00.11.00.03.07.$5.07.$6.01.00.00";

// It prints each as a char by itself.
const ONE_BY_ONE: &str = "\
A 33 java/lang/Object r|10|nrmi/Out|print|([C)V r|10|nrmi/Out|print|(C)V r|10|nrmi/Out|print|(I)V r|10|nrmi/Out|print|(J)V r|10|nrmi/Out|line|()V c|[I m|9|main|([I)I|03.3c.1b.2a.be.a2.00.0f.2a.1b.2e.b8.$1.84.01.01.a7.ff.f1.03.ac|00.02.ff.00.02.00.02.07.$5.01.00.00.ff.00.11.00.02.07.$5.01.00.00";

// The budget and the numbers, and what is printed.
const ARRAYS: &str = "\
999 72 8364 55357 56832 55296 = H€😀?
999 = 
999 56832 55357 = ??
999 55357 55357 56832 65 = ?😀A
999 55295 57344 55296 = \u{d7ff}\u{e000}?
999 127 128 2047 2048 65535 = \u{7f}\u{80}\u{7ff}\u{800}\u{ffff}
999 56319 57343 55296 56320 = \u{10ffff}\u{10000}
";

const CHARS: &str = "\
999 55357 56832 55296 233 65601 = ???éA
";

fn expect_prints<R: AllocGlobal + Abort>(rt: &R, class: &str, line: &str) {
    let row = format!(in rt.alloc(); "{class} = {line}result 0~ = 0");
    expect(rt, "A", &row.expect(rt, "a row"));
}

#[test]
fn printed_chars(rt: HostRuntime) {
    for line in ARRAYS.lines() {
        expect_prints(&rt, AT_ONCE, line);
    }
    for line in CHARS.lines() {
        expect_prints(&rt, ONE_BY_ONE, line);
    }
}
