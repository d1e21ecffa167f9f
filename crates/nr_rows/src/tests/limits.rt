//! What a run may take at most, at its edge: frames and their places, cells, printed bytes.
use crate::tests::runs::{expect, run_classes};
use std::process::Abort;

// Lines as those of `runs`.
const ROWS: &str = "\
# frames: main and 1,023 more
A 33 java/lang/Object r|10|A|f|(I)V m|9|f|(I)V|1a.99.00.09.1a.04.64.b8.$0.b1|00.01.ff.00.0a.00.01.01.00.00 m|9|main|([I)I|2a.03.2e.b8.$0.06.ac = 99999 1022 = result 3~ = 0
A 33 java/lang/Object r|10|A|f|(I)V m|9|f|(I)V|1a.99.00.09.1a.04.64.b8.$0.b1|00.01.ff.00.0a.00.01.01.00.00 m|9|main|([I)I|2a.03.2e.b8.$0.06.ac = 99999 1023 =  = 10 limit depth
# a step that would pass a limit counts: 4 of main, 6 of each f but 5 of the last before its call
A 33 java/lang/Object r|10|A|f|(I)V m|9|f|(I)V|1a.99.00.09.1a.04.64.b8.$0.b1|00.01.ff.00.0a.00.01.01.00.00 m|9|main|([I)I|2a.03.2e.b8.$0.06.ac = 6142 1023 =  = 10 limit depth
A 33 java/lang/Object r|10|A|f|(I)V m|9|f|(I)V|1a.99.00.09.1a.04.64.b8.$0.b1|00.01.ff.00.0a.00.01.01.00.00 m|9|main|([I)I|2a.03.2e.b8.$0.06.ac = 6141 1023 =  = 9 budget 6141
# places for local variables and operands of all frames: 65,536. main has 8, or by itself as many as are told
A 33 java/lang/Object r|10|A|f|()V m|9|f|()V|b1|||0.65528 m|9|main|([I)I|b8.$0.06.ac = 9 = result 3~ = 0
A 33 java/lang/Object r|10|A|f|()V m|9|f|()V|b1|||0.65529 m|9|main|([I)I|b8.$0.06.ac = 9 =  = 10 limit depth
A 33 java/lang/Object r|10|A|f|()V m|9|f|()V|b1|||65528.0 m|9|main|([I)I|b8.$0.06.ac = 9 = result 3~ = 0
A 33 java/lang/Object r|10|A|f|()V m|9|f|()V|b1|||65529.0 m|9|main|([I)I|b8.$0.06.ac = 9 =  = 10 limit depth
A 33 java/lang/Object r|10|A|f|()V m|9|f|()V|b1|||0.65529 m|9|main|([I)I|b8.$0.06.ac = 1 =  = 10 limit depth
A 33 java/lang/Object m|9|main|([I)I|07.ac|||1.65535 = 2 = result 4~ = 0
A 33 java/lang/Object m|9|main|([I)I|07.ac|||2.65535 = 2 =  = 10 limit depth
A 33 java/lang/Object m|9|main|([I)I|07.ac|||2.65535 = 1 =  = 10 limit depth
# cells: 1,048,576, of which main's array has 1 and one for each number
A 33 java/lang/Object m|9|main|([I)I|04.10.14.78.2a.03.2e.64.bc.0a.be.ac = 99 3 = result 1048573~ = 0
A 33 java/lang/Object m|9|main|([I)I|04.10.14.78.2a.03.2e.64.bc.0a.be.ac = 99 2 =  = 10 limit cells
A 33 java/lang/Object m|9|main|([I)I|04.10.14.78.2a.03.2e.64.bc.0a.be.ac = 99 0 =  = 10 limit cells
A 33 java/lang/Object m|9|main|([I)I|04.10.14.78.2a.03.2e.64.bc.0b.be.ac = 99 3 = result 1048573~ = 0
A 33 java/lang/Object c|A m|9|main|([I)I|04.10.14.78.2a.03.2e.64.bd.$0.be.ac = 99 2 =  = 10 limit cells
# an object has one and one for each field; an exception of the machine has one
A 33 java/lang/Object f|1|x|J c|A r|10|A|<init>|()V r|10|java/lang/Object|<init>|()V m|1|<init>|()V|2a.b7.$2.b1 m|9|main|([I)I|04.10.14.78.2a.03.2e.64.bc.0a.57.bb.$0.57.08.ac = 99 5 = result 5~ = 0
A 33 java/lang/Object f|1|x|J c|A r|10|A|<init>|()V r|10|java/lang/Object|<init>|()V m|1|<init>|()V|2a.b7.$2.b1 m|9|main|([I)I|04.10.14.78.2a.03.2e.64.bc.0a.57.bb.$0.57.08.ac = 99 4 =  = 10 limit cells
A 33 java/lang/Object c|java/lang/ArithmeticException m|9|main|([I)I|04.10.14.78.2a.03.2e.64.bc.0a.57.04.03.6c.ac.57.10.09.ac|00.01.ff.00.0f.00.00.00.01.07.$0|13.14.15.1 = 99 4 = result 9~ = 0
A 33 java/lang/Object c|java/lang/ArithmeticException m|9|main|([I)I|04.10.14.78.2a.03.2e.64.bc.0a.57.04.03.6c.ac.57.10.09.ac|00.01.ff.00.0f.00.00.00.01.07.$0|13.14.15.1 = 99 3 =  = 10 limit cells
# multianewarray counts all its arrays, and none below a length of 0
A 33 java/lang/Object c|[[I m|9|main|([I)I|05.04.10.13.78.2a.03.2e.64.c5.$0.02.be.ac = 99 4 = result 2~ = 0
A 33 java/lang/Object c|[[I m|9|main|([I)I|05.04.10.13.78.2a.03.2e.64.c5.$0.02.be.ac = 99 3 =  = 10 limit cells
A 33 java/lang/Object c|[[[[I m|9|main|([I)I|04.10.10.78.59.5c.c5.$0.04.be.ac = 99 =  = 10 limit cells
A 33 java/lang/Object c|[[I m|9|main|([I)I|03.02.04.7c.c5.$0.02.be.ac = 99 = result 0~ = 0
A 33 java/lang/Object c|[[[I m|9|main|([I)I|04.03.02.04.7c.c5.$0.03.be.ac = 99 = result 1~ = 0
A 33 java/lang/Object c|[[[I m|9|main|([I)I|05.06.c5.$0.02.04.32.be.ac = 99 = result 3~ = 0
A 33 java/lang/Object c|[[[I c|[[I m|9|main|([I)I|05.06.c5.$0.02.04.32.05.32.c1.$1.ac = 99 = result 0~ = 0
# what was printed before a limit is written
A 33 java/lang/Object r|10|nrmi/Out|print|(I)V m|9|main|([I)I|10.2a.b8.$0.04.10.14.78.bc.0a.57.06.ac = 99 = 42 = 10 limit cells
";

#[test]
fn limits_at_their_edge(rt: HostRuntime) {
    for row in ROWS.lines() {
        if !row.starts_with('#') {
            expect(&rt, "A", row);
        }
    }
}

// Prints 1,048,575 chars 0, each one byte. Then it prints as many again as a number below 0 tells, or else the char of the number.
const ALMOST_FULL: &str = "\
A 33 java/lang/Object r|10|nrmi/Out|print|([C)V r|10|nrmi/Out|print|(C)V c|[I m|9|main|([I)I|04.10.12.78.bc.05.4c.2b.b8.$0.2b.b8.$0.2b.b8.$0.04.10.12.78.04.64.bc.05.b8.$0.2a.03.2e.9c.00.0e.2a.03.2e.74.bc.05.b8.$0.03.ac.2a.03.2e.b8.$1.03.ac|00.01.ff.00.2f.00.01.07.$2.00.00";

// The number, and the last byte where it fits: an array of two chars, a char of one byte, one that is half a pair, one of two bytes.
const LAST: &str = "\
-2
120 = x
55296 = ?
233
";

fn expect_last<R: AllocGlobal + Abort>(rt: &R, row: &str) {
    let mut parts = row.split(" = ");
    let number = parts.next().expect(rt, "a number");
    let words = format!(in rt.alloc(); "A 99 {number}").expect(rt, "words");
    let found = run_classes(rt, ALMOST_FULL, &words);
    match parts.next() {
        Some(last) => {
            let end = format!(in rt.alloc(); "\u{0}{last}result 0\n").expect(rt, "an end");
            assert!(rt; found.out.as_slice().ends_with(end.as_bytes()), "{row}");
            assert_eq!(rt; (found.out.len(), found.status), (1_048_585, 0), "{row}");
        }
        None => {
            assert!(rt; found.out.as_slice().ends_with(b"\0"), "{row}");
            assert_eq!(rt; (found.out.len(), found.status), (1_048_575, 10), "{row}");
            let line = b"nrmi: limit output\n".as_slice();
            assert_eq!(rt; found.err.as_slice(), line, "{row}");
        }
    }
}

#[test]
fn the_last_byte_of_output(rt: HostRuntime) {
    for row in LAST.lines() {
        expect_last(&rt, row);
    }
}
