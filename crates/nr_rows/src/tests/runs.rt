//! Programs that are run. What each prints was worked out by hand, by the JVM Specification (6.5) and the
//! limits of the machine.
use crate::tests::scene::{Outcome, Scene, run_over};
use crate::tests::written::class_file;
use std::process::Abort;

// Classes, as `written` has them, between `&`; the budget and the numbers of `main`'s array; the output, with `~`
// for each newline; and the status with the line, where there is one. A line that begins with `#` tells of those below.
const RUNS: &str = "\
# budgets
A 33 java/lang/Object m|9|main|([I)I|04.05.60.06.60.07.60.ac = 8 = result 10~ = 0
A 33 java/lang/Object m|9|main|([I)I|04.05.60.06.60.07.60.ac = 7 =  = 9 budget 7
A 33 java/lang/Object m|9|main|([I)I|03.3c.84.01.01.1b.05.a1.ff.fb.1b.04.60.ac|00.01.fc.00.02.01 = 14 = result 3~ = 0
A 33 java/lang/Object m|9|main|([I)I|03.3c.84.01.01.1b.05.a1.ff.fb.1b.04.60.ac|00.01.fc.00.02.01 = 13 =  = 9 budget 13
# a sum of the ints
A 33 java/lang/Object m|9|main|([I)I|03.3c.03.3d.1c.2a.be.a2.00.0f.1b.2a.1c.2e.60.3c.84.02.01.a7.ff.f1.1b.ac|00.02.fd.00.04.01.01.11 = 100 1 2 3 -10 = result -4~ = 0
A 33 java/lang/Object m|9|main|([I)I|03.3c.03.3d.1c.2a.be.a2.00.0f.1b.2a.1c.2e.60.3c.84.02.01.a7.ff.f1.1b.ac|00.02.fd.00.04.01.01.11 = 10 = result 0~ = 0
A 33 java/lang/Object m|9|main|([I)I|03.3c.03.3d.1c.2a.be.a2.00.0f.1b.2a.1c.2e.60.3c.84.02.01.a7.ff.f1.1b.ac|00.02.fd.00.04.01.01.11 = 40 2147483647 1 = result -2147483648~ = 0
# arrays: byte, char, short, boolean, int, long, of objects, of arrays
A 33 java/lang/Object m|9|main|([I)I|04.bc.08.59.03.11.00.c8.54.03.33.ac = 99 = result -56~ = 0
A 33 java/lang/Object m|9|main|([I)I|04.bc.05.59.03.02.55.03.34.ac = 99 = result 65535~ = 0
A 33 java/lang/Object m|9|main|([I)I|04.bc.09.4c.2b.03.11.4e.20.59.60.56.2b.03.35.ac = 99 = result -25536~ = 0
A 33 java/lang/Object m|9|main|([I)I|04.bc.04.4c.2b.03.06.54.2b.03.33.ac = 99 = result 1~ = 0
A 33 java/lang/Object m|9|main|([I)I|04.bc.0a.4c.2b.03.10.07.4f.2b.03.2e.ac = 99 = result 7~ = 0
A 33 java/lang/Object m|9|main|([I)I|04.bc.0b.4c.06.85.10.21.79.41.2b.03.20.50.2b.03.2f.10.21.7d.88.ac = 99 = result 3~ = 0
A 33 java/lang/Object c|A m|9|main|([I)I|05.bd.$0.be.ac = 99 = result 2~ = 0
A 33 java/lang/Object c|[[I m|9|main|([I)I|05.06.c5.$0.02.03.32.be.ac = 99 = result 3~ = 0
A 33 java/lang/Object c|A c|java/lang/Object r|10|java/lang/Object|<init>|()V m|9|main|([I)I|04.bd.$0.03.bb.$1.59.b7.$2.53.03.ac = 99 =  = 1 thrown java/lang/ArrayStoreException
A 33 java/lang/Object m|9|main|([I)I|2a.03.2e.ac = 99 =  = 1 thrown java/lang/ArrayIndexOutOfBoundsException
A 33 java/lang/Object m|9|main|([I)I|2a.03.2e.ac = 99 -2147483648 = result -2147483648~ = 0
A 33 java/lang/Object m|9|main|([I)I|02.bc.0a.be.ac = 99 =  = 1 thrown java/lang/NegativeArraySizeException
A 33 java/lang/Object m|9|main|([I)I|01.be.ac = 99 =  = 1 thrown java/lang/NullPointerException
# an object and its field
A 33 java/lang/Object f|1|x|I c|A r|10|A|<init>|()V r|9|A|x|I r|10|java/lang/Object|<init>|()V m|1|<init>|()V|2a.b7.$3.b1 m|9|main|([I)I|bb.$0.59.b7.$1.4c.2b.10.2a.b5.$2.2b.b4.$2.ac = 99 = result 42~ = 0
A 33 java/lang/Object f|1|x|I c|A r|10|A|<init>|()V r|9|A|x|I r|10|java/lang/Object|<init>|()V m|1|<init>|()V|2a.b7.$3.b1 m|9|main|([I)I|01.b4.$2.ac = 99 =  = 1 thrown java/lang/NullPointerException
A 33 java/lang/Object c|java/lang/Object r|10|java/lang/Object|<init>|()V c|A m|9|main|([I)I|bb.$0.59.b7.$1.c0.$2.57.03.ac = 99 =  = 1 thrown java/lang/ClassCastException
# virtual calls: of an override, of an inherited method, and up from an override
A 33 java/lang/Object c|B r|10|B|<init>|()V r|10|A|f|()I r|10|java/lang/Object|<init>|()V m|1|<init>|()V|2a.b7.$3.b1 m|1|f|()I|06.ac m|9|main|([I)I|bb.$0.59.b7.$1.b6.$2.ac & B 33 A r|10|A|<init>|()V r|10|A|f|()I m|1|<init>|()V|2a.b7.$0.b1 m|1|f|()I|10.07.ac = 99 = result 7~ = 0
A 33 java/lang/Object c|B r|10|B|<init>|()V r|10|A|f|()I r|10|java/lang/Object|<init>|()V m|1|<init>|()V|2a.b7.$3.b1 m|1|f|()I|06.ac m|9|main|([I)I|bb.$0.59.b7.$1.b6.$2.ac & B 33 A r|10|A|<init>|()V r|10|A|f|()I m|1|<init>|()V|2a.b7.$0.b1 = 99 = result 3~ = 0
A 33 java/lang/Object c|B r|10|B|<init>|()V r|10|A|f|()I r|10|java/lang/Object|<init>|()V m|1|<init>|()V|2a.b7.$3.b1 m|1|f|()I|06.ac m|9|main|([I)I|bb.$0.59.b7.$1.b6.$2.ac & B 33 A r|10|A|<init>|()V r|10|A|f|()I m|1|<init>|()V|2a.b7.$0.b1 m|1|f|()I|2a.b7.$1.04.60.ac = 99 = result 4~ = 0
# an interface call
A 33 java/lang/Object i|I c|A r|10|A|<init>|()V r|11|I|f|()I r|10|java/lang/Object|<init>|()V m|1|<init>|()V|2a.b7.$3.b1 m|1|f|()I|08.ac m|9|main|([I)I|bb.$0.59.b7.$1.b9.$2.01.00.ac & I 1537 java/lang/Object m|1025|f|()I = 99 = result 5~ = 0
# a recursion
A 33 java/lang/Object r|10|A|f|(I)I m|9|f|(I)I|1a.9a.00.05.04.ac.1a.1a.04.64.b8.$0.68.ac|00.01.06 m|9|main|([I)I|08.b8.$0.ac = 99 = result 120~ = 0
# throws: handled, not handled, and of a class of the program
A 33 java/lang/Object c|java/lang/ArithmeticException m|9|main|([I)I|04.03.6c.ac.57.10.09.ac|00.01.44.07.$0|0.3.4.1 = 99 = result 9~ = 0
A 33 java/lang/Object c|java/lang/Throwable m|9|main|([I)I|04.03.6c.ac.57.10.09.ac|00.01.44.07.$0|0.3.4.1 = 99 = result 9~ = 0
A 33 java/lang/Object c|java/lang/ClassCastException m|9|main|([I)I|04.03.6c.ac.57.10.09.ac|00.01.44.07.$0|0.3.4.1 = 99 =  = 1 thrown java/lang/ArithmeticException
A 33 java/lang/Object m|9|main|([I)I|04.03.6c.ac = 99 =  = 1 thrown java/lang/ArithmeticException
A 33 java/lang/Object c|p/B$1 r|10|p/B$1|<init>|()V m|9|main|([I)I|bb.$0.59.b7.$1.bf & p/B$1 33 java/lang/Exception r|10|java/lang/Exception|<init>|()V m|1|<init>|()V|2a.b7.$0.b1 = 99 =  = 1 thrown p/B$1
A 33 java/lang/Object c|p/B$1 r|10|p/B$1|<init>|()V r|10|A|f|()V c|java/lang/Exception m|9|f|()V|bb.$0.59.b7.$1.bf m|9|main|([I)I|b8.$2.03.ac.57.05.ac|00.01.45.07.$3|0.3.5.4 & p/B$1 33 java/lang/Exception r|10|java/lang/Exception|<init>|()V m|1|<init>|()V|2a.b7.$0.b1 = 99 = result 2~ = 0
# switches, by an index and by keys
A 33 java/lang/Object m|9|main|([I)I|2a.03.2e.aa.00.00.00.1b.00.00.00.01.00.00.00.02.00.00.00.15.00.00.00.18.10.0a.ac.10.14.ac.02.ac|00.03.18.02.02 = 9 1 = result 10~ = 0
A 33 java/lang/Object m|9|main|([I)I|2a.03.2e.aa.00.00.00.1b.00.00.00.01.00.00.00.02.00.00.00.15.00.00.00.18.10.0a.ac.10.14.ac.02.ac|00.03.18.02.02 = 9 2 = result 20~ = 0
A 33 java/lang/Object m|9|main|([I)I|2a.03.2e.aa.00.00.00.1b.00.00.00.01.00.00.00.02.00.00.00.15.00.00.00.18.10.0a.ac.10.14.ac.02.ac|00.03.18.02.02 = 9 3 = result -1~ = 0
A 33 java/lang/Object m|9|main|([I)I|2a.03.2e.aa.00.00.00.1b.00.00.00.01.00.00.00.02.00.00.00.15.00.00.00.18.10.0a.ac.10.14.ac.02.ac|00.03.18.02.02 = 9 0 = result -1~ = 0
A 33 java/lang/Object m|9|main|([I)I|2a.03.2e.ab.00.00.00.1f.00.00.00.02.ff.ff.ff.fb.00.00.00.19.00.00.00.64.00.00.00.1c.10.0a.ac.10.14.ac.02.ac|00.03.1c.02.02 = 9 -5 = result 10~ = 0
A 33 java/lang/Object m|9|main|([I)I|2a.03.2e.ab.00.00.00.1f.00.00.00.02.ff.ff.ff.fb.00.00.00.19.00.00.00.64.00.00.00.1c.10.0a.ac.10.14.ac.02.ac|00.03.1c.02.02 = 9 100 = result 20~ = 0
A 33 java/lang/Object m|9|main|([I)I|2a.03.2e.ab.00.00.00.1f.00.00.00.02.ff.ff.ff.fb.00.00.00.19.00.00.00.64.00.00.00.1c.10.0a.ac.10.14.ac.02.ac|00.03.1c.02.02 = 9 99 = result -1~ = 0
# printing: an int, a line, a char, a long, an array of chars; and what is printed before another end
A 33 java/lang/Object r|10|nrmi/Out|print|(I)V r|10|nrmi/Out|line|()V r|10|nrmi/Out|print|(C)V r|10|nrmi/Out|print|(J)V r|10|nrmi/Out|print|([C)V m|9|main|([I)I|10.2a.b8.$0.b8.$1.10.41.b8.$2.02.85.b8.$3.b8.$1.03.ac = 99 = 42~A-1~result 0~ = 0
A 33 java/lang/Object r|10|nrmi/Out|print|(I)V r|10|nrmi/Out|line|()V r|10|nrmi/Out|print|(C)V r|10|nrmi/Out|print|(J)V r|10|nrmi/Out|print|([C)V m|9|main|([I)I|05.bc.05.4c.2b.03.10.48.55.2b.04.11.20.ac.55.2b.b8.$4.03.ac = 99 = H€result 0~ = 0
A 33 java/lang/Object r|10|nrmi/Out|print|(I)V r|10|nrmi/Out|line|()V r|10|nrmi/Out|print|(C)V r|10|nrmi/Out|print|(J)V r|10|nrmi/Out|print|([C)V m|9|main|([I)I|10.2a.b8.$0.04.03.6c.ac = 99 = 42 = 1 thrown java/lang/ArithmeticException
A 33 java/lang/Object r|10|nrmi/Out|print|(I)V r|10|nrmi/Out|line|()V r|10|nrmi/Out|print|(C)V r|10|nrmi/Out|print|(J)V r|10|nrmi/Out|print|([C)V m|9|main|([I)I|10.2a.b8.$0.a7.00.00|00.01.05 = 9 = 42 = 9 budget 9
# limits
A 33 java/lang/Object m|9|main|([I)I|04.10.14.78.bc.0a.be.ac = 99 =  = 10 limit cells
A 33 java/lang/Object m|9|main|([I)I|04.10.14.78.04.64.bc.0a.be.ac = 99 =  = 10 limit cells
A 33 java/lang/Object m|9|main|([I)I|04.10.14.78.05.64.bc.0a.be.ac = 99 = result 1048574~ = 0
A 33 java/lang/Object r|10|A|f|()V m|9|f|()V|b8.$0.b1 m|9|main|([I)I|b8.$0.03.ac = 9999 =  = 10 limit depth
A 33 java/lang/Object r|10|A|f|()V m|9|f|()V|b8.$0.b1 m|9|main|([I)I|b8.$0.03.ac = 1023 =  = 9 budget 1023
";

/// The run of these classes with these words: the class with `main`, the budget and numbers.
pub fn run_classes<R: AllocGlobal + Abort>(rt: &R, classes: &str, words: &str) -> Outcome {
    let mut written: Vec<Vec<u8>> = Vec::new(rt.alloc());
    for class in classes.split(" & ") {
        written.push(class_file(rt, class)).expect(rt, "a file");
    }
    let paths = ["a.class", "b.class", "c.class", "d.class", "e.class"];
    let mut files: Vec<(&str, &[u8])> = Vec::new(rt.alloc());
    for (path, class) in paths.iter().zip(written.iter()) {
        files.push((*path, class.as_slice())).expect(rt, "a file");
    }
    let mut all = vec![in rt.alloc(); "run", "d"].expect(rt, "words");
    for word in words.split(' ') {
        all.push(word).expect(rt, "a word");
    }
    run_over(rt, &all, &files, Scene::SOUND)
}

/// A run of class `main`, by a line as those above.
pub fn expect<R: AllocGlobal + Abort>(rt: &R, main: &str, row: &str) {
    let mut parts = row.split(" = ");
    let classes = parts.next().expect(rt, "classes");
    let words = parts.next().expect(rt, "words");
    let out = parts.next().expect(rt, "an output");
    let mut end = parts.next().expect(rt, "an end").splitn(2, ' ');
    let status = end.next().expect(rt, "a status").parse::<u8>();
    let line = match end.next() {
        Some(line) => format!(in rt.alloc(); "nrmi: {line}\n"),
        None => Ok(String::new(rt.alloc())),
    };
    let words = format!(in rt.alloc(); "{main} {words}").expect(rt, "words");
    let found = run_classes(rt, classes, &words);
    let out = out.replace(rt.alloc(), "~", "\n").expect(rt, "an output");
    assert_eq!(rt; found.out.as_slice(), out.as_bytes(), "{row}");
    let line = line.expect(rt, "a line");
    assert_eq!(rt; found.err.as_slice(), line.as_bytes(), "{row}");
    assert_eq!(rt; found.status, status.expect(rt, "a status"), "{row}");
}

#[test]
fn programs_that_run(rt: HostRuntime) {
    for row in RUNS.lines() {
        if !row.starts_with('#') {
            expect(&rt, "A", row);
        }
    }
}

// Prints 1,024 chars of one byte again and again, until no more fit.
#[test]
fn much_output(rt: HostRuntime) {
    let class = "A 33 java/lang/Object r|10|nrmi/Out|print|([C)V c|[C \
        m|9|main|([I)I|11.04.00.bc.05.4c.2b.b8.$0.a7.ff.fc|00.01.fc.00.06.07.$1";
    let found = run_classes(&rt, class, "A 1000000000");
    assert_eq!(rt; found.status, 10);
    assert_eq!(rt; found.out.len(), 1_048_576);
    assert!(rt; found.out.iter().all(|byte| *byte == 0));
    assert_eq!(rt; found.err.as_slice(), b"nrmi: limit output\n".as_slice());
}
