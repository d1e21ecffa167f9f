//! Each exception that the machine throws itself, caught and not caught (JVM Specification 6.5).
use crate::tests::runs::run_classes;
use std::process::Abort;

// What is thrown; where in the code the instruction that throws begins and ends; the code from offset 7 on, as `written` has it;
// entries of the constant pool from number 1 on, and further members of the class A, where there are any; and behind `&` further
// classes. A line that begins with `#` tells of those below.
const THROWS: &str = "\
# array loads
java/lang/NullPointerException = 9.10 = 01.03.2e
java/lang/ArrayIndexOutOfBoundsException = 11.12 = 04.bc.0a.04.2e
java/lang/ArrayIndexOutOfBoundsException = 11.12 = 04.bc.0a.02.2e
java/lang/NullPointerException = 9.10 = 01.03.2f
java/lang/ArrayIndexOutOfBoundsException = 11.12 = 04.bc.0b.04.2f
java/lang/ArrayIndexOutOfBoundsException = 11.12 = 04.bc.0b.02.2f
java/lang/NullPointerException = 9.10 = 01.03.32
java/lang/ArrayIndexOutOfBoundsException = 12.13 = 04.bd.$1.04.32 = c|A
java/lang/ArrayIndexOutOfBoundsException = 12.13 = 04.bd.$1.02.32 = c|A
java/lang/NullPointerException = 9.10 = 01.03.33
java/lang/ArrayIndexOutOfBoundsException = 11.12 = 04.bc.08.04.33
java/lang/ArrayIndexOutOfBoundsException = 11.12 = 04.bc.08.02.33
java/lang/NullPointerException = 9.10 = 01.03.34
java/lang/ArrayIndexOutOfBoundsException = 11.12 = 04.bc.05.04.34
java/lang/ArrayIndexOutOfBoundsException = 11.12 = 04.bc.05.02.34
java/lang/NullPointerException = 9.10 = 01.03.35
java/lang/ArrayIndexOutOfBoundsException = 11.12 = 04.bc.09.04.35
java/lang/ArrayIndexOutOfBoundsException = 11.12 = 04.bc.09.02.35
# array stores
java/lang/NullPointerException = 10.11 = 01.03.05.4f
java/lang/ArrayIndexOutOfBoundsException = 12.13 = 04.bc.0a.04.05.4f
java/lang/ArrayIndexOutOfBoundsException = 12.13 = 04.bc.0a.02.05.4f
java/lang/NullPointerException = 10.11 = 01.03.09.50
java/lang/ArrayIndexOutOfBoundsException = 12.13 = 04.bc.0b.04.09.50
java/lang/ArrayIndexOutOfBoundsException = 12.13 = 04.bc.0b.02.09.50
java/lang/NullPointerException = 10.11 = 01.03.01.53
java/lang/ArrayIndexOutOfBoundsException = 13.14 = 04.bd.$1.04.01.53 = c|A
java/lang/ArrayIndexOutOfBoundsException = 13.14 = 04.bd.$1.02.01.53 = c|A
java/lang/NullPointerException = 10.11 = 01.03.05.54
java/lang/ArrayIndexOutOfBoundsException = 12.13 = 04.bc.08.04.05.54
java/lang/ArrayIndexOutOfBoundsException = 12.13 = 04.bc.08.02.05.54
java/lang/NullPointerException = 10.11 = 01.03.05.55
java/lang/ArrayIndexOutOfBoundsException = 12.13 = 04.bc.05.04.05.55
java/lang/ArrayIndexOutOfBoundsException = 12.13 = 04.bc.05.02.05.55
java/lang/NullPointerException = 10.11 = 01.03.05.56
java/lang/ArrayIndexOutOfBoundsException = 12.13 = 04.bc.09.04.05.56
java/lang/ArrayIndexOutOfBoundsException = 12.13 = 04.bc.09.02.05.56
java/lang/ArrayStoreException = 15.16 = 04.bd.$1.03.04.bc.0a.53 = c|A
java/lang/ArrayIndexOutOfBoundsException = 15.16 = 04.bd.$1.04.04.bc.0a.53 = c|A
# division
java/lang/ArithmeticException = 9.10 = 04.03.6c
java/lang/ArithmeticException = 9.10 = 04.03.70
java/lang/ArithmeticException = 9.10 = 0a.09.6d
java/lang/ArithmeticException = 9.10 = 0a.09.71
# fields and lengths
java/lang/NullPointerException = 8.11 = 01.b4.$1 = f|1|x|I r|9|A|x|I
java/lang/NullPointerException = 9.12 = 01.04.b5.$1 = f|1|x|I r|9|A|x|I
java/lang/NullPointerException = 8.9 = 01.be
# calls
java/lang/NullPointerException = 8.11 = 01.b6.$1 = r|10|A|f|()V m|1|f|()V|b1
java/lang/NullPointerException = 8.11 = 01.b7.$1 = r|10|A|f|()V m|2|f|()V|b1
java/lang/NullPointerException = 8.13 = 01.b9.$1.01.00 = r|11|I|f|()V & I 1537 java/lang/Object m|1025|f|()V
java/lang/IncompatibleClassChangeError = 14.19 = bb.$1.59.b7.$2.b9.$3.01.00 = c|java/lang/Object r|10|java/lang/Object|<init>|()V r|11|I|f|()V & I 1537 java/lang/Object m|1025|f|()V
java/lang/IncompatibleClassChangeError = 10.15 = 04.bc.0a.b9.$1.01.00 = r|11|I|f|()V & I 1537 java/lang/Object m|1025|f|()V
java/lang/AbstractMethodError = 14.17 = bb.$1.59.b7.$2.b6.$3 = c|C r|10|C|<init>|()V r|10|B|f|()V & B 1057 java/lang/Object r|10|java/lang/Object|<init>|()V m|1|<init>|()V|2a.b7.$0.b1 m|1025|f|()V & C 33 B r|10|B|<init>|()V m|1|<init>|()V|2a.b7.$0.b1
java/lang/AbstractMethodError = 14.19 = bb.$1.59.b7.$2.b9.$3.01.00 = c|C r|10|C|<init>|()V r|11|I|f|()V & I 1537 java/lang/Object m|1025|f|()V & C 33 java/lang/Object i|I r|10|java/lang/Object|<init>|()V m|1|<init>|()V|2a.b7.$0.b1
java/lang/AbstractMethodError = 14.19 = bb.$1.59.b7.$2.b9.$3.01.00 = c|C r|10|C|<init>|()V r|11|I|f|()V & I 1537 java/lang/Object m|1025|f|()V & C 33 java/lang/Object i|I r|10|java/lang/Object|<init>|()V m|1|<init>|()V|2a.b7.$0.b1 m|2|f|()V|b1
java/lang/AbstractMethodError = 14.17 = bb.$1.59.b7.$2.b6.$3 = c|C r|10|C|<init>|()V r|10|C|g|()V & B 1057 java/lang/Object r|10|java/lang/Object|<init>|()V m|1|<init>|()V|2a.b7.$0.b1 m|1025|f|()V & C 33 B r|10|B|<init>|()V m|1|<init>|()V|2a.b7.$0.b1 r|10|B|f|()V m|1|g|()V|2a.b7.$1.b1
java/lang/NullPointerException = 8.11 = 01.b8.$1 = r|10|nrmi/Out|print|([C)V
# new arrays
java/lang/NegativeArraySizeException = 8.10 = 02.bc.0a
java/lang/NegativeArraySizeException = 8.11 = 02.bd.$1 = c|A
java/lang/NegativeArraySizeException = 9.13 = 02.04.c5.$1.02 = c|[[I
java/lang/NegativeArraySizeException = 9.13 = 03.02.c5.$1.02 = c|[[I
java/lang/NegativeArraySizeException = 12.16 = 04.10.14.78.02.c5.$1.02 = c|[[I
# throws and casts
java/lang/NullPointerException = 7.10 = b8.$1 = r|10|A|f|()V m|9|f|()V|01.bf
java/lang/ClassCastException = 10.13 = 04.bc.0a.c0.$1 = c|A
java/lang/ClassCastException = 10.13 = 04.bc.0a.c0.$1 = c|[J
";

// The class A. Its `main` runs the code of a line and then returns -1. Where what is thrown is caught, it returns 9.
fn class_of<R: AllocGlobal + Abort>(rt: &R, line: &str, is_caught: bool) -> String {
    let mut halves = line.splitn(2, " & ");
    let mut parts = halves.next().expect(rt, "a class").split(" = ");
    let thrown = parts.next().expect(rt, "a class");
    let range = parts.next().expect(rt, "a range");
    let code = parts.next().expect(rt, "code");
    let more = parts.next().unwrap_or("c|A");
    let handler = if is_caught { range } else { "" };
    let rest = if is_caught { ".3.1" } else { "" };
    let joint = if line.contains(" & ") { " & " } else { "" };
    let others = halves.next().unwrap_or("");
    let maps = "00.02.ff.00.03.00.00.00.01.07.$0.ff.00.03.00.00.00.00";
    let text = format!(in rt.alloc();
        "A 33 java/lang/Object c|{thrown} {more} \
        m|9|main|([I)I|a7.00.07.57.10.09.ac.{code}.02.ac|{maps}|{handler}{rest}{joint}{others}"
    );
    text.expect(rt, "a class")
}

fn expect<R: AllocGlobal + Abort>(rt: &R, line: &str) {
    let caught = run_classes(rt, &class_of(rt, line, true), "A 99");
    assert_eq!(rt; caught.out.as_slice(), b"result 9\n".as_slice(), "{line}");
    assert_eq!(rt; caught.status, 0, "{line}");
    let thrown = line.split(' ').next().expect(rt, "a class");
    let told = format!(in rt.alloc(); "nrmi: thrown {thrown}\n").expect(rt, "a line");
    let free = run_classes(rt, &class_of(rt, line, false), "A 99");
    assert_eq!(rt; free.err.as_slice(), told.as_bytes(), "{line}");
    assert_eq!(rt; free.status, 1, "{line}");
    assert!(rt; free.out.is_empty(), "{line}");
}

#[test]
fn what_the_machine_throws(rt: HostRuntime) {
    for line in THROWS.lines() {
        if !line.starts_with('#') {
            expect(&rt, line);
        }
    }
}
