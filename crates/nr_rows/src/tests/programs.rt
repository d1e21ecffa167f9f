//! Programs of several classes: a callee changes what its caller holds.
use crate::tests::runs::expect;
use std::process::Abort;

// The class with `main`, and then lines as those of `runs`.
const ROWS: &str = "\
# a callee writes a field and then divides by 0
demo/Main = demo/Node 33 java/lang/Object i|nrmi/Restorable f|0|v|I f|0|next|Ldemo/Node; r|10|java/lang/Object|<init>|()V m|1|<init>|()V|2a.b7.$0.b1 & demo/Svc 33 java/lang/Object r|9|demo/Node|v|I m|9|fail|(Ldemo/Node;)V|2a.07.b5.$0.04.03.6c.57.b1 & demo/Main 33 java/lang/Object c|demo/Node r|10|demo/Node|<init>|()V r|9|demo/Node|v|I r|10|demo/Svc|fail|(Ldemo/Node;)V m|9|main|([I)I|bb.$0.59.b7.$1.4c.2b.04.b5.$2.2b.b8.$3.2b.b4.$2.ac = 99 =  = 1 thrown java/lang/ArithmeticException
demo/Main = demo/Node 33 java/lang/Object i|nrmi/Restorable f|0|v|I f|0|next|Ldemo/Node; r|10|java/lang/Object|<init>|()V m|1|<init>|()V|2a.b7.$0.b1 & demo/Svc 33 java/lang/Object r|9|demo/Node|v|I m|9|fail|(Ldemo/Node;)V|2a.07.b5.$0.04.03.6c.57.b1 & demo/Main 33 java/lang/Object c|demo/Node r|10|demo/Node|<init>|()V r|9|demo/Node|v|I r|10|demo/Svc|fail|(Ldemo/Node;)V c|nrmi/RemoteFault r|10|nrmi/Out|print|(I)V r|10|nrmi/Out|line|()V m|9|main|([I)I|bb.$0.59.b7.$1.4c.2b.04.b5.$2.2b.b8.$3.03.ac.57.2b.b4.$2.b8.$5.b8.$6.03.ac|00.01.ff.00.13.00.02.00.07.$0.00.01.07.$4|13.17.19.5 = 99 =  = 1 thrown java/lang/ArithmeticException
demo/Main = demo/Node 33 java/lang/Object i|nrmi/Restorable f|0|v|I f|0|next|Ldemo/Node; r|10|java/lang/Object|<init>|()V m|1|<init>|()V|2a.b7.$0.b1 & demo/Svc 33 java/lang/Object r|9|demo/Node|v|I m|9|fail|(Ldemo/Node;)V|2a.07.b5.$0.04.03.6c.57.b1 & demo/Main 33 java/lang/Object c|demo/Node r|10|demo/Node|<init>|()V r|9|demo/Node|v|I r|10|demo/Svc|fail|(Ldemo/Node;)V c|java/lang/ArithmeticException r|10|nrmi/Out|print|(I)V r|10|nrmi/Out|line|()V m|9|main|([I)I|bb.$0.59.b7.$1.4c.2b.04.b5.$2.2b.b8.$3.03.ac.57.2b.b4.$2.b8.$5.b8.$6.03.ac|00.01.ff.00.13.00.02.00.07.$0.00.01.07.$4|13.17.19.5 = 99 = 4~result 0~ = 0
# 14 steps: 8 of a callee and 6 of main
demo/Inc = demo/Svc 33 java/lang/Object m|9|inc|([I)V|2a.03.5c.2e.04.60.4f.b1 & demo/Inc 33 java/lang/Object r|10|demo/Svc|inc|([I)V m|9|main|([I)I|2a.b8.$0.2a.03.2e.ac = 14 1 = result 2~ = 0
demo/Inc = demo/Svc 33 java/lang/Object m|9|inc|([I)V|2a.03.5c.2e.04.60.4f.b1 & demo/Inc 33 java/lang/Object r|10|demo/Svc|inc|([I)V m|9|main|([I)I|2a.b8.$0.2a.03.2e.ac = 13 1 =  = 9 budget 13
demo/Inc = demo/Svc 33 java/lang/Object m|9|inc|([I)V|2a.03.5c.2e.04.60.4f.b1 & demo/Inc 33 java/lang/Object r|10|demo/Svc|inc|([I)V m|9|main|([I)I|2a.b8.$0.2a.03.2e.ac = 8 1 =  = 9 budget 8
demo/Inc = demo/Svc 33 java/lang/Object m|9|inc|([I)V|2a.03.5c.2e.04.60.4f.b1 & demo/Inc 33 java/lang/Object r|10|demo/Svc|inc|([I)V m|9|main|([I)I|2a.b8.$0.2a.03.2e.ac = 1000 =  = 1 thrown java/lang/ArrayIndexOutOfBoundsException
# two names of one array: a[0] = 7, then b[0] = b[0] + 1
demo/Two = demo/Svc 33 java/lang/Object m|9|two|([I[I)V|2a.03.10.07.4f.2b.03.5c.2e.04.60.4f.b1 & demo/Two 33 java/lang/Object r|10|demo/Svc|two|([I[I)V m|9|main|([I)I|2a.2a.b8.$0.2a.03.2e.ac = 99 1 = result 8~ = 0
# a callee makes an array of 1,048,576 ints, which has one cell too many; one returns 524,288 longs
demo/Big = demo/Svc 33 java/lang/Object m|9|big|()[I|04.10.14.78.bc.0a.b0 m|9|longs|()[J|04.10.13.78.bc.0b.b0 & demo/Big 33 java/lang/Object r|10|demo/Svc|big|()[I m|9|main|([I)I|b8.$0.be.ac = 99 =  = 10 limit cells
demo/Longs = demo/Svc 33 java/lang/Object m|9|big|()[I|04.10.14.78.bc.0a.b0 m|9|longs|()[J|04.10.13.78.bc.0b.b0 & demo/Longs 33 java/lang/Object r|10|demo/Svc|longs|()[J m|9|main|([I)I|b8.$0.be.ac = 99 = result 524288~ = 0
# a tree of 1,000 accounts: the callee adds 10 to each and cuts the right half loose
book/Main = book/Account 33 java/lang/Object i|nrmi/Restorable f|0|id|I f|0|balance|J f|0|left|Lbook/Account; f|0|right|Lbook/Account; r|10|java/lang/Object|<init>|()V r|9|book/Account|id|I r|9|book/Account|balance|J m|0|<init>|(I)V|2a.b7.$0.2a.1b.b5.$1.2a.1b.85.b5.$2.b1 & book/Bank 33 java/lang/Object r|10|java/lang/Object|<init>|()V r|9|book/Book|root|Lbook/Account; r|9|book/Plus|d|J r|10|book/Bank|add|(Lbook/Account;J)I r|9|book/Account|right|Lbook/Account; r|9|book/Account|balance|J r|9|book/Account|left|Lbook/Account; m|1|<init>|()V|2a.b7.$0.b1 m|9|post|(Lbook/Book;Lbook/Plus;)I|2a.b4.$1.2b.b4.$2.b8.$3.3d.2a.b4.$1.01.b5.$4.1c.ac m|10|add|(Lbook/Account;J)I|2a.c7.00.05.03.ac.2a.59.b4.$5.1f.61.b5.$5.04.2a.b4.$6.1f.b8.$3.60.2a.b4.$4.1f.b8.$3.60.ac|00.01.06||5.3 & book/Book 33 java/lang/Object i|nrmi/Restorable f|0|root|Lbook/Account; r|10|java/lang/Object|<init>|()V m|1|<init>|()V|2a.b7.$0.b1 & book/Plus 33 java/lang/Object i|nrmi/Restorable f|0|d|J r|10|java/lang/Object|<init>|()V m|1|<init>|()V|2a.b7.$0.b1 & book/Main 33 java/lang/Object r|10|java/lang/Object|<init>|()V c|book/Account r|10|book/Account|<init>|(I)V r|10|book/Main|tree|(II)Lbook/Account; r|9|book/Account|left|Lbook/Account; r|9|book/Account|right|Lbook/Account; r|9|book/Account|id|I r|9|book/Account|balance|J r|10|book/Main|sum|(Lbook/Account;)J c|book/Book r|10|book/Book|<init>|()V r|9|book/Book|root|Lbook/Account; r|10|book/Main|find|(Lbook/Account;I)Lbook/Account; c|book/Plus r|10|book/Plus|<init>|()V j|10 r|9|book/Plus|d|J r|10|book/Bank|post|(Lbook/Book;Lbook/Plus;)I r|10|nrmi/Out|print|(J)V r|10|nrmi/Out|line|()V m|1|<init>|()V|2a.b7.$0.b1 m|10|tree|(II)Lbook/Account;|1a.1b.a4.00.05.01.b0.1a.1b.60.05.6c.3d.bb.$1.59.1c.b7.$2.4e.2d.1a.1c.04.64.b8.$3.b5.$4.2d.1c.04.60.1b.b8.$3.b5.$5.2d.b0|00.01.07 m|10|find|(Lbook/Account;I)Lbook/Account;|2a.b4.$6.1b.9f.00.1a.1b.2a.b4.$6.a2.00.0a.2a.b4.$4.a7.00.07.2a.b4.$5.4b.a7.ff.e4.2a.b0|00.04.00.16.43.07.$1.03 m|10|sum|(Lbook/Account;)J|2a.c7.00.07.09.a7.00.17.2a.b4.$7.2a.b4.$4.b8.$8.61.2a.b4.$5.b8.$8.61.ad|00.02.08.53.04 m|9|main|([I)I|bb.$9.59.b7.$10.4c.2b.03.11.03.e7.b8.$3.b5.$11.2b.b4.$11.10.07.b8.$12.4d.2b.b4.$11.11.03.84.b8.$12.4e.bb.$13.59.b7.$14.3a.04.19.04.14.$15.b5.$16.2b.19.04.b8.$17.36.05.2c.b4.$7.b8.$18.b8.$19.2d.b4.$7.b8.$18.b8.$19.2b.b4.$11.b8.$8.b8.$18.b8.$19.15.05.ac|||3.6 = 1000000 = 17~910~129750~result 1000~ = 0
# the program of the guide: it prints the sum of its numbers
hello/Main = hello/Main 33 java/lang/Object r|10|java/lang/Object|<init>|()V c|[I c|[C r|10|nrmi/Out|print|([C)V r|10|nrmi/Out|print|(I)V r|10|nrmi/Out|line|()V m|1|<init>|()V|2a.b7.$0.b1 m|9|main|([I)I|07.bc.05.59.03.10.73.55.59.04.10.75.55.59.05.10.6d.55.59.06.10.20.55.4c.03.3d.2a.4e.2d.be.36.04.03.36.05.15.05.15.04.a2.00.14.2d.15.05.2e.36.06.1c.15.06.60.3d.84.05.01.a7.ff.eb.2b.b8.$3.1c.b8.$4.b8.$5.2a.be.ac|00.02.ff.00.23.00.06.07.$1.07.$2.01.07.$1.01.01.00.00.f8.00.17||4.7 = 1000 3 4 = sum 7~result 2~ = 0
";

fn expect_program<R: AllocGlobal + Abort>(rt: &R, row: &str) {
    let mut halves = row.splitn(2, " = ");
    let main = halves.next().expect(rt, "a class");
    expect(rt, main, halves.next().expect(rt, "a line"));
}

#[test]
fn programs_of_several_classes(rt: HostRuntime) {
    for row in ROWS.lines() {
        if !row.starts_with('#') {
            expect_program(&rt, row);
        }
    }
}
