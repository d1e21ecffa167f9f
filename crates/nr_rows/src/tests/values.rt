//! What values are kept, methods selected, exceptions handled and numbers printed. Each line was worked out by hand, by the
//! JVM Specification and the rules of the project.
use crate::tests::runs::expect;

// Lines as those of `runs`.
const ROWS: &str = "\
# a method's result and arguments aren't narrowed; what a slot keeps is
A 33 java/lang/Object r|10|A|f|()B m|9|f|()B|11.00.c8.ac m|9|main|([I)I|b8.$0.ac = 9 = result 200~ = 0
A 33 java/lang/Object r|10|A|f|(B)I m|9|f|(B)I|1a.ac m|9|main|([I)I|11.00.c8.b8.$0.ac = 9 = result 200~ = 0
A 33 java/lang/Object r|10|A|f|()S m|9|f|()S|11.4e.20.59.60.ac m|9|main|([I)I|b8.$0.ac = 9 = result 40000~ = 0
A 33 java/lang/Object r|10|A|f|(S)I m|9|f|(S)I|1a.ac m|9|main|([I)I|11.4e.20.59.60.b8.$0.ac = 9 = result 40000~ = 0
A 33 java/lang/Object r|10|A|f|()C m|9|f|()C|02.ac m|9|main|([I)I|b8.$0.ac = 9 = result -1~ = 0
A 33 java/lang/Object r|10|A|f|(C)I m|9|f|(C)I|1a.ac m|9|main|([I)I|02.b8.$0.ac = 9 = result -1~ = 0
A 33 java/lang/Object r|10|A|f|()Z m|9|f|()Z|05.ac m|9|main|([I)I|b8.$0.ac = 9 = result 2~ = 0
A 33 java/lang/Object r|10|A|f|(Z)I m|9|f|(Z)I|1a.ac m|9|main|([I)I|05.b8.$0.ac = 9 = result 2~ = 0
A 33 java/lang/Object f|1|x|B c|A r|10|A|<init>|()V r|9|A|x|B r|10|java/lang/Object|<init>|()V m|1|<init>|()V|2a.b7.$3.b1 m|9|main|([I)I|bb.$0.59.b7.$1.4c.2b.11.00.c8.b5.$2.2b.b4.$2.ac = 19 = result -56~ = 0
A 33 java/lang/Object f|1|x|S c|A r|10|A|<init>|()V r|9|A|x|S r|10|java/lang/Object|<init>|()V m|1|<init>|()V|2a.b7.$3.b1 m|9|main|([I)I|bb.$0.59.b7.$1.4c.2b.11.4e.20.59.60.b5.$2.2b.b4.$2.ac = 19 = result -25536~ = 0
A 33 java/lang/Object f|1|x|C c|A r|10|A|<init>|()V r|9|A|x|C r|10|java/lang/Object|<init>|()V m|1|<init>|()V|2a.b7.$3.b1 m|9|main|([I)I|bb.$0.59.b7.$1.4c.2b.02.b5.$2.2b.b4.$2.ac = 19 = result 65535~ = 0
A 33 java/lang/Object f|1|x|Z c|A r|10|A|<init>|()V r|9|A|x|Z r|10|java/lang/Object|<init>|()V m|1|<init>|()V|2a.b7.$3.b1 m|9|main|([I)I|bb.$0.59.b7.$1.4c.2b.05.b5.$2.2b.b4.$2.ac = 19 = result 0~ = 0
A 33 java/lang/Object f|1|x|Z c|A r|10|A|<init>|()V r|9|A|x|Z r|10|java/lang/Object|<init>|()V m|1|<init>|()V|2a.b7.$3.b1 m|9|main|([I)I|bb.$0.59.b7.$1.4c.2b.06.b5.$2.2b.b4.$2.ac = 19 = result 1~ = 0
A 33 java/lang/Object m|9|main|([I)I|04.bc.04.59.03.05.54.03.33.ac = 9 = result 0~ = 0
A 33 java/lang/Object m|9|main|([I)I|04.bc.04.59.03.02.54.03.33.ac = 9 = result 1~ = 0
# null is an instance of nothing, passes a cast and stands in each array of objects
A 33 java/lang/Object c|A m|9|main|([I)I|01.c1.$0.ac = 9 = result 0~ = 0
A 33 java/lang/Object c|A m|9|main|([I)I|01.c0.$0.57.08.ac = 9 = result 5~ = 0
A 33 java/lang/Object c|A m|9|main|([I)I|04.bd.$0.59.03.01.53.be.ac = 9 = result 1~ = 0
# an array is an object, can be cloned and sent, and is an array of what its elements are
A 33 java/lang/Object c|java/lang/Object m|9|main|([I)I|04.bc.0a.c1.$0.ac = 9 = result 1~ = 0
A 33 java/lang/Object c|java/lang/Cloneable m|9|main|([I)I|04.bc.0a.c1.$0.ac = 9 = result 1~ = 0
A 33 java/lang/Object c|java/io/Serializable m|9|main|([I)I|04.bc.0a.c1.$0.ac = 9 = result 1~ = 0
A 33 java/lang/Object c|[I m|9|main|([I)I|04.bc.0a.c1.$0.ac = 9 = result 1~ = 0
A 33 java/lang/Object c|[J m|9|main|([I)I|04.bc.0a.c1.$0.ac = 9 = result 0~ = 0
A 33 java/lang/Object c|[Ljava/lang/Object; m|9|main|([I)I|04.bc.0a.c1.$0.ac = 9 = result 0~ = 0
A 33 java/lang/Object c|nrmi/Restorable m|9|main|([I)I|04.bc.0a.c1.$0.ac = 9 = result 0~ = 0
A 33 java/lang/Object c|A m|9|main|([I)I|04.bc.0a.c1.$0.ac = 9 = result 0~ = 0
A 33 java/lang/Object c|[[I c|[Ljava/lang/Object; m|9|main|([I)I|04.04.c5.$0.02.c1.$1.ac = 9 = result 1~ = 0
A 33 java/lang/Object c|[[I c|[Ljava/lang/Cloneable; m|9|main|([I)I|04.04.c5.$0.02.c1.$1.ac = 9 = result 1~ = 0
A 33 java/lang/Object c|[[I c|[Lnrmi/Restorable; m|9|main|([I)I|04.04.c5.$0.02.c1.$1.ac = 9 = result 0~ = 0
A 33 java/lang/Object c|[[I c|[[J m|9|main|([I)I|04.04.c5.$0.02.c1.$1.ac = 9 = result 0~ = 0
A 33 java/lang/Object c|[[I c|[[Ljava/lang/Object; m|9|main|([I)I|04.04.c5.$0.02.c1.$1.ac = 9 = result 0~ = 0
A 33 java/lang/Object c|B c|[LA; m|9|main|([I)I|04.bd.$0.c1.$1.ac & B 33 A i|I & I 1537 java/lang/Object = 9 = result 1~ = 0
A 33 java/lang/Object c|A c|[LB; m|9|main|([I)I|04.bd.$0.c1.$1.ac & B 33 A i|I & I 1537 java/lang/Object = 9 = result 0~ = 0
A 33 java/lang/Object c|B c|[LI; m|9|main|([I)I|04.bd.$0.c1.$1.ac & B 33 A i|I & I 1537 java/lang/Object = 9 = result 1~ = 0
A 33 java/lang/Object c|A c|[LI; m|9|main|([I)I|04.bd.$0.c1.$1.ac & B 33 A i|I & I 1537 java/lang/Object = 9 = result 0~ = 0
# a private method is the one that was named, also for an object of a class below with a method of its name
A 33 java/lang/Object c|B r|10|B|<init>|()V r|10|A|g|()I r|10|A|f|()I r|10|java/lang/Object|<init>|()V m|1|<init>|()V|2a.b7.$4.b1 m|2|f|()I|04.ac m|1|g|()I|2a.b7.$3.ac m|9|main|([I)I|bb.$0.59.b7.$1.b6.$2.ac & B 33 A r|10|A|<init>|()V m|1|<init>|()V|2a.b7.$0.b1 m|1|f|()I|05.ac = 99 = result 1~ = 0
A 33 java/lang/Object c|B r|10|B|<init>|()V r|10|A|g|()I r|10|A|f|()I r|10|java/lang/Object|<init>|()V m|1|<init>|()V|2a.b7.$4.b1 m|2|f|()I|04.ac m|1|g|()I|2a.b6.$3.ac m|9|main|([I)I|bb.$0.59.b7.$1.b6.$2.ac & B 33 A r|10|A|<init>|()V m|1|<init>|()V|2a.b7.$0.b1 m|1|f|()I|05.ac = 99 = result 1~ = 0
# a private method between isn't selected; one that is static neither
A 33 java/lang/Object c|C r|10|C|<init>|()V r|10|A|f|()I r|10|java/lang/Object|<init>|()V m|1|<init>|()V|2a.b7.$3.b1 m|1|f|()I|04.ac m|9|main|([I)I|bb.$0.59.b7.$1.b6.$2.ac & B 33 A r|10|A|<init>|()V m|1|<init>|()V|2a.b7.$0.b1 m|2|f|()I|05.ac & C 33 B r|10|B|<init>|()V m|1|<init>|()V|2a.b7.$0.b1 = 99 = result 1~ = 0
A 33 java/lang/Object c|C r|10|C|<init>|()V r|10|A|f|()I r|10|java/lang/Object|<init>|()V m|1|<init>|()V|2a.b7.$3.b1 m|1|f|()I|04.ac m|9|main|([I)I|bb.$0.59.b7.$1.b6.$2.ac & B 33 A r|10|A|<init>|()V m|1|<init>|()V|2a.b7.$0.b1 m|9|f|()I|05.ac & C 33 B r|10|B|<init>|()V m|1|<init>|()V|2a.b7.$0.b1 = 99 = result 1~ = 0
# a handler's range holds its start and not its end
A 33 java/lang/Object c|java/lang/ArithmeticException m|9|main|([I)I|04.03.6c.ac.57.10.09.ac|00.01.ff.00.04.00.00.00.01.07.$0|0.2.4.1 = 9 =  = 1 thrown java/lang/ArithmeticException
A 33 java/lang/Object c|java/lang/ArithmeticException m|9|main|([I)I|04.03.6c.ac.57.10.09.ac|00.01.ff.00.04.00.00.00.01.07.$0|2.3.4.1 = 9 = result 9~ = 0
A 33 java/lang/Object c|java/lang/ArithmeticException m|9|main|([I)I|04.03.6c.ac.57.10.09.ac|00.01.ff.00.04.00.00.00.01.07.$0|3.4.4.1 = 9 =  = 1 thrown java/lang/ArithmeticException
# the first that fits in the order of the table, and else the frame below
A 33 java/lang/Object c|java/lang/ArithmeticException c|java/lang/ClassCastException c|java/lang/Throwable m|9|main|([I)I|04.03.6c.ac.57.10.09.ac.57.10.08.ac|00.02.ff.00.04.00.00.00.01.07.$2.ff.00.03.00.00.00.01.07.$0|0.4.4.0,0.4.8.1 = 9 = result 9~ = 0
A 33 java/lang/Object c|java/lang/ArithmeticException c|java/lang/ClassCastException c|java/lang/Throwable m|9|main|([I)I|04.03.6c.ac.57.10.09.ac.57.10.08.ac|00.02.ff.00.04.00.00.00.01.07.$2.ff.00.03.00.00.00.01.07.$0|0.4.8.1,0.4.4.0 = 9 = result 8~ = 0
A 33 java/lang/Object c|java/lang/ArithmeticException c|java/lang/ClassCastException c|java/lang/Throwable m|9|main|([I)I|04.03.6c.ac.57.10.09.ac.57.10.08.ac|00.02.ff.00.04.00.00.00.01.07.$1.ff.00.03.00.00.00.01.07.$0|0.4.4.2,0.4.8.1 = 9 = result 8~ = 0
A 33 java/lang/Object c|java/lang/ArithmeticException r|10|A|f|()I m|9|f|()I|04.03.6c.ac.bf|00.01.ff.00.04.00.00.00.01.07.$0|0.4.4.1 m|9|main|([I)I|b8.$1.ac.57.10.07.ac|00.01.ff.00.04.00.00.00.01.07.$0|0.3.4.1 = 9 = result 7~ = 0
# what is thrown stands alone on the operands, and the local variables stay
A 33 java/lang/Object c|java/lang/ArithmeticException m|9|main|([I)I|08.3c.07.06.04.03.6c.ac.57.1b.ac|00.01.ff.00.08.00.02.00.01.00.01.07.$0|2.8.8.1 = 12 = result 5~ = 0
# numbers in decimal, and a line
A 33 java/lang/Object r|10|nrmi/Out|print|([C)V r|10|nrmi/Out|print|(C)V r|10|nrmi/Out|print|(I)V r|10|nrmi/Out|print|(J)V r|10|nrmi/Out|line|()V m|9|main|([I)I|04.10.1f.78.02.6c.b8.$2.03.ac = 99 = -2147483648result 0~ = 0
A 33 java/lang/Object r|10|nrmi/Out|print|([C)V r|10|nrmi/Out|print|(C)V r|10|nrmi/Out|print|(I)V r|10|nrmi/Out|print|(J)V r|10|nrmi/Out|line|()V m|9|main|([I)I|0a.10.3f.79.b8.$3.b8.$4.03.85.b8.$3.03.ac = 99 = -9223372036854775808~0result 0~ = 0
A 33 java/lang/Object r|10|nrmi/Out|print|([C)V r|10|nrmi/Out|print|(C)V r|10|nrmi/Out|print|(I)V r|10|nrmi/Out|print|(J)V r|10|nrmi/Out|line|()V m|9|main|([I)I|0a.10.3f.79.02.85.6d.b8.$3.0a.10.3f.79.02.85.71.b8.$3.03.ac = 99 = -92233720368547758080result 0~ = 0
# an exception that the program makes itself, of the class that a remote call throws
A 33 java/lang/Object c|nrmi/RemoteFault r|10|nrmi/RemoteFault|<init>|()V m|9|main|([I)I|bb.$0.59.b7.$1.bf = 9 =  = 1 thrown nrmi/RemoteFault
A 33 java/lang/Object c|nrmi/RemoteFault r|10|nrmi/RemoteFault|<init>|()V c|java/lang/RuntimeException m|9|main|([I)I|bb.$0.59.b7.$1.bf.57.10.06.ac|00.01.ff.00.08.00.00.00.01.07.$2|0.8.8.3 = 9 = result 6~ = 0
A 33 java/lang/Object c|nrmi/RemoteFault c|java/lang/Throwable m|9|main|([I)I|04.03.6c.ac.57.10.06.ac|00.01.ff.00.04.00.00.00.01.07.$0|0.4.4.1 = 9 =  = 1 thrown java/lang/ArithmeticException
";

#[test]
fn values_and_methods(rt: HostRuntime) {
    for row in ROWS.lines() {
        if !row.starts_with('#') {
            expect(&rt, "A", row);
        }
    }
}
