//! Programs that aren't well typed: each check of the verifier by the command, with its place and types (JVM Specification 4.10.1).
use crate::tests::links::expect;

// Lines as those of `links`. One that begins with `#` tells of those below.
const CHECKS: &str = "\
# exception handlers: what is caught is no Throwable, there is no place for it, no frame map, a frame that differs
A 33 java/lang/Object c|java/lang/Object m|9|main|([I)I|04.ac.57.03.ac|00.01.ff.00.02.00.00.00.01.07.$0|0.1.2.1 = HandlerMismatch A main([I)I 0 0
A 33 java/lang/Object c|java/lang/Throwable m|9|f|()V|b1.bf|00.01.ff.00.01.00.00.00.01.07.$0|0.1.1.1|0.0 m|9|main|([I)I|04.ac = HandlerMismatch A f()V 0 0
A 33 java/lang/Object m|9|main|([I)I|04.ac||0.1.0.0 = HandlerMismatch A main([I)I 0 0
A 33 java/lang/Object m|9|main|([I)I|04.ac.57.03.ac|00.01.ff.00.02.00.00.00.01.01|0.1.2.0 = HandlerMismatch A main([I)I 0 0
A 33 java/lang/Object c|java/lang/Throwable m|9|main|([I)I|04.ac.57.03.ac|00.01.ff.00.02.00.02.00.01.00.01.07.$0|0.1.2.1 = HandlerMismatch A main([I)I 0 0
A 33 java/lang/Object c|java/lang/Throwable c|java/lang/Exception m|9|main|([I)I|04.ac.57.03.ac|00.01.ff.00.02.00.00.00.01.07.$1|0.1.2.1 = HandlerMismatch A main([I)I 0 0
# the second handler, which covers the second instruction alone
A 33 java/lang/Object c|java/lang/Throwable c|java/lang/Object m|9|main|([I)I|04.ac.57.03.ac|00.01.ff.00.02.00.00.00.01.07.$0|0.2.2.1,1.2.2.2 = HandlerMismatch A main([I)I 1 1
# frame maps: by falling through, by a branch; missing behind a return, at a branch, of a switch the default first
A 33 java/lang/Object m|9|main|([I)I|04.ac|00.01.ff.00.01.00.00.00.00 = MapMismatch A main([I)I 1
A 33 java/lang/Object m|9|main|([I)I|03.9a.00.04.04.ac|00.01.ff.00.05.00.00.00.01.01 = MapMismatch A main([I)I 5
A 33 java/lang/Object m|9|main|([I)I|04.ac.04.ac = NoMap A main([I)I 2
A 33 java/lang/Object m|9|main|([I)I|03.9a.00.05.04.ac.05.ac = NoMap A main([I)I 6
A 33 java/lang/Object m|9|main|([I)I|03.aa.00.00.00.00.00.15.00.00.00.00.00.00.00.00.00.00.00.13.04.ac.05.ac = NoMap A main([I)I 22
A 33 java/lang/Object m|9|main|([I)I|03.aa.00.00.00.00.00.15.00.00.00.00.00.00.00.00.00.00.00.13.04.ac.05.ac|00.01.ff.00.16.00.00.00.00 = NoMap A main([I)I 20
A 33 java/lang/Object m|9|f|()V|00 m|9|main|([I)I|04.ac = FallsOff A f()V 0
# local variables; the second place of a long counts
A 33 java/lang/Object m|9|main|([I)I|09.42.04.ac = Op A main([I)I 1 LocalRange 3
A 33 java/lang/Object m|9|main|([I)I|21.58.04.ac = Op A main([I)I 0 LocalRange 3
A 33 java/lang/Object m|9|main|([I)I|84.04.01.04.ac = Op A main([I)I 0 LocalRange 4
A 33 java/lang/Object m|1|f|(JJ)V|b1 m|9|main|([I)I|04.ac = Op A f(JJ)V 0 LocalRange 4
# a store into one half of a long ends it
A 33 java/lang/Object m|9|main|([I)I|09.3f.03.3c.1e.58.04.ac = Op A main([I)I 4 NeedsKind 0 long top
A 33 java/lang/Object m|9|main|([I)I|09.40.03.3c.1f.58.04.ac = Op A main([I)I 4 NeedsKind 0 long int
A 33 java/lang/Object m|9|main|([I)I|09.40.20.58.04.ac = Op A main([I)I 2 NeedsKind 0 long top
# places of the stack: a long takes two
A 33 java/lang/Object m|9|main|([I)I|09.09.09.04.ac = Op A main([I)I 2 StackOver
A 33 java/lang/Object m|9|main|([I)I|04.04.04.5c.ac = Op A main([I)I 3 StackOver
# operands: of stack moves
A 33 java/lang/Object m|9|main|([I)I|09.57.04.ac = Op A main([I)I 1 NeedsKind 0 top long
A 33 java/lang/Object m|9|main|([I)I|09.04.5a.ac = Op A main([I)I 2 NeedsKind 1 top long
A 33 java/lang/Object m|9|main|([I)I|09.04.58.04.ac = Op A main([I)I 2 NeedsKind 1 top long
# of arithmetic
A 33 java/lang/Object m|9|main|([I)I|04.04.79.58.04.ac = Op A main([I)I 2 NeedsKind 1 long int
A 33 java/lang/Object m|9|main|([I)I|09.04.94.ac = Op A main([I)I 2 NeedsKind 0 long int
A 33 java/lang/Object m|9|main|([I)I|04.88.ac = Op A main([I)I 1 NeedsKind 0 long int
# of arrays
A 33 java/lang/Object m|9|main|([I)I|2a.03.33.ac = Op A main([I)I 2 NeedsKind 1 [B [I
A 33 java/lang/Object m|9|main|([I)I|2a.03.32.57.04.ac = Op A main([I)I 2 NeedsKind 1 [Ljava/lang/Object; [I
A 33 java/lang/Object m|9|main|([I)I|2a.03.01.53.04.ac = Op A main([I)I 3 NeedsKind 2 [Ljava/lang/Object; [I
A 33 java/lang/Object c|A m|9|main|([I)I|04.bd.$0.03.04.53.04.ac = Op A main([I)I 6 NeedsKind 0 reference int
A 33 java/lang/Object m|9|main|([I)I|04.bc.0b.03.2e.ac = Op A main([I)I 4 NeedsKind 1 [I [J
# of branches, casts and fields
A 33 java/lang/Object m|9|main|([I)I|01.04.a5.00.03.04.ac = Op A main([I)I 2 NeedsKind 0 reference int
A 33 java/lang/Object m|9|main|([I)I|04.c6.00.03.04.ac = Op A main([I)I 1 NeedsKind 0 reference int
A 33 java/lang/Object c|A m|9|main|([I)I|04.c0.$0.57.04.ac = Op A main([I)I 1 NeedsKind 0 reference int
A 33 java/lang/Object f|1|x|I r|9|A|x|I m|9|main|([I)I|2a.b4.$0.ac = Op A main([I)I 1 NeedsKind 0 A [I
A 33 java/lang/Object f|1|x|I r|9|A|x|I m|9|main|([I)I|01.01.b5.$0.04.ac = Op A main([I)I 2 NeedsKind 0 int null
A 33 java/lang/Object f|1|x|I r|9|A|x|I m|9|main|([I)I|2a.04.b5.$0.04.ac = Op A main([I)I 2 NeedsKind 1 A [I
# of calls and returns
A 33 java/lang/Object r|10|A|f|(J)V m|9|f|(J)V|b1 m|9|main|([I)I|04.b8.$0.04.ac = Op A main([I)I 1 NeedsKind 0 long int
A 33 java/lang/Object r|10|A|f|(I[I)V m|9|f|(I[I)V|b1 m|9|main|([I)I|2a.04.b8.$0.04.ac = Op A main([I)I 2 NeedsKind 0 [I int
A 33 java/lang/Object r|10|A|f|(I[I)V m|9|f|(I[I)V|b1 m|9|main|([I)I|2a.2a.b8.$0.04.ac = Op A main([I)I 2 NeedsKind 1 int [I
A 33 java/lang/Object r|10|A|g|()V m|1|g|()V|b1 m|9|main|([I)I|2a.b6.$0.04.ac = Op A main([I)I 1 NeedsKind 0 A [I
A 33 java/lang/Object m|9|f|(LA;)LB;|2a.b0 m|9|main|([I)I|04.ac & B 33 java/lang/Object = Op A f(LA;)LB; 1 NeedsKind 0 B A
A 33 java/lang/Object m|9|f|()V|04.ac m|9|main|([I)I|04.ac = Op A f()V 1 ReturnKind
A 33 java/lang/Object m|9|f|()J|04.ac m|9|main|([I)I|04.ac = Op A f()J 1 ReturnKind
A 33 java/lang/Object m|9|f|()LA;|b1 m|9|main|([I)I|04.ac = Op A f()LA; 0 ReturnKind
# objects that aren't initialised
A 33 java/lang/Object c|A r|10|A|<init>|()V r|10|java/lang/Object|<init>|()V m|1|<init>|()V|2a.b7.$2.b1 m|9|main|([I)I|01.b7.$1.04.ac = Op A main([I)I 1 NeedsKind 0 A null
A 33 java/lang/Object c|A r|10|A|<init>|()V r|10|java/lang/Object|<init>|()V m|1|<init>|()V|2a.b7.$2.b1 m|9|main|([I)I|bb.$0.b7.$2.04.ac = Op A main([I)I 3 NeedsKind 0 java/lang/Object uninit-0
A 33 java/lang/Object c|A r|10|A|<init>|()V r|10|java/lang/Object|<init>|()V m|1|<init>|()V|2a.b7.$2.b1 r|10|A|f|(LA;)V m|9|f|(LA;)V|b1 m|9|main|([I)I|bb.$0.b8.$3.04.ac = Op A main([I)I 3 NeedsKind 0 A uninit-0
A 33 java/lang/Object c|A m|9|main|([I)I|04.ac.bb.$0.57.57.04.ac|00.01.ff.00.02.00.00.00.01.08.00.02 = Op A main([I)I 2 NeedsInit
A 33 java/lang/Object r|10|A|g|()V m|1|g|()V|b1 m|1|<init>|()V|2a.b6.$0.b1 m|9|main|([I)I|04.ac = Op A <init>()V 1 NeedsKind 0 A uninit-this
A 33 java/lang/Object f|1|x|I r|9|A|x|I m|1|<init>|()V|2a.b4.$0.b1 m|9|main|([I)I|04.ac = Op A <init>()V 1 NeedsKind 0 A uninit-this
A 33 B r|9|B|x|I m|1|<init>|()V|2a.04.b5.$0.b1 m|9|main|([I)I|04.ac & B 33 java/lang/Object f|1|x|I = Op A <init>()V 2 NeedsKind 1 B uninit-this
A 33 B r|9|A|x|I m|1|<init>|()V|2a.04.b5.$0.b1 m|9|main|([I)I|04.ac & B 33 java/lang/Object f|1|x|I = Op A <init>()V 2 NeedsKind 1 A uninit-this
A 33 java/lang/Object m|1|<init>|()V|b1 m|9|main|([I)I|04.ac = Op A <init>()V 0 NeedsInit
A 33 B r|10|java/lang/Object|<init>|()V m|1|<init>|()V|2a.b7.$0.b1 m|9|main|([I)I|04.ac & B 33 java/lang/Object = Op A <init>()V 1 NeedsKind 0 java/lang/Object uninit-this
";

#[test]
fn each_check_of_the_verifier(rt: HostRuntime) {
    for row in CHECKS.lines() {
        if !row.starts_with('#') {
            expect(&rt, row, "verify", 6);
        }
    }
}
