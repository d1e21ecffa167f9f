//! Classes that don't link, or in which no `main` is found, or that aren't well typed, each by its fault.
use crate::tests::scene::{Scene, run_over};
use crate::tests::written::class_file;
use std::process::Abort;

// Classes, as `written` has them, between `&`, and the fault. The class to run is A.
const FAULTS: &str = "\
A 33 B & B 33 A = Cycle A
A 33 B & B 33 B = Cycle B
A 33 B & B 49 java/lang/Object = FinalSuper A
A 33 java/lang/Object m|8|<clinit>|()V|b1 = Initialiser A
A 1537 java/lang/Object m|8|<clinit>|()V|b1 = Initialiser A
A 33 java/lang/Object & A 33 java/lang/Object = DoubledClass A
A 33 java/lang/Object & nrmi/B 33 C = ReservedName nrmi/B
A 33 B i|C = NoClass B
A 33 java/lang/Object i|C = NoClass C
A 33 B & B 1537 java/lang/Object = SuperKind A
A 33 java/lang/Object i|B & B 33 java/lang/Object = SuperKind A
A 1537 B & B 33 java/lang/Object = SuperKind A
A 1537 java/lang/Object f|1|x|I = InterfaceMember A
A 1537 java/lang/Object m|1|f|()V|b1 = InterfaceMember A
A 1537 java/lang/Object m|1024|f|()V = InterfaceMember A
A 33 B m|1|f|()V|b1 & B 33 java/lang/Object m|17|f|()V|b1 = FinalOverride A f()V
A 33 B m|1|f|()V|b1 & B 33 C & C 33 java/lang/Object m|17|f|()V|b1 = FinalOverride A f()V
A 33 B m|2|f|()V|b1 & B 33 java/lang/Object m|17|f|()V|b1 = NoMain A
A 33 B m|1|f|()V|b1 & B 33 java/lang/Object m|18|f|()V|b1 = NoMain A
A 33 java/lang/Object f|0|x|LB; = NoClass B
A 33 java/lang/Object f|8|x|[[LB; = NoClass B
A 33 java/lang/Object m|1025|f|(ILB;)LC; = NoClass B
A 33 java/lang/Object m|1025|f|(I)LC; = NoClass C
A 33 java/lang/Object c|B m|1|f|()V|bb.$0.57.b1 = NoClass B
A 33 java/lang/Object c|[LB; m|1|f|()V|01.c0.$0.57.b1 = NoClass B
A 33 java/lang/Object r|9|A|x|I m|1|f|()I|2a.b4.$0.ac = NoField A f()I 1
A 33 java/lang/Object f|8|x|I r|9|A|x|I m|1|f|()I|2a.b4.$0.ac = NoField A f()I 1
A 33 B r|9|A|x|I m|1|f|()I|2a.b4.$0.ac i|C & B 33 java/lang/Object f|0|x|I & C 1537 java/lang/Object f|8|x|I = NoField A f()I 1
A 33 B r|9|A|x|I m|1|f|()I|2a.b4.$0.ac & B 33 java/lang/Object f|0|x|I = NoMain A
A 33 java/lang/Object r|10|A|g|()V m|1|f|()V|2a.b6.$0.b1 = NoMethod A f()V 1
A 33 B r|10|A|<init>|(I)V m|1|f|()V|2a.03.b7.$0.b1 & B 33 java/lang/Object m|1|<init>|(I)V|b1 = NoMethod A f()V 2
A 33 java/lang/Object r|10|[I|<init>|()V m|1|f|()V|01.b7.$0.b1 = NoMethod A f()V 1
A 33 java/lang/Object r|10|A|g|()V m|9|g|()V|b1 m|1|f|()V|2a.b6.$0.b1 = MemberKind A f()V 1
A 33 java/lang/Object r|10|A|g|()V m|1|g|()V|b1 m|1|f|()V|b8.$0.b1 = MemberKind A f()V 0
A 33 java/lang/Object r|10|B|g|()V m|1|f|()V|01.b6.$0.b1 & B 1537 java/lang/Object m|1025|g|()V = MemberKind A f()V 1
A 33 java/lang/Object r|10|B|g|()V m|1|f|()V|01.b7.$0.b1 & B 33 java/lang/Object m|1|g|()V|b1 = MemberKind A f()V 1
A 33 java/lang/Object r|11|B|g|()V m|1|f|()V|01.b9.$0.01.00.b1 & B 33 java/lang/Object m|1|g|()V|b1 = MemberKind A f()V 1
A 33 java/lang/Object c|B m|1|f|()V|bb.$0.57.b1 & B 1537 java/lang/Object = NotMakeable A f()V 0
A 33 java/lang/Object c|B m|1|f|()V|00.bb.$0.57.b1 & B 1057 java/lang/Object = NotMakeable A f()V 1
A 33 java/lang/Object c|[I m|1|f|()V|bb.$0.57.b1 = NotMakeable A f()V 0
A 33 java/lang/Object c|B m|1|f|()V|b1||0.1.0.1 = NoClass B
A 33 java/lang/Object m|1|f|()V|b1||0.1.0.0 = NoMain A
A 33 java/lang/Object c|B m|1|f|()V|00.b1|00.01.ff.00.01.00.01.07.$0.00.00 = NoClass B
A 33 java/lang/Object = NoMain A
A 33 java/lang/Object m|1|main|([I)I|04.ac = NoMain A
A 33 java/lang/Object m|9|main|([J)I|04.ac = NoMain A
A 33 B & B 33 java/lang/Object m|9|main|([I)I|04.ac = NoMain A
B 33 java/lang/Object m|9|main|([I)I|04.ac = NoClass A
";

// The same, of programs that link and aren't well typed (JVM Specification 4.10.1).
const TYPING: &str = "\
A 33 java/lang/Object m|9|main|([I)I|04.ac||0.1.0.0 = HandlerMismatch A main([I)I 0 0
A 33 java/lang/Object m|9|main|([I)I|04.ac|00.01.ff.00.01.00.00.00.00 = MapMismatch A main([I)I 1
A 33 java/lang/Object c|A m|9|main|([I)I|bb.$0.ac = Op A main([I)I 3 NeedsKind 0 int uninit-0
A 33 java/lang/Object m|9|main|([I)I|1b.ac = Op A main([I)I 0 NeedsKind 0 int top
A 33 java/lang/Object m|1|<init>|()V|b1 m|9|main|([I)I|04.ac = Op A <init>()V 0 NeedsInit
A 33 java/lang/Object m|1|<init>|()V|2a.60.b1 m|9|main|([I)I|04.ac = Op A <init>()V 1 NeedsKind 0 int uninit-this
A 33 java/lang/Object m|1|f|()I|2a.ac m|9|main|([I)I|04.ac = Op A f()I 1 NeedsKind 0 int A
A 33 java/lang/Object m|9|main|([I)I|04.ac & B 33 java/lang/Object m|9|f|()I|b1 = Op B f()I 0 ReturnKind
A 33 java/lang/Object m|9|f|(JJJ)V|b1 m|9|main|([I)I|04.ac = Op A f(JJJ)V 0 LocalRange 4
";

/// A run of class A that ends with this word, fault and status.
pub fn expect<R: AllocGlobal + Abort>(rt: &R, row: &str, word: &str, status: u8) {
    let mut halves = row.split(" = ");
    let classes = halves.next().expect(rt, "classes").split(" & ");
    let fault = halves.next().expect(rt, "a fault");
    let mut written: Vec<Vec<u8>> = Vec::new(rt.alloc());
    for class in classes {
        written.push(class_file(rt, class)).expect(rt, "a file");
    }
    let paths = ["a.class", "b.class", "c.class"];
    let mut files: Vec<(&str, &[u8])> = Vec::new(rt.alloc());
    for (path, class) in paths.iter().zip(written.iter()) {
        files.push((*path, class.as_slice())).expect(rt, "a file");
    }
    let found = run_over(rt, &["run", "d", "A", "4"], &files, Scene::SOUND);
    let line = format!(in rt.alloc(); "nrmi: {word} {fault}\n").expect(rt, "a line");
    assert_eq!(rt; found.err.as_slice(), line.as_bytes(), "{row}");
    assert_eq!(rt; found.status, status, "{row}");
    assert!(rt; found.out.is_empty(), "{row}");
}

#[test]
fn each_fault_of_linking(rt: HostRuntime) {
    for row in FAULTS.lines() {
        expect(&rt, row, "link", 5);
    }
}

#[test]
fn faults_of_typing(rt: HostRuntime) {
    for row in TYPING.lines() {
        expect(&rt, row, "verify", 6);
    }
}
