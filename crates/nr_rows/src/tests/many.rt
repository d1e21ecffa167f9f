//! As many classes as a program may have, and one more.
use crate::tests::scene::{M_CLASS, Scene, run_over};
use crate::tests::written::class_file;
use std::process::Abort;

// So many class files, the first of class M, the others each of a class of its own, or else of class M too.
fn class_files<R: AllocGlobal + Abort>(
    rt: &R,
    count: usize,
    are_distinct: bool,
) -> Vec<(String, Vec<u8>)> {
    let mut made = Vec::new(rt.alloc());
    for n in 0..count {
        let path = format!(in rt.alloc(); "{n}.class").expect(rt, "a path");
        let class = if n > 0 && are_distinct {
            let text = format!(in rt.alloc(); "C{n} 33 java/lang/Object");
            class_file(rt, &text.expect(rt, "a class"))
        } else {
            M_CLASS.to_vec(rt.alloc()).expect(rt, "a class")
        };
        made.push((path, class)).expect(rt, "a class");
    }
    made
}

// `run d M 4` over these files.
fn expect_end<R: AllocGlobal + Abort>(
    rt: &R,
    made: &[(String, Vec<u8>)],
    status: u8,
    out: &str,
    line: &str,
) {
    let mut files: Vec<(&str, &[u8])> = Vec::new(rt.alloc());
    for (path, class) in made {
        let file = (path.as_str(), class.as_slice());
        files.push(file).expect(rt, "a file");
    }
    let found = run_over(rt, &["run", "d", "M", "4"], &files, Scene::SOUND);
    assert_eq!(rt; found.status, status);
    assert_eq!(rt; found.out.as_slice(), out.as_bytes());
    assert_eq!(rt; found.err.as_slice(), line.as_bytes());
}

#[test]
fn as_many_classes_as_there_may_be(rt: HostRuntime) {
    let files = class_files(&rt, 1024, true);
    expect_end(&rt, &files, 0, "result 5\n", "");
}

#[test]
fn one_class_too_many(rt: HostRuntime) {
    let files = class_files(&rt, 1025, false);
    let line = "nrmi: link LimitClasses 1025\n";
    expect_end(&rt, &files, 5, "", line);
}
