//! `run` on one class file.
use crate::tests::scene::{M_CLASS, Scene, run_over};
use std::process::Abort;

// Words, status, output and error line, each of the last two without its newline.
const WORDS: &str = "\
run d M 4|0|result 5|
run d M 1000000000|0|result 5|
run d M 4 0 -1 2147483647 -2147483648|0|result 5|
run d M 3|9||nrmi: budget 3
run d M 1|9||nrmi: budget 1
run d N 4|5||nrmi: link NoClass N
run d a.b 4|5||nrmi: link NoClass a/b
run other N 4|5||nrmi: link NoClass N
run e M 10|5||nrmi: link NoClass M
|2||nrmi: words
run d M|2||nrmi: words
run d M 04|2||nrmi: words
run d M 0|2||nrmi: words
run d M +4|2||nrmi: words
run d M 4 +4|2||nrmi: words
run d M 1000000001|2||nrmi: words
run d M 4 2147483648|2||nrmi: words
run d M 4 -0|2||nrmi: words
run d M 4 -2147483649|2||nrmi: words
run d M 4 99999999999|2||nrmi: words
run d a//b 4|2||nrmi: words
run d a/ 4|2||nrmi: words
run d a-b 4|2||nrmi: words
call A d M M 5|2||nrmi: words
--help|2||nrmi: words
";

// An offset, the byte that is put there, and the fault.
const CHANGES: &str = "\
3|0|BadMagic
5|1|Version 1 50
7|51|Version 0 51
8|1|PoolTag 61 0
9|0|Short 104
10|3|PoolTag 15 0
12|255|Short 11
64|1|BadName 1
66|0|PoolKind 0
68|1|Short 105
70|1|Short 85
72|0|Short 81
76|6|BadName 6
78|5|BadDesc 5
80|2|Short 105
82|5|CodePresence 0
86|17|AttrLength 81
94|5|AttrLength 81
95|18|Code 0 PoolUse 0
95|167|Code 0 Target 0 1632
95|178|Code 0 OutOfProfile 0 178
95|202|Code 0 UnknownOp 0
100|5|Short 105
102|1|Short 105
104|1|Short 105
";

// How many bytes of the class there are, and the fault.
const LENGTHS: &str = "\
0|Short 0
9|Short 8
12|Short 11
98|Short 95
104|Short 103
";

// A number of a line.
pub fn number<R: Abort>(rt: &R, part: Option<&str>) -> usize {
    part.expect(rt, "a part")
        .parse::<usize>()
        .expect(rt, "a number")
}

// A run over one class file `M.class`.
pub fn expect<R: AllocGlobal + Abort>(
    rt: &R,
    words: &[&str],
    class: &[u8],
    scene: Scene<'_>,
    wanted: (u8, &str, &str),
) {
    let found = run_over(rt, words, &[("M.class", class)], scene);
    assert_eq!(rt; found.status, wanted.0, "{words:?}");
    assert_eq!(rt; found.out.as_slice(), wanted.1.as_bytes(), "{words:?}");
    assert_eq!(rt; found.err.as_slice(), wanted.2.as_bytes(), "{words:?}");
}

// A text and its newline, or nothing.
fn line<R: AllocGlobal + Abort>(rt: &R, text: Option<&str>) -> String {
    let text = text.expect(rt, "a text");
    let line = if text.is_empty() {
        Ok(String::new(rt.alloc()))
    } else {
        format!(in rt.alloc(); "{text}\n")
    };
    line.expect(rt, "a line")
}

fn expect_line<R: AllocGlobal + Abort>(rt: &R, row: &str) {
    let mut parts = row.split('|');
    let words = parts.next().expect(rt, "words").split_whitespace();
    let words: Vec<&str> = words.collect(rt.alloc()).expect(rt, "words");
    let status = parts.next().expect(rt, "a status");
    let status = status.parse::<u8>().expect(rt, "a status");
    let out = line(rt, parts.next());
    let err = line(rt, parts.next());
    expect(rt, &words, &M_CLASS, Scene::SOUND, (status, &out, &err));
}

#[test]
fn words_and_budgets(rt: HostRuntime) {
    for row in WORDS.lines() {
        expect_line(&rt, row);
    }
}

// A class file that is refused.
fn expect_fault<R: AllocGlobal + Abort>(rt: &R, class: &[u8], fault: &str) {
    let line = format!(in rt.alloc(); "nrmi: class M.class {fault}\n").expect(rt, "a line");
    expect(
        rt,
        &["run", "d", "M", "4"],
        class,
        Scene::SOUND,
        (4, "", &line),
    )
}

fn expect_change<R: AllocGlobal + Abort>(rt: &R, row: &str) {
    let mut parts = row.split('|');
    let at = number(rt, parts.next());
    let byte = number(rt, parts.next());
    let fault = parts.next().expect(rt, "a fault");
    let mut class = M_CLASS;
    assert!(rt; at < class.len() && byte < 256);
    class[at] = byte as u8;
    expect_fault(rt, &class, fault)
}

fn expect_length<R: AllocGlobal + Abort>(rt: &R, row: &str) {
    let mut parts = row.split('|');
    let len = number(rt, parts.next());
    let fault = parts.next().expect(rt, "a fault");
    assert!(rt; len <= M_CLASS.len());
    expect_fault(rt, &M_CLASS[..len], fault)
}

#[test]
fn flags_that_say_nothing(rt: HostRuntime) {
    let mut class = M_CLASS;
    class[62] = 2;
    let words = ["run", "d", "M", "4"];
    expect(&rt, &words, &class, Scene::SOUND, (0, "result 5\n", ""))
}

#[test]
fn files_of_another_form(rt: HostRuntime) {
    for row in CHANGES.lines() {
        expect_change(&rt, row);
    }
    for row in LENGTHS.lines() {
        expect_length(&rt, row);
    }
}

#[test]
fn long_files_and_words(rt: HostRuntime) {
    let alloc = rt.alloc();
    let mut class = M_CLASS.to_vec(alloc).expect(&rt, "a class");
    class.push(0).expect(&rt, "a byte");
    expect_fault(&rt, &class, "Trailing 105");
    class.resize(1_048_576, 0).expect(&rt, "bytes");
    expect_fault(&rt, &class, "Trailing 105");
    class.push(0).expect(&rt, "a byte");
    let too_long = (4, "", "nrmi: class M.class FileTooLong\n");
    expect(&rt, &["run", "d", "M", "4"], &class, Scene::SOUND, too_long);
    let name = "M".repeat(alloc, 255).expect(&rt, "a name");
    let no_class = format!(in alloc; "nrmi: link NoClass {name}\n");
    let no_class = no_class.expect(&rt, "a line");
    expect(
        &rt,
        &["run", "d", &name, "4"],
        &M_CLASS,
        Scene::SOUND,
        (5, "", &no_class),
    );
    let name = "M".repeat(alloc, 256).expect(&rt, "a name");
    let words = (2, "", "nrmi: words\n");
    expect(
        &rt,
        &["run", "d", &name, "4"],
        &M_CLASS,
        Scene::SOUND,
        words,
    );
    expect(&rt, &["run", "", "M", "4"], &M_CLASS, Scene::SOUND, words)
}

#[test]
fn many_ints(rt: HostRuntime) {
    let mut words = vec![in rt.alloc(); "run", "d", "M", "4"].expect(&rt, "words");
    words.resize(1004, "7").expect(&rt, "words");
    expect(&rt, &words, &M_CLASS, Scene::SOUND, (0, "result 5\n", ""));
    words.push("7").expect(&rt, "a word");
    expect(
        &rt,
        &words,
        &M_CLASS,
        Scene::SOUND,
        (2, "", "nrmi: words\n"),
    )
}

// The line over some files of the folder `d`, where nothing is printed.
fn expect_files<R: AllocGlobal + Abort>(rt: &R, files: &[(&str, &[u8])], status: u8, line: &str) {
    let found = run_over(rt, &["run", "d", "M", "4"], files, Scene::SOUND);
    assert_eq!(rt; found.status, status, "{line}");
    assert_eq!(rt; found.err.as_slice(), line.as_bytes(), "{line}");
    assert!(rt; found.out.is_empty(), "{line}");
}

#[test]
fn folders(rt: HostRuntime) {
    let class = M_CLASS.as_slice();
    expect_files(&rt, &[], 5, "nrmi: link NoClass M\n");
    expect_files(&rt, &[("M.classes", class)], 5, "nrmi: link NoClass M\n");
    let doubled = "nrmi: link DoubledClass M\n";
    expect_files(&rt, &[("b/N.class", class), ("M.class", class)], 5, doubled);
    let empty = "nrmi: class M.class Short 0\n";
    expect_files(&rt, &[("a.class", class), ("M.class", &[])], 4, empty);
    let mut other = M_CLASS;
    other[62] = 2;
    let files = [
        ("M.class", other.as_slice()),
        ("N.class", class),
        ("O.class", class),
    ];
    expect_files(&rt, &files, 5, doubled);
    let later = "nrmi: class N.class Short 0\n";
    let files = [("M.class", other.as_slice()), ("N.class", [].as_slice())];
    expect_files(&rt, &files, 4, later);
    let third = "nrmi: class O.class Short 0\n";
    let files = [
        ("M.class", class),
        ("N.class", class),
        ("O.class", [].as_slice()),
    ];
    expect_files(&rt, &files, 4, third);
    let spelled = "nrmi: class \\xC3\\xA4\\x20\\.class Short 0\n";
    expect_files(&rt, &[("ä \\.class", &[1])], 4, spelled);
    let mut reserved = class[..12].to_vec(rt.alloc()).expect(&rt, "bytes");
    let name = b"\x06java/X".as_slice();
    reserved.extend_from_slice(name).expect(&rt, "a name");
    let rest = &class[14..];
    reserved.extend_from_slice(rest).expect(&rt, "the rest");
    let line = "nrmi: link ReservedName java/X\n";
    expect_files(&rt, &[("M.class", &reserved)], 5, line)
}

#[test]
fn two_classes(rt: HostRuntime) {
    let mut other = M_CLASS;
    other[13] = b'N';
    let files = [("M.class", M_CLASS.as_slice()), ("N.class", &other)];
    for main in ["M", "N"] {
        let found = run_over(&rt, &["run", "d", main, "4"], &files, Scene::SOUND);
        assert_eq!(rt; found.status, 0);
        assert_eq!(rt; found.out.as_slice(), b"result 5\n".as_slice());
    }
    // `main` of the second class gives 2 - 3
    other[97] = 100;
    let files = [("M.class", M_CLASS.as_slice()), ("N.class", &other)];
    let found = run_over(&rt, &["run", "d", "N", "4"], &files, Scene::SOUND);
    assert_eq!(rt; found.status, 0);
    assert_eq!(rt; found.out.as_slice(), b"result -1\n".as_slice());
}

#[test]
fn calls_that_fail(rt: HostRuntime) {
    let words = ["run", "d", "M", "4"];
    let folder = (3, "", "nrmi: folder\n");
    expect(
        &rt,
        &words,
        &M_CLASS,
        Scene {
            folder: &[1],
            ..Scene::SOUND
        },
        folder,
    );
    expect(
        &rt,
        &words,
        &M_CLASS,
        Scene {
            folder: &[2],
            ..Scene::SOUND
        },
        folder,
    );
}

#[test]
fn outputs_that_fail(rt: HostRuntime) {
    let words = ["run", "d", "M", "4"];
    let out = Scene {
        out: &[1],
        ..Scene::SOUND
    };
    expect(&rt, &words, &M_CLASS, out, (11, "", "nrmi: sink\n"));
    expect(
        &rt,
        &words,
        &M_CLASS,
        Scene { err: &[1], ..out },
        (11, "", ""),
    );
    let words = ["run", "d", "M", "3"];
    expect(&rt, &words, &M_CLASS, out, (9, "", "nrmi: budget 3\n"));
    expect(
        &rt,
        &words,
        &M_CLASS,
        Scene {
            err: &[1],
            ..Scene::SOUND
        },
        (11, "", ""),
    )
}

// How often the folder is called and both outputs are written to, over three files of which the second is refused.
fn expect_calls<R: AllocGlobal + Abort>(
    rt: &R,
    words: &[&str],
    scene: Scene<'_>,
    status: u8,
    calls: (u64, u64, u64),
) {
    let class = M_CLASS.as_slice();
    let files = [
        ("L.class", class),
        ("M.class", [].as_slice()),
        ("N.class", class),
    ];
    let found = run_over(rt, words, &files, scene);
    assert_eq!(rt; (found.status, found.calls), (status, calls), "{words:?}");
}

#[test]
fn calls_that_are_made(rt: HostRuntime) {
    let run = ["run", "d", "M", "4"];
    let sound = Scene::SOUND;
    let one = run_over(&rt, &run, &[("M.class", &M_CLASS)], sound);
    assert_eq!(rt; one.calls, (2, 1, 0));
    let out = Scene { out: &[1], ..sound };
    let one = run_over(&rt, &run, &[("M.class", &M_CLASS)], out);
    assert_eq!(rt; one.calls, (2, 1, 1));
    let both = Scene { err: &[1], ..out };
    let one = run_over(&rt, &run, &[("M.class", &M_CLASS)], both);
    assert_eq!(rt; one.calls, (2, 1, 1));
    expect_calls(&rt, &["--help"], sound, 2, (0, 0, 1));
    expect_calls(&rt, &run, sound, 4, (3, 0, 1));
    // nothing is called after a call that failed
    for call in 1..4 {
        let scene = Scene {
            folder: &[call],
            ..sound
        };
        expect_calls(&rt, &run, scene, 3, (call, 0, 1));
    }
    expect_calls(&rt, &run, Scene { err: &[1], ..sound }, 11, (3, 0, 1));
}
