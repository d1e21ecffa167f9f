//! The table against javap and the ASM library of the JDK, and the arithmetic against java.

use crate::{
    Family, Kinds, Letter, Row, Shape, codes_rise, int_arithmetic, int_narrowed, int_negation,
    int_pair_test, int_quotient, int_shifted, int_test, int_to_byte, int_to_char, int_to_long,
    int_to_short, long_arithmetic, long_comparison, long_negation, long_quotient, long_shifted,
    long_to_int, operations_cover, row, rows, shape_len,
};

// How many slots of the stack the operands take: a long takes two.
fn slots(kinds: Kinds) -> Option<i32> {
    let Kinds::Letters {
        n,
        first,
        second,
        third,
    } = kinds
    else {
        return None;
    };
    let mut total = 0i32;
    for (i, letter) in [first, second, third].into_iter().enumerate() {
        if i < usize::from(n) {
            total = total.wrapping_add(if letter == Letter::J { 2 } else { 1 });
        }
    }
    Some(total)
}

#[test]
fn rows_agree_with_the_jdk(rt: HostRuntime) {
    // The code, the instruction's length, and how the stack grows, in slots.
    for (code, len, growth) in [
        (0, 1, 0),
        (1, 1, 1),
        (3, 1, 1),
        (9, 1, 2),
        (16, 2, 1),
        (17, 3, 1),
        (18, 2, 1),
        (21, 2, 1),
        (22, 2, 2),
        (25, 2, 1),
        (46, 1, -1),
        (47, 1, 0),
        (50, 1, -1),
        (54, 2, -1),
        (55, 2, -2),
        (58, 2, -1),
        (79, 1, -3),
        (80, 1, -4),
        (83, 1, -3),
        (96, 1, -1),
        (97, 1, -2),
        (108, 1, -1),
        (113, 1, -2),
        (116, 1, 0),
        (120, 1, -1),
        (121, 1, -1),
        (131, 1, -2),
        (132, 3, 0),
        (133, 1, 1),
        (136, 1, -1),
        (148, 1, -3),
        (153, 3, -1),
        (159, 3, -2),
        (165, 3, -2),
        (167, 3, 0),
        (172, 1, -1),
        (173, 1, -2),
        (177, 1, 0),
        (188, 2, 0),
        (189, 3, 0),
        (190, 1, 0),
        (192, 3, 0),
        (198, 3, -1),
        (200, 5, 0),
    ] {
        let found = row(code).expect(&rt, "a code of the table");
        assert_eq!(rt; found.code, code);
        let bytes = shape_len(found.shape).expect(&rt, "a shape with a length");
        assert!(rt; bytes < 5);
        assert_eq!(rt; bytes + 1, len, "the length of {code}");
        let pops = slots(found.pops).expect(&rt, "letters");
        let pushes = slots(found.pushes).expect(&rt, "letters");
        assert_eq!(rt; pushes.wrapping_sub(pops), growth, "the growth of {code}");
    }
}

#[test]
fn codes_without_a_row_or_a_length(rt: HostRuntime) {
    // Float, double, jsr, ret, getstatic, putstatic, invokedynamic, monitors and unused codes.
    for code in [
        11, 14, 23, 48, 98, 134, 149, 168, 169, 174, 178, 179, 186, 194, 195, 201, 202, 255,
    ] {
        assert_eq!(rt; row(code), None, "no row for {code}");
    }
    let lastore = Row {
        code: 80,
        family: Family::F11,
        shape: Shape::Plain,
        pops: Kinds::Letters {
            n: 3,
            first: Letter::A,
            second: Letter::I,
            third: Letter::J,
        },
        pushes: Kinds::Letters {
            n: 0,
            first: Letter::I,
            second: Letter::I,
            third: Letter::I,
        },
    };
    assert_eq!(rt; row(80), Some(lastore));
    let listed = rows().rows;
    assert_eq!(rt; listed.len(), 137);
    assert_eq!(rt; listed[53], lastore);
    for (code, len) in [
        (170, None),
        (171, None),
        (196, None),
        (185, Some(4)),
        (197, Some(3)),
        (187, Some(2)),
    ] {
        let found = row(code).expect(&rt, "a code of the table");
        assert_eq!(rt; shape_len(found.shape), len, "the operands of {code}");
    }
    codes_rise();
    operations_cover();
}

#[test]
fn ints_agree_with_java(rt: HostRuntime) {
    for (code, x, y, gives) in [
        (96, 2147483647, 1, -2147483648),
        (100, -2147483648, 1, 2147483647),
        (104, 305419896, -2023406815, 1891143032),
        (126, 305419896, -2023406815, 35930656),
        (128, 305419896, -2023406815, -1753917575),
        (130, 305419896, -2023406815, -1789848231),
    ] {
        assert_eq!(rt; int_arithmetic(code, x, y), Some(gives), "{code}");
    }
    for (code, x, y, gives) in [
        (108, -7, 2, -3),
        (108, 7, -2, -3),
        (108, -2147483648, -1, -2147483648),
        (112, -7, 2, -1),
        (112, 7, -2, 1),
        (112, -2147483648, -1, 0),
    ] {
        assert!(rt; y != 0);
        assert_eq!(rt; int_quotient(code, x, y), Some(gives), "{code}");
    }
    for (code, x, count, gives) in [
        (120, 305419896, 33, 610839792),
        (120, 1, -1, -2147483648),
        (122, -7, 1, -4),
        (122, -2023406815, 36, -126462926),
        (124, -7, 1, 2147483644),
        (124, -1, 31, 1),
        (124, -5, 32, -5),
    ] {
        assert_eq!(rt; int_shifted(code, x, count), Some(gives), "{code}");
    }
    assert_eq!(rt; int_negation(-2147483648), -2147483648);
    assert_eq!(rt; int_negation(7), -7);
    assert_eq!(rt; int_arithmetic(97, 1, 1), None);
    assert_eq!(rt; int_quotient(109, 1, 1), None);
    assert_eq!(rt; int_shifted(121, 1, 1), None);
}

#[test]
fn longs_agree_with_java(rt: HostRuntime) {
    for (code, x, y, gives) in [
        (97, 9223372036854775807, 1, -9223372036854775808),
        (101, -9223372036854775808, 1, 9223372036854775807),
        (
            105,
            81985529216486895,
            -9141386507638288913,
            6675990549066065185,
        ),
        (
            127,
            81985529216486895,
            1148435428713435120,
            81070703329152480,
        ),
        (
            129,
            81985529216486895,
            1148435428713435120,
            1149350254600769535,
        ),
        (
            131,
            81985529216486895,
            1148435428713435120,
            1068279551271617055,
        ),
    ] {
        assert_eq!(rt; long_arithmetic(code, x, y), Some(gives), "{code}");
    }
    for (code, x, y, gives) in [
        (109, -7, 2, -3),
        (109, 7, -2, -3),
        (109, -9223372036854775808, -1, -9223372036854775808),
        (113, -7, 2, -1),
        (113, 7, -2, 1),
        (113, -9223372036854775808, -1, 0),
    ] {
        assert!(rt; y != 0);
        assert_eq!(rt; long_quotient(code, x, y), Some(gives), "{code}");
    }
    for (code, x, count, gives) in [
        (121, 81985529216486895, 65, 163971058432973790),
        (121, 1, -1, -9223372036854775808),
        (121, 1, 32, 4294967296),
        (123, -7, 1, -4),
        (123, -9141386507638288913, 68, -571336656727393058),
        (125, -7, 1, 9223372036854775804),
        (125, -1, 63, 1),
        (125, -5, 64, -5),
    ] {
        assert_eq!(rt; long_shifted(code, x, count), Some(gives), "{code}");
    }
    for (x, y, gives) in [
        (1, 2, -1),
        (2, 2, 0),
        (9223372036854775807, -9223372036854775808, 1),
    ] {
        assert_eq!(rt; long_comparison(x, y), gives);
    }
    assert_eq!(rt; long_negation(-9223372036854775808), -9223372036854775808);
    assert_eq!(rt; long_negation(7), -7);
    assert_eq!(rt; long_arithmetic(96, 1, 1), None);
    assert_eq!(rt; long_quotient(108, 1, 1), None);
    assert_eq!(rt; long_shifted(120, 1, 1), None);
}

#[test]
fn conversions_and_conditions_agree_with_java(rt: HostRuntime) {
    for (x, byte, unit, short) in [
        (200, -56, 200, 200),
        (-129, 127, 65407, -129),
        (65535, -1, 65535, -1),
        (98304, 0, 32768, -32768),
        (-32769, -1, 32767, 32767),
    ] {
        assert_eq!(rt; i32::from(int_to_byte(x)), byte);
        assert_eq!(rt; i32::from(int_to_char(x)), unit);
        assert_eq!(rt; i32::from(int_to_short(x)), short);
        assert_eq!(rt; int_narrowed(145, x), Some(byte));
        assert_eq!(rt; int_narrowed(146, x), Some(unit));
        assert_eq!(rt; int_narrowed(147, x), Some(short));
        assert_eq!(rt; int_narrowed(133, x), None);
    }
    for (x, int) in [
        (6442450944, -2147483648),
        (-1, -1),
        (4294967297, 1),
        (-9223372036854775808, 0),
        (-2147483649, 2147483647),
    ] {
        assert_eq!(rt; long_to_int(x), int);
    }
    assert_eq!(rt; int_to_long(-5), -5);
    // The order of the codes: eq, ne, lt, ge, gt, le.
    for (x, y, holds) in [
        (-1, 0, [false, true, true, false, false, true]),
        (0, 0, [true, false, false, true, false, true]),
        (1, 0, [false, true, false, true, true, false]),
        (
            -2147483648,
            2147483647,
            [false, true, true, false, false, true],
        ),
    ] {
        for (code, branches) in (0u8..).zip(holds) {
            assert!(rt; code < 6);
            assert_eq!(rt; int_pair_test(159 + code, x, y), Some(branches));
            if y == 0 {
                assert_eq!(rt; int_test(153 + code, x), Some(branches));
            }
        }
    }
    assert_eq!(rt; int_test(152, 0), None);
    assert_eq!(rt; int_pair_test(165, 0, 0), None);
}
