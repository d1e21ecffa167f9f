//! The list of the instructions.

ghost use Rattle.std.specs.Prelude.{◌≡◌};
ghost use Rattle.nr_optable.specs.Rows.{all_rows};

use crate::table::{Family, Kinds, Letter, Row, Shape, Table};

macro_rules! kinds {
    (own) => {
        Kinds::Own
    };
    ([]) => {
        kinds!(0 I I I)
    };
    ([$a:ident]) => {
        kinds!(1 $a I I)
    };
    ([$a:ident $b:ident]) => {
        kinds!(2 $a $b I)
    };
    ([$a:ident $b:ident $c:ident]) => {
        kinds!(3 $a $b $c)
    };
    ($n:literal $a:ident $b:ident $c:ident) => {
        Kinds::Letters {
            n: $n,
            first: Letter::$a,
            second: Letter::$b,
            third: Letter::$c,
        }
    };
}

macro_rules! table {
    ($($code:literal $family:ident $shape:ident $pops:tt $pushes:tt;)*) => {
        [$(Row {
            code: $code,
            family: Family::$family,
            shape: Shape::$shape,
            pops: kinds!($pops),
            pushes: kinds!($pushes),
        }),*]
    };
}

/// The 137 instructions of the profile, by rising code (JVM Specification 6.5).
#[tactic(auto, unfolding(crate::specs::Rows::all_rows))]
pub fn rows() -> Table<137>
    ensures { result.rows.now ≡ all_rows }
{
    static ROWS: [Row; 137] = table! {
        0 F1 Plain [] []; // nop
        1 F7 Plain [] [Null]; // aconst_null
        2 F2 Plain [] [I]; // iconst_m1
        3 F2 Plain [] [I]; // iconst_0
        4 F2 Plain [] [I]; // iconst_1
        5 F2 Plain [] [I]; // iconst_2
        6 F2 Plain [] [I]; // iconst_3
        7 F2 Plain [] [I]; // iconst_4
        8 F2 Plain [] [I]; // iconst_5
        9 F2 Plain [] [J]; // lconst_0
        10 F2 Plain [] [J]; // lconst_1
        16 F2 S1 [] [I]; // bipush
        17 F2 S2 [] [I]; // sipush
        18 F8 P1 [] [I]; // ldc
        19 F8 P2 [] [I]; // ldc_w
        20 F8 P2 [] [J]; // ldc2_w
        21 F3 L1 [] [I]; // iload
        22 F3 L1 [] [J]; // lload
        25 F3 L1 [] [R]; // aload
        26 F3 Plain [] [I]; // iload_0
        27 F3 Plain [] [I]; // iload_1
        28 F3 Plain [] [I]; // iload_2
        29 F3 Plain [] [I]; // iload_3
        30 F3 Plain [] [J]; // lload_0
        31 F3 Plain [] [J]; // lload_1
        32 F3 Plain [] [J]; // lload_2
        33 F3 Plain [] [J]; // lload_3
        42 F3 Plain [] [R]; // aload_0
        43 F3 Plain [] [R]; // aload_1
        44 F3 Plain [] [R]; // aload_2
        45 F3 Plain [] [R]; // aload_3
        46 F10 Plain [A I] [I]; // iaload
        47 F10 Plain [A I] [J]; // laload
        50 F10 Plain [A I] [A]; // aaload
        51 F10 Plain [A I] [I]; // baload
        52 F10 Plain [A I] [I]; // caload
        53 F10 Plain [A I] [I]; // saload
        54 F4 L1 [I] []; // istore
        55 F4 L1 [J] []; // lstore
        58 F4 L1 [R] []; // astore
        59 F4 Plain [I] []; // istore_0
        60 F4 Plain [I] []; // istore_1
        61 F4 Plain [I] []; // istore_2
        62 F4 Plain [I] []; // istore_3
        63 F4 Plain [J] []; // lstore_0
        64 F4 Plain [J] []; // lstore_1
        65 F4 Plain [J] []; // lstore_2
        66 F4 Plain [J] []; // lstore_3
        75 F4 Plain [R] []; // astore_0
        76 F4 Plain [R] []; // astore_1
        77 F4 Plain [R] []; // astore_2
        78 F4 Plain [R] []; // astore_3
        79 F11 Plain [A I I] []; // iastore
        80 F11 Plain [A I J] []; // lastore
        83 F11 Plain [A I A] []; // aastore
        84 F11 Plain [A I I] []; // bastore
        85 F11 Plain [A I I] []; // castore
        86 F11 Plain [A I I] []; // sastore
        87 F12 Plain own own; // pop
        88 F12 Plain own own; // pop2
        89 F13 Plain own own; // dup
        90 F14 Plain own own; // dup_x1
        91 F15 Plain own own; // dup_x2
        92 F16 Plain own own; // dup2
        93 F17 Plain own own; // dup2_x1
        94 F18 Plain own own; // dup2_x2
        95 F19 Plain own own; // swap
        96 F5 Plain [I I] [I]; // iadd
        97 F5 Plain [J J] [J]; // ladd
        100 F5 Plain [I I] [I]; // isub
        101 F5 Plain [J J] [J]; // lsub
        104 F5 Plain [I I] [I]; // imul
        105 F5 Plain [J J] [J]; // lmul
        108 F20 Plain [I I] [I]; // idiv
        109 F20 Plain [J J] [J]; // ldiv
        112 F20 Plain [I I] [I]; // irem
        113 F20 Plain [J J] [J]; // lrem
        116 F21 Plain [I] [I]; // ineg
        117 F21 Plain [J] [J]; // lneg
        120 F22 Plain [I I] [I]; // ishl
        121 F22 Plain [J I] [J]; // lshl
        122 F22 Plain [I I] [I]; // ishr
        123 F22 Plain [J I] [J]; // lshr
        124 F22 Plain [I I] [I]; // iushr
        125 F22 Plain [J I] [J]; // lushr
        126 F5 Plain [I I] [I]; // iand
        127 F5 Plain [J J] [J]; // land
        128 F5 Plain [I I] [I]; // ior
        129 F5 Plain [J J] [J]; // lor
        130 F5 Plain [I I] [I]; // ixor
        131 F5 Plain [J J] [J]; // lxor
        132 F9 Inc [] []; // iinc
        133 F23 Plain [I] [J]; // i2l
        136 F23 Plain [J] [I]; // l2i
        145 F23 Plain [I] [I]; // i2b
        146 F23 Plain [I] [I]; // i2c
        147 F23 Plain [I] [I]; // i2s
        148 F24 Plain [J J] [I]; // lcmp
        153 F25 B2 [I] []; // ifeq
        154 F25 B2 [I] []; // ifne
        155 F25 B2 [I] []; // iflt
        156 F25 B2 [I] []; // ifge
        157 F25 B2 [I] []; // ifgt
        158 F25 B2 [I] []; // ifle
        159 F26 B2 [I I] []; // if_icmpeq
        160 F26 B2 [I I] []; // if_icmpne
        161 F26 B2 [I I] []; // if_icmplt
        162 F26 B2 [I I] []; // if_icmpge
        163 F26 B2 [I I] []; // if_icmpgt
        164 F26 B2 [I I] []; // if_icmple
        165 F27 B2 [R R] []; // if_acmpeq
        166 F27 B2 [R R] []; // if_acmpne
        167 F28 B2 [] []; // goto
        170 F29 Tab [I] []; // tableswitch
        171 F29 Look [I] []; // lookupswitch
        172 F6 Plain [I] []; // ireturn
        173 F6 Plain [J] []; // lreturn
        176 F6 Plain [A] []; // areturn
        177 F6 Plain [] []; // return
        180 F30 P2 [A] own; // getfield
        181 F31 P2 own []; // putfield
        182 F32 P2 own own; // invokevirtual
        183 F32 P2 own own; // invokespecial
        184 F32 P2 own own; // invokestatic
        185 F32 Itf own own; // invokeinterface
        187 F33 P2 [] own; // new
        188 F34 Prim [I] [A]; // newarray
        189 F34 P2 [I] [A]; // anewarray
        190 F35 Plain [A] [I]; // arraylength
        191 F36 Plain [A] []; // athrow
        192 F37 P2 [A] [A]; // checkcast
        193 F37 P2 [A] [I]; // instanceof
        196 F38 Wide own own; // wide
        197 F34 Mul own [A]; // multianewarray
        198 F27 B2 [R] []; // ifnull
        199 F27 B2 [R] []; // ifnonnull
        200 F28 B4 [] []; // goto_w
    };
    Table { rows: &ROWS }
}
