//! What a row of the table says of an instruction.

/// A family of instructions that one rule describes (the grouping is the project's own; what each
/// instruction does is in the JVM Specification 6.5, under its mnemonic).
#[derive(Clone, Copy, Debug, PartialEq, Eq)]
pub enum Family {
    /// Nothing: `nop` (JVM Specification 6.5, nop).
    F1,
    /// Small constant: an int or a long that the instruction itself holds (JVM Specification 6.5,
    /// `iconst_<i>`, `lconst_<l>`, bipush, sipush).
    F2,
    /// Load: pushes a local variable (JVM Specification 6.5, iload, `iload_<n>`, lload, `lload_<n>`,
    /// aload, `aload_<n>`).
    F3,
    /// Store: pops into a local variable (JVM Specification 6.5, istore, `istore_<n>`, lstore,
    /// `lstore_<n>`, astore, `astore_<n>`).
    F4,
    /// Two operands: sum, difference, product and bitwise and, or, exclusive or of two ints or two
    /// longs (JVM Specification 6.5, iadd, ladd, isub, lsub, imul, lmul, iand, land, ior, lor, ixor,
    /// lxor).
    F5,
    /// Return from the method (JVM Specification 6.5, ireturn, lreturn, areturn, return).
    F6,
    /// Null (JVM Specification 6.5, aconst_null).
    F7,
    /// Constant of the pool (JVM Specification 6.5, ldc, ldc_w, ldc2_w).
    F8,
    /// Increment of a local variable (JVM Specification 6.5, iinc).
    F9,
    /// Load from an array (JVM Specification 6.5, iaload, laload, aaload, baload, caload, saload).
    F10,
    /// Store into an array (JVM Specification 6.5, iastore, lastore, aastore, bastore, castore,
    /// sastore).
    F11,
    /// Drop of operands (JVM Specification 6.5, pop, pop2).
    F12,
    /// Copy of the top operand (JVM Specification 6.5, dup).
    F13,
    /// Copy of the top operand to two places down (JVM Specification 6.5, dup_x1).
    F14,
    /// Copy of the top operand to two or three places down (JVM Specification 6.5, dup_x2).
    F15,
    /// Copy of the top two operands, or of one long (JVM Specification 6.5, dup2).
    F16,
    /// Copy of the top two operands, or of one long, below the next (JVM Specification 6.5,
    /// dup2_x1).
    F17,
    /// Copy of the top two operands, or of one long, below the next two, or the next long (JVM
    /// Specification 6.5, dup2_x2).
    F18,
    /// Exchange of the top two operands (JVM Specification 6.5, swap).
    F19,
    /// Division and remainder (JVM Specification 6.5, idiv, ldiv, irem, lrem).
    F20,
    /// Negation (JVM Specification 6.5, ineg, lneg).
    F21,
    /// Shift (JVM Specification 6.5, ishl, lshl, ishr, lshr, iushr, lushr).
    F22,
    /// Conversion (JVM Specification 6.5, i2l, l2i, i2b, i2c, i2s).
    F23,
    /// Comparison of two longs (JVM Specification 6.5, lcmp).
    F24,
    /// Branch on an int compared with zero (JVM Specification 6.5, `if<cond>`).
    F25,
    /// Branch on two ints compared (JVM Specification 6.5, `if_icmp<cond>`).
    F26,
    /// Branch on references: two compared, or one with null (JVM Specification 6.5,
    /// `if_acmp<cond>`, ifnull, ifnonnull).
    F27,
    /// Branch always (JVM Specification 6.5, goto, goto_w).
    F28,
    /// Switch (JVM Specification 6.5, tableswitch, lookupswitch).
    F29,
    /// Read of a field (JVM Specification 6.5, getfield).
    F30,
    /// Write of a field (JVM Specification 6.5, putfield).
    F31,
    /// Call of a method (JVM Specification 6.5, invokevirtual, invokespecial, invokestatic,
    /// invokeinterface).
    F32,
    /// New object (JVM Specification 6.5, new).
    F33,
    /// New array (JVM Specification 6.5, newarray, anewarray, multianewarray).
    F34,
    /// Length of an array (JVM Specification 6.5, arraylength).
    F35,
    /// Throw (JVM Specification 6.5, athrow).
    F36,
    /// Class test (JVM Specification 6.5, checkcast, instanceof).
    F37,
    /// Wide form of a load, a store or an increment (JVM Specification 6.5, wide).
    F38,
}

/// The operands that follow the code in the instruction (JVM Specification 6.5, each instruction's
/// format; the names are the project's own).
#[derive(Clone, Copy, Debug, PartialEq, Eq)]
pub enum Shape {
    /// No operand.
    Plain,
    /// The number of a local variable, in one byte.
    L1,
    /// A signed number, in one byte.
    S1,
    /// A signed number, in two bytes.
    S2,
    /// An index of the constant pool, in one byte.
    P1,
    /// An index of the constant pool, in two bytes.
    P2,
    /// A signed branch offset from the instruction's start, in two bytes.
    B2,
    /// A signed branch offset from the instruction's start, in four bytes.
    B4,
    /// The number of a local variable, in one byte, and a signed number, in one byte.
    Inc,
    /// The code of a primitive type, in one byte.
    Prim,
    /// An index of the constant pool, in two bytes, a count, in one byte, and a zero byte.
    Itf,
    /// An index of the constant pool, in two bytes, and a number of dimensions, in one byte.
    Mul,
    /// The table of tableswitch, after padding.
    Tab,
    /// The pairs of lookupswitch, after padding.
    Look,
    /// The widened instruction's code and its wider operands.
    Wide,
}

/// One operand of the stack, as the verifier of the JVM Specification 4.10.1 sees it (the letters are
/// the project's own).
#[derive(Clone, Copy, Debug, PartialEq, Eq)]
pub enum Letter {
    /// An int.
    I,
    /// A long.
    J,
    /// An initialised reference, or null.
    A,
    /// A reference, uninitialised ones too, or null.
    R,
    /// Null.
    Null,
}

/// The operands that an instruction pops or pushes (JVM Specification 6.5, each instruction's
/// operand stack).
#[derive(Clone, Copy, Debug, PartialEq, Eq)]
pub enum Kinds {
    /// The instruction's own rule says it.
    Own,
    /// The first `n` of the letters, the top standing last; unused ones are `I`.
    Letters {
        n: u8,
        first: Letter,
        second: Letter,
        third: Letter,
    },
}

/// An instruction's row.
#[derive(Clone, Copy, Debug, PartialEq, Eq)]
pub struct Row {
    pub code: u8,
    pub family: Family,
    pub shape: Shape,
    pub pops: Kinds,
    pub pushes: Kinds,
}

/// A list of `N` rows.
#[derive(Clone, Copy)]
pub struct Table<const N: usize> {
    pub rows: &'static [Row; N],
}
