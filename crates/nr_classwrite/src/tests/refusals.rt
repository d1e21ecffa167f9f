//! What a class file has no room or no name for.

use super::shape::class_of;
use crate::write_class;
use std::test::Fail;

// Of a class: at least how many entries the pool has, the names of attributes in it, the interfaces,
// the fields without a constant value and with one, the abstract methods, and the code of other
// methods, each its bytes, its handlers and the bytes of its frame maps, if it has some; then how many
// bytes are written, by the widths of JVM Specification 4, or the fault.
//
// No class has more than 65,535 entries, 65,536 methods, 65,536 handlers in a method or 65,535 bytes of
// code, so `Code` never comes. For `Attributes` there have to be some 4 GiB of frame maps.
const ROWS: &str = "\
65534||0|0|0|0||330433
65535||0|0|0|0||TooLong(Pool, 65535)
0||65535|0|0|0||137688
0||65536|0|0|0||TooLong(Interfaces, 65536)
0||0|65535|0|0||530898
0||0|65536|0|0||TooLong(Fields, 65536)
0|ConstantValue|0|65534|1|0||530922
0|ConstantValue|0|65535|1|0||TooLong(Fields, 65536)
0||0|0|0|65535||530898
0||0|0|0|65536||TooLong(Methods, 65536)
0|Code|0|0|0|65534|1:0|530924
0|Code|0|0|0|65535|1:0|TooLong(Methods, 65536)
0|Code|0|0|0|0|65535:65535|596466
0|Code|0|0|0|0|1:65536|TooLong(Handlers, 65536)
0||0|1|0|1||6634
0|Code|0|0|0|0|1:0|6652
0||0|0|0|0|1:0|NoAttrName(Code)
0|code Codes|0|0|0|0|1:0|NoAttrName(Code)
0|Code StackMapTable|0|0|0|0|1:1:70000 2:0:0|76716
0|Code ConstantValue|0|0|0|0|1:0:9|NoAttrName(StackMapTable)
0|StackMapTable ConstantValue|0|0|0|0|1:0:0|NoAttrName(Code)
0|ConstantValue|0|1|1|0||6658
0|Code StackMapTable|0|1|1|0||NoAttrName(ConstantValue)
65535||65536|0|0|0||TooLong(Pool, 65535)
65535||0|0|1|0||TooLong(Pool, 65535)
0||65536|65536|0|0||TooLong(Interfaces, 65536)
0||65536|0|1|0||TooLong(Interfaces, 65536)
0||0|65535|1|0||TooLong(Fields, 65536)
0||0|65536|0|65536||TooLong(Fields, 65536)
0||0|0|1|65536||NoAttrName(ConstantValue)
0||0|0|1|0|1:0|NoAttrName(ConstantValue)
0||0|0|0|65535|1:0|TooLong(Methods, 65536)
0||0|0|0|0|1:65536|NoAttrName(Code)
0|Code|0|0|0|0|1:65536:9|TooLong(Handlers, 65536)
0|Code|0|0|0|0|1:0:9 1:65536|NoAttrName(StackMapTable)
0|Code|0|0|0|0|1:65536 1:0:9|TooLong(Handlers, 65536)
";

#[test]
fn counts_and_names(rt: HostRuntime) -> Result<(), Fail> {
    for row in ROWS.lines() {
        let class = class_of(&rt, row)?;
        let told = match write_class(rt.alloc(), &class) {
            Ok(bytes) => format!(in rt.alloc(); "{}", bytes.len())?,
            Err(fault) => format!(in rt.alloc(); "{fault:?}")?,
        };
        let want = row.rsplit('|').next().ok_or("an answer")?;
        assert_eq!(rt; told.as_str(), want, "{row}");
    }
    Ok(())
}
