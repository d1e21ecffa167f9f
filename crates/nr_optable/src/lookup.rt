//! The row of a code, and the length of an instruction's operands.

ghost use Rattle.std.specs.Prelude.{◌≡◌, ◌≢◌, ◌==◌, ◌↔◌, All, Contains, find, IfSome, IsTrue, IsNone, length};
ghost use Rattle.std.specs.List.{AllPass};
ghost use Rattle.nr_optable.specs.Rows.{all_rows};
ghost use Rattle.nr_optable.specs.Operations.{has_operation};
ghost use Rattle.nr_optable.specs.Tables.{operand_bytes, rises};

use crate::listing::rows;
use crate::table::{Row, Shape};

fn find_in(rows: &[Row], code: u8) -> Option<Row>
    ensures found { result ≡ find (λ r. r.code == code) rows.now }
    ensures listed { IfSome result (Contains rows.now) }
    ensures code { IfSome result (λ r. r.code ≡ code) }
    ensures none { IsNone result ↔ All (λ r. r.code ≢ code) rows.now }
{
    rows.iter().copied().find(|row| row.code == code)
}

/// The row of the code, or `None` exactly for a code that the table doesn't list.
pub fn row(code: u8) -> Option<Row>
    ensures found { result ≡ find (λ r. r.code == code) all_rows }
    ensures listed { IfSome result (Contains all_rows) }
    ensures code { IfSome result (λ r. r.code ≡ code) }
    ensures none { IsNone result ↔ All (λ r. r.code ≢ code) all_rows }
{
    let listed = rows().rows;
    find_in(listed, code)
}

/// How many bytes of operands follow the code, or `None` for the two switches and wide, where it
/// depends on more than the shape (JVM Specification 6.5, formats).
pub fn shape_len(shape: Shape) -> Option<u8>
    ensures { result ≡ operand_bytes shape }
{
    match shape {
        Shape::Plain => Some(0),
        Shape::L1 | Shape::S1 | Shape::P1 | Shape::Prim => Some(1),
        Shape::S2 | Shape::P2 | Shape::B2 | Shape::Inc => Some(2),
        Shape::Mul => Some(3),
        Shape::B4 | Shape::Itf => Some(4),
        Shape::Tab | Shape::Look | Shape::Wide => None,
    }
}

/// The codes rise, so each stands once, and there are 137.
#[tactic(auto, unfolding(crate::specs::Rows::all_rows))]
pub fn codes_rise()
    ensures rise { IsTrue (rises all_rows) }
    ensures count { length all_rows ≡ 137 }
{}

/// Each instruction of the families with arithmetic has its operation in the list for its operands:
/// ints or longs.
#[tactic(auto, unfolding(crate::specs::Rows::all_rows))]
pub fn operations_cover()
    ensures { AllPass has_operation all_rows }
{}
