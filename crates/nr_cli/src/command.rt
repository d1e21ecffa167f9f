//! Commands.
ghost use Rattle.std.specs.Prelude.{◌≤◌, length};

use nr_base::{Items, Name};

/// The command `run`: which class of which folder, for how many steps at most, on which numbers.
#[derive(Drop)]
pub struct RunCommand<'a> {
    pub dir: &'a str,
    pub main: Name,
    pub budget: u32,
    pub ints: Items<i32>,
    ghost few_ints: { length ints ≤ 1000 },
}
