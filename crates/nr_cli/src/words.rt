//! The words of the command line.
ghost use Rattle.std.specs.Prelude.{◌≡◌, ◌^◌, ◌<◌, ◌≤◌, ◌-◌, length, vec_len, cond, None, Some, IfOk, IfSome, MatchOption, map, true, []};
ghost use Rattle.std.specs.Option.{option_map};
ghost use Rattle.std.specs.Char.{is_ascii_digit};
ghost use Rattle.std.specs.List.{list_all};
ghost use Rattle.std.specs.Str.Parse.{digits_value};
ghost use Rattle.nr_base.specs.Names.{is_name};
ghost use Rattle.nr_prog.specs.LegalTests.{is_class_text};
ghost use Rattle.nr_cli.specs.Words.{is_number, number_within, budget_of, int_of, ints_onto, ints_of, fits_word, slashed, is_name_byte, class_name_of, command_of, told};

use crate::command::RunCommand;
use nr_base::{Items, Name, NameFault};
use std::alloc::{AllocError, Global};

fn all_digits(word: &[u8]) -> bool
    ensures { result ≡ list_all is_ascii_digit word.now }
{
    word.iter().all(|digit| digit.is_ascii_digit())
}

fn is_decimal(word: &[u8]) -> bool
    ensures { result ≡ is_number word.now }
{
    if word.is_empty() || !all_digits(word) {
        return false;
    }
    word.len() == 1 || word[0] != b'0'
}

// The number of decimal digits, where it is below 2^32.
fn parse_digits(word: &str) -> Option<u32>
    requires { is_number word.now ≡ true }
    ensures { MatchOption result (2 ^ 32 ≤ digits_value 10 word.now)
        (λ n. n ≡ digits_value 10 word.now) }
{
    match word.parse::<u32>() {
        Ok(number) => Some(number),
        Err(_) => None,
    }
}

// A number in decimal digits that is at least `low` and at most `high`.
fn read_number(word: &str, low: u32, high: u32) -> Option<u32>
    ensures { result ≡ number_within low high word.now }
{
    if !is_decimal(word.as_bytes()) {
        return None;
    }
    match parse_digits(word) {
        Some(number) if low <= number && number <= high => Some(number),
        _ => None,
    }
}

fn read_budget(word: &str) -> Option<u32>
    ensures { result ≡ budget_of word.now }
{
    read_number(word, 1, 1_000_000_000)
}

// A number of `main`'s array.
fn read_int(word: &str) -> Option<i32>
    ensures { result ≡ int_of word.now }
{
    match word.strip_prefix('-') {
        Some(digits) => match read_number(digits, 1, 1 << 31) {
            Some(magnitude) => Some((-i64::from(magnitude)) as i32),
            None => None,
        },
        None => match read_number(word, 0, (1 << 31) - 1) {
            Some(magnitude) => Some(magnitude as i32),
            None => None,
        },
    }
}

// The numbers of `main`'s array, of at most 1,000 words.
fn read_ints(alloc: Global, words: &[&str]) -> Result<Option<Items<i32>>, AllocError>
    ensures ints { IfOk result (λ o. o ≡ ints_of (map (λ w. w.now) words.now)) }
    ensures few { IfOk result (λ o. IfSome o (λ ints. length ints ≤ 1000)) }
{
    if words.len() > 1000 {
        return Ok(None);
    }
    let mut ints = Vec::new(alloc);
    let mut rest = words;
    while let [word, after @ ..] = rest {
        let Some(int) = read_int(word) else {
            return Ok(None);
        };
        ints.push(int)?;
        rest = after;
    }
    Ok(Some(Items::from_vec(ints)))
}

fn is_word(word: &str) -> bool
    ensures { result ≡ fits_word word.now }
{
    1 <= word.len() && word.len() <= 255
}

fn is_part_of_name(byte: u8) -> bool
    ensures { result ≡ is_name_byte byte }
{
    byte.is_ascii_alphanumeric() || matches!(byte, b'_' | b'$' | b'/' | b'.')
}

fn has_name_bytes(word: &[u8]) -> bool
    ensures { result ≡ list_all is_name_byte word.now }
{
    word.iter().all(|byte| is_part_of_name(*byte))
}

// The word with each `.` as `/`.
fn with_slashes(alloc: Global, word: &str) -> Result<Vec<u8>, AllocError>
    ensures name { IfOk result (λ name. name.items ≡ slashed word.now) }
    ensures len { IfOk result (λ name. vec_len name ≡ length word.now) }
{
    word.as_bytes()
        .iter()
        .map(|byte| if *byte == b'.' { b'/' } else { *byte })
        .collect(alloc)
}

// The name that the bytes are.
fn read_name(alloc: Global, bytes: &[u8]) -> Result<Option<Name>, AllocError>
    requires { length bytes.now < 2 ^ 16 }
    ensures { IfOk result (λ o. o ≡ cond (is_name bytes.now) (Some bytes.now) None) }
{
    match Name::read(alloc, bytes) {
        Ok(name) => Ok(Some(name)),
        Err(NameFault::NoMemory) => Err(AllocError),
        Err(_) => Ok(None),
    }
}

// The name of a class that the bytes are.
fn legal_name(alloc: Global, bytes: &[u8]) -> Result<Option<Name>, AllocError>
    requires { length bytes.now < 2 ^ 16 }
    ensures { IfOk result (λ o. o ≡ cond (is_class_text bytes.now) (Some bytes.now) None) }
{
    let Some(name) = read_name(alloc, bytes)? else {
        return Ok(None);
    };
    if !name.is_class_name() {
        return Ok(None);
    }
    Ok(Some(name))
}

// The internal form of a class name.
fn read_class_name(alloc: Global, word: &str) -> Result<Option<Name>, AllocError>
    ensures { IfOk result (λ o. o ≡ class_name_of word.now) }
{
    if !is_word(word) || !has_name_bytes(word.as_bytes()) {
        return Ok(None);
    }
    let name = with_slashes(alloc, word)?;
    legal_name(alloc, &name)
}

/// The command that the words after the program's name give, or none where they fit no row of the
/// word table.
pub fn read_words<'a>(
    alloc: Global,
    words: &[&'a str],
) -> Result<Option<RunCommand<'a>>, AllocError>
    ensures { IfOk result (λ o. option_map told o ≡ command_of (map (λ w. w.now) words.now)) }
{
    let [run, dir, main, budget, ints @ ..] = words else {
        return Ok(None);
    };
    if *run != "run" || !is_word(dir) {
        return Ok(None);
    }
    let Some(main) = read_class_name(alloc, main)? else {
        return Ok(None);
    };
    let Some(budget) = read_budget(budget) else {
        return Ok(None);
    };
    let Some(ints) = read_ints(alloc, ints)? else {
        return Ok(None);
    };
    Ok(Some(RunCommand {
        dir,
        main,
        budget,
        ints,
    }))
}
