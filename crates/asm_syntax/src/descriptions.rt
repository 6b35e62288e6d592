// The descriptions that numbers are.
ghost use Rattle.std.specs.Prelude.{◌≡◌, ◌↔◌, ◌≤◌, ◌<◌, ◌+◌, IsTrue, IsSome, IfSome};
ghost use Rattle.std.specs.List.{list_all};
ghost use Rattle.machine_desc.specs.Value.{description_of};
ghost use Rattle.asm_syntax.specs.Numbers.{is_number as is_number_within};
ghost use Rattle.asm_syntax.specs.Ranges.{number_at, numbers_from, busy_times_of, description_by, is_description};
ghost use Rattle.asm_syntax.specs.StatementReading.{number_of};
ghost use Rattle.asm_syntax.specs.Views.{lexeme_of, numbers_of};

use super::lexemes::{Lexeme, number};
use machine_desc::Mdes;

fn are_each_unsigned(numbers: &[Lexeme<'_>]) -> bool
    ensures { result ≡ list_all (λ x. is_number_within 0 255 (number_of (lexeme_of x))) numbers.now }
{
    numbers.iter().all(|lexeme| {
        let number = number(lexeme);
        0 <= number && number <= 255
    })
}

/// Each number is a byte without a sign, from 0 to 255.
#[tactic(auto, using(crate::proofs::Mapped::numbers_all))]
fn are_unsigned(numbers: &[Lexeme<'_>]) -> bool
    ensures { result ≡ list_all (is_number_within 0 255) (numbers_of numbers.now) }
{
    are_each_unsigned(numbers)
}

/// The number at a place, 0 where there is none.
fn at(numbers: &[Lexeme<'_>], place: usize) -> u8
    requires { IsTrue (list_all (is_number_within 0 255) (numbers_of numbers.now)) }
    ensures { result ≡ number_at (numbers_of numbers.now) place }
{
    match numbers.get(place) {
        Some(lexeme) => number(lexeme).unsigned_abs() as u8,
        None => 0,
    }
}

/// The unit counts.
fn units(numbers: &[Lexeme<'_>]) -> [u8; 5]
    requires { IsTrue (list_all (is_number_within 0 255) (numbers_of numbers.now)) }
    ensures { result ≡ numbers_from 1 5 (numbers_of numbers.now) }
{
    [
        at(numbers, 1),
        at(numbers, 2),
        at(numbers, 3),
        at(numbers, 4),
        at(numbers, 5),
    ]
}

/// Nine numbers from a place on.
fn times(numbers: &[Lexeme<'_>], first: usize) -> [u8; 9]
    requires bytes { IsTrue (list_all (is_number_within 0 255) (numbers_of numbers.now)) }
    requires below { first ≤ 15 }
    ensures { result ≡ numbers_from first 9 (numbers_of numbers.now) }
{
    [
        at(numbers, first),
        at(numbers, first + 1),
        at(numbers, first + 2),
        at(numbers, first + 3),
        at(numbers, first + 4),
        at(numbers, first + 5),
        at(numbers, first + 6),
        at(numbers, first + 7),
        at(numbers, first + 8),
    ]
}

/// The busy times: the last nine of twenty-four numbers, and 1 where there are fifteen.
fn busy_times(numbers: &[Lexeme<'_>]) -> [u8; 9]
    requires { IsTrue (list_all (is_number_within 0 255) (numbers_of numbers.now)) }
    ensures { result ≡ busy_times_of (numbers_of numbers.now) }
{
    if numbers.len() == 15 {
        [1; 9]
    } else {
        times(numbers, 15)
    }
}

/// The description of fifteen or twenty-four numbers: the width, the unit counts, the latencies, and the busy times, which
/// are 1 where they are not given. None where a number is out of its range.
pub fn description(numbers: &[Lexeme<'_>]) -> Option<Mdes>
    ensures in_range { IsSome result ↔ IsTrue (is_description (numbers_of numbers.now)) }
    ensures numbers { IfSome result (λ m. description_of m ≡ description_by (numbers_of numbers.now)) }
{
    if !are_unsigned(numbers) {
        return None;
    }
    Mdes::with_busy(
        at(numbers, 0),
        units(numbers),
        times(numbers, 6),
        busy_times(numbers),
    )
}
