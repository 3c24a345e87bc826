//! The digits of numbers, and of one that is counted up.
ghost use Rattle.std.specs.Prelude.{◌≡◌, ℕ, ◌+◌, ◌*◌, ◌<◌, ◌≤◌, ◌^◌, ◌++◌, decimal, drop, length};

use crate::report_piece::Piece;
use itoa::write_digits;
use std::marker::Model;

/// Where the digits end. After them are as many bytes again, so that a copy of so many from the first digit on is
/// always there: a copy of a fixed length costs no call.
const END: usize = 24;

/// A number and its decimal digits.
#[derive(Drop)]
pub struct Numeral {
    number: u64,
    digits: [u8; 48],
    /// Where the digits begin.
    start: usize,
}

impl Model for Numeral {
    ghost Value = { ℕ };

    ghost view = { λ n. n.number };

    ghost invariant = { λ n. (n.start + length (decimal n.number) ≡ 24) × (drop n.start n.digits ≡ decimal n.number ++ drop 24 n.digits) };
}

impl Numeral {
    /// The number with its digits, which are made once, and may be printed several times.
    pub fn of(number: u64) -> Numeral
        ensures { result ≡ number }
    {
        let mut digits = [0; 48];
        let start = write_digits(number, &mut digits, END);
        Numeral {
            number,
            digits,
            start,
        }
    }

    /// The number whose digits are printed.
    pub fn number(&self) -> u64
        ensures { result ≡ self.now }
    {
        self.number
    }

    /// Prints the digits of the number at the end of a piece.
    #[inline(always)]
    pub fn push(&self, piece: &mut Piece)
        requires { length piece.old + 24 ≤ 262144 }
        ensures text { piece.new ≡ piece.old ++ decimal self.now }
        ensures short { length piece.new ≤ length piece.old + 24 }
    {
        let start = self.start;
        piece.push_first(&self.digits[start..start + END], END - start);
    }
}

/// A number that is counted up: its last digit stands apart, so that the others are written once in ten times.
#[derive(Drop)]
pub struct Counter {
    tens: Numeral,
    last: u8,
}

impl Model for Counter {
    ghost Value = { ℕ };

    ghost view = { λ c. c.tens * 10 + c.last };

    ghost invariant = { λ c. c.last < 10 };
}

impl Counter {
    /// A number from which is counted up, with its digits for printing.
    pub fn at(number: u64) -> Counter
        ensures { result ≡ number }
    {
        Counter {
            tens: Numeral::of(number / 10),
            last: (number % 10) as u8,
        }
    }

    /// Counts up: the digits before the last one are made anew for printing once in ten times.
    #[inline(always)]
    pub fn advance_number(&mut self)
        requires { self.old + 1 < 2 ^ 64 }
        ensures { self.new ≡ self.old + 1 }
    {
        if self.last == 9 {
            self.tens = Numeral::of(self.tens.number() + 1);
            self.last = 0;
        } else {
            self.last += 1;
        }
    }

    /// Prints the digits of the number that was counted up to, at the end of a piece.
    #[tactic(auto, using(crate::proofs::NumeralLemmas::tens_and_last, std::proofs::lemmas::Fmt::decimal_digit))]
    #[inline(always)]
    pub fn push(&self, piece: &mut Piece)
        requires fits { self.now < 2 ^ 64 }
        requires room { length piece.old + 25 ≤ 262144 }
        ensures text { piece.new ≡ piece.old ++ decimal self.now }
        ensures short { length piece.new ≤ length piece.old + 25 }
    {
        if self.tens.number() == 0 {
            piece.push(&[b'0' + self.last]);
            return;
        }
        self.tens.push(piece);
        piece.push(&[b'0' + self.last]);
    }
}
