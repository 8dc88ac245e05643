// Numbers: the paper's ranges and widths, the form of every answer, and the laws of integers, lists and powers of two that every proof
// cites.
#![tactic(auto)]

ghost use Rattle.std.specs.Prelude.{◌≡◌};
ghost use Rattle.numbers.specs.Refusals.{number};

pub mod arithmetic;
pub mod widths;

// The most variables that a table may have.
pub const MOST_VARIABLES: usize = 12;

// The values of such a table.
pub const MOST_VALUES: usize = 4096;

// The widest address of a cell, which is the greatest address limit too.
pub const WIDEST_ADDRESS: usize = 12;

// Why an operation refuses, in the order of the paper's numbers.
#[derive(Clone, Copy, Debug, PartialEq, Eq)]
pub enum Refusal {
    // n is no number of variables.
    Variables,
    // A table or its buffer has not 2^n values, or a weight list not n.
    Length,
    // A value or a weight is out of range.
    Value,
    // The node buffer is too short.
    NodeRoom,
    // The offset is out of the values' range.
    Offset,
    // The record list is no diagram, or a least or greatest in it is untrue.
    Records,
    // X is not below 2^n.
    Index,
    // A is no address limit.
    Limit,
    // No grouping keeps to A.
    NoGrouping,
    // The image buffer is shorter than the image.
    ImageRoom,
    // The image ends too early.
    CutOff,
    // A command that is not allowed there.
    Command,
    // An operand that breaks a rule.
    Operand,
    // Bytes behind the image's end.
    Trailing,
    // a and b bound no part of the domain.
    Part,
    // m is no number of bits of a pair.
    PairBits,
    // X or Y is not below 2^m.
    Pair,
    // Some sum of the weights is out of the values' range.
    Sum,
    // q is no number of bits of a remainder.
    RemainderBits,
}

impl From<Refusal> for u8 {
    ghost from_gives = { λ refusal byte. byte ≡ number refusal };

    #[tactic(auto, unfolding(crate::specs::Refusals::number))]
    fn from(refusal: Refusal) -> u8 {
        match refusal {
            Refusal::Variables => 1,
            Refusal::Length => 2,
            Refusal::Value => 3,
            Refusal::NodeRoom => 4,
            Refusal::Offset => 5,
            Refusal::Records => 6,
            Refusal::Index => 7,
            Refusal::Limit => 8,
            Refusal::NoGrouping => 9,
            Refusal::ImageRoom => 10,
            Refusal::CutOff => 11,
            Refusal::Command => 12,
            Refusal::Operand => 13,
            Refusal::Trailing => 14,
            Refusal::Part => 15,
            Refusal::PairBits => 16,
            Refusal::Pair => 17,
            Refusal::Sum => 18,
            Refusal::RemainderBits => 19,
        }
    }
}
