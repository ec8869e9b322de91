//! Runs many mixed operations on small fractions and prints a checksum, so that their instructions can be counted.
//!
//! Words: how many operations, and the seed of the choices.
#![tactic(auto)]

use fraction128::Frac;
use std::io;

// The numerators and denominators that the operands are made of: mostly whole numbers, as in a simplex tableau.
const NUMERATORS: [i128; 16] = [1, -1, 2, -3, 5, 7, -8, 12, 1, -1, 3, -2, 1, 9, -5, 100];

const DENOMINATORS: [i128; 16] = [1, 1, 1, 1, 1, 1, 1, 1, 2, 3, 2, 3, 4, 5, 6, 7];

// The multiplier and the increment of Knuth's linear congruential generator (MMIX).
const MULTIPLIER: u64 = 6364136223846793005;

const INCREMENT: u64 = 1442695040888963407;

#[derive(Drop)]
struct Generator {
    state: u64,
}

impl Generator {
    // The next number of 31 bits.
    fn next(&mut self) -> u64 {
        self.state = self.state.wrapping_mul(MULTIPLIER).wrapping_add(INCREMENT);
        self.state >> 33
    }
}

fn mixed(sum: i128, value: i128) -> i128 {
    sum.wrapping_mul(31).wrapping_add(value)
}

// The checksum after the operation with this number.
fn step(sum: i128, operation: u64, left: Frac, right: Frac) -> i128 {
    let result = match operation {
        0 => left.add(right),
        1 => left.sub(right),
        2 => left.mul(right),
        3 if !right.is_zero() => left.div(right),
        _ => return mixed(sum, left.cmp(right) as i128),
    };
    match result {
        Ok(f) => mixed(mixed(sum, f.numer()), f.denom()),
        Err(_) => mixed(sum, 3),
    }
}

fn operands() -> [Frac; 16] {
    let mut table = [Frac::one(); 16];
    for (i, place) in table.iter_mut().enumerate() {
        if i < 16 {
            if let Ok(f) = Frac::new(NUMERATORS[i], DENOMINATORS[i]) {
                *place = f;
            }
        }
    }
    table
}

fn checksum(count: u64, seed: u64) -> i128 {
    let table = operands();
    let mut choices = Generator { state: seed };
    let mut sum: i128 = 0;
    for _ in 0..count {
        let choice = choices.next();
        let left = table[(choice % 16) as usize];
        let right = table[(choice / 16 % 16) as usize];
        sum = step(sum, choice / 256 % 5, left, right);
    }
    sum
}

fn number(word: Option<String>) -> u64 {
    match word {
        Some(word) => word.as_str().parse().unwrap_or(0),
        None => 0,
    }
}

fn main(rt: HostRuntime) -> io::Result<()> {
    let mut words = std::env::args(&rt)?.skip(1);
    let count = number(words.next());
    let seed = number(words.next());
    println!(rt; "{}", checksum(count, seed))
}
