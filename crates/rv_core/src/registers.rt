// The registers.
ghost use Rattle.std.specs.Prelude.{◌≡◌, ◌<◌, ℕ, List, length, replicate};
ghost use Rattle.rv_core.specs.Registers.{reg, put};

use std::marker::Model;

/// 32 registers of 32 bits (RISC-V unprivileged manual, "Programmers' Model for Base Integer ISA").
/// Register 0 reads
/// 0. No call takes memory.
#[derive(Clone, Copy)]
pub struct Regs {
    values: [u32; 32],
}

impl Model for Regs {
    ghost Value = { List ℕ };

    ghost view = { λ r. r.values };

    ghost inverse = { λ v. record { values = v } };
}

impl Regs {
    /// Registers that are all 0. In constant time.
    pub fn new() -> Self
        ensures { result ≡ replicate 32 0 }
    {
        Regs { values: [0; 32] }
    }

    /// The value of register `n`, which is below 32. In constant time.
    pub fn get(&self, n: u8) -> u32
        requires { n < 32 }
        ensures { result ≡ reg self.now n }
    {
        if n == 0 { 0 } else { self.values[n as usize] }
    }

    /// Writes a value to register `n`, which is below 32. A write to register 0 has no effect. In
    /// constant time.
    pub fn put(&mut self, n: u8, value: u32)
        requires { n < 32 }
        ensures { self.new ≡ put self.old n value }
    {
        let kept = n != 0;
        if kept {
            self.values[n as usize] = value;
        }
    }
}
