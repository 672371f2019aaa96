//! A stream: its position and its registers.

ghost use Rattle.std.specs.Prelude.{◌≡◌, map};
ghost use Rattle.xc_isa.specs.Effects.{read, printed_regs};
ghost use Rattle.xc_isa.specs.Machine.{Live, begun as begun_of};
ghost use Rattle.xc_machine_slots.specs.Registers.{regs_of};
ghost use Rattle.xc_machine_slots.specs.Registers.{answered};

use xc_isa::Reg;

/// The position of the next instruction, and the registers.
#[derive(Clone, Copy)]
pub struct Stream {
    pub at: u64,
    pub regs: [u64; 32],
}

impl Stream {
    /// The stream that a machine starts with.
    pub fn first() -> Stream
        ensures { Live result.at (regs_of result.regs) ≡ Live 0 (λ x. 0) }
    {
        Stream {
            at: 0,
            regs: [0; 32],
        }
    }

    /// A stream as it starts: r1 has the word.
    pub fn begun(at: u32, word: u64) -> Stream
        ensures { Live result.at (regs_of result.regs) ≡ begun_of at word }
    {
        let mut regs = [0; 32];
        regs[1] = word;
        Stream {
            at: u64::from(at),
            regs,
        }
    }

    /// What a register holds.
    pub fn read(&self, r: Reg) -> u64
        ensures { result ≡ read (regs_of self.now.regs) r }
    {
        if r.number() == 0 {
            0
        } else {
            self.regs[r.number() as usize]
        }
    }

    /// The registers from r24 on, which are printed.
    pub fn printed(&self) -> [u64; 8]
        ensures { result ≡ map (read (regs_of self.now.regs)) printed_regs }
    {
        [
            self.regs[24],
            self.regs[25],
            self.regs[26],
            self.regs[27],
            self.regs[28],
            self.regs[29],
            self.regs[30],
            self.regs[31],
        ]
    }

    /// The stream goes on at another position, with a word in a register where one is named.
    pub fn go(&mut self, at: u64, to: Option<Reg>, word: u64)
        ensures at { self.new.at ≡ at }
        ensures regs { regs_of self.new.regs ≡ answered (regs_of self.old.regs) to word }
    {
        self.at = at;
        if let Some(d) = to {
            self.regs[d.number() as usize] = word;
        }
    }
}
