// How a processor begins.
ghost use Rattle.std.specs.Prelude.{◌≡◌};
ghost use Rattle.registers.specs.Model.{state_of};
ghost use Rattle.registers.specs.State.{began, pc_of};

use crate::cpu::Cpu;
use crate::status::Status;

impl Cpu {
    // All zero but the program counter and the return pointer.
    #[tactic(auto, unfolding(crate::specs::State::began, byte_rows::specs::Rows::zeros))]
    pub fn new(pc: u16, return_pointer: u16) -> Cpu
        ensures { state_of result ≡ began pc return_pointer }
    {
        let mut cpu = Cpu {
            registers: [0; 64],
            arp: 0,
            drp: 0,
            status: Status::clear(),
            e: 0,
        };
        cpu.set_pair(4, pc);
        cpu.set_pair(6, return_pointer);
        cpu
    }

    // The program counter.
    #[inline(always)]
    pub fn pc(&self) -> u16
        ensures { result ≡ pc_of (state_of self.now) }
    {
        self.pair(4)
    }
}
