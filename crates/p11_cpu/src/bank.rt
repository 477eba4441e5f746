// The processor's registers as they are kept: found by their number, whatever the mode.
ghost use Rattle.std.specs.Prelude.{◌≡◌};
ghost use Rattle.p11_cpu.specs.Kept.Bank.{no_registers};
ghost use Rattle.p11_cpu.specs.ProcessorControl.{is_kernel};
ghost use Rattle.p11_cpu.specs.Registers.{register_in, stack_pointer, with_register, with_stack_pointer};

use crate::registers::Registers;
use p11_decode::Register;
use p11_psw::Mode;
use std::marker::Model;

/// Whether a mode is kernel mode.
#[inline(always)]
pub(crate) fn is_kernel(mode: Mode) -> bool
    ensures { result ≡ is_kernel mode }
{
    match mode {
        Mode::Kernel => true,
        Mode::Mode01 | Mode::Mode10 | Mode::User => false,
    }
}

/// The eight registers that instructions name, in the order of their numbers, with the stack pointer that the current
/// mode has among them; and the other stack pointer.
#[derive(Drop)]
pub(crate) struct Bank {
    /// In front of the words, so that PC has no 32 bits in common with the stack pointer before it, for whose stores its
    /// loads would wait.
    other_sp: u16,
    words: [u16; 8],
    /// Whether the stack pointer among the words is kernel mode's.
    of_kernel: bool,
}

impl Model for Bank {
    ghost use Rattle.p11_cpu.specs.Kept.Bank.{BankState, file_of};

    ghost Value = { BankState };

    ghost view = { λ b. record { file = file_of b.words b.other_sp b.of_kernel; of_kernel = b.of_kernel } };
}

impl Bank {
    /// All registers 0, with the stack pointer of a mode among the words.
    #[tactic(auto, using(crate::proofs::Banks::zeros))]
    pub fn new(mode: Mode) -> Bank
        ensures { result ≡ record { file = no_registers; of_kernel = is_kernel mode } }
    {
        Bank {
            words: [0; 8],
            other_sp: 0,
            of_kernel: is_kernel(mode),
        }
    }

    /// The registers.
    #[tactic(auto, unfolding(crate::specs::Kept::Bank::file_of))]
    pub fn registers(&self) -> Registers
        ensures { result ≡ self.now.file }
    {
        let words = &self.words;
        Registers {
            general: [words[0], words[1], words[2], words[3], words[4], words[5]],
            kernel_sp: self.stack_pointer(Mode::Kernel),
            user_sp: self.stack_pointer(Mode::User),
            pc: words[7],
        }
    }

    /// PC.
    #[tactic(auto, using(crate::proofs::Banks::counter))]
    #[inline(always)]
    pub fn pc(&self) -> u16
        ensures { result ≡ self.now.file.pc }
    {
        self.words[7]
    }

    /// Sets PC.
    #[tactic(auto, using(crate::proofs::Banks::with_counter))]
    #[inline(always)]
    pub fn set_pc(&mut self, value: u16)
        ensures { self.new ≡ record self.old { file = record self.old.file { pc = value } } }
    {
        self.words[7] = value;
    }

    /// The register that an instruction names in the mode whose stack pointer is among the words.
    #[tactic(auto, unfolding(crate::specs::Registers::register_in), using(crate::proofs::Banks::counter, crate::proofs::Banks::in_front, crate::proofs::Banks::stack))]
    #[inline(always)]
    pub fn get(&self, _mode: Mode, register: Register) -> u16
        requires { is_kernel _mode ≡ self.now.of_kernel }
        ensures { result ≡ register_in _mode register self.now.file }
    {
        match register {
            Register::R0
            | Register::R1
            | Register::R2
            | Register::R3
            | Register::R4
            | Register::R5
            | Register::Sp
            | Register::Pc => self.words[register as usize],
        }
    }

    /// Sets the register that an instruction names in the mode whose stack pointer is among the words.
    #[tactic(auto, unfolding(crate::specs::Registers::with_register), using(crate::proofs::Banks::with_counter, crate::proofs::Banks::general_set, crate::proofs::Banks::with_stack))]
    #[inline(always)]
    pub fn set(&mut self, _mode: Mode, register: Register, value: u16)
        requires { is_kernel _mode ≡ self.old.of_kernel }
        ensures { self.new ≡ record self.old { file = with_register _mode register value self.old.file } }
    {
        match register {
            Register::R0
            | Register::R1
            | Register::R2
            | Register::R3
            | Register::R4
            | Register::R5
            | Register::Sp
            | Register::Pc => self.words[register as usize] = value,
        }
    }

    /// The stack pointer of any mode.
    #[tactic(auto, using(crate::proofs::Banks::stack, crate::proofs::Banks::other_stack))]
    #[inline(always)]
    pub fn stack_pointer(&self, mode: Mode) -> u16
        ensures { result ≡ stack_pointer mode self.now.file }
    {
        if is_kernel(mode) == self.of_kernel {
            self.words[6]
        } else {
            self.other_sp
        }
    }

    /// Sets the stack pointer of any mode.
    #[tactic(auto, using(crate::proofs::Banks::with_stack, crate::proofs::Banks::with_other))]
    #[inline(always)]
    pub fn set_stack_pointer(&mut self, mode: Mode, value: u16)
        ensures { self.new ≡ record self.old { file = with_stack_pointer mode value self.old.file } }
    {
        if is_kernel(mode) == self.of_kernel {
            self.words[6] = value;
        } else {
            self.other_sp = value;
        }
    }

    /// The register that an instruction names in any mode.
    #[tactic(auto, unfolding(crate::specs::Registers::register_in), using(crate::proofs::Banks::counter, crate::proofs::Banks::in_front))]
    #[inline(always)]
    pub fn get_in(&self, mode: Mode, register: Register) -> u16
        ensures { result ≡ register_in mode register self.now.file }
    {
        match register {
            Register::R0
            | Register::R1
            | Register::R2
            | Register::R3
            | Register::R4
            | Register::R5
            | Register::Pc => self.words[register as usize],
            Register::Sp => self.stack_pointer(mode),
        }
    }

    /// Sets the register that an instruction names in any mode.
    #[tactic(auto, unfolding(crate::specs::Registers::with_register), using(crate::proofs::Banks::with_counter, crate::proofs::Banks::general_set))]
    #[inline(always)]
    pub fn set_in(&mut self, mode: Mode, register: Register, value: u16)
        ensures { self.new ≡ record self.old { file = with_register mode register value self.old.file } }
    {
        match register {
            Register::R0
            | Register::R1
            | Register::R2
            | Register::R3
            | Register::R4
            | Register::R5
            | Register::Pc => self.words[register as usize] = value,
            Register::Sp => self.set_stack_pointer(mode, value),
        }
    }

    /// Has the stack pointer of a mode among the words.
    #[tactic(auto, using(crate::proofs::Banks::exchanged))]
    pub fn select(&mut self, mode: Mode)
        ensures { self.new ≡ record self.old { of_kernel = is_kernel mode } }
    {
        let of_kernel = is_kernel(mode);
        if of_kernel != self.of_kernel {
            let sp = self.words[6];
            self.words[6] = self.other_sp;
            self.other_sp = sp;
            self.of_kernel = of_kernel;
        }
    }
}
