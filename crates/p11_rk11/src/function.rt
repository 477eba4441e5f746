//! The functions of the controller.
ghost use Rattle.std.specs.Prelude.{◌≡◌, ◌<◌, ◌==◌};
ghost use Rattle.p11_rk11.specs.Functions.{function_of, function_number, uses_place, uses_memory, is_write, is_read};

/// The functions of RKCS 3:1, in the order of their numbers.
#[derive(Clone, Copy)]
pub enum Function {
    ControlReset,
    Write,
    Read,
    WriteCheck,
    Seek,
    ReadCheck,
    DriveReset,
    WriteLock,
}

impl Function {
    /// The function with a number from 0 to 7.
    #[tactic(auto, unfolding(crate::specs::Functions::function_of))]
    pub(crate) fn from_number(number: u16) -> Function
        requires { number < 8 }
        ensures { result ≡ function_of number }
    {
        match number {
            0 => Function::ControlReset,
            1 => Function::Write,
            2 => Function::Read,
            3 => Function::WriteCheck,
            4 => Function::Seek,
            5 => Function::ReadCheck,
            6 => Function::DriveReset,
            _ => Function::WriteLock,
        }
    }

    /// The function's number, 0 to 7.
    pub(crate) fn number(self) -> u16
        ensures value { result ≡ function_number self }
        ensures bound { result < 8 }
    {
        match self {
            Function::ControlReset => 0,
            Function::Write => 1,
            Function::Read => 2,
            Function::WriteCheck => 3,
            Function::Seek => 4,
            Function::ReadCheck => 5,
            Function::DriveReset => 6,
            Function::WriteLock => 7,
        }
    }

    /// Whether the place that RKDA gives matters.
    #[tactic(auto, unfolding(crate::specs::Functions::uses_place))]
    pub(crate) fn uses_place(self) -> bool
        ensures { result ≡ uses_place self }
    {
        match self {
            Function::Write
            | Function::Read
            | Function::WriteCheck
            | Function::Seek
            | Function::ReadCheck => true,
            Function::ControlReset | Function::DriveReset | Function::WriteLock => false,
        }
    }

    /// Whether it is the write.
    #[tactic(auto, unfolding(crate::specs::Functions::is_write))]
    pub(crate) fn is_write(self) -> bool
        ensures { result ≡ is_write self }
    {
        self.number() == 1
    }

    /// Whether it is the read.
    #[tactic(auto, unfolding(crate::specs::Functions::is_read))]
    pub(crate) fn is_read(self) -> bool
        ensures { result ≡ is_read self }
    {
        self.number() == 2
    }

    /// Whether it is the control reset.
    pub(crate) fn is_reset(self) -> bool
        ensures { result ≡ (function_number self == 0) }
    {
        self.number() == 0
    }

    /// Whether words of memory are read or written.
    #[tactic(auto, unfolding(crate::specs::Functions::uses_memory))]
    pub(crate) fn uses_memory(self) -> bool
        ensures { result ≡ uses_memory self }
    {
        match self {
            Function::Write | Function::Read | Function::WriteCheck => true,
            Function::ControlReset
            | Function::Seek
            | Function::ReadCheck
            | Function::DriveReset
            | Function::WriteLock => false,
        }
    }
}
