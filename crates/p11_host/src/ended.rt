//! How a dialogue ended.
ghost use Rattle.std.specs.Prelude.{◌≡◌};
ghost use Rattle.p11_host.specs.Hosts.{end_of};

/// What became of a dialogue.
#[derive(Clone, Copy)]
pub struct Course {
    /// The input couldn't be read.
    pub has_read_fault: bool,
    /// The screen took nothing any more.
    pub has_write_fault: bool,
    /// The record lacks something.
    pub is_torn: bool,
    /// The person was gone, or a signal came.
    pub is_cut_off: bool,
}

/// How a dialogue ended.
#[derive(Clone, Copy)]
pub enum End {
    ReadFault,
    WriteFault,
    /// With this exit status (decimal).
    Status(u8),
}

/// How a dialogue ended, whose console has this exit status: by its first fault of a read or a write; with status 1 if its
/// record lacks something or it was cut off; else with the console's status.
pub fn end_of(course: Course, status: u8) -> End
    ensures { result ≡ end_of course status }
{
    if course.has_read_fault {
        return End::ReadFault;
    }
    if course.has_write_fault {
        return End::WriteFault;
    }
    if course.is_torn || course.is_cut_off {
        return End::Status(1);
    }
    End::Status(status)
}
