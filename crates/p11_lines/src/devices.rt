// The lines of the devices.
ghost use Rattle.std.specs.Prelude.{◌≡◌, ◌++◌, OnOk, OnErr};
ghost use Rattle.p11_lines.specs.AnswerText.{clock_text, due_text, line_words_text, line_waits_text, management_text};
ghost use Rattle.p11_lines.specs.AnswerText.{request_text, requests_text, devices_text};
ghost use Rattle.p11_lines.specs.Calls.Writing.{Puts};

use crate::answer::{Devices, ManagementRegisters};
use crate::output::{Broken, Table, octal, put_all};
use crate::packs::{put_disk, put_drives};
use crate::sink::Sink;
use arrayvec::ArrayVec;
use itoa::Buffer;
use p11_unibus::BusDevices;

/// A due turn, or a dash.
pub(crate) fn due_name(due: Option<u64>) -> ArrayVec<u8, 20>
    ensures { result.items ≡ due_text due }
{
    let mut name = ArrayVec::new();
    let Some(turn) = due else {
        name.push(b'-');
        return name;
    };
    let mut buffer = Buffer::new();
    let _ = name.try_extend_from_slice(buffer.format(turn).as_bytes());
    name
}

#[tactic(auto, unfolding(crate::specs::AnswerText::clock_text))]
fn put_clock<W: Sink>(writer: &mut W, table: &mut Table, devices: &BusDevices) -> Result<(), Broken>
    ensures { Puts (W.state writer.old) table.old.items (clock_text devices.now)
        (W.state writer.new) table.new.items result }
{
    let status = octal(u32::from(devices.clock));
    let mut buffer = Buffer::new();
    let period = buffer.format(devices.clock_period).as_bytes();
    let due = due_name(devices.clock_due);
    put_all(
        writer,
        table,
        &[
            b"KW11 ",
            &status,
            b" every ",
            period,
            b" due ",
            due.as_slice(),
            b"\n",
        ],
    )
}

#[tactic(auto, unfolding(crate::specs::AnswerText::line_words_text))]
fn put_line_words<W: Sink>(
    writer: &mut W,
    table: &mut Table,
    devices: &BusDevices,
) -> Result<(), Broken>
    ensures { Puts (W.state writer.old) table.old.items (line_words_text devices.now)
        (W.state writer.new) table.new.items result }
{
    let receiver = octal(u32::from(devices.receiver_status));
    let character = octal(u32::from(devices.receiver_buffer));
    let transmitter = octal(u32::from(devices.transmitter_status));
    put_all(
        writer,
        table,
        &[b"DL11 ", &receiver, b" ", &character, b" ", &transmitter],
    )
}

#[tactic(auto, unfolding(crate::specs::AnswerText::line_waits_text))]
fn put_line_waits<W: Sink>(
    writer: &mut W,
    table: &mut Table,
    devices: &BusDevices,
) -> Result<(), Broken>
    ensures { Puts (W.state writer.old) table.old.items (line_waits_text devices.now)
        (W.state writer.new) table.new.items result }
{
    let mut buffer = Buffer::new();
    let keys = buffer.format(devices.keys).as_bytes();
    let receives = due_name(devices.receiver_due);
    let types = due_name(devices.transmitter_due);
    put_all(
        writer,
        table,
        &[
            b" keys ",
            keys,
            b" rx ",
            receives.as_slice(),
            b" tx ",
            types.as_slice(),
            b"\n",
        ],
    )
}

fn put_line<W: Sink>(writer: &mut W, table: &mut Table, devices: &BusDevices) -> Result<(), Broken>
    ensures { Puts (W.state writer.old) table.old.items (line_words_text devices.now ++ line_waits_text devices.now)
        (W.state writer.new) table.new.items result }
{
    put_line_words(writer, table, devices)?;
    put_line_waits(writer, table, devices)
}

#[tactic(auto, unfolding(crate::specs::AnswerText::management_text))]
fn put_management<W: Sink>(
    writer: &mut W,
    table: &mut Table,
    management: &ManagementRegisters,
) -> Result<(), Broken>
    ensures { Puts (W.state writer.old) table.old.items (management_text management.now)
        (W.state writer.new) table.new.items result }
{
    let status_0 = octal(u32::from(management.status_0));
    let status_2 = octal(u32::from(management.status_2));
    put_all(writer, table, &[b"MMU ", &status_0, b" ", &status_2, b"\n"])
}

/// The word for whether an interrupt is requested.
fn request_name(request: bool) -> &'static str
    ensures { result.now ≡ request_text request }
{
    if request { "1" } else { "0" }
}

#[tactic(auto, unfolding(crate::specs::AnswerText::requests_text))]
fn put_requests<W: Sink>(
    writer: &mut W,
    table: &mut Table,
    devices: &BusDevices,
) -> Result<(), Broken>
    ensures { Puts (W.state writer.old) table.old.items (requests_text devices.now)
        (W.state writer.new) table.new.items result }
{
    put_all(
        writer,
        table,
        &[
            b"REQ ",
            request_name(devices.clock_request).as_bytes(),
            b" ",
            request_name(devices.disk_request).as_bytes(),
            b" ",
            request_name(devices.receiver_request).as_bytes(),
            b" ",
            request_name(devices.transmitter_request).as_bytes(),
            b"\n",
        ],
    )
}

pub(crate) fn put_devices<W: Sink>(
    writer: &mut W,
    table: &mut Table,
    devices: &Devices,
) -> Result<(), Broken>
    ensures { Puts (W.state writer.old) table.old.items (devices_text devices.now)
        (W.state writer.new) table.new.items result }
{
    put_clock(writer, table, &devices.bus)?;
    put_line(writer, table, &devices.bus)?;
    put_disk(writer, table, &devices.bus.disk)?;
    put_drives(writer, table, &devices.bus.drives)?;
    put_management(writer, table, &devices.management)?;
    put_requests(writer, table, &devices.bus)
}
