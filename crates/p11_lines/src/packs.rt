// The lines of the disk controller, of its drives, and of the sectors that were written.
ghost use Rattle.std.specs.Prelude.{◌≡◌, ◌++◌, ◌∷◌, codes, length, decimal};
ghost use Rattle.p11_lines.specs.AnswerText.{disk_text, disk_due_text, pack_text, drive_text, drives_text};
ghost use Rattle.p11_lines.specs.AnswerText.{numbers_text, sectors_text};
ghost use Rattle.p11_lines.specs.Calls.Writing.{Puts};

use crate::devices::due_name;
use crate::output::{Broken, Table, put, put_all, put_spaced};
use crate::sink::Sink;
use crate::text::access_name;
use itoa::Buffer;
use p11_unibus::{DiskRegisters, DriveShown};

/// Puts a number after its name.
fn put_numbered<W: Sink>(
    writer: &mut W,
    table: &mut Table,
    name: &[u8],
    number: usize,
) -> Result<(), Broken>
    ensures { Puts (W.state writer.old) table.old.items (name.now ++ decimal number)
        (W.state writer.new) table.new.items result }
{
    let mut buffer = Buffer::new();
    put_all(writer, table, &[name, buffer.format(number).as_bytes()])
}

#[tactic(auto, unfolding(crate::specs::AnswerText::disk_due_text))]
fn put_disk_due<W: Sink>(writer: &mut W, table: &mut Table, due: Option<u64>) -> Result<(), Broken>
    ensures { Puts (W.state writer.old) table.old.items (disk_due_text due)
        (W.state writer.new) table.new.items result }
{
    put_all(writer, table, &[b" due ", due_name(due).as_slice(), b"\n"])
}

pub(crate) fn put_disk<W: Sink>(
    writer: &mut W,
    table: &mut Table,
    disk: &DiskRegisters,
) -> Result<(), Broken>
    ensures { Puts (W.state writer.old) table.old.items (disk_text disk.now)
        (W.state writer.new) table.new.items result }
{
    let registers = [
        disk.drive_status,
        disk.error,
        disk.control_status,
        disk.word_count,
        disk.bus_address,
        disk.disk_address,
    ];
    put(writer, table, b"RK11")?;
    put_spaced(writer, table, &registers)?;
    put_disk_due(writer, table, disk.transfer_due)
}

/// Puts what a drive with a pack shows.
#[tactic(auto, unfolding(crate::specs::AnswerText::pack_text))]
fn put_pack<W: Sink>(writer: &mut W, table: &mut Table, drive: &DriveShown) -> Result<(), Broken>
    ensures { Puts (W.state writer.old) table.old.items (pack_text drive.now)
        (W.state writer.new) table.new.items result }
{
    let mut cylinder = Buffer::new();
    let cylinder = cylinder.format(drive.cylinder).as_bytes();
    let mut changed = Buffer::new();
    let changed = changed.format(drive.changed).as_bytes();
    let due = due_name(drive.due);
    put_all(
        writer,
        table,
        &[
            b" ",
            access_name(drive.protected).as_bytes(),
            b" cylinder ",
            cylinder,
            b" changed ",
            changed,
            b" due ",
            due.as_slice(),
            b"\n",
        ],
    )
}

/// Puts the line of a drive with a pack.
fn put_mounted<W: Sink>(
    writer: &mut W,
    table: &mut Table,
    number: usize,
    drive: &DriveShown,
) -> Result<(), Broken>
    ensures { Puts (W.state writer.old) table.old.items (codes "DRIVE " ++ decimal number ++ pack_text drive.now)
        (W.state writer.new) table.new.items result }
{
    put_numbered(writer, table, b"DRIVE ", number)?;
    put_pack(writer, table, drive)
}

#[tactic(auto, unfolding(crate::specs::AnswerText::drive_text))]
fn put_drive<W: Sink>(
    writer: &mut W,
    table: &mut Table,
    number: usize,
    drive: &Option<DriveShown>,
) -> Result<(), Broken>
    ensures { Puts (W.state writer.old) table.old.items (drive_text number drive.now)
        (W.state writer.new) table.new.items result }
{
    match drive {
        Some(shown) => put_mounted(writer, table, number, shown),
        None => {
            let mut buffer = Buffer::new();
            let number = buffer.format(number).as_bytes();
            put_all(writer, table, &[b"DRIVE ", number, b" empty\n"])
        }
    }
}

/// Puts a line for each drive.
pub(crate) fn put_drives<W: Sink>(
    writer: &mut W,
    table: &mut Table,
    drives: &[Option<DriveShown>],
) -> Result<(), Broken>
    ensures { Puts (W.state writer.old) table.old.items (drives_text 0 drives.now)
        (W.state writer.new) table.new.items result }
{
    for number in 0..drives.len() {
        put_drive(writer, table, number, &drives[number])?;
    }
    Ok(())
}

/// Puts a space and a number.
fn put_number<W: Sink>(writer: &mut W, table: &mut Table, number: u16) -> Result<(), Broken>
    ensures { Puts (W.state writer.old) table.old.items (codes " " ++ decimal number)
        (W.state writer.new) table.new.items result }
{
    put_numbered(writer, table, b" ", usize::from(number))
}

fn put_numbers<W: Sink>(writer: &mut W, table: &mut Table, numbers: &[u16]) -> Result<(), Broken>
    ensures { Puts (W.state writer.old) table.old.items (numbers_text numbers.now)
        (W.state writer.new) table.new.items result }
{
    for number in numbers {
        put_number(writer, table, *number)?;
    }
    Ok(())
}

/// Puts the line of the sectors that were written.
pub(crate) fn put_sectors<W: Sink>(
    writer: &mut W,
    table: &mut Table,
    sectors: &[u16],
) -> Result<(), Broken>
    ensures { Puts (W.state writer.old) table.old.items (sectors_text sectors.now)
        (W.state writer.new) table.new.items result }
{
    put_numbered(writer, table, b"CHANGED ", sectors.len())?;
    put_numbers(writer, table, sectors)?;
    put(writer, table, b"\n")
}
