// What each drive held when it was last saved, and which have sectors that no file has.
ghost use Rattle.std.specs.Prelude.{◌≡◌, ◌<◌, None, Some, replicate, slice_index_or, slice_set, not, nat_lt, IfOk, option_copied};
ghost use Rattle.p11_console.specs.Saved.{is_image, is_unsaved, loses_sectors, unsaved_image, any_unsaved, all_drives, saved_by};

use p11_dialogue::Text;
use p11_lines::{Answer, Bytes, Fault, Line, NoMemory};
use p11_panel::{Command, Panel};
use std::alloc::Allocator;
use std::marker::Model;

/// Leaves what a drive held in place of what it held before.
fn leave<A: Allocator>(place: &mut Option<Bytes<A>>, image: Bytes<A>)
    ensures { place.new ≡ Some image }
{
    *place = Some(image);
}

/// What each drive held when it was last saved, if it was.
pub(crate) struct Packs<A: Allocator> {
    first: Option<Bytes<A>>,
    second: Option<Bytes<A>>,
    third: Option<Bytes<A>>,
    fourth: Option<Bytes<A>>,
    fifth: Option<Bytes<A>>,
    sixth: Option<Bytes<A>>,
    seventh: Option<Bytes<A>>,
    eighth: Option<Bytes<A>>,
}

impl<A: Allocator> Drop for Packs<A> {
    fn drop(self) {
        let Packs {
            first: _,
            second: _,
            third: _,
            fourth: _,
            fifth: _,
            sixth: _,
            seventh: _,
            eighth: _,
        } = self;
    }
}

impl<A: Allocator> Model for Packs<A> {
    ghost use Rattle.std.specs.Prelude.{List, Option, ℕ, ◌∷◌, []};

    ghost Value = { List (Option (List ℕ)) };

    ghost view = { λ p. p.first ∷ p.second ∷ p.third ∷ p.fourth ∷ p.fifth ∷ p.sixth ∷ p.seventh ∷ p.eighth ∷ [] };
}

impl<A: Allocator> Packs<A> {
    /// None was saved.
    pub(crate) fn new() -> Self
        ensures { result ≡ replicate 8 None }
    {
        Packs {
            first: None,
            second: None,
            third: None,
            fourth: None,
            fifth: None,
            sixth: None,
            seventh: None,
            eighth: None,
        }
    }

    /// What drive `n` held.
    fn at(&self, n: u32) -> &Option<Bytes<A>>
        requires { n < 8 }
        ensures { result.now ≡ slice_index_or self.now n None }
    {
        match n {
            0 => &self.first,
            1 => &self.second,
            2 => &self.third,
            3 => &self.fourth,
            4 => &self.fifth,
            5 => &self.sixth,
            6 => &self.seventh,
            _ => &self.eighth,
        }
    }

    /// Drive `n` holds this.
    fn put(&mut self, n: u32, image: Bytes<A>)
        requires { n < 8 }
        ensures { self.new ≡ slice_set self.old n (Some image) }
    {
        match n {
            0 => leave(&mut self.first, image),
            1 => leave(&mut self.second, image),
            2 => leave(&mut self.third, image),
            3 => leave(&mut self.fourth, image),
            4 => leave(&mut self.fifth, image),
            5 => leave(&mut self.sixth, image),
            6 => leave(&mut self.seventh, image),
            _ => leave(&mut self.eighth, image),
        }
    }

    /// A SAVE is done, of this image.
    #[tactic(auto, unfolding(crate::specs::Saved::saved_by))]
    pub(crate) fn note(&mut self, line: &Line<A>, image: Bytes<A>)
        ensures { self.new ≡ saved_by line.now image self.old }
    {
        if let Line::Save { drive, .. } = line {
            let drive = *drive;
            if drive < 8 {
                self.put(drive, image);
            }
        }
    }
}

const DRIVES: [u32; 8] = [0, 1, 2, 3, 4, 5, 6, 7];

/// Whether an image is the one that was saved.
fn is_image<A: Allocator>(image: &[u8], saved: &Option<Bytes<A>>) -> bool
    ensures { result ≡ is_image image.now saved.now }
{
    match saved {
        Some(saved) => image == saved.as_slice(),
        None => false,
    }
}

/// Whether the pack on a drive has sectors that no file has. Nothing changes.
#[tactic(auto, unfolding(crate::specs::Saved::is_unsaved))]
fn is_unsaved<A: Allocator + Copy>(
    alloc: A,
    panel: &mut Panel<A>,
    saved: &Packs<A>,
    drive: u32,
) -> Result<bool, NoMemory>
    requires { drive < 8 }
    ensures is { IfOk result (λ is. is ≡ is_unsaved panel.old saved.now drive) }
    ensures same { panel.new ≡ panel.old }
{
    match panel.act(alloc, &Command::Changed { drive }) {
        Answer::Sectors(numbers) => {
            if numbers.as_slice().is_empty() {
                return Ok(false);
            }
        }
        Answer::Refused(Fault::NoMemory) => return Err(NoMemory),
        _ => return Ok(false),
    }
    match panel.act(alloc, &Command::Save { drive }) {
        Answer::Image(image) => Ok(!is_image(image.as_slice(), saved.at(drive))),
        Answer::Refused(Fault::NoMemory) => Err(NoMemory),
        _ => Ok(false),
    }
}

/// Whether a drive, if there is one of that number, has a pack with sectors that no file has. Nothing changes.
pub(crate) fn loses_sectors<A: Allocator + Copy>(
    alloc: A,
    panel: &mut Panel<A>,
    saved: &Packs<A>,
    drive: u32,
) -> Result<bool, NoMemory>
    ensures is { IfOk result (λ is. is ≡ loses_sectors panel.old saved.now drive) }
    ensures same { panel.new ≡ panel.old }
{
    if drive >= 8 {
        return Ok(false);
    }
    is_unsaved(alloc, panel, saved, drive)
}

/// The image of the pack on a drive, where it has sectors that no file has. Nothing changes.
#[tactic(auto, unfolding(crate::specs::Saved::unsaved_image, crate::specs::Saved::is_unsaved, p11_rk11::specs::State::drive_of))]
pub(crate) fn unsaved_image<A: Allocator + Copy>(
    alloc: A,
    panel: &mut Panel<A>,
    saved: &Packs<A>,
    drive: u32,
) -> Result<Option<Bytes<A>>, NoMemory>
    ensures is { IfOk result (λ image. image ≡ unsaved_image panel.old saved.now drive) }
    ensures same { panel.new ≡ panel.old }
{
    if drive >= 8 || !is_unsaved(alloc, panel, saved, drive)? {
        return Ok(None);
    }
    match panel.act(alloc, &Command::Save { drive }) {
        Answer::Image(image) => Ok(Some(image)),
        Answer::Refused(Fault::NoMemory) => Err(NoMemory),
        _ => Ok(None),
    }
}

/// Whether a drive of these has sectors that no file has; each that has is told. Nothing changes.
#[tactic(auto, unfolding(crate::specs::Saved::any_unsaved, crate::specs::Saved::is_unsaved, p11_rk11::specs::State::drive_of))]
fn any_unsaved_of<A: Allocator + Copy>(
    alloc: A,
    panel: &mut Panel<A>,
    saved: &Packs<A>,
    drives: &[u32],
    said: &mut Text<A>,
) -> Result<bool, NoMemory>
    ensures is { IfOk result (λ is. is ≡ any_unsaved panel.old saved.now drives.now) }
    ensures same { panel.new ≡ panel.old }
{
    let mut found = false;
    let mut rest = drives;
    while let [drive, after @ ..] = rest {
        if *drive < 8 && is_unsaved(alloc, panel, saved, *drive)? {
            found = true;
            tell_unsaved(said, *drive);
        }
        rest = after;
    }
    Ok(found)
}

fn tell_unsaved<A: Allocator>(said: &mut Text<A>, drive: u32) {
    said.add(b"Drive ");
    said.add_number(u64::from(drive));
    said.add(b" has sectors that no file has: save writes them to one.\n");
}

/// Whether a drive has sectors that no file has; each that has is told. Nothing changes.
pub(crate) fn any_unsaved<A: Allocator + Copy>(
    alloc: A,
    panel: &mut Panel<A>,
    saved: &Packs<A>,
    said: &mut Text<A>,
) -> Result<bool, NoMemory>
    ensures is { IfOk result (λ is. is ≡ any_unsaved panel.old saved.now all_drives) }
    ensures same { panel.new ≡ panel.old }
{
    any_unsaved_of(alloc, panel, saved, &DRIVES, said)
}
