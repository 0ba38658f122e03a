// What each line of a table comes to.
ghost use Rattle.std.specs.Prelude.{◌≡◌, true, [], None};
ghost use Rattle.tables.specs.Desks.{Answers, Replied, told_of};
ghost use Rattle.tables.specs.Ready.{Ready, complete};
ghost use Rattle.tables.specs.declared.parts.Part.TheVariants.{Row};
ghost use Rattle.tables.specs.Tables.{allowed, seen_in};

use crate::Desk;
use crate::errors::BadText;
use crate::headings::Heading;
use crate::parts::Part;
use settings::{Setting, SettingRefusal};
use std::alloc::Global;
use std::mem;
use unfolding::{UnfoldRefusal, Unfolding, unfold};

/// What a line comes to: nothing to tell, a refused setting, or what its row unfolds to.
// Named, since `Option<Result<Result<Unfolding, UnfoldRefusal>, SettingRefusal>>` would tell the two refusals apart by their places.
#[derive(Clone, Copy)]
pub enum Reply {
    Nothing,
    Refused(SettingRefusal),
    Row(Result<Unfolding, UnfoldRefusal>),
}

/// The setting of a table, once both heading lines are there.
fn made(heading: &Heading, moduli: &[u32]) -> Option<Result<Setting, SettingRefusal>>
    ensures { Ready heading.now moduli.now result }
{
    heading.is_complete().then(|| Setting::from_moduli(moduli))
}

/// What a heading line comes to after which the setting is this.
fn told(setting: Option<Result<Setting, SettingRefusal>>) -> Reply
    ensures { result ≡ told_of setting }
{
    match setting {
        Some(Err(refusal)) => Reply::Refused(refusal),
        Some(Ok(_)) | None => Reply::Nothing,
    }
}

impl Desk {
    /// Before the first line.
    pub fn new(heap: Global) -> Desk
        ensures heading { result.heading ≡ seen_in [] }
        ensures moduli { result.moduli.items ≡ [] }
        ensures bounds { result.bounds.items ≡ [] }
        ensures setting { result.setting ≡ None }
    {
        Desk {
            heading: Heading::new(),
            numbers: Vec::new(heap),
            moduli: Vec::new(heap),
            bounds: Vec::new(heap),
            setting: None,
        }
    }

    /// What the next line comes to. With bad text, or with no room for the numbers, the table stays as it was.
    pub fn line(&mut self, text: &[u8]) -> Result<Reply, BadText>
        ensures { Replied self.old text.now result self.new }
    {
        match self.heading.line(text, &mut self.numbers)? {
            Part::Passed | Part::Note => return Ok(Reply::Nothing),
            Part::Row => return Ok(self.row()),
            Part::Moduli => mem::swap(&mut self.moduli, &mut self.numbers),
            Part::Bounds => mem::swap(&mut self.bounds, &mut self.numbers),
        }
        self.setting = made(&self.heading, &self.moduli);
        Ok(told(self.setting))
    }

    /// What a row of these numbers comes to.
    fn row(&self) -> Reply
        requires { complete self.now.heading ≡ true }
        ensures { Answers self.now.setting self.now.bounds.items self.now.numbers.items result }
    {
        match self.setting {
            None => unreachable(),
            Some(Err(refusal)) => Reply::Refused(refusal),
            Some(Ok(setting)) => Reply::Row(unfold(&setting, &self.numbers, &self.bounds)),
        }
    }

    /// What is wrong with a table that ends here, if anything is.
    pub fn end(&self) -> Result<(), BadText>
        ensures { result ≡ allowed self.now.heading Row }
    {
        self.heading.end()
    }
}
