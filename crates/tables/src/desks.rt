// A table at the desk: what was read of it so far, with the setting that its rows are unfolded with.
ghost use Rattle.std.specs.Prelude.{◌≡◌, is_some};
ghost use Rattle.tables.specs.Ready.{MadeFrom, complete};

use crate::headings::Heading;
use settings::{Setting, SettingRefusal};

/// A table as it is read. The setting is made from the moduli once both heading lines are there.
#[derive(Drop)]
pub struct Desk {
    pub(crate) heading: Heading,
    pub(crate) numbers: Vec<u32>,
    // Moduli and bounds are two lists, since they stand in two lines, either of which may come first.
    pub(crate) moduli: Vec<u32>,
    pub(crate) bounds: Vec<u32>,
    pub(crate) setting: Option<Result<Setting, SettingRefusal>>,
    ghost made_when: { is_some setting ≡ complete heading },
    ghost made_from: { ∥ MadeFrom moduli.items setting ∥₁ },
}
