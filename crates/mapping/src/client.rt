ghost use Rattle.std.specs.Prelude.{◌≡◌, ℕ, ◌+◌, ◌^◌, ◌<◌, ◌≤◌};
ghost use Rattle.mapping.specs.Leaves.{Emptied};

use crate::hardware::MappingHardware;
use blocks::number::ObjectPage;

// Clears every leaf of an object, from its lowest page up, and asks before each clear. A step is as long as the leaf there:
// a page of a leaf that was just cleared is not asked for.
pub fn clear_object<H: MappingHardware>(hardware: &mut H, object: u8)
    ensures { Emptied (H.MappingHardware.at hardware.old) (H.MappingHardware.at hardware.new) object }
{
    let mut number = 0;
    while number < 1024 {
        let page = ObjectPage::new(object, number);
        if let Some(leaf) = hardware.leaf(page) {
            let _ = hardware.clear(page);
            number = leaf.end().0;
        } else {
            number += 1;
        }
    }
}
