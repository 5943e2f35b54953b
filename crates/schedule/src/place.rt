// A place of the schedule: whether it is one, and where ticks of its slot lead.
ghost use Rattle.std.specs.Prelude.{◌≡◌, ◌&&◌, ◌-◌, ◌≤◌, ◌<◌, ltb, get_or};
ghost use Rattle.schedule.specs.Places.{slot_after, place_with};

use machine::Place;
use octets::entry_or;

// Whether refusal 13 lets the place pass.
pub fn is_place(ticks: &[u16], slots: u8, place: Place) -> bool
    ensures { result ≡ (ltb place.slot slots && ltb place.used (get_or ticks.now place.slot 0)) }
{
    let there = place.slot < slots as u32;
    let left = place.used < entry_or(ticks, place.slot as usize, 0) as u32;
    there & left
}

// A slot, and how many of its ticks are left. A Run keeps these in place of the ticks used, which it would have to keep beside
// those left.
#[derive(Clone, Copy)]
pub struct Turn {
    pub slot: u32,
    pub left: u32,
}

// The turn at a place.
pub fn turn_at<'a>(ticks: &'a [u16], place: Place) -> Turn
    requires { place.used ≤ get_or ticks.now place.slot 0 }
    ensures { result ≡ record { slot = place.slot; left = get_or ticks.now place.slot 0 - place.used } }
{
    let slot = place.slot;
    let whole = entry_or(ticks, slot as usize, 0) as u32;
    Turn {
        slot,
        left: whole - place.used,
    }
}

// The turn of the slot after one, which has all its ticks left.
pub fn next_turn<'a>(ticks: &'a [u16], slots: u8, slot: u32) -> Turn
    requires { slot < slots }
    ensures { result ≡ record { slot = slot_after slots slot; left = get_or ticks.now (slot_after slots slot) 0 } }
{
    let next = slot + 1;
    if next < slots as u32 {
        return Turn {
            slot: next,
            left: entry_or(ticks, next as usize, 0) as u32,
        };
    }
    Turn {
        slot: 0,
        left: entry_or(ticks, 0, 0) as u32,
    }
}

// The place in a slot that has so many of its ticks left.
pub fn place_with<'a>(ticks: &'a [u16], slot: u32, left: u32, count: u32) -> Place
    requires { left ≤ get_or ticks.now slot 0 }
    ensures { result ≡ place_with ticks.now slot left count }
{
    let whole = entry_or(ticks, slot as usize, 0) as u32;
    Place {
        slot,
        used: whole - left,
        count,
    }
}
