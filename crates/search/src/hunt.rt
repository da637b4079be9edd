// What a search hunts for, and its limits. All numbers are small enough that the sums of the search fit.

ghost use Rattle.std.specs.Prelude.{◌≡◌, true, ◌≤◌};
ghost use Rattle.chart.specs.Places.{in_range};
ghost use Rattle.chart.specs.Factors.{is_factor};
ghost use Rattle.search.specs.Questions.{most_reading, most_tolerance};

use chart::Place;

// A slave and the reading that is wanted for it, split into how far it is above 0 and how far below: so the sums of the search are of
// unsigned numbers, and need no cast.
#[derive(Clone, Copy)]
pub struct Wish {
    pub slave: Place,
    pub above: u64,
    pub below: u64,
    pub ghost on_grid: { in_range slave ≡ true },
    pub ghost above_small: { above ≤ most_reading },
    pub ghost below_small: { below ≤ most_reading },
}

// What a walk uses at every visit. It stays the same during the walk. That the list has the room is no ghost field: the list is lent
// anew to each visit, and a struct that held it would be built again each time.
#[derive(Clone, Copy)]
pub struct Hunt {
    pub factor: u64,
    pub master: Place,
    pub a: Wish,
    pub b: Wish,
    pub tolerance: u64,
    pub allowance: u64,
    pub room: usize,
    pub ghost allowed: { is_factor factor ≡ true },
    pub ghost master_on_grid: { in_range master ≡ true },
    pub ghost tolerable: { tolerance ≤ most_tolerance },
}
