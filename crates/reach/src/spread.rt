// Warshall's way to all chains: after the step of k, each row holds the segments with a chain through segments up to k.
ghost use Rattle.std.specs.Prelude.{◌≤◌, ◌<◌, ◌≡◌, cond, length};
ghost use Rattle.bits.specs.Masks.{has};
ghost use Rattle.reach.specs.Spread.{spread_to, spread_up};

// What a row takes over from row k: all of it where k stands in the row, else nothing.
fn taken(row: u32, k: u8, through: u32) -> u32
    requires { k < 32 }
    ensures { result ≡ cond (has row k) through 0 }
{
    if (row >> k) % 2 == 1 { through } else { 0 }
}

// The step of k, in place: row k takes over itself alone, so it is the same for the rows before it and after it. All rows of the
// array: those past the last segment are 0 and stay 0. No branch but the loop's, and none left where the compiler knows the
// array's length: it then takes four rows at once.
fn spread(rows: &mut [u32], k: u8)
    requires mask { k < 32 }
    requires there { k < length rows.old }
    ensures { rows.new ≡ spread_to rows.old k (length rows.old) }
{
    let through = rows[usize::from(k)];
    for row in rows.iter_mut() {
        *row |= taken(*row, k, through);
    }
}

pub(crate) fn spread_all(rows: &mut [u32], segments: u8)
    requires masks { segments ≤ 32 }
    requires there { segments ≤ length rows.old }
    ensures { rows.new ≡ spread_up rows.old segments }
{
    for k in 0..segments {
        spread(rows, k);
    }
}
