// The lent buffers: records of dead positions in the area, and the table's first bytes.
ghost use Rattle.std.specs.Prelude.{◌≡◌, ◌∷◌, ◌++◌, ◌+◌, ◌*◌, ◌≤◌, length, take, drop, replicate};
ghost use Rattle.rules.specs.Lists.{same_list};
ghost use Rattle.planner.specs.Area.{among};

use tasks::IDLE;

#[tactic(auto, using(crate::proofs::Records::alike))]
// Whether the record at a place of the area is that of a slot and n tasks' progress.
// (Number by number: `==` of slices calls a function for each record of the slot, and takes 1.6 times the instructions.)
fn same_record(area: &[u16], at: usize, n: usize, slot: u16, progress: &[u16; 8]) -> bool
    requires { (n ≤ 8) × (at + (n + 1) ≤ length area.now) }
    ensures { result ≡ same_list (slot ∷ take n progress.now) (take (n + 1) (drop at area.now)) }
{
    if area[at] != slot {
        return false;
    }
    for j in 0..n {
        if area[at + 1 + j] != progress[j] {
            return false;
        }
    }
    true
}

#[tactic(auto, using(crate::proofs::Records::left_laws))]
// Whether the record of a slot and n tasks' progress is among the first `recorded` of the area, from the newest to the oldest.
// (The array with n, here and below: as a slice of it or a `Position` planning takes up to a tenth longer on short tables, and misses its bar. The
// area is lent and written by turns, so it goes beside its number of records.)
pub(crate) fn seen(area: &[u16], recorded: usize, n: usize, slot: u16, progress: &[u16; 8]) -> bool
    requires { (n ≤ 8) × (recorded * (n + 1) ≤ length area.now) }
    ensures { result ≡ among (n + 1) area.now (slot ∷ take n progress.now) recorded }
{
    // (No `any`: what `rev` and `any` answer stays open.)
    for k in (0..recorded).rev() {
        if same_record(area, k * (n + 1), n, slot, progress) {
            return true;
        }
    }
    false
}

// The record of a slot and n tasks' progress, put behind the first `recorded` of the area.
pub(crate) fn put(area: &mut [u16], recorded: usize, n: usize, slot: u16, progress: &[u16; 8])
    requires { (n ≤ 8) × ((recorded + 1) * (n + 1) ≤ length area.old) }
    ensures { area.new ≡ take (recorded * (n + 1)) area.old ++ ((slot ∷ take n progress.now) ++ drop ((recorded + 1) * (n + 1)) area.old) }
{
    let at = recorded * (n + 1);
    area[at] = slot;
    area[at + 1..at + 1 + n].copy_from_slice(&progress[..n]);
}

// Idle in the first h bytes of the table.
pub(crate) fn fill(table: &mut [u8], h: usize)
    requires { h ≤ length table.old }
    ensures { table.new ≡ replicate h 255 ++ drop h table.old }
{
    table[..h].fill(IDLE);
}
