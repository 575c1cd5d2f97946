// A start and a tick on byte strings: each string is read once and written once, and a refusal changes no lent byte.
ghost use Rattle.std.specs.Prelude.{◌≡◌, ◌↔◌, ◌++◌, ◌≤◌, ◌<◌, ℕ, true, None, IfOk, IsSome, IfSome, drop, length, slice_index, slice_index_or};
ghost use Rattle.player.specs.Bytes.{state_bytes, state_at, readable};
ghost use Rattle.player.specs.Boundary.{start_call, start_number, start_buffer, tick_call, tick_number, tick_buffer, tick_faults, start_told, tick_told};
ghost use Rattle.player.specs.Views.{IsTask, fault_number, state_of};

use crate::codec::{STATE_SIZE, set_from_bytes};
use crate::{Cause, State, start};
use tasks::Refusal;

// A state, put at the start of a string that has room for it.
fn put_state(state: &State, out: &mut [u8])
    requires { 140 ≤ length out.old }
    ensures { out.new ≡ state_bytes (state_of state.now) ++ drop 140 out.old }
{
    out[..STATE_SIZE].copy_from_slice(&state.to_bytes());
}

// ── a start ─────────────────────────────────────────────────────────────────

// A start: the state is put at the start of `state`. 5 for a string that isn't a set's, and, behind the refusals of a start, 8 for a buffer
// that is too short.
pub fn start_string(set: &[u8], table: &[u8], state: &mut [u8]) -> Result<(), Refusal>
    ensures number { start_told result ≡ start_number (start_call set.now table.now state.old) }
    ensures buffer { state.new ≡ start_buffer (start_call set.now table.now state.old) state.old }
{
    let Ok(set) = set.try_into() else {
        return Err(Refusal::TaskCount);
    };
    let fresh = start(&set_from_bytes(set), table)?;
    if state.len() < STATE_SIZE {
        return Err(Refusal::ShortBuffer);
    }
    put_state(&fresh, state);
    Ok(())
}

// ── a tick ──────────────────────────────────────────────────────────────────

#[tactic(auto, using(crate::proofs::Codes::short))]
// The state that a string holds; none for a string of another length, or with a byte that stands for no standing.
fn state_in(bytes: &[u8]) -> Option<State>
    ensures readable { IsSome result ↔ (readable bytes.now ≡ true) }
    ensures value { IfSome result (λ state. state_of state ≡ state_at bytes.now) }
{
    let Ok(bytes) = bytes.try_into() else {
        return None;
    };
    State::from_bytes(bytes)
}

// The fault byte of a task: 0 for none.
fn fault_byte(fault: Option<Cause>) -> u8
    ensures { result ≡ fault_number fault }
{
    match fault {
        Some(cause) => cause.into(),
        None => 0,
    }
}

// The fault bytes of all tasks.
fn fault_bytes(faults: [Option<Cause>; 8]) -> [u8; 8]
    ensures { (k : ℕ) → k < 8 → slice_index result k ≡ fault_number (slice_index_or faults k None) }
{
    faults.map(|fault| fault_byte(fault))
}

// A tick: it gives who runs. The new state is put at the start of `next`, and a fault byte for each task at the start of `faults`. 10 for a
// string that holds no state, and, behind the refusals of a tick, 8 for a buffer that is too short.
pub fn tick_string(
    state: &[u8],
    table: &[u8],
    reports: &[u8],
    next: &mut [u8],
    faults: &mut [u8],
) -> Result<Option<u8>, Refusal>
    ensures number { tick_told result ≡ tick_number (tick_call state.now table.now reports.now next.old faults.old) }
    ensures buffer { next.new ≡ tick_buffer (tick_call state.now table.now reports.now next.old faults.old) next.old }
    ensures shown { faults.new ≡ tick_faults (tick_call state.now table.now reports.now next.old faults.old) faults.old }
    ensures task { IfOk result IsTask }
{
    let Some(mut held) = state_in(state) else {
        return Err(Refusal::BadState);
    };
    let n = held.set.used().len();
    let told = held.follow(table, reports)?;
    if next.len() < STATE_SIZE || faults.len() < n {
        return Err(Refusal::ShortBuffer);
    }
    put_state(&held, next);
    let shown = fault_bytes(told.faults);
    faults[..n].copy_from_slice(&shown[..n]);
    Ok(told.runner)
}
