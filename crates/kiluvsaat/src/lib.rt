// Kiluvsaat at its boundary: the functions that C and Rust call, on byte strings and lent buffers. A refusal changes no lent byte.
#![tactic(auto)]

pub mod prepare;

ghost use Rattle.std.specs.Prelude.{◌≡◌};
ghost use Rattle.player.specs.Boundary.{start_call, start_number, start_buffer, tick_call, tick_number, tick_buffer, tick_faults};

use player::strings::{start_string, tick_string};
use tasks::IDLE;

// A start: the refusal, or 0 with the state at the start of `state`.
#[unsafe(no_mangle)]
pub extern "C" fn kiluvsaat_start(set: &[u8], table: &[u8], state: &mut [u8]) -> u8
    ensures number { result ≡ start_number (start_call set.now table.now state.old) }
    ensures buffer { state.new ≡ start_buffer (start_call set.now table.now state.old) state.old }
{
    match start_string(set, table, state) {
        Ok(()) => 0,
        Err(refusal) => refusal.into(),
    }
}

// A tick: the refusal in the high byte and the runner in the low byte. The new state is put at the start of `next`, and a fault byte for
// each task at the start of `faults`.
#[tactic(auto, unfolding(rules::specs::Positions::idle))]
#[unsafe(no_mangle)]
pub extern "C" fn kiluvsaat_tick(
    state: &[u8],
    table: &[u8],
    reports: &[u8],
    next: &mut [u8],
    faults: &mut [u8],
) -> u16
    ensures number { result ≡ tick_number (tick_call state.now table.now reports.now next.old faults.old) }
    ensures buffer { next.new ≡ tick_buffer (tick_call state.now table.now reports.now next.old faults.old) next.old }
    ensures shown { faults.new ≡ tick_faults (tick_call state.now table.now reports.now next.old faults.old) faults.old }
{
    match tick_string(state, table, reports, next, faults) {
        Ok(runner) => u16::from(runner.unwrap_or(IDLE)),
        Err(refusal) => u16::from_be_bytes([refusal.into(), IDLE]),
    }
}

// The version of these functions and of their byte strings.
#[unsafe(no_mangle)]
pub extern "C" fn kiluvsaat_version() -> u32
    ensures { result ≡ 1 }
{
    1
}
