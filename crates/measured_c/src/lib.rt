// The measured script as an export of a static library: the benchmark's C program calls it.
#![tactic(auto)]

// Runs the script with this much fuel, at most so many steps, and gives the steps made.
#[unsafe(no_mangle)]
pub extern "C" fn tuzsompa_counting_steps(fuel: u32, steps: u32) -> u32 {
    measured::tuzsompa_counting_steps(fuel, steps)
}
