//! What the machine has.
use std::fs;
use std::str::FromStr;

/// The bytes of memory that the machine has, if the system says it.
pub fn machine_memory(host: &HostRuntime) -> Option<u64> {
    let text = fs::read_to_string(host, "/proc/meminfo").ok()?;
    let line = text.lines().find(|line| line.starts_with("MemTotal:"))?;
    let number = line.split_whitespace().nth(1)?;
    u64::from_str(number).ok()?.checked_mul(1024)
}

/// How many descriptors the process may have open, if the system says it, and there is a bound.
pub fn most_descriptors(host: &HostRuntime) -> Option<u32> {
    let text = fs::read_to_string(host, "/proc/self/limits").ok()?;
    let line = text
        .lines()
        .find(|line| line.starts_with("Max open files"))?;
    u32::from_str(line.split_whitespace().nth(3)?).ok()
}
