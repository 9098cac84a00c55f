//! Replays whose bytes are known, as tests of the top call over the modelled drive of 8,192 sectors.
#![tactic(auto)]

#[cfg(test)]
mod at_once;
#[cfg(test)]
mod ata_commands;
#[cfg(test)]
mod changed_drives;
#[cfg(test)]
mod fleet;
#[cfg(test)]
mod frames;
#[cfg(test)]
mod lost_links;
#[cfg(test)]
mod medium_rows;
#[cfg(test)]
mod outstanding;
#[cfg(test)]
mod pass_rows;
#[cfg(test)]
mod queue;
#[cfg(test)]
mod records;
#[cfg(test)]
mod replaying;
#[cfg(test)]
mod rows;
#[cfg(test)]
mod spelled;
#[cfg(test)]
mod streams;
#[cfg(test)]
mod tests;
#[cfg(test)]
mod totals;
#[cfg(test)]
mod usb;
#[cfg(test)]
mod watched;
#[cfg(test)]
mod words;
