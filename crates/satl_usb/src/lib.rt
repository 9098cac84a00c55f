//! A USB disk bridge: commands on the wire of Bulk-Only Transport are carried out by the layer over a drive, and answered
//! there.
#![tactic(auto)]

mod answering;
mod bridge;
mod fault;
mod items;
mod serving;
mod telling;
mod wire;

pub use bridge::serve_usb;
pub use fault::UsbFault;
