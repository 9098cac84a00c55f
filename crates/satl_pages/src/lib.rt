//! A pool of pages that loses none, and the slots through which a drive reaches pages.
#![tactic(auto)]

mod dma;
mod pool;
mod stock;

pub use dma::Dma;
pub use pool::Pool;
