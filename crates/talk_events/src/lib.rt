//! Which events an item brings: stops, and news of breakpoints and threads.
#![tactic(auto)]

mod hits;
mod news;
mod stops;
mod strikes;

pub use news::{news_told, told_news};
pub use stops::{decided, judged};
