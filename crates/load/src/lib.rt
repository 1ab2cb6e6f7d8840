// Texts loaded: every reason to refuse what is handed in before a verdict, in its order.
#![tactic(auto)]

pub mod loaded;
pub mod loading;
mod offer;
pub mod request;
pub mod room;
mod task;
